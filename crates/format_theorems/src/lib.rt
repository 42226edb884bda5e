// What formatting a formula promises (paper 02, request 10): the theorems.
#![tactic(auto)]
