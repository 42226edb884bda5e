// Formatting a formula from its tree (paper 02, request 10): definitions, and the laws of one node.
#![tactic(auto)]
