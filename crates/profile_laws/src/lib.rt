// The operations in the profile without reals (paper 02, request 12) are the full box's: theorems, no code.
#![tactic(auto)]
