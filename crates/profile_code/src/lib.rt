// The check and the run of code in the profile without reals (paper 02, request 12): definitions and theorems, no code.
#![tactic(auto)]
