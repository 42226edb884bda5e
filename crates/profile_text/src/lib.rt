// The texts that the profile without reals takes (paper 02, request 12): definitions and theorems, no code.
#![tactic(auto)]
