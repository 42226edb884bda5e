// The code of formulas in the profile without reals (paper 02, request 12): the profile's check accepts it, and both machines do the same on it.
// Theorems, no code.
#![tactic(auto)]
