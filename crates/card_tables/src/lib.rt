// What reading a file of cards hands out (paper 02, request 6): theorems.
#![tactic(auto)]
