// The salvage of a spoiled file of cards (paper 02, request 7).
#![tactic(auto)]
