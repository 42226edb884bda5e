// The replay of a night's log (paper 02, request 13): definitions and theorems.
#![tactic(auto)]
