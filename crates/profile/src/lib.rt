// Which banks, operators and totals are real: what the profile without reals leaves out (paper 02, request 12). The definitions stand with
// what they are said of and have their names here too; no code.
#![tactic(auto)]
