// Formulas run one after the other, and when two of them may change places: definitions and theorems, no code.
#![tactic(auto)]
