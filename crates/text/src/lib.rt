// Which texts are formulas, and the refusal of every other text with its place: definitions and theorems, in specs/ and proofs/. The crate compiler has the
// code.
#![tactic(auto)]
