// The file of cards: its form, and what is promised of reading and writing it. Definitions and theorems, in specs/ and proofs/; the crate card_file has the
// code.
#![tactic(auto)]
