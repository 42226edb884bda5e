// What the operations answer and leave on an old image and on the packed one that corresponds to it: definitions and theorems, in specs/ and proofs/.
#![tactic(auto)]
