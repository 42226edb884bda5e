// What the operations promise: definitions and theorems, no code.
#![tactic(auto)]
