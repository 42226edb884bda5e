// Which cells a formula reads, and that nothing else matters to it: definitions and theorems, no code.
#![tactic(auto)]
