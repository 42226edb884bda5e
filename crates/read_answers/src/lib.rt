// Nothing but the cells that it reads matters to the answer of an operation: definitions and theorems, no code.
#![tactic(auto)]
