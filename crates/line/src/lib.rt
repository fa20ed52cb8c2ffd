// Sixteen cabins on one line: definitions and their laws, and no code.

#![tactic(auto)]
