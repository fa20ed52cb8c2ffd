// The image of a table: definitions and their laws, and no code.

#![tactic(auto)]
