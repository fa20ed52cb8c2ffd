// Tests, counts, searches and chains over the numbers below a bound: definitions and their laws, and no code.

#![tactic(auto)]
