// Histories of calls: definitions, their laws and the claims, and no code.

#![tactic(auto)]
