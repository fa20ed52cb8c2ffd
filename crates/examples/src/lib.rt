// Examples of calls, and no code.

#![tactic(auto)]
