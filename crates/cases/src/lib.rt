// What an example is, the test that it passes, and no code.

#![tactic(auto)]
