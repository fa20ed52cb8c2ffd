// Examples of images and slips, byte by byte, and no code.

#![tactic(auto)]
