// Everything that is claimed, in one place. All of it is in proofs/.

#![tactic(auto)]
