// Tests, lists and orders of no subject of ours: definitions and laws, no code.
#![tactic(auto)]
