// The written form of a configuration: definitions in specs/, theorems in proofs/; there is no code.
#![tactic(auto)]
