// The written form of a script's lines: definitions in specs/, theorems in proofs/; there is no code.
#![tactic(auto)]
