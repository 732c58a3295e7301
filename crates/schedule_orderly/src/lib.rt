// What holds of every schedule that the calls build: definitions in specs/, theorems in proofs/; there is no code.
#![tactic(auto)]
