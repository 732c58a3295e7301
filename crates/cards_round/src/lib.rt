// Cards that are read and written again: definitions in specs/, theorems in proofs/; there is no code.
#![tactic(auto)]
