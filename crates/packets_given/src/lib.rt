// That a live job holds exactly what it was given: definitions in specs/, theorems in proofs/; there is no code.
#![tactic(auto)]
