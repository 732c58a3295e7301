// The marked cases K1 to K9 of document 01 as one statement over a list: definitions in specs/, theorems in
// proofs/; there is no code.
#![tactic(auto)]
