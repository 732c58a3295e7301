// The three demands of the people who asked, as theorems about the functions as their contracts give them:
// definitions in specs/, theorems in proofs/; there is no code.
#![tactic(auto)]
