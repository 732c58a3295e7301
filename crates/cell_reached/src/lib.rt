// What holds of every cell that a history leads to from a fresh one: definitions in specs/, theorems in proofs/;
// there is no code.
#![tactic(auto)]
