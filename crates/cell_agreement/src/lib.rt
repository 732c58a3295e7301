// In every cell that a history leads to the schedule is sound and agrees with the job places: definitions in
// specs/, theorems in proofs/; there is no code.
#![tactic(auto)]
