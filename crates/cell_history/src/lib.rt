// Any sequence of calls on the cell, and what it is for the request lists: definitions in specs/, theorems in
// proofs/; there is no code.
#![tactic(auto)]
