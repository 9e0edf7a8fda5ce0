// Demand 3, word for word, of the calls by their contracts: statements in specs/, proofs in proofs/. No code.
#![tactic(auto)]
