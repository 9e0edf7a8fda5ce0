// Mathematics over an abstract field: definitions in specs/, lemmas in proofs/. No code.
#![tactic(auto)]
