// The two fields: definitions in specs/, laws in proofs/. No code.
#![tactic(auto)]
