// The families of codes that no call serves yet, over the shape of crate code: definitions and statements in specs/, proofs in proofs/. No code.
#![tactic(auto)]
