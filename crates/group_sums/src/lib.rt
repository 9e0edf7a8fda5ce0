// Codewords over bytes of codes with whole groups, as sums of sums: proofs in proofs/. No code.
#![tactic(auto)]
