// The grades of small codes by trying every pair of messages, as the definition has it: statements and proofs, no code.
#![tactic(auto)]
