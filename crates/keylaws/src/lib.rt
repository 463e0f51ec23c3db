// What a key is and the laws of keys, over any rules: definitions and proofs, no code.
#![tactic(auto)]
