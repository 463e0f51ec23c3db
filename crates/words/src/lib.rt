// Tests and numbers of the definitions; no code.
#![tactic(auto)]
