// The demands are statements about the definitions of the crate format, and their proofs: there is no code here.
#![tactic(auto)]
