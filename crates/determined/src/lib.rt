// No code: the word that every crate's `proofs/Determined.antt` is written in.
#![tactic(auto)]
