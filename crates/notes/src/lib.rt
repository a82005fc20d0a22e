// The crate has no code: specs/ holds the note rules on tables, proofs/ what follows from them.
#![tactic(auto)]
