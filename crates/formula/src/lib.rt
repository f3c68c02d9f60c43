// Prenex formulas in negation normal form: what they mean and how they are solved, without bytes.
// This crate has definitions (specs/) and laws (proofs/), and no code.
#![tactic(auto)]
