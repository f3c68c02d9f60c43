// Sheets: formulas as bytes, and every operation's answer and final bytes as functions of its inputs.
// This crate has definitions (specs/) and laws (proofs/), and no code.
#![tactic(auto)]
