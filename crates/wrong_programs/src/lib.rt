// Proofs that the contracts of the public functions rule out wrong programs. This crate has definitions (specs/) and laws (proofs/) only.

#![tactic(auto)]
