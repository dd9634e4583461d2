// Defines what an hproto message is, how it is read, and its shortest form. This crate has definitions (specs/) and laws (proofs/) only.

#![tactic(auto)]
