// Laws about the check of messages that need no code of their own: messages under a table with entries left out, and messages in which two
// adjacent fields are swapped. This crate has definitions (specs/) and laws (proofs/) only.

#![tactic(auto)]
