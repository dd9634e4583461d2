// Demand 2: the message that a run of accepted writer calls leaves in the buffer reads back as the fields that were given. This crate has
// definitions (specs/) and laws (proofs/) only. The calls are those of writer_state, writer_put and writer_nesting.

#![tactic(auto)]
