//! What the pass from clauses to continuations makes: that its blocks end.
#![tactic(auto)]

pub mod laws;
