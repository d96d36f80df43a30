//! What the pass from clauses to continuations makes: that it is small.
#![tactic(auto)]

pub mod laws;
