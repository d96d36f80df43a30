//! What the pass from clauses to continuations makes: that it fits.
#![tactic(auto)]

pub mod laws;
