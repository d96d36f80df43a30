//! From clauses to continuations: the lemmas of the pass, a clause a statement, and what holds of the lines that it makes. The pass itself
//! stands above.
#![tactic(auto)]

pub mod laws;
pub mod made;
mod pass;

pub use pass::Numbers;
