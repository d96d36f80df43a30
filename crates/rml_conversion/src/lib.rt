//! From clauses to continuations: what the pass makes of a relation, as a definition, and that this carries it.
#![tactic(auto)]

pub mod laws;
