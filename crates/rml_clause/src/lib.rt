//! From rules to clauses: the pass, what it is to make of a relation and what it says of it, and the law that lifts this to programs.
#![tactic(auto)]

pub mod laws;
mod pass;

pub use pass::{Clauses, bytes_of, clauses_of_relation, expression};
