//! The walk over the trees of texts, and the least of the module faults: code alone. What the faults are stands in rml_scopes; the trees
//! are looked at by one walk over each text, which goes through its steps and keeps the least fault that it has met.
#![tactic(auto)]

mod decls;
mod faults;
mod goals;
mod terms;
mod texts;
mod types;

pub use faults::least_fault;
