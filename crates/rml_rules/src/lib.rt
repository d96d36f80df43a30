//! Rules of texts as rules of a program: each name has its number. What a name means is told by rml_scopes, its number by rml_values and
//! rml_named; here trees are made of trees, and a scope goes from part to part. It finds no faults: a name that means nothing has a number
//! that leads nowhere.
#![tactic(auto)]

mod bodies;
mod env;
mod goals;
pub mod laws;
mod names;
mod terms;

pub use bodies::{rules, val_value};
pub use env::Env;
