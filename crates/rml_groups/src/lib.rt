//! The group of a text: the rules of its relations that declare no type, which are typed together, on one graph. Whether they are,
//! of which types, and at which part they are not, are definitions of rml_typed; the equations of parts stand in rml_generator.
#![tactic(auto)]

mod equations;
mod extent;
mod general;
mod least;
mod members;
mod spots;
mod unit;
mod whole;

pub use general::Inferred;
pub use unit::{Unit, of_module};
pub use whole::{Found, types};
