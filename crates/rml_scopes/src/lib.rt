//! Names and scopes of texts: what a name means at its place, and which of the module faults stand where. A text is a list of steps, one
//! machine goes over them from scope to scope, and each row of the table of faults is a test of a step in its scope. It knows nothing of
//! how types compare, which it is told, and nothing of how the program looks that texts without faults make.
#![tactic(auto)]

mod fault;
mod meaning;
mod role;
mod scope;
mod sentences;
mod walk;
mod world;

pub use fault::{Found, ModFault, lesser};
pub use meaning::Meaning;
pub use role::{Role, Within};
pub use scope::Scope;
pub use walk::Walk;
pub use world::{TypeFacts, World};
