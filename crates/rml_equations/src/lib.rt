//! Type equations for the parts of a rule, on a graph of rml_types: how types stand there, and what the equations of a part do
//! to the finite types of a graph. When a part is typed is a definition of rml_typed.
#![tactic(auto)]

mod coding;
pub mod laws;
mod nodes;
mod rebuilding;
mod stop;

pub use coding::{Coding, coded};
pub use nodes::{chain, list, literal, relation, tuple};
pub use rebuilding::written;
pub use stop::Stop;
