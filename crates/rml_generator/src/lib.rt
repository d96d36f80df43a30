//! The equations of the parts of a rule, on a graph of rml_types: each pattern and each expression has a node. What the equations
//! of a part do to the finite types of a graph is said by `specs/Adds.antt`; when a part is typed is a definition of rml_typed.
#![tactic(auto)]

mod expressions;
mod goals;
mod parts;
mod patterns;
mod scope;
mod wholes;

pub use expressions::expression;
pub use parts::{Side, first_parts};
pub use scope::{Group, Scope};
