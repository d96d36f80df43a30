//! Programs without names and scopes: trees in which each variable, constructor, val and relation is a number, the tables
//! that these numbers lead into, and a `Program` that keeps that they fit. It knows nothing of texts and their order, nor
//! of what a program does.
#![tactic(auto)]

mod expected;
pub mod laws;
pub mod limits;
mod parts;
mod program;
mod size;
mod tables;
mod trees;

pub use expected::{Arguments, Word};
pub use parts::{Counts, Parts};
pub use program::Program;
pub use size::longest;
pub use tables::{ConDef, RRule, RelDef, TypeDef, ValDef};
pub use trees::{Callee, RExp, RGoal, RPat};
