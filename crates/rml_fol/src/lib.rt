//! Clause form: relations as bodies of statements, one a line, with its meaning in direct style and its text. The search over
//! rules stands before it and continuations after it; it knows neither rules nor how a body is made of them.
#![tactic(auto)]

mod blocks;
mod body;
mod expressions;
mod fol;
pub mod laws;
pub mod limits;
mod lines;
mod meaning;
mod parts;
mod patterns;
mod shapes;
mod statements;
mod terms;
mod text;
mod words;

pub use body::Body;
pub use fol::Fol;
pub use parts::{Constructor, Name, Parts, Relation, Val};
pub use statements::{Alternative, Block, Callee, Case, Stmt, Tag, Vars};
pub use terms::{Expression, Literal, Pattern};
pub use text::{print, print_parts};
