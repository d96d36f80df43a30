//! Continuation form: relations as bodies of statements in which a call is told what follows its answer and what follows its failure,
//! with its meaning. Clause form stands before it and flat code after it; it knows neither how a body is made of clauses nor registers.
#![tactic(auto)]

mod body;
mod cps;
pub mod laws;
pub mod limits;
mod meaning;
mod parts;
mod statements;

pub use body::Body;
pub use cps::Cps;
pub use parts::{Parts, Relation};
pub use statements::{Block, Case, Continuation, Stmt};
