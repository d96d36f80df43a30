//! Whole programs in clause form: the tables that are made of a program, what they ask of it, and the pass itself.
#![tactic(auto)]

mod agreement;
pub mod laws;
mod program;
mod shapes;
mod tables;
mod weights;

pub use agreement::do_counts_agree;
pub use program::clauses;
pub use tables::tables_of;
