//! When a program is typed, and which fault comes first where it is not: definitions over the tables of a program, and laws about
//! them. It checks nothing, and knows nothing of how types are found, nor of what a program does.
#![tactic(auto)]

mod answers;
pub mod laws;

pub use answers::{Part, TypeErr, Typed};
