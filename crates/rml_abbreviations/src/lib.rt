//! Types in which names stand for other types: what such a type is once these are written out. A name is a number, and what it stands
//! for is a type over variables for the name's arguments. It knows nothing of texts, nor of which names stand for types there.
#![tactic(auto)]

mod body;
mod powers;
mod tables;
#[cfg(test)]
mod tests;
mod writing;

pub use body::{Body, meaning};
pub use powers::written_out;
pub use writing::{MOST_NODES, written};
