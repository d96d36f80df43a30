//! The grammar of texts: what a list of tokens spells (a relation, one case for each production), and how it is read
//! from the left with one token in hand (a grammar of functions, which the parser equals). It has no parser.
#![tactic(auto)]

mod fault;
mod front;
mod laws;
mod limits;
mod types;

pub use fault::{Fault, ParseKind};
pub use front::{Front, Opening};
pub use laws::{begun, exact, shallow_trees, small_trees};
pub use limits::{larger_limits, limits_counted, one_tree};
pub use types::{Bracket, Types};
