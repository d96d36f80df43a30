//! What types are in a set of texts: they have numbers, a type is read as a tree over these, and what names stand for other types is
//! written out. It knows nothing of scopes and of rules.
#![tactic(auto)]

mod definitions;
pub mod laws;
mod numbers;
mod places;
mod reading;
mod tables;

pub use definitions::Definition;
pub use numbers::{NumberedNames, NumberedText, Numbers, add_if, number_of, numbers_of};
pub use places::{Space, places_of};
pub use reading::{View, sig_tree, type_tree};
pub use tables::{Tables, Types, types_of};
