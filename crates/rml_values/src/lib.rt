//! Numbers for the constructors, vals and relations of a set of texts, and what a name is by them in a program. It knows nothing of rules
//! and of types.
#![tactic(auto)]

pub mod laws;
mod meant;
mod numbers;
mod values;

pub use meant::Meant;
pub use numbers::{Begins, Kind, Numbered, TextValues};
pub use values::{Values, values_of};
