//! What is asked of whole types: whether two are one type, whether they are one up to the names of their variables, and what
//! a type is with types in place of its variables. Each goes by the labels of types, so that deep types need no deep stack.
#![tactic(auto)]

mod equality;
pub mod laws;
mod renaming;
mod substitution;

pub use equality::same_type;
pub use renaming::same_up_to_names;
pub use substitution::substitute;

#[cfg(test)]
mod tests;
