//! Names in the order of their first declarations: sets of names, tables from names to what they stand for, and a stack of marks.
//! They are hashed, and contracts see them as lists. What a name is, and what it stands for, stands above; byte strings are numbered
//! below, by rml_base.
#![tactic(auto)]

pub mod laws;
mod marks;
mod name_set;
mod table;

pub use marks::Marks;
pub use name_set::NameSet;
pub use table::Table;

#[cfg(test)]
mod tests;
