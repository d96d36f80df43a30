//! Copies of what a pass takes over as it is: literals, expressions and tags, names, and the entries of tables. A pass leaves the form that
//! it reads as it stands, so what both forms have is there twice.
#![tactic(auto)]

mod tables;
mod terms;

pub use tables::{copy_constructors, copy_name, copy_vals};
pub use terms::{copy_bytes, copy_expression, copy_tag, copy_vars, tag_of_literal};
