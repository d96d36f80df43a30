//! The words of rml_terms as code on values: what a variable stands for, literals and lists taken apart, what a call of a
//! built-in leaves, what `main` is called with and what its answer is. The plain programs of several forms are made of these;
//! there are no trees of a form here, and nothing that runs one.
#![tactic(auto)]

mod calls;
mod env;
mod lists;
mod literals;
mod running;

pub use calls::{copy_store, made_by, relation_named};
pub use env::{bind, copy_env, find, found};
pub use lists::{ListParts, chain_of, head, match_end, parts, tail};
pub use literals::{match_char, match_int, match_text, text_value};
pub use running::{argument, integer, trace};
