//! The prelude: its words, their numbers among names, and the tree of its text, which is made without reading it.
#![tactic(auto)]

pub mod laws;
mod made;
mod naming;
mod parts;
mod rules;
mod short;
mod signatures;
mod text;
mod word;
mod words;

pub use naming::{known_words, prelude};
pub use text::tree_of;
pub use word::{WORDS, Word};
pub use words::Words;
