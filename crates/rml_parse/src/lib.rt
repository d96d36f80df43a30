//! Reads the tree of a text from its tokens: recursive descent with one token in hand. Each function equals its namesake
//! of the grammar of functions in `rml_grammar`. It has no lexer.
#![tactic(auto)]

mod answer;
mod datatypes;
mod declarations;
mod goals;
mod openings;
mod rules;
mod texts;

pub use answer::{ParseErr, parse};
pub use rml_grammar::ParseKind;
