//! Reads the phrases that declarations and rules are made of, each from the front of a list of tokens: types, patterns and
//! expressions. Each function equals its namesake of the grammar of functions in `rml_grammar`, or stops at the same fault.
#![tactic(auto)]

pub mod expressions;
pub mod lists;
pub mod patterns;
pub mod spots;
pub mod stop;
pub mod types;
