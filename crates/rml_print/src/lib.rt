//! The printer: it writes a tree as the one text that the layout of docs/formats.md gives it, a signature in the same way,
//! and tokens one on a line.
//!
//! A tree becomes lines of tokens (`text_lines`), and lines become bytes (`line_bytes`). Which brackets stand that leave no
//! trace in a tree is one table, `is_bracketed`. What printed bytes are read as is said by laws (`laws.rt`). It knows
//! nothing of what a name means.
#![tactic(auto)]

mod declarations;
mod expressions;
mod goals;
pub mod laws;
mod listing;
mod page;
mod patterns;
mod printed;
mod rules;
mod seats;
mod spelling;
mod texts;
mod types;

pub use listing::print_tokens;
pub use printed::{print_sig, print_tree};
