//! Joins the passes: from the bytes of texts to what they are read as, or to the first refusal. Today it has the front of
//! them, which reads trees; and it shows the tokens and the tree of one text.
//!
//! A text has one reading or one refusal (`laws`), and the calls answer that, want of memory aside. It knows nothing of
//! what a pass does.
#![tactic(auto)]

pub mod laws;
mod read;
mod refusal;
mod show;
mod source;
#[cfg(test)]
mod tests;

pub use read::{read_text, read_texts};
pub use refusal::{Kind, Refusal, Which};
pub use show::{show_tokens, show_tree};
pub use source::Source;
