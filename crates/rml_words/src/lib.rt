//! The command line: what its words ask for. It reads words alone, and knows nothing of files, texts or runs.
#![tactic(auto)]

mod command;
mod files;
pub mod laws;
mod number;
mod options;
mod read;

pub use command::{Command, Stage};
pub use read::read_words;

#[cfg(test)]
mod tests;
