//! The top call: the words of a command line, the files that it names, and what is written.
#![tactic(auto)]

mod files;
mod first_form;
pub mod laws;
mod line;
mod note;
mod perform;
mod sources;
mod status;
mod text;
mod texts;
mod top;

pub use status::Status;
pub use top::rmlc;

#[cfg(test)]
mod tests;
