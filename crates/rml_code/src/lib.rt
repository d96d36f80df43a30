//! Flat code: blocks of instructions over registers and cells, which the machine runs, with its meaning. Continuation form stands before
//! it and C after it; it knows neither how code is made of continuations nor how a machine keeps what it works on.
#![tactic(auto)]

mod code;
mod constants;
mod instructions;
pub mod laws;
pub mod limits;
mod lines;
mod listing;
mod meaning;
mod state;
mod text;
mod words;

pub use code::Code;
pub use constants::{Constant, Part};
pub use instructions::{Block, Case, Else, Halt, Instr, Registers, Tag, Word};
pub use listing::Listing;
pub use state::{Cells, State};
pub use text::{print, print_listing};

#[cfg(test)]
mod tests;
