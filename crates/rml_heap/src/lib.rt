//! The cells of a run: values from the place 0 upward and frames from the limit downward, all reserved when a run begins;
//! and which value a cell stands for.
//! It knows nothing of programs, of which logical variables were set since when, and of what a frame's cells mean.
#![tactic(auto)]

mod cell;
mod equality;
mod heap;
pub mod laws;
mod text;

pub use cell::{
    BLOCK, CHAR, CON, CON_BLOCK, CONS_BLOCK, Cell, INT, LVAR, REL, TEXT, TUPLE, UNSET, VECTOR,
    address_of, count_of,
};
pub use heap::{Full, Heap, MOST_CELLS};
pub use text::add_text;

#[cfg(test)]
mod tests;
