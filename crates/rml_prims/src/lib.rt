//! The built-ins on the cells of a run: the result of a row from the cells of its arguments, as it is on the values and the store that
//! the cells stand for.
//! It knows nothing of code and registers, nor of frames. `print` is not here, since it writes.
#![tactic(auto)]

mod comparisons;
mod finding;
mod integers;
pub mod laws;
mod lists;
mod lvars;
mod making;
mod numerals;
mod packing;
mod placing;
mod run;
mod texts;
mod vectors;
mod words;

pub use placing::{place_cons, place_text};
pub use run::{PrimEnd, prim};

#[cfg(test)]
mod tests;
