//! The instructions of flat code on a state: each does what its effect says. It knows neither blocks nor turns.
#![tactic(auto)]

mod acting;
mod built_in;
mod frames;
pub mod laws;
mod leaving;
mod making;
mod registers;
mod sight;
mod step;
mod switch;
mod values;

pub use acting::act;
pub use step::{End, Step};
