//! The plain run of a program in clause form: its meaning, run as it stands. Nothing here is shared or kept in cells; whatever
//! runs faster stands above, and is compared with this. It knows no rules and no pass.
#![tactic(auto)]

mod blocks;
mod matching;
mod named;
mod running;
mod simple;
mod state;
mod values;
mod vars;
mod weights;

pub use running::{PlainRun, run};
