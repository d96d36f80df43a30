//! How it is shown that a later stage of a program costs no more than an earlier one: parts of runs in direct style, calls to
//! a depth, the exact use of steps, and the step-indexed simulation with its moves.
//! It stands above `Same` and `Light` of the base, and only who shows a pass needs it. It knows no form of a program.
#![tactic(auto)]

mod direct;
pub mod examples;
pub mod laws;
mod partial;

pub use direct::{join, no_trace, put_before};
pub use partial::{Partial, Trace};
