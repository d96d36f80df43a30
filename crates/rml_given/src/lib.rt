//! What each text is given: the prelude, what is built in, and the number of the name `main`.
#![tactic(auto)]

mod built;
mod giving;
pub mod laws;

pub use giving::{Given, give};
