//! Which logical variables of a heap were set since when, so that a failure can unset them.
//! It knows nothing of frames, nor of what a variable is set to but that its cell can stand for a value.
#![tactic(auto)]

pub mod laws;
mod trail;

pub use trail::Trail;

#[cfg(test)]
mod tests;
