//! A test of the prelude: its tree is that of its text, up to places. There is nothing else here.
#![tactic(auto)]

#[cfg(test)]
mod tests;
