//! Tests of clause form: bodies built by hand, and their text. There is nothing else here.
#![tactic(auto)]

#[cfg(test)]
mod bodies;
