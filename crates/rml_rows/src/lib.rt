//! Tests of the built-ins: each at an ordinary value, at its edges and where it has no answer. There is nothing else here.
#![tactic(auto)]

#[cfg(test)]
mod rows;
