//! Tests of `lex`: texts with their tokens, and texts with their first fault. There is nothing else here.
#![tactic(auto)]

#[cfg(test)]
mod tokens;
