//! Small changes to one good program, as tests of what a program keeps. There is nothing else here.
#![tactic(auto)]

#[cfg(test)]
mod changes;
