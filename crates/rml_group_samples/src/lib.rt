//! Small groups of relations that declare no type, as tests of how they are typed together. There is nothing else here.
#![tactic(auto)]

#[cfg(test)]
mod groups;
