//! That a program which is typed is never Wrong: the values of a running program have types, and each part of a search keeps
//! them. There is no running code here, and nothing finds types.
#![tactic(auto)]

pub mod laws;
