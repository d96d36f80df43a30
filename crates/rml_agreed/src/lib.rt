//! That a program which is typed meets what the pass to clause form asks of it: no search is Wrong, and rules and calls agree on how
//! many values relations take and give. There is no running code here.
#![tactic(auto)]

pub mod laws;
