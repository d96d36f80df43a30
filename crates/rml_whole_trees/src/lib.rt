//! That the trees that are read are whole, as rml_whole says it. There is no code here: what is said is a law.
#![tactic(auto)]

pub mod laws;
