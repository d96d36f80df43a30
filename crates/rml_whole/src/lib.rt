//! What of a tree later passes take for granted: the trees that are read have it, and whoever makes one by hand can see to it.
//! There is no code here, and no reader; what there is to say beside the definitions is a law.
#![tactic(auto)]

pub mod laws;
