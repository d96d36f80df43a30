//! Flat code follows continuation form: what it is that instructions implement statements, and the rules by which that is shown, one for
//! each instruction and each line. It knows no pass: which rules are used for a program is the choice of whoever makes its code.
#![tactic(auto)]

pub mod laws;
