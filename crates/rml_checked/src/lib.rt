//! Whether tables make a program: a test for each fact that a program keeps, and the program of tables that pass them all. It
//! is for tables that are made by hand; who makes tables out of texts knows that they fit.
#![tactic(auto)]

mod binding;
mod bound;
mod checked;
mod circles;
mod names;
mod size;

pub use checked::program_of;
