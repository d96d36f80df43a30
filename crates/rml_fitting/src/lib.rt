//! Whether tables fit one another: what every program's tables begin with, the types that they name, and the numbers in the
//! trees of rules, each against the table that it leads into. Variables, circles and sizes are no part of it.
#![tactic(auto)]

mod beginning;
mod fits;
mod parts;
mod typing;

pub use parts::{do_begin, do_fit};
pub use typing::can_be_main;
