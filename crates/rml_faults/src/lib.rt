//! The least module fault of a set of texts, from the trees alone: what each text is given, what is known of the texts and of their types,
//! and the walk are joined here. It knows nothing of how the program looks that texts without faults make.
#![tactic(auto)]

mod faults;
mod set;

pub use faults::{fault_in, first_fault};
pub use set::{Set, set_of};
