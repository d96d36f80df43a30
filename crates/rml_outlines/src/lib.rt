//! What is known of the texts of a set before their names are looked at: what each half of a text declares, which texts it sees, and
//! which module names there are; and what a name means by that. It knows nothing of scopes, and finds no faults.
#![tactic(auto)]

mod declarations;
mod entry;
mod known;
mod names;
mod outline;

pub use declarations::{entries_of, type_entry};
pub use entry::{TypeEntry, TypeKind, ValueEntry};
pub use known::Known;
pub use names::add_each;
pub use outline::{Entries, Outline};
