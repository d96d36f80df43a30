//! What a program means: the search over its rules, as a definition with its laws, the values of expressions, and the plain
//! search, which is the definition run as it stands. Nothing here is shared, reordered or kept in cells; whatever runs
//! faster stands above, and is compared with this.
#![tactic(auto)]

pub mod laws;
mod meaning;
mod patterns;
mod plain;
mod run;
mod state;
mod tables;
pub mod value_laws;
mod values;

pub use meaning::Searched;
pub use patterns::{match_each, matching};
pub use run::{PlainRun, search};
pub use state::State;
pub use tables::{Tables, tables_of};
pub use values::{val_of, value_of, values_of};
