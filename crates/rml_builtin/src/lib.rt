//! The built-ins: the table of their numbers, names and types, and how a name finds one; what each gives of argument
//! values and the store of logical variables, and the cells that it makes; all as definitions and as code that computes
//! them. It knows nothing of rules; who calls a built-in, and what becomes of its answer and its text, stands above.
#![tactic(auto)]

mod answers;
mod applied;
mod arguments;
mod arithmetic;
mod built_ins;
mod comparisons;
mod decimal;
pub mod laws;
mod lvars;
mod made;
mod row;
mod run;
mod scheme;
mod texts;
pub mod types;
mod vectors;

pub use applied::{Answer, Applied, Store};
pub use built_ins::BuiltIns;
pub use decimal::{digit_after, signed_integer};
pub use made::cells_made;
pub use row::{BuiltinRow, ROWS, Row, builtin, row_at};
pub use run::{apply, apply_at};
pub use scheme::scheme_of;
