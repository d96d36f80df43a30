//! Which built-ins the rules and vals of some texts name as values, and the numbers of the relations that stand for them. It walks over
//! rules and expressions with their scopes, and makes nothing of them.
#![tactic(auto)]

mod gathering;
mod goals;
mod moves;
mod named;
mod terms;
mod texts;

pub use moves::{begin, end_part, enter, leave};
pub use named::{named_as_values, number_behind, row_number};
pub use terms::short;
