//! Rules of declared relations, and vals: each is typed alone, on a graph of its own. Whether it is typed, and at which part it
//! is not, are definitions of rml_typed; the equations of parts stand in rml_generator.
#![tactic(auto)]

mod nodes;
mod rules;
mod text;
mod vals;

pub use nodes::{fresh, is_solved};
pub use rules::untyped_part;
pub use text::Text;
pub use vals::is_val_typed;
