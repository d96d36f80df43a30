//! What texts are made of: tokens with their places, and the trees that they spell. It has no reader and no printer.
#![tactic(auto)]

mod rules;
mod texts;
mod token;
mod types;

/// What the fields of a tree are made of, for those who build or take one apart.
pub use rml_base::{Bytes, Place};
pub use rules::{Exp, Goal, Long, Pattern, Rule};
pub use sqlite_items::{Boxed, Items};
pub use texts::{Decl, Text, Uses};
pub use token::{Key, Lit, Mark, Spot, Token};
pub use types::{ConBind, DataBind, Sig, TypeExp, TypeHead};
