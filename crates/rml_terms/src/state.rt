//! What variables stand for, and what a match makes of it.

use rml_value::Value;
use sqlite_items::Items;

/// A variable, and what it stands for.
#[derive(Drop)]
pub struct Binding {
    pub var: u32,
    pub value: Value,
}

/// What variables stand for, in the order in which they were bound.
pub type Env = Items<Binding>;

/// What a match gives.
#[derive(Drop)]
pub enum Matched {
    /// What the variables stand for then.
    Yes(Env),
    No,
    /// The value is of a kind for which the pattern cannot stand, which typing rules out.
    Wrong,
}
