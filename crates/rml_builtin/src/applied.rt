//! What a built-in gives.

use rml_base::Bytes;
use rml_value::{Value, Values};
use sqlite_items::Items;

/// The store: an entry for each logical variable, None where it is unset. `Value::Cell` names an entry by its number.
pub type Store = Items<Option<Value>>;

/// The results of a call, and the store after it.
#[derive(Drop)]
pub struct Answer {
    pub values: Values,
    pub store: Store,
}

/// What a built-in gives of its arguments.
#[derive(Drop)]
pub enum Applied {
    /// Results, and the text that it prints.
    Yes(Answer, Bytes),
    /// No answer.
    No,
    /// The arguments are of other kinds than the built-in takes, which typing rules out.
    Wrong,
}
