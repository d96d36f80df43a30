//! What the names of all texts are.

use rml_scopes::World;
use rml_tables::NameSet;
use rml_values::Values;

/// What is known of the texts of a set, the numbers of their values, and which built-ins they name as values.
#[derive(Drop)]
pub struct Env {
    pub world: World,
    pub values: Values,
    /// The rows of the built-ins that are named as values, in the order of their table.
    pub named: NameSet<usize>,
}
