//! What the faults of a set of texts are told by, beside the trees.

use rml_outlines::Known;
use rml_tables::NameSet;
use sqlite_items::Items;

/// What is known of the types of a text once abbreviations are written out, by the names that its body declares.
#[derive(Drop)]
pub struct TypeFacts {
    /// The abstypes that the body defines by `type` and that reach themselves through such types.
    pub circular: NameSet<u32>,
    /// The relations and vals to which interface and body give types that differ.
    pub different: NameSet<u32>,
}

/// What is known of the texts of a set, and of the types of each.
#[derive(Drop)]
pub struct World {
    pub known: Known,
    pub facts: Items<TypeFacts>,
}
