//! What is told of a text, as what stands alone there is typed.

use rml_resolved::{ConDef, RelDef, ValDef};
use rml_types::{Scheme, SchemeTree};

/// The tables of a program, and what its text alone knows of types.
#[derive(Clone, Copy)]
pub struct Text<'a> {
    pub cons: &'a [ConDef],
    pub vals: &'a [ValDef],
    pub rels: &'a [RelDef],
    /// The number of the text, whose group alone is seen.
    pub number: u32,
    /// What the text's own abstypes stand for, written out, by the numbers of types.
    pub meanings: &'a [Option<SchemeTree>],
    /// The general types of the relations of the text's group, by the numbers of relations.
    pub general: &'a [Option<Scheme>],
}
