//! What is told of a text's group.

ghost use Rattle.std.specs.Prelude.{◌≡◌};
ghost use Rattle.rml_groups.specs.Groups.{definitions, is_member};

use rml_resolved::{ConDef, RelDef, ValDef};
use rml_types::SchemeTree;
use sqlite_items::at;

/// The tables of a program, and the text whose group is meant: those of its relations that declare no type.
#[derive(Clone, Copy)]
pub struct Unit<'a> {
    pub cons: &'a [ConDef],
    pub vals: &'a [ValDef],
    pub rels: &'a [RelDef],
    /// The number of the text.
    pub number: u32,
    /// What the own abstypes of each module's text stand for, written out, by the numbers of the modules' names.
    pub meanings: &'a [Option<Vec<Option<SchemeTree>>>],
}

/// What the own abstypes of the text of a module stand for, by the number of its name; and by the numbers of types.
pub fn of_module(tables: &[Option<Vec<Option<SchemeTree>>>], number: u32) -> &[Option<SchemeTree>]
    ensures { result.now ≡ definitions tables.now number }
{
    match at(tables, number as usize) {
        Some(Some(table)) => table.as_slice(),
        Some(None) => &[],
        None => &[],
    }
}

/// Whether a relation is one of a text's group.
pub fn is_member(text: u32, rel: &RelDef) -> bool
    ensures { result ≡ is_member text rel.now }
{
    rel.scheme.is_none() && rel.place.text == text
}
