//! Constants: values that a run places once, before its first turn.

use crate::instructions::Word;
use rml_base::Bytes;
use sqlite_items::Items;

/// A part of a constant.
#[derive(Clone, Copy)]
pub enum Part {
    Word(Word),
    /// An earlier constant, which is shared.
    Constant(u64),
}

/// A constant: a block of cells.
#[derive(Drop)]
pub enum Constant {
    Text(Bytes),
    /// A constructor and its arguments, other than `::`.
    Con(u32, Items<Part>),
    Tuple(Items<Part>),
    /// A `::` of a head and a tail.
    Cons(Part, Part),
}
