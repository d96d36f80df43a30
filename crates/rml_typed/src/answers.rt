//! What a check of types answers.

use rml_base::Place;
use rml_types::Scheme;
use sqlite_items::Items;

/// A part of a rule, or the whole of a val. Premises are counted from 1, at the top level of the rule.
#[derive(Clone, Copy, Debug, PartialEq, Eq)]
pub enum Part {
    Head,
    Premise(u32),
    Results,
    Val,
}

/// Why a program is refused.
#[derive(Clone, Copy, Debug, PartialEq, Eq)]
pub enum TypeErr {
    /// No types of its variables type a rule, or a val has not its type: the word `rule` or `axiom`, or the val's name in the
    /// body, and the least part such that the parts up to it have no typing.
    NoTyping(Place, Part),
    /// The type of a relation that declares none has more nodes than the limit: the relation's name.
    TooWide(Place),
    Memory,
}

/// The scheme of each relation and of each val of a program, in the order of their numbers.
#[derive(Drop)]
pub struct Typed {
    pub rels: Items<Scheme>,
    pub vals: Items<Scheme>,
}
