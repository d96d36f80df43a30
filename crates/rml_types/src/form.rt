//! What a type node is made of.

use sqlite_items::Items;

/// What a type is made by.
#[derive(Clone, Copy, Debug, PartialEq, Eq)]
pub enum TypeCon {
    /// A declared or built-in type, by its number.
    Named(u32),
    /// A type variable that stands fixed, by its number. It has no arguments.
    Fixed(u32),
    Tuple,
    /// A relation type, by the number of its inputs, which stand before the outputs.
    Rel(u32),
}

/// What a node is made by, and the nodes of its arguments.
#[derive(Debug, Drop)]
pub struct Form {
    pub con: TypeCon,
    pub args: Items<usize>,
}

/// Why an equation was refused.
#[derive(Clone, Copy, Debug, PartialEq, Eq)]
pub enum UnifyErr {
    /// The equations so far with this one have no solution.
    Clash,
    Memory,
}
