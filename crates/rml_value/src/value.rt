//! Values.

use rml_base::Bytes;
use sqlite_items::Items;

/// A list of values, which contracts see as a list.
pub type Values = Items<Value>;

/// What a variable of a running program holds. Contracts see it as a tree, with lists and byte strings as plain lists.
#[derive(Drop)]
pub enum Value {
    /// An integer. The integers of the language are those of `in_range`.
    Int(i64),
    Char(u8),
    Text(Bytes),
    /// A constructor's number and its arguments. Lists, truth values and options are such values, by the numbers below.
    Con(u32, Values),
    Tuple(Values),
    /// A relation's number.
    Rel(u32),
    /// A logical variable: the number of its entry in the store.
    Cell(usize),
    Vector(Values),
}

/// The constructor `[]`, without arguments.
pub const NIL: u32 = 0;

/// The constructor `::`, with a head and a tail.
pub const CONS: u32 = 1;

/// The constructor `false`.
pub const FALSE: u32 = 2;

/// The constructor `true`.
pub const TRUE: u32 = 3;

/// The constructor `NONE`.
pub const NONE: u32 = 4;

/// The constructor `SOME`, with one argument.
pub const SOME: u32 = 5;
