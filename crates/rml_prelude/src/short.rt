//! The short forms in which the prelude is written down.

use crate::word::Word;

/// A type.
#[derive(Clone, Copy)]
pub enum ShortType {
    /// The type variable.
    Any,
    /// A type without arguments.
    Named(Word),
    /// The lists of the type variable.
    Lists,
}

/// What the interface says of a relation.
#[derive(Clone, Copy)]
pub struct ShortSig {
    pub name: Word,
    pub inputs: &'static [ShortType],
    pub output: ShortType,
}

/// A pattern.
#[derive(Clone, Copy)]
pub enum ShortPattern {
    /// `_`
    Any,
    /// `0`
    Zero,
    /// `[]`
    Empty,
    Name(Word),
    /// `x :: r`
    Link(Word, Word),
    /// `x :: _`
    First(Word),
    /// `_ :: r`
    Rest(Word),
}

/// An expression.
#[derive(Clone, Copy)]
pub enum ShortExp {
    Number(i64),
    /// `[]`
    Empty,
    Name(Word),
    /// `x :: r`
    Link(Word, Word),
}

/// A premise.
#[derive(Clone, Copy)]
pub enum ShortGoal {
    /// `x = y`
    Equal(Word, Word),
    /// `not x = y`
    Differ(Word, Word),
    /// `f(x) => y`
    One(Word, ShortExp, Word),
    /// `f(x, y) => z`
    Two(Word, ShortExp, ShortExp, Word),
}

/// A rule without its relation's name.
#[derive(Clone, Copy)]
pub struct ShortRule {
    pub inputs: &'static [ShortPattern],
    pub goals: &'static [ShortGoal],
    pub result: ShortExp,
    pub tokens: u32,
}
