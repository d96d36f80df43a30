//! Tokens, by the table of docs/formats.md. Names, type variables and text literals are numbers that `Names` gave.

use rml_base::Place;

/// A token, and the place of its first byte.
#[derive(Clone, Copy, Debug, PartialEq, Eq)]
pub struct Spot {
    pub token: Token,
    pub place: Place,
}

/// What a text is read as.
#[derive(Clone, Copy, Debug, PartialEq, Eq)]
pub enum Token {
    Word(Key),
    Name(u32),
    /// The number is that of the whole spelling, with its `'`.
    TyVar(u32),
    Lit(Lit),
    Sign(Mark),
    /// How many dashes.
    Dashes(u32),
}

/// A literal. A text is the number of its bytes after the escapes.
#[derive(Clone, Copy, Debug, PartialEq, Eq)]
pub enum Lit {
    Int(i64),
    Char(u8),
    Text(u32),
}

/// The reserved words. `default`, `eqtype` and `withtype` have no use.
#[derive(Clone, Copy, Debug, PartialEq, Eq)]
pub enum Key {
    KAbstype,
    KAnd,
    KAs,
    KAxiom,
    KDatatype,
    KDefault,
    KEnd,
    KEqtype,
    KLet,
    KModule,
    KNot,
    KOf,
    KRelation,
    KRule,
    KType,
    KVal,
    KWith,
    KWithtype,
}

/// The signs.
#[derive(Clone, Copy, Debug, PartialEq, Eq)]
pub enum Mark {
    OpenRound,
    CloseRound,
    OpenSquare,
    CloseSquare,
    Comma,
    Colon,
    TwoColons,
    Arrow,
    Equals,
    Amp,
    Bar,
    Star,
    Dot,
    Wild,
}
