//! Why a list of tokens is refused, and where.

/// What is wrong at a token.
#[derive(Clone, Copy, Debug, PartialEq, Eq)]
pub enum ParseKind {
    /// No text begins with the tokens up to this one, or the text ends too early.
    Unexpected,
    /// The bracket is one too many that is open.
    TooDeep,
    /// The rule is one too many of its relation.
    TooManyRules,
}

/// A fault, and the number of tokens that are left there, the faulty one included. It is 0 at the end of the list.
#[derive(Clone, Copy, Debug, PartialEq, Eq)]
pub struct Fault {
    pub kind: ParseKind,
    pub left: usize,
}
