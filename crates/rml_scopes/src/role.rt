//! As what a name stands in a text, and where.

/// As what a name stands where it is used. A name that is declared is a step of its own.
#[derive(Clone, Copy, Debug, PartialEq, Eq)]
pub enum Role {
    /// In the head of a rule of the relation of this name.
    Head(u32),
    /// Alone in a pattern.
    Pattern,
    /// Before `as` in a pattern.
    Variable,
    /// Before so many arguments, in a pattern or an expression.
    Constructor(usize),
    /// Alone in an expression, or before `=`.
    Value,
    /// Called.
    Callee,
    /// Behind so many types.
    TypeName(usize),
}

/// In what a name stands: in some declarations a name may not mean all that it could mean elsewhere.
#[derive(Clone, Copy, Debug, PartialEq, Eq)]
pub enum Within {
    /// Neither of the others.
    Anything,
    /// The right side of a `type`, which names only `type`s that stand earlier.
    AType,
    /// The expression of a val, which uses only vals that stand earlier, and those of the interfaces that its interface names.
    AVal,
}
