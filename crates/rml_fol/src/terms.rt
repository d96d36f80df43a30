//! Patterns and expressions. Variables are numbers of their relation; constructors, vals and relations are places in the tables
//! of a program in clause form.

use rml_base::Bytes;
use sqlite_items::{Boxed, Items};

/// A literal, with its bytes where it is a text.
#[derive(Drop)]
pub enum Literal {
    Int(i64),
    Char(u8),
    Text(Bytes),
}

/// A pattern.
#[derive(Drop)]
pub enum Pattern {
    Any,
    Lit(Literal),
    /// Binds a variable.
    Var(u32),
    /// A constructor and its arguments.
    Con(u32, Items<Pattern>),
    Tuple(Items<Pattern>),
    List(Items<Pattern>),
    /// A whole chain of `::`, two items or more, the last being the tail.
    Cons(Items<Pattern>),
    /// Binds a variable to what the pattern matches.
    Bind(u32, Boxed<Pattern>),
}

/// An expression.
#[derive(Drop)]
pub enum Expression {
    Lit(Literal),
    Var(u32),
    Val(u32),
    /// A relation as a value.
    Rel(u32),
    Con(u32, Items<Expression>),
    Tuple(Items<Expression>),
    List(Items<Expression>),
    /// A whole chain of `::`, two items or more, the last being the tail.
    Cons(Items<Expression>),
}
