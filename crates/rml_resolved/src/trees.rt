//! The trees of rules. Variables are numbers of their rule; all other numbers are places in a program's tables. A text
//! literal is a number, under which its bytes stand among the program's names.

use rml_syntax::Lit;
use sqlite_items::{Boxed, Items};

/// A pattern.
#[derive(Drop)]
pub enum RPat {
    Any,
    Lit(Lit),
    /// Binds a variable.
    Var(u32),
    /// A constructor and its arguments.
    Con(u32, Items<RPat>),
    Tuple(Items<RPat>),
    List(Items<RPat>),
    /// A whole chain of `::`, two items or more, the last being the tail.
    Cons(Items<RPat>),
    /// Binds a variable to what the pattern matches.
    Bind(u32, Boxed<RPat>),
}

/// An expression.
#[derive(Drop)]
pub enum RExp {
    Lit(Lit),
    Var(u32),
    Val(u32),
    /// A relation as a value.
    Rel(u32),
    Con(u32, Items<RExp>),
    Tuple(Items<RExp>),
    List(Items<RExp>),
    /// A whole chain of `::`, two items or more, the last being the tail.
    Cons(Items<RExp>),
}

/// What a goal calls.
#[derive(Clone, Copy, Debug, PartialEq, Eq)]
pub enum Callee {
    Rel(u32),
    /// A built-in, by its number in the table of built-ins.
    Built(u16),
    Var(u32),
    Val(u32),
}

/// A premise.
#[derive(Drop)]
pub enum RGoal {
    Call(Callee, Items<RExp>, Items<RPat>),
    Equal(RExp, RExp),
    Let(RPat, RExp),
    Not(Boxed<RGoal>),
    /// Goals in brackets, in their order.
    All(Items<RGoal>),
}
