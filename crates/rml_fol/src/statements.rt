//! Statements. The fields of each are the parts of its printed line, in the line's order, and then its cases and blocks.

use crate::terms::{Expression, Literal, Pattern};
use sqlite_items::Items;

/// Statements one after another. Each block ends in a statement that nothing may follow: a choice, `goto`, `give` or `fail`.
pub type Block = Items<Stmt>;

/// Variables, by their numbers in the relation.
pub type Vars = Items<u32>;

/// What a statement calls.
#[derive(Clone, Copy, Debug, PartialEq, Eq)]
pub enum Callee {
    Rel(u32),
    /// The relation that a variable stands for.
    Var(u32),
}

/// A statement. One that fails fails the innermost alternative, `not` or first block of a `cond` that encloses it, or else the
/// relation.
#[cycle(stmt)]
#[derive(Drop)]
pub enum Stmt {
    /// The pattern matches what the variable stands for, and binds its own; or it fails.
    Match(u32, Pattern),
    /// The variable stands for the value of the expression.
    Set(u32, Expression),
    /// A relation is called with these variables, and its results are bound to those.
    Call(Callee, Vars, Vars),
    /// A built-in, by its number in the table of built-ins.
    Builtin(u16, Vars, Vars),
    /// Fails where the two stand for different values.
    Equal(u32, u32),
    /// Fails where its block answers; the block ends in a `give` of nothing.
    Not(Items<Stmt>),
    /// The alternatives in order, each from the same bindings. The last of its block.
    Or(Items<Alternative>),
    /// Where the first block answers, the second goes on with the variables that it gives; else the third does, from the
    /// bindings of before. The last of its block.
    Cond(Items<Stmt>, Items<Stmt>, Items<Stmt>),
    /// The first case whose tag the variable has, or else the block. The last of its block.
    Switch(u32, Items<Case>, Items<Stmt>),
    /// Names a block by a number, for what follows: these variables are what a `goto` hands on to it.
    Body(u32, Vars, Items<Stmt>),
    /// Goes on with the block of the number. The last of its block.
    Goto(u32, Vars),
    /// The answer. The last of its block.
    Give(Vars),
    /// Failure. The last of its block.
    Fail,
}

/// An alternative of an `or`.
#[cycle(stmt)]
#[derive(Drop)]
pub struct Alternative {
    pub block: Items<Stmt>,
}

/// What a case of a `switch` asks for.
#[derive(Drop)]
pub enum Tag {
    /// A constructor.
    Con(u32),
    Lit(Literal),
}

/// A case of a `switch`: these variables stand for the constructor's arguments, and a literal has none.
#[cycle(stmt)]
#[derive(Drop)]
pub struct Case {
    pub tag: Tag,
    pub vars: Vars,
    pub block: Items<Stmt>,
}
