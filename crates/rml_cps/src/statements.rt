//! Statements. The fields of each are the parts of its printed line, in the line's order, and then its cases and blocks.

use rml_fol::{Callee, Expression, Tag, Vars};
use sqlite_items::Items;

/// Statements one after another. Each block ends in a statement that nothing may follow: a call, an answer, a failure, a `goto` or a
/// `switch`.
pub type Block = Items<Stmt>;

/// A continuation, as a statement names it. Successes and failures are numbered apart; which of them is meant is told by where the
/// name stands.
#[derive(Clone, Copy, Debug, PartialEq, Eq)]
pub enum Continuation {
    /// The one that the relation was called with.
    Own,
    /// The one that was named with this number.
    Named(u32),
}

/// A statement.
#[cycle(stmt)]
#[derive(Drop)]
pub enum Stmt {
    /// The variable stands for the value of the expression.
    Set(u32, Expression),
    /// The first variable stands for an argument of the block that the second one stands for: the one of this number, from 1.
    Field(u32, u32, u32),
    /// A built-in, by its number in the table of built-ins, with what it is given and its results. The failure follows where it gives
    /// no answer.
    Builtin(u16, Vars, Vars, Continuation),
    /// The failure follows where the two stand for different values.
    Equal(u32, u32, Continuation),
    /// Names a success by a number: these variables stand for the values of the answer, and the block goes on from what variables
    /// stood for where it was named.
    Success(u32, Vars, Items<Stmt>),
    /// Names a failure by a number: the block goes on from what variables stood for, and from the store, where it was named.
    Failure(u32, Items<Stmt>),
    /// Names a block by a number: these variables stand for what a `goto` hands on to it, and the failure of this number is the one
    /// that the `goto` hands on.
    Body(u32, Vars, u32, Items<Stmt>),
    /// A relation is called with these variables, and with what follows its answer and what follows its failure. The last of its
    /// block.
    Call(Callee, Vars, Continuation, Continuation),
    /// The success follows, with these variables as the answer. The last of its block.
    Answer(Continuation, Vars),
    /// The failure follows. The last of its block.
    Fail(Continuation),
    /// Goes on with the block of the number. The last of its block.
    Goto(u32, Vars, Continuation),
    /// The first case whose tag the variable has, or else the block. The last of its block.
    Switch(u32, Items<Case>, Items<Stmt>),
}

/// A case of a `switch`. It binds no variable: arguments are taken by `field`.
#[cycle(stmt)]
#[derive(Drop)]
pub struct Case {
    pub tag: Tag,
    pub block: Items<Stmt>,
}
