//! The body of a relation, whose statements are dropped one by one, since they may be nested deeper than a stack is deep.

ghost use Rattle.std.specs.Prelude.{◌+◌, ◌<◌, ◌≤◌, IsTrue, sum_by};
ghost use Rattle.rml_cps.specs.Size.{size, case_size};

use crate::statements::{Case, Stmt};
use sqlite_items::Items;

/// The body of a relation.
pub struct Body {
    pub stmts: Items<Stmt>,
}

impl Drop for Body {
    fn drop(self) {
        let Body { stmts } = self;
        forget_all(stmts);
    }
}

/// Drops statements one by one. Without memory for what waits, what is left is dropped level by level.
fn forget_all(mut rest: Items<Stmt>) {
    while let Some(stmt) = rest.pop() {
        if !take_parts(stmt, &mut rest) {
            return;
        }
    }
}

/// Lets the statements of a block wait. False where there is no memory for them.
fn take_block(block: Items<Stmt>, rest: &mut Items<Stmt>) -> bool
    ensures { IsTrue result → sum_by size rest.new ≤ sum_by size rest.old + sum_by size block }
{
    rest.append(block).is_ok()
}

fn take_case(case: Case, rest: &mut Items<Stmt>) -> bool
    ensures { IsTrue result → sum_by size rest.new ≤ sum_by size rest.old + case_size case }
{
    let Case { tag: _, block } = case;
    take_block(block, rest)
}

fn take_cases(mut cases: Items<Case>, rest: &mut Items<Stmt>) -> bool
    ensures { IsTrue result → sum_by size rest.new ≤ sum_by size rest.old + sum_by case_size cases }
{
    while let Some(case) = cases.pop() {
        if !take_case(case, rest) {
            return false;
        }
    }
    true
}

/// Lets the statements in a statement wait in its place. False where there is no memory for them.
fn take_parts(stmt: Stmt, rest: &mut Items<Stmt>) -> bool
    ensures { IsTrue result → sum_by size rest.new < sum_by size rest.old + size stmt }
{
    match stmt {
        Stmt::Set(_, _) => true,
        Stmt::Field(_, _, _) => true,
        Stmt::Builtin(_, _, _, _) => true,
        Stmt::Equal(_, _, _) => true,
        Stmt::Success(_, _, block) => take_block(block, rest),
        Stmt::Failure(_, block) => take_block(block, rest),
        Stmt::Body(_, _, _, block) => take_block(block, rest),
        Stmt::Call(_, _, _, _) => true,
        Stmt::Answer(_, _) => true,
        Stmt::Fail(_) => true,
        Stmt::Goto(_, _, _) => true,
        Stmt::Switch(_, cases, otherwise) => take_cases(cases, rest) && take_block(otherwise, rest),
    }
}
