//! The body of a relation, whose statements are dropped one by one, since they may be nested deeper than a stack is deep.

ghost use Rattle.std.specs.Prelude.{◌+◌, ◌<◌, ◌≤◌, IsTrue, sum_by};
ghost use Rattle.rml_fol.specs.Size.{size, alternative_size, case_size};

use crate::statements::{Alternative, Case, Stmt};
use sqlite_items::Items;

/// The body of a relation.
pub struct Body {
    pub stmts: Items<Stmt>,
}

impl Drop for Body {
    fn drop(self) {
        let Body { stmts } = self;
        forget_all(stmts);
    }
}

/// Drops statements one by one. Without memory for what waits, what is left is dropped level by level.
fn forget_all(mut rest: Items<Stmt>) {
    while let Some(stmt) = rest.pop() {
        if !take_parts(stmt, &mut rest) {
            return;
        }
    }
}

/// Lets the statements of a block wait. False where there is no memory for them.
fn take_block(block: Items<Stmt>, rest: &mut Items<Stmt>) -> bool
    ensures { IsTrue result → sum_by size rest.new ≤ sum_by size rest.old + sum_by size block }
{
    rest.append(block).is_ok()
}

fn take_alternative(alternative: Alternative, rest: &mut Items<Stmt>) -> bool
    ensures { IsTrue result → sum_by size rest.new ≤ sum_by size rest.old + alternative_size alternative }
{
    let Alternative { block } = alternative;
    take_block(block, rest)
}

fn take_case(case: Case, rest: &mut Items<Stmt>) -> bool
    ensures { IsTrue result → sum_by size rest.new ≤ sum_by size rest.old + case_size case }
{
    let Case {
        tag: _,
        vars: _,
        block,
    } = case;
    take_block(block, rest)
}

fn take_alternatives(mut alternatives: Items<Alternative>, rest: &mut Items<Stmt>) -> bool
    ensures { IsTrue result → sum_by size rest.new ≤ sum_by size rest.old + sum_by alternative_size alternatives }
{
    while let Some(alternative) = alternatives.pop() {
        if !take_alternative(alternative, rest) {
            return false;
        }
    }
    true
}

fn take_cases(mut cases: Items<Case>, rest: &mut Items<Stmt>) -> bool
    ensures { IsTrue result → sum_by size rest.new ≤ sum_by size rest.old + sum_by case_size cases }
{
    while let Some(case) = cases.pop() {
        if !take_case(case, rest) {
            return false;
        }
    }
    true
}

/// Lets the statements in a statement wait in its place. False where there is no memory for them.
fn take_parts(stmt: Stmt, rest: &mut Items<Stmt>) -> bool
    ensures { IsTrue result → sum_by size rest.new < sum_by size rest.old + size stmt }
{
    match stmt {
        Stmt::Match(_, _) => true,
        Stmt::Set(_, _) => true,
        Stmt::Call(_, _, _) => true,
        Stmt::Builtin(_, _, _) => true,
        Stmt::Equal(_, _) => true,
        Stmt::Not(block) => take_block(block, rest),
        Stmt::Or(alternatives) => take_alternatives(alternatives, rest),
        Stmt::Cond(first, second, third) => {
            take_block(first, rest) && take_block(second, rest) && take_block(third, rest)
        }
        Stmt::Switch(_, cases, otherwise) => take_cases(cases, rest) && take_block(otherwise, rest),
        Stmt::Body(_, _, block) => take_block(block, rest),
        Stmt::Goto(_, _) => true,
        Stmt::Give(_) => true,
        Stmt::Fail => true,
    }
}
