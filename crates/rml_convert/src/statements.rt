//! Statements, in front of what is made, or alone where nothing follows them.

ghost use Rattle.std.specs.Prelude.{◌≡◌, ◌+◌, ◌*◌, ◌<◌, ◌≤◌, [], ◌∷◌, ◌++◌, OnOk, map, sum_by};
ghost use Rattle.rml_cps.specs.declared.statements.Continuation.{Continuation};
ghost use Rattle.rml_tocps.specs.declared.pass.numbers.Numbers.{Numbers};
ghost use Rattle.rml_cps.specs.declared.statements.Continuation.TheVariants as continuation;
ghost use Rattle.rml_cps.specs.declared.statements.Stmt.TheVariants as line;
ghost use Rattle.rml_fol.specs.Size.{size};
ghost use Rattle.rml_conversion.specs.Hand.{Hand, hand, one_name, all_but_last};
ghost use Rattle.rml_conversion.specs.Statements.{called as call_made, negated, in_front, others, cond_of, cond_rest as cond_made, block_of, named, stmt_made, alternative_made, or_of};
ghost use Rattle.rml_convert.specs.Waiting.{stmts_in_front, all_made, work, stmts_work, others_work};

use crate::building::{closed, fresh_name, only_line, put};
use crate::patterns::whole;
use crate::switches::switch;
use crate::waiting::{Waiting, wait};
use rml_base::Memory;
use rml_copies::{copy_expression, copy_vars};
use rml_cps::{Continuation, Stmt};
use rml_fol::limits::MOST_NESTED;
use rml_fol::{Alternative, Callee, Stmt as Clause};
use rml_tocps::Numbers;
use std::alloc::Global;
use std::mem;

/// What is made becomes the success of the call.
fn call(
    alloc: Global,
    callee: Callee,
    xs: &[u32],
    ys: &[u32],
    failure: Continuation,
    numbers: &mut Numbers,
    made: &mut Vec<Stmt>,
) -> Result<(), Memory>
    ensures { OnOk result (hand made.new.items numbers.new ≡ call_made callee xs.now ys.now failure (hand made.old.items numbers.old)) }
{
    let name = fresh_name(numbers)?;
    let passed = copy_vars(alloc, xs)?;
    let received = copy_vars(alloc, ys)?;
    let block = closed(alloc, made);
    put(
        Stmt::Call(callee, passed, Continuation::Named(name), failure),
        made,
    )?;
    put(Stmt::Success(name, received, block), made)
}

/// A built-in in front of what is made.
fn built_in(
    alloc: Global,
    number: u16,
    xs: &[u32],
    ys: &[u32],
    failure: Continuation,
    made: &mut Vec<Stmt>,
) -> Result<(), Memory>
    ensures { OnOk result (made.new.items ≡ made.old.items ++ line.Builtin number xs.now ys.now failure ∷ []) }
{
    let passed = copy_vars(alloc, xs)?;
    let received = copy_vars(alloc, ys)?;
    put(Stmt::Builtin(number, passed, received, failure), made)
}

/// Statements but for the last, which is a `give` in the block of a `not` and in the first block of a `cond`.
pub fn before_give<'a>(stmts: &'a [Clause]) -> &'a [Clause]
    ensures made { (h : Continuation) (at_hand : Hand) → stmts_in_front result.now h at_hand ≡ in_front (all_but_last (map stmt_made stmts.now)) h at_hand }
    ensures work { stmts_work result.now ≤ stmts_work stmts.now }
{
    match stmts {
        [] => stmts,
        [front @ .., _] => front,
    }
}

/// What is made follows the failure of the goal, and the failure follows its answer.
fn not<'a>(
    alloc: Global,
    goal: &'a [Clause],
    failure: Continuation,
    numbers: &mut Numbers,
    made: &mut Vec<Stmt>,
    waiting: &mut Vec<Waiting<'a>>,
) -> Result<(), Memory>
    ensures made { OnOk result (all_made waiting.new.items (hand made.new.items numbers.new) ≡ all_made waiting.old.items (negated (map stmt_made goal.now) failure (hand made.old.items numbers.old))) }
    ensures work { OnOk result (sum_by work waiting.new.items ≤ 1 + stmts_work goal.now + sum_by work waiting.old.items) }
{
    let name = fresh_name(numbers)?;
    let block = closed(alloc, made);
    put(Stmt::Fail(failure), made)?;
    wait(Waiting::Line(Stmt::Failure(name, block)), waiting)?;
    wait(
        Waiting::Stmts(before_give(goal), Continuation::Named(name)),
        waiting,
    )
}

/// The last alternative, and those before it wait.
fn or<'a>(
    alloc: Global,
    alternatives: &'a [Alternative],
    failure: Continuation,
    made: &mut Vec<Stmt>,
    waiting: &mut Vec<Waiting<'a>>,
) -> Result<(), Memory>
    ensures made { OnOk result ((n : Numbers) → all_made waiting.new.items (hand made.new.items n) ≡ all_made waiting.old.items (or_of (map alternative_made alternatives.now) failure n)) }
    ensures work { OnOk result (sum_by work waiting.new.items ≤ others_work alternatives.now + sum_by work waiting.old.items) }
{
    match alternatives {
        [] => only_line(alloc, Stmt::Fail(failure), made),
        [front @ .., last] => {
            *made = Vec::new(alloc);
            wait(Waiting::Others(front, failure), waiting)?;
            wait(Waiting::Stmts(last.block.as_slice(), failure), waiting)?;
            Ok(())
        }
    }
}

/// The last of some alternatives before those that are made, and those before it wait.
pub fn one_more<'a>(
    alloc: Global,
    alternatives: &'a [Alternative],
    failure: Continuation,
    numbers: &mut Numbers,
    made: &mut Vec<Stmt>,
    waiting: &mut Vec<Waiting<'a>>,
) -> Result<(), Memory>
    ensures made { OnOk result (all_made waiting.new.items (hand made.new.items numbers.new) ≡ all_made waiting.old.items (others (map alternative_made alternatives.now) failure (hand made.old.items numbers.old))) }
    ensures work { OnOk result (sum_by work waiting.new.items < others_work alternatives.now + sum_by work waiting.old.items) }
{
    match alternatives {
        [] => Ok(()),
        [front @ .., last] => {
            let name = fresh_name(numbers)?;
            let block = closed(alloc, made);
            wait(Waiting::Others(front, failure), waiting)?;
            wait(Waiting::Line(Stmt::Failure(name, block)), waiting)?;
            wait(
                Waiting::Stmts(last.block.as_slice(), Continuation::Named(name)),
                waiting,
            )?;
            Ok(())
        }
    }
}

/// The third block, and the others wait.
fn cond<'a>(
    alloc: Global,
    first: &'a [Clause],
    second: &'a [Clause],
    third: &'a [Clause],
    failure: Continuation,
    numbers: &mut Numbers,
    made: &mut Vec<Stmt>,
    waiting: &mut Vec<Waiting<'a>>,
) -> Result<(), Memory>
    ensures made { OnOk result (all_made waiting.new.items (hand made.new.items numbers.new) ≡ all_made waiting.old.items (cond_of (map stmt_made first.now) (map stmt_made second.now) (map stmt_made third.now) failure numbers.old)) }
    ensures work { OnOk result (sum_by work waiting.new.items ≤ 2 + stmts_work first.now + stmts_work second.now + stmts_work third.now + sum_by work waiting.old.items) }
{
    let name = fresh_name(numbers)?;
    *made = Vec::new(alloc);
    wait(Waiting::Cond(name, first, second, failure), waiting)?;
    wait(Waiting::Stmts(third, failure), waiting)
}

/// The first block before the second, where the third is made.
pub fn cond_rest<'a>(
    alloc: Global,
    name: u32,
    first: &'a [Clause],
    second: &'a [Clause],
    failure: Continuation,
    made: &mut Vec<Stmt>,
    waiting: &mut Vec<Waiting<'a>>,
) -> Result<(), Memory>
    ensures made { OnOk result ((n : Numbers) → all_made waiting.new.items (hand made.new.items n) ≡ all_made waiting.old.items (cond_made name (map stmt_made first.now) (map stmt_made second.now) failure (hand made.old.items n))) }
    ensures work { OnOk result (sum_by work waiting.new.items < 2 + stmts_work first.now + stmts_work second.now + sum_by work waiting.old.items) }
{
    let block = closed(alloc, made);
    wait(Waiting::Line(Stmt::Failure(name, block)), waiting)?;
    wait(
        Waiting::Stmts(before_give(first), Continuation::Named(name)),
        waiting,
    )?;
    wait(Waiting::Stmts(second, failure), waiting)?;
    Ok(())
}

/// A named block, and what comes after it waits.
fn body<'a>(
    alloc: Global,
    j: u32,
    xs: &'a [u32],
    block: &'a [Clause],
    numbers: &mut Numbers,
    made: &mut Vec<Stmt>,
    waiting: &mut Vec<Waiting<'a>>,
) -> Result<(), Memory>
    ensures made { OnOk result (all_made waiting.new.items (hand made.new.items numbers.new) ≡ all_made waiting.old.items (named j xs.now numbers.old.name made.old.items (block_of (map stmt_made block.now) (continuation.Named numbers.old.name) (one_name numbers.old)))) }
    ensures work { OnOk result (sum_by work waiting.new.items ≤ 1 + stmts_work block.now + sum_by work waiting.old.items) }
{
    let name = fresh_name(numbers)?;
    let rest = mem::replace(made, Vec::new(alloc));
    wait(Waiting::Named(j, xs, name, rest), waiting)?;
    wait(Waiting::Stmts(block, Continuation::Named(name)), waiting)
}

/// The block that is made, named, before what comes after it.
pub fn name_block(
    alloc: Global,
    j: u32,
    xs: &[u32],
    name: u32,
    mut rest: Vec<Stmt>,
    made: &mut Vec<Stmt>,
) -> Result<(), Memory>
    ensures { OnOk result ((n : Numbers) → hand made.new.items n ≡ named j xs.now name rest.items (hand made.old.items n)) }
{
    let handed = copy_vars(alloc, xs)?;
    let block = closed(alloc, made);
    put(Stmt::Body(j, handed, name, block), &mut rest)?;
    *made = rest;
    Ok(())
}

/// A statement in front of what is made, or alone where nothing follows it.
pub fn stmt<'a>(
    alloc: Global,
    stmt: &'a Clause,
    failure: Continuation,
    numbers: &mut Numbers,
    made: &mut Vec<Stmt>,
    waiting: &mut Vec<Waiting<'a>>,
) -> Result<(), Memory>
    ensures made { OnOk result (all_made waiting.new.items (hand made.new.items numbers.new) ≡ all_made waiting.old.items (stmt_made stmt.now failure (hand made.old.items numbers.old))) }
    ensures work { OnOk result (sum_by work waiting.new.items < 8 * size stmt.now + sum_by work waiting.old.items) }
{
    match stmt {
        Clause::Match(x, pattern) => {
            whole(alloc, pattern, *x, failure, numbers, made, waiting)?;
            Ok(())
        }
        Clause::Set(x, expression) => {
            let copy = copy_expression(alloc, expression, MOST_NESTED)?;
            put(Stmt::Set(*x, copy), made)?;
            Ok(())
        }
        Clause::Call(callee, xs, ys) => {
            call(
                alloc,
                *callee,
                xs.as_slice(),
                ys.as_slice(),
                failure,
                numbers,
                made,
            )?;
            Ok(())
        }
        Clause::Builtin(number, xs, ys) => {
            built_in(alloc, *number, xs.as_slice(), ys.as_slice(), failure, made)?;
            Ok(())
        }
        Clause::Equal(x, y) => {
            put(Stmt::Equal(*x, *y, failure), made)?;
            Ok(())
        }
        Clause::Not(goal) => {
            not(alloc, goal.as_slice(), failure, numbers, made, waiting)?;
            Ok(())
        }
        Clause::Or(alternatives) => {
            or(alloc, alternatives.as_slice(), failure, made, waiting)?;
            Ok(())
        }
        Clause::Cond(first, second, third) => {
            cond(
                alloc,
                first.as_slice(),
                second.as_slice(),
                third.as_slice(),
                failure,
                numbers,
                made,
                waiting,
            )?;
            Ok(())
        }
        Clause::Switch(x, cases, otherwise) => {
            switch(
                alloc,
                *x,
                cases.as_slice(),
                otherwise.as_slice(),
                failure,
                made,
                waiting,
            )?;
            Ok(())
        }
        Clause::Body(j, xs, block) => {
            body(
                alloc,
                *j,
                xs.as_slice(),
                block.as_slice(),
                numbers,
                made,
                waiting,
            )?;
            Ok(())
        }
        Clause::Goto(j, xs) => {
            let handed = copy_vars(alloc, xs.as_slice())?;
            only_line(alloc, Stmt::Goto(*j, handed, failure), made)?;
            Ok(())
        }
        Clause::Give(xs) => {
            let given = copy_vars(alloc, xs.as_slice())?;
            only_line(alloc, Stmt::Answer(Continuation::Own, given), made)?;
            Ok(())
        }
        Clause::Fail => {
            only_line(alloc, Stmt::Fail(failure), made)?;
            Ok(())
        }
    }
}

/// The last of some statements, and those before it wait.
pub fn last_stmt<'a>(
    alloc: Global,
    stmts: &'a [Clause],
    failure: Continuation,
    numbers: &mut Numbers,
    made: &mut Vec<Stmt>,
    waiting: &mut Vec<Waiting<'a>>,
) -> Result<(), Memory>
    ensures made { OnOk result (all_made waiting.new.items (hand made.new.items numbers.new) ≡ all_made waiting.old.items (stmts_in_front stmts.now failure (hand made.old.items numbers.old))) }
    ensures work { OnOk result (sum_by work waiting.new.items < stmts_work stmts.now + sum_by work waiting.old.items) }
{
    match stmts {
        [] => Ok(()),
        [front @ .., last] => {
            wait(Waiting::Stmts(front, failure), waiting)?;
            stmt(alloc, last, failure, numbers, made, waiting)?;
            Ok(())
        }
    }
}
