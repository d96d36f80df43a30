//! Patterns: each is tested and taken apart, part by part.

ghost use Rattle.std.specs.Prelude.{◌≡◌, ◌+◌, ◌*◌, ◌<◌, ◌≤◌, IfOk, OnOk, map, sum_by};
ghost use Rattle.rml_fol.specs.Size.{pattern_nodes};
ghost use Rattle.rml_tocps.specs.Matching.{place_at};
ghost use Rattle.rml_conversion.specs.Hand.{hand};
ghost use Rattle.rml_conversion.specs.Patterns.{fresh_part as fresh_made, pattern_made, parts_made, items_made, list_made, chain_made};
ghost use Rattle.rml_convert.specs.Waiting.{all_made, work, patterns_work};

use crate::building::{counted, fresh, fresh_row, put, test};
use crate::waiting::{Waiting, wait};
use rml_base::Memory;
use rml_copies::tag_of_literal;
use rml_cps::{Continuation, Stmt};
use rml_fol::{Expression, Pattern, Tag};
use rml_tocps::Numbers;
use rml_value::{CONS, NIL};
use std::alloc::Global;

/// Where a list is from a position on: in the variable itself, and then in fresh ones in a row.
pub fn list_at(x: u32, first: u32, position: u32) -> Result<u32, Memory>
    ensures { IfOk result (λ y. y ≡ place_at x first position) }
{
    match position {
        0 => Ok(x),
        _ => match first.checked_add(position - 1) {
            Some(place) => Ok(place),
            None => Err(Memory),
        },
    }
}

/// The fresh variable behind so many in a row.
fn moved_on(first: u32, count: u32) -> Result<u32, Memory>
    ensures { IfOk result (λ y. y ≡ first + count) }
{
    match first.checked_add(count) {
        Some(place) => Ok(place),
        None => Err(Memory),
    }
}

/// Patterns against the items of a list, which ends behind them.
pub fn list<'a>(
    alloc: Global,
    patterns: &'a [Pattern],
    x: u32,
    failure: Continuation,
    numbers: &mut Numbers,
    made: &mut Vec<Stmt>,
    waiting: &mut Vec<Waiting<'a>>,
) -> Result<(), Memory>
    ensures made { OnOk result (all_made waiting.new.items (hand made.new.items numbers.new) ≡ all_made waiting.old.items (list_made (map pattern_made patterns.now) x failure (hand made.old.items numbers.old))) }
    ensures work { OnOk result (sum_by work waiting.new.items ≤ patterns_work patterns.now + sum_by work waiting.old.items) }
{
    let position = counted(patterns)?;
    let first = fresh_row(numbers, position)?;
    let end = list_at(x, first, position)?;
    wait(Waiting::Items(patterns, x, first, failure), waiting)?;
    test(alloc, Tag::Con(NIL), end, failure, *numbers, made)
}

/// Patterns against the items of a chain of `::`, the last against its tail.
pub fn chain<'a>(
    patterns: &'a [Pattern],
    x: u32,
    failure: Continuation,
    numbers: &mut Numbers,
    made: &Vec<Stmt>,
    waiting: &mut Vec<Waiting<'a>>,
) -> Result<(), Memory>
    ensures made { OnOk result (all_made waiting.new.items (hand made.now.items numbers.new) ≡ all_made waiting.old.items (chain_made (map pattern_made patterns.now) x failure (hand made.now.items numbers.old))) }
    ensures work { OnOk result (sum_by work waiting.new.items ≤ patterns_work patterns.now + sum_by work waiting.old.items) }
{
    match patterns {
        [] => Ok(()),
        [front @ .., last] => {
            let position = counted(front)?;
            let first = fresh_row(numbers, position)?;
            let tail = list_at(x, first, position)?;
            wait(Waiting::Items(front, x, first, failure), waiting)?;
            wait(Waiting::Whole(last, tail, failure), waiting)?;
            Ok(())
        }
    }
}

/// A pattern against what a variable stands for.
pub fn whole<'a>(
    alloc: Global,
    pattern: &'a Pattern,
    x: u32,
    failure: Continuation,
    numbers: &mut Numbers,
    made: &mut Vec<Stmt>,
    waiting: &mut Vec<Waiting<'a>>,
) -> Result<(), Memory>
    ensures made { OnOk result (all_made waiting.new.items (hand made.new.items numbers.new) ≡ all_made waiting.old.items ((pattern_made pattern.now).whole x failure (hand made.old.items numbers.old))) }
    ensures work { OnOk result (sum_by work waiting.new.items + 4 ≤ 8 * pattern_nodes pattern.now + sum_by work waiting.old.items) }
{
    match pattern {
        Pattern::Any => Ok(()),
        Pattern::Lit(literal) => {
            let tag = tag_of_literal(alloc, literal)?;
            test(alloc, tag, x, failure, *numbers, made)
        }
        Pattern::Var(y) => put(Stmt::Set(*y, Expression::Var(x)), made),
        Pattern::Con(c, parts) => {
            wait(Waiting::Test(*c, x, failure), waiting)?;
            wait(Waiting::Parts(parts.as_slice(), x, failure), waiting)?;
            Ok(())
        }
        Pattern::Tuple(parts) => {
            wait(Waiting::Parts(parts.as_slice(), x, failure), waiting)?;
            Ok(())
        }
        Pattern::List(items) => {
            list(alloc, items.as_slice(), x, failure, numbers, made, waiting)?;
            Ok(())
        }
        Pattern::Cons(items) => {
            chain(items.as_slice(), x, failure, numbers, made, waiting)?;
            Ok(())
        }
        Pattern::Bind(y, inner) => {
            wait(Waiting::Line(Stmt::Set(*y, Expression::Var(x))), waiting)?;
            wait(Waiting::Whole(inner.get(), x, failure), waiting)?;
            Ok(())
        }
    }
}

/// A part that is taken into a fresh variable.
fn fresh_part<'a>(
    alloc: Global,
    pattern: &'a Pattern,
    x: u32,
    number: u32,
    failure: Continuation,
    numbers: &mut Numbers,
    made: &mut Vec<Stmt>,
    waiting: &mut Vec<Waiting<'a>>,
) -> Result<(), Memory>
    ensures made { OnOk result (all_made waiting.new.items (hand made.new.items numbers.new) ≡ all_made waiting.old.items (fresh_made (pattern_made pattern.now).whole x number failure (hand made.old.items numbers.old))) }
    ensures work { OnOk result (sum_by work waiting.new.items + 3 ≤ 8 * pattern_nodes pattern.now + sum_by work waiting.old.items) }
{
    let part = fresh(numbers)?;
    wait(Waiting::Line(Stmt::Field(part, x, number)), waiting)?;
    whole(alloc, pattern, part, failure, numbers, made, waiting)?;
    Ok(())
}

/// A pattern against the argument of a number of what a variable stands for.
fn part<'a>(
    alloc: Global,
    pattern: &'a Pattern,
    x: u32,
    number: u32,
    failure: Continuation,
    numbers: &mut Numbers,
    made: &mut Vec<Stmt>,
    waiting: &mut Vec<Waiting<'a>>,
) -> Result<(), Memory>
    ensures made { OnOk result (all_made waiting.new.items (hand made.new.items numbers.new) ≡ all_made waiting.old.items ((pattern_made pattern.now).part x number failure (hand made.old.items numbers.old))) }
    ensures work { OnOk result (sum_by work waiting.new.items + 3 ≤ 8 * pattern_nodes pattern.now + sum_by work waiting.old.items) }
{
    match pattern {
        Pattern::Any => Ok(()),
        Pattern::Var(y) => put(Stmt::Field(*y, x, number), made),
        Pattern::Bind(y, inner) => {
            wait(Waiting::Line(Stmt::Field(*y, x, number)), waiting)?;
            wait(Waiting::Whole(inner.get(), *y, failure), waiting)?;
            Ok(())
        }
        Pattern::Lit(_) => fresh_part(alloc, pattern, x, number, failure, numbers, made, waiting),
        Pattern::Con(_, _) => fresh_part(
            alloc, pattern, x, number, failure, numbers, made, waiting,
        ),
        Pattern::Tuple(_) => fresh_part(alloc, pattern, x, number, failure, numbers, made, waiting),
        Pattern::List(_) => fresh_part(alloc, pattern, x, number, failure, numbers, made, waiting),
        Pattern::Cons(_) => fresh_part(alloc, pattern, x, number, failure, numbers, made, waiting),
    }
}

/// The last of some parts, and those before it wait.
pub fn last_part<'a>(
    alloc: Global,
    patterns: &'a [Pattern],
    x: u32,
    failure: Continuation,
    numbers: &mut Numbers,
    made: &mut Vec<Stmt>,
    waiting: &mut Vec<Waiting<'a>>,
) -> Result<(), Memory>
    ensures made { OnOk result (all_made waiting.new.items (hand made.new.items numbers.new) ≡ all_made waiting.old.items (parts_made (map pattern_made patterns.now) x 1 failure (hand made.old.items numbers.old))) }
    ensures work { OnOk result (sum_by work waiting.new.items < patterns_work patterns.now + sum_by work waiting.old.items) }
{
    match patterns {
        [] => Ok(()),
        [front @ .., last] => {
            let number = counted(patterns)?;
            wait(Waiting::Parts(front, x, failure), waiting)?;
            part(alloc, last, x, number, failure, numbers, made, waiting)?;
            Ok(())
        }
    }
}

/// The last of some items in front of the rest of a list, and those before it wait.
pub fn last_item<'a>(
    alloc: Global,
    patterns: &'a [Pattern],
    x: u32,
    first: u32,
    failure: Continuation,
    numbers: &mut Numbers,
    made: &mut Vec<Stmt>,
    waiting: &mut Vec<Waiting<'a>>,
) -> Result<(), Memory>
    ensures made { OnOk result (all_made waiting.new.items (hand made.new.items numbers.new) ≡ all_made waiting.old.items (items_made (map pattern_made patterns.now) x first failure (hand made.old.items numbers.old))) }
    ensures work { OnOk result (sum_by work waiting.new.items < patterns_work patterns.now + sum_by work waiting.old.items) }
{
    match patterns {
        [] => Ok(()),
        [front @ .., last] => {
            let position = counted(front)?;
            let place = list_at(x, first, position)?;
            let rest = moved_on(first, position)?;
            wait(Waiting::Items(front, x, first, failure), waiting)?;
            wait(Waiting::Test(CONS, place, failure), waiting)?;
            put(Stmt::Field(rest, place, 2), made)?;
            part(alloc, last, place, 1, failure, numbers, made, waiting)?;
            Ok(())
        }
    }
}
