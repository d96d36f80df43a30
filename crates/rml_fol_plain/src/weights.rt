//! The weights that are met on the way. A weight that no 64 bits hold is answered as want of memory.

ghost use Rattle.std.specs.Prelude.{◌≡◌, ◌+◌, ◌*◌, IfOk, length, sum, map, sum_by};
ghost use Rattle.rml_fol.specs.Patterns.{binds as bound_by};
ghost use Rattle.rml_fol.specs.Expressions.{cells_of as cells_in};
ghost use Rattle.rml_fol.specs.Weights.{entry_weight, match_weight, set_weight, built_in_weight, goto_weight};
ghost use Rattle.rml_fol.specs.Statements.{weight_alone};

use rml_base::Memory;
use rml_builtin::{Row, row_at};
use rml_fol::{Expression, Pattern};
use rml_simulation::Trace;
use sqlite_items::Items;
use std::alloc::Global;

/// A comparison.
pub const EQUAL_WEIGHT: u64 = 14;

/// A call.
pub const CALL_WEIGHT: u64 = 6;

/// A `not`.
pub const NOT_WEIGHT: u64 = 8;

/// The trace of a weight that is met.
pub fn met(alloc: Global, weight: u64) -> Trace
    ensures { result ≡ weight_alone weight }
{
    Trace {
        text: Items::new(alloc),
        made: 0,
        weighed: weight,
    }
}

fn plus(a: u64, b: u64) -> Result<u64, Memory>
    ensures { IfOk result (λ n. n ≡ a + b) }
{
    a.checked_add(b).ok_or(Memory)
}

/// Where a path begins, and so many values are received.
pub fn entry(received: usize) -> Result<u64, Memory>
    ensures { IfOk result (λ w. w ≡ entry_weight received) }
{
    plus(26, received as u64)
}

/// How many variables a pattern binds.
#[cycle(binds)]
fn binds(pattern: &Pattern) -> Result<u64, Memory>
    ensures { IfOk result (λ n. n ≡ bound_by pattern.now) }
{
    match pattern {
        Pattern::Any | Pattern::Lit(_) => Ok(0),
        Pattern::Var(_) => Ok(1),
        Pattern::Con(_, ps) => all_bind(ps.as_slice()),
        Pattern::Tuple(ps) => all_bind(ps.as_slice()),
        Pattern::List(ps) => all_bind(ps.as_slice()),
        Pattern::Cons(ps) => all_bind(ps.as_slice()),
        Pattern::Bind(_, inner) => plus(1, binds(inner.get())?),
    }
}

#[cycle(binds)]
fn all_bind(patterns: &[Pattern]) -> Result<u64, Memory>
    ensures { IfOk result (λ n. n ≡ sum (map bound_by patterns.now)) }
{
    let mut all = 0_u64;
    for pattern in patterns {
        all = plus(all, binds(pattern)?)?;
    }
    Ok(all)
}

/// A pattern that a value is matched with.
pub fn of_match(pattern: &Pattern) -> Result<u64, Memory>
    ensures { IfOk result (λ w. w ≡ match_weight (bound_by pattern.now)) }
{
    plus(14, binds(pattern)?)
}

/// The cells of an expression's blocks.
#[cycle(cells)]
fn cells_of(expression: &Expression) -> Result<u64, Memory>
    ensures { IfOk result (λ n. n ≡ cells_in expression.now) }
{
    match expression {
        Expression::Con(_, es) => {
            if es.is_empty() {
                return Ok(0);
            }
            plus(block(es.len())?, all_cells(es.as_slice())?)
        }
        Expression::Tuple(es) => plus(block(es.len())?, all_cells(es.as_slice())?),
        Expression::List(es) => plus(chain(es.len())?, all_cells(es.as_slice())?),
        Expression::Cons(es) => {
            let heads = es.len().saturating_sub(1);
            plus(chain(heads)?, all_cells(es.as_slice())?)
        }
        _ => Ok(0),
    }
}

#[cycle(cells)]
fn all_cells(expressions: &[Expression]) -> Result<u64, Memory>
    ensures { IfOk result (λ n. n ≡ sum (map cells_in expressions.now)) }
{
    let mut all = 0_u64;
    for expression in expressions {
        all = plus(all, cells_of(expression)?)?;
    }
    Ok(all)
}

/// The cells of a block with so many parts.
fn block(parts: usize) -> Result<u64, Memory>
    ensures { IfOk result (λ n. n ≡ 1 + parts) }
{
    plus(1, parts as u64)
}

/// The cells of so many `::`.
fn chain(items: usize) -> Result<u64, Memory>
    ensures { IfOk result (λ n. n ≡ 3 * items) }
{
    (items as u64).checked_mul(3).ok_or(Memory)
}

/// An expression that is evaluated.
pub fn of_set(expression: &Expression) -> Result<u64, Memory>
    ensures { IfOk result (λ w. w ≡ set_weight (cells_in expression.now)) }
{
    plus(15, cells_of(expression)?)
}

/// A built-in, by its number, with so many results.
pub fn of_built_in(number: u16, results: usize) -> Result<u64, Memory>
    ensures { IfOk result (λ w. w ≡ built_in_weight number results) }
{
    match row_at(number) {
        None => Ok(0),
        Some(Row::Print) => Ok(0),
        Some(_) => plus(15, (results as u64).checked_mul(2).ok_or(Memory)?),
    }
}

/// A `goto` that hands on so many variables.
pub fn of_goto(handed: usize) -> Result<u64, Memory>
    ensures { IfOk result (λ w. w ≡ goto_weight handed) }
{
    plus(14, handed as u64)
}
