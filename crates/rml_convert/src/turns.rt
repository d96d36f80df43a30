//! One turn: what waits last is done with what is in hand.

ghost use Rattle.std.specs.Prelude.{◌≡◌, ◌+◌, ◌<◌, OnOk, IfOk, sum_by};
ghost use Rattle.rml_conversion.specs.Hand.{hand, empty};
ghost use Rattle.rml_convert.specs.Waiting.{stmts_in_front, waiting_made, all_made, work};

use crate::building::{put, test};
use crate::patterns::{last_item, last_part, whole};
use crate::statements::{cond_rest, last_stmt, name_block, one_more};
use crate::switches::{first_of_all, one_case};
use crate::waiting::Waiting;
use rml_base::Memory;
use rml_cps::{Continuation, Stmt};
use rml_fol::{Stmt as Clause, Tag};
use rml_tocps::Numbers;
use std::alloc::Global;

/// Does what comes next with what is in hand.
fn turn<'a>(
    alloc: Global,
    next: Waiting<'a>,
    numbers: &mut Numbers,
    made: &mut Vec<Stmt>,
    waiting: &mut Vec<Waiting<'a>>,
) -> Result<(), Memory>
    ensures made { OnOk result (all_made waiting.new.items (hand made.new.items numbers.new) ≡ all_made waiting.old.items (waiting_made next.entry (hand made.old.items numbers.old))) }
    ensures work { OnOk result (sum_by work waiting.new.items < work next.entry + sum_by work waiting.old.items) }
{
    match next {
        Waiting::Stmts(stmts, failure) => {
            last_stmt(alloc, stmts, failure, numbers, made, waiting)
        }
        Waiting::Line(line) => put(line, made),
        Waiting::Test(c, x, failure) => test(alloc, Tag::Con(c), x, failure, *numbers, made),
        Waiting::Others(alternatives, failure) => {
            one_more(alloc, alternatives, failure, numbers, made, waiting)
        }
        Waiting::Cond(name, first, second, failure) => {
            cond_rest(alloc, name, first, second, failure, made, waiting)
        }
        Waiting::Otherwise(x, choices, failure) => {
            first_of_all(alloc, x, choices, failure, made, waiting)
        }
        Waiting::Cases(x, choice, choices, failure, otherwise, cases) => {
            one_case(
                alloc, x, choice, choices, failure, otherwise, cases, made, waiting,
            )
        }
        Waiting::Named(j, xs, name, rest) => {
            name_block(alloc, j, xs, name, rest, made)?;
            Ok(())
        }
        Waiting::Whole(pattern, x, failure) => {
            whole(alloc, pattern, x, failure, numbers, made, waiting)
        }
        Waiting::Parts(patterns, x, failure) => {
            last_part(alloc, patterns, x, failure, numbers, made, waiting)
        }
        Waiting::Items(patterns, x, first, failure) => {
            last_item(alloc, patterns, x, first, failure, numbers, made, waiting)
        }
    }
}

/// A block, told what follows its failure: its lines, of which the last is the first.
pub fn block(
    alloc: Global,
    stmts: &[Clause],
    failure: Continuation,
    numbers: &mut Numbers,
) -> Result<Vec<Stmt>, Memory>
    ensures { IfOk result (λ made. hand made.items numbers.new ≡ stmts_in_front stmts.now failure (empty numbers.old)) }
{
    let mut made = Vec::new(alloc);
    let mut waiting = Vec::new(alloc);
    waiting.push(Waiting::Stmts(stmts, failure))?;
    while let Some(next) = waiting.pop() {
        turn(alloc, next, numbers, &mut made, &mut waiting)?;
    }
    Ok(made)
}
