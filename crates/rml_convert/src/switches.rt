//! A `switch`: the block behind all cases first, and then the cases from the last to the first.

ghost use Rattle.std.specs.Prelude.{◌≡◌, ◌+◌, ◌<◌, ◌≤◌, OnOk, IfOk, map, sum_by};
ghost use Rattle.rml_tocps.specs.declared.pass.numbers.Numbers.{Numbers};
ghost use Rattle.rml_conversion.specs.Hand.{hand};
ghost use Rattle.rml_conversion.specs.Statements.{block_of, cased, fields_made, closed_case, all_cases, switched, switch_rest, stmt_made, case_made, with_case};
ghost use Rattle.rml_convert.specs.Waiting.{all_made, work, stmts_work, cases_work};

use crate::building::{closed, counted, only_line, put};
use crate::waiting::{Waiting, wait};
use rml_base::Memory;
use rml_copies::copy_tag;
use rml_cps::{Block, Case, Continuation, Stmt};
use rml_fol::{Case as Choice, Stmt as Clause};
use sqlite_items::Items;
use std::alloc::Global;

/// The block behind all cases, and the cases wait.
pub fn switch<'a>(
    alloc: Global,
    x: u32,
    choices: &'a [Choice],
    otherwise: &'a [Clause],
    failure: Continuation,
    made: &mut Vec<Stmt>,
    waiting: &mut Vec<Waiting<'a>>,
) -> Result<(), Memory>
    ensures made { OnOk result ((n : Numbers) → all_made waiting.new.items (hand made.new.items n) ≡ all_made waiting.old.items (switch_rest x (map case_made choices.now) failure (block_of (map stmt_made otherwise.now) failure n))) }
    ensures work { OnOk result (sum_by work waiting.new.items ≤ 1 + cases_work choices.now + stmts_work otherwise.now + sum_by work waiting.old.items) }
{
    *made = Vec::new(alloc);
    wait(Waiting::Otherwise(x, choices, failure), waiting)?;
    wait(Waiting::Stmts(otherwise, failure), waiting)
}

/// The last of some cases, and those before it wait; or, where there is none, all.
pub fn last_case<'a>(
    alloc: Global,
    x: u32,
    choices: &'a [Choice],
    failure: Continuation,
    otherwise: Block,
    mut cases: Vec<Case>,
    made: &mut Vec<Stmt>,
    waiting: &mut Vec<Waiting<'a>>,
) -> Result<(), Memory>
    ensures made { OnOk result ((n : Numbers) → all_made waiting.new.items (hand made.new.items n) ≡ all_made waiting.old.items (switched x otherwise (all_cases (map case_made choices.now) x failure (cased cases.items n)))) }
    ensures work { OnOk result (sum_by work waiting.new.items ≤ cases_work choices.now + sum_by work waiting.old.items) }
{
    match choices {
        [] => {
            cases.reverse();
            only_line(
                alloc,
                Stmt::Switch(x, Items::from_vec(cases), otherwise),
                made,
            )
        }
        [front @ .., last] => {
            *made = Vec::new(alloc);
            wait(
                Waiting::Cases(x, last, front, failure, otherwise, cases),
                waiting,
            )?;
            wait(Waiting::Stmts(last.block.as_slice(), failure), waiting)?;
            Ok(())
        }
    }
}

/// The arguments of what a variable stands for, each in a variable.
fn fields(x: u32, vars: &[u32], made: &mut Vec<Stmt>) -> Result<(), Memory>
    ensures { OnOk result (made.new.items ≡ fields_made x 1 vars.now made.old.items) }
{
    let mut left = counted(vars)?;
    while left > 0 {
        let number = left;
        left -= 1;
        put(Stmt::Field(vars[left as usize], x, number), made)?;
    }
    Ok(())
}

/// The case of which the block is made.
fn close_case(alloc: Global, x: u32, choice: &Choice, made: &mut Vec<Stmt>) -> Result<Case, Memory>
    ensures { IfOk result (λ k. k ≡ closed_case (case_made choice.now) x made.old.items) }
{
    let tag = copy_tag(alloc, &choice.tag)?;
    fields(x, choice.vars.as_slice(), made)?;
    let block = closed(alloc, made);
    Ok(Case { tag, block })
}

/// The block behind all cases is made; now the last case.
pub fn first_of_all<'a>(
    alloc: Global,
    x: u32,
    choices: &'a [Choice],
    failure: Continuation,
    made: &mut Vec<Stmt>,
    waiting: &mut Vec<Waiting<'a>>,
) -> Result<(), Memory>
    ensures made { OnOk result ((n : Numbers) → all_made waiting.new.items (hand made.new.items n) ≡ all_made waiting.old.items (switch_rest x (map case_made choices.now) failure (hand made.old.items n))) }
    ensures work { OnOk result (sum_by work waiting.new.items ≤ cases_work choices.now + sum_by work waiting.old.items) }
{
    let otherwise = closed(alloc, made);
    last_case(
        alloc,
        x,
        choices,
        failure,
        otherwise,
        Vec::new(alloc),
        made,
        waiting,
    )
}

/// The block of a case is made; now the case before it.
pub fn one_case<'a>(
    alloc: Global,
    x: u32,
    choice: &'a Choice,
    choices: &'a [Choice],
    failure: Continuation,
    otherwise: Block,
    mut cases: Vec<Case>,
    made: &mut Vec<Stmt>,
    waiting: &mut Vec<Waiting<'a>>,
) -> Result<(), Memory>
    ensures made { OnOk result ((n : Numbers) → all_made waiting.new.items (hand made.new.items n) ≡ all_made waiting.old.items (switched x otherwise (all_cases (map case_made choices.now) x failure (with_case (case_made choice.now) x cases.items (hand made.old.items n))))) }
    ensures work { OnOk result (sum_by work waiting.new.items ≤ cases_work choices.now + sum_by work waiting.old.items) }
{
    let case = close_case(alloc, x, choice, made)?;
    cases.push(case)?;
    last_case(alloc, x, choices, failure, otherwise, cases, made, waiting)
}
