//! Whether the rules and calls of a program agree on how many values relations take and give. Typing tells it of every program that
//! passes it; this test is for programs that are made by hand.

ghost use Rattle.std.specs.Prelude.{◌≡◌, slice_get};
ghost use Rattle.std.specs.List.{list_all};
ghost use Rattle.rml_builtin.specs.declared.row.TheConstants.{ROWS};
ghost use Rattle.rml_fol.specs.Fits.{takes_and_gives, row_takes_and_gives, main_fits};
ghost use Rattle.rml_clauses.specs.Agrees.{shape, shapes_of, callee_agrees, goal_agrees, rule_agrees, relation_agrees, counts_agree};

use crate::shapes::{given_by, taken_by};
use rml_builtin::{builtin, row_at};
use rml_resolved::{Callee, Program, RGoal, RRule, RelDef};
use sqlite_items::at;

/// Whether a relation is there and takes and gives so many values.
fn relation_has(rels: &[RelDef], number: u32, taken: usize, given: usize) -> bool
    ensures { result ≡ takes_and_gives taken given (slice_get (shapes_of rels.now) number) }
{
    match at(rels, number as usize) {
        None => false,
        Some(def) => {
            let params = taken_by(def);
            let results = given_by(def);
            params == taken && results == given
        }
    }
}

/// Whether a built-in is there and takes and gives so many values.
fn built_in_has(number: u16, taken: usize, given: usize) -> bool
    ensures { result ≡ row_takes_and_gives taken given (slice_get ROWS number) }
{
    match row_at(number) {
        None => false,
        Some(_) => {
            let row = builtin(number);
            row.inputs as usize == taken && row.outputs as usize == given
        }
    }
}

fn callee_has(rels: &[RelDef], callee: Callee, taken: usize, given: usize) -> bool
    ensures { result ≡ callee_agrees (shapes_of rels.now) taken given callee }
{
    match callee {
        Callee::Rel(r) => relation_has(rels, r, taken, given),
        Callee::Built(number) => built_in_has(number, taken, given),
        Callee::Var(_) => true,
        Callee::Val(_) => true,
    }
}

#[cycle(goals)]
fn does_goal_agree(rels: &[RelDef], goal: &RGoal) -> bool
    ensures { result ≡ goal_agrees (shapes_of rels.now) goal.now }
{
    match goal {
        RGoal::Call(callee, es, ps) => callee_has(rels, *callee, es.len(), ps.len()),
        RGoal::Equal(_, _) => true,
        RGoal::Let(_, _) => true,
        RGoal::Not(inner) => does_goal_agree(rels, inner.get()),
        RGoal::All(goals) => do_goals_agree(rels, goals.as_slice()),
    }
}

#[cycle(goals)]
fn do_goals_agree(rels: &[RelDef], goals: &[RGoal]) -> bool
    ensures { result ≡ list_all (goal_agrees (shapes_of rels.now)) goals.now }
{
    for goal in goals {
        if !does_goal_agree(rels, goal) {
            return false;
        }
    }
    true
}

/// Whether a rule takes and gives so many values, and its calls agree.
fn does_rule_agree(rels: &[RelDef], def: &RelDef, rule: &RRule) -> bool
    ensures { result ≡ rule_agrees (shapes_of rels.now) (shape def.now) rule.now }
{
    rule.inputs.len() == taken_by(def)
        && rule.results.len() == given_by(def)
        && do_goals_agree(rels, rule.goals.as_slice())
}

fn does_relation_agree(rels: &[RelDef], def: &RelDef) -> bool
    ensures { result ≡ relation_agrees (shapes_of rels.now) def.now }
{
    def.rules
        .as_slice()
        .iter()
        .all(|rule| does_rule_agree(rels, def, rule))
}

fn do_all_agree(rels: &[RelDef]) -> bool
    ensures { result ≡ list_all (relation_agrees (shapes_of rels.now)) rels.now }
{
    rels.iter().all(|def| does_relation_agree(rels, def))
}

/// Whether a relation takes one value and gives one, or, where no integer is wanted, none.
fn can_be_main(rels: &[RelDef], number: u32, gives: bool) -> bool
    ensures { result ≡ main_fits gives (slice_get (shapes_of rels.now) number) }
{
    if gives {
        relation_has(rels, number, 1, 1)
    } else {
        relation_has(rels, number, 1, 0)
    }
}

/// Whether the rules of each relation take and give as many values, calls have as many as what they call, and `main` takes one and gives
/// one where it gives an integer, and else none.
pub fn do_counts_agree(program: &Program) -> bool
    ensures { result ≡ counts_agree program.now }
{
    let rels = program.rels.as_slice();
    do_all_agree(rels) && can_be_main(rels, program.main, program.gives)
}
