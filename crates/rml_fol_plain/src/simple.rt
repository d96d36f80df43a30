//! Statements whose parts are no blocks, where nothing follows them.

ghost use Rattle.std.specs.Prelude.{◌≡◌, IfOk};
ghost use Rattle.rml_fol.specs.declared.statements.Stmt.TheOpen.{Stmt-F};
ghost use Rattle.rml_fol.specs.Statements.{from_match as gone_on, received as received_by, from_built_in as built_in_gave, no_bodies};
ghost use Rattle.rml_fol_plain.specs.Given.{vals_in, ends, does_alone, no_vals, no_calls, equal_in};

use crate::matching::matching;
use crate::state::{State, Tables};
use crate::values::value_of;
use crate::vars::{bind_all, bindings_of, values_of};
use crate::weights::{EQUAL_WEIGHT, met, of_built_in, of_match, of_set};
use rml_base::Memory;
use rml_builtin::{Answer, Applied, Store, apply_at};
use rml_evaluation::{find, found, made_by};
use rml_fol::{Expression, Pattern};
use rml_simulation::{Partial, Trace, no_trace, put_before};
use rml_terms::{Binding, Env, Matched};
use rml_value::equal;
use sqlite_items::Items;
use std::alloc::Global;

fn matched(alloc: Global, matched: Matched, store: Store, n: u32) -> Partial<State>
    ensures { result ≡ gone_on matched (λ e. ends no_bodies e store) n }
{
    match matched {
        Matched::Yes(env) => Partial::Yes(State::of(env, store), no_trace(alloc), n),
        Matched::No => Partial::No(no_trace(alloc), n),
        Matched::Wrong => Partial::GoneWrong(no_trace(alloc)),
    }
}

/// A pattern against what a variable stands for.
#[tactic(auto, using(rml_evaluation::proofs::Callers::joined_nothing))]
pub fn matches(
    alloc: Global,
    x: u32,
    pattern: &Pattern,
    env: Env,
    store: Store,
    n: u32,
) -> Result<Partial<State>, Memory>
    ensures { IfOk result (λ w. w ≡ does_alone no_vals no_calls (Stmt-F.Match x pattern.now) env store n) }
{
    let weight = met(alloc, of_match(pattern)?);
    match found(alloc, x, env.as_slice())? {
        None => Ok(Partial::GoneWrong(weight)),
        Some(value) => {
            let outcome = matching(alloc, pattern, &value, env)?;
            put_before(weight, matched(alloc, outcome, store, n))
        }
    }
}

/// A variable that stands for the value of an expression.
#[tactic(auto, using(rml_evaluation::proofs::Callers::joined_nothing))]
pub fn set(
    alloc: Global,
    tables: &Tables,
    x: u32,
    expression: &Expression,
    env: Env,
    store: Store,
    n: u32,
) -> Result<Partial<State>, Memory>
    ensures { IfOk result (λ w. w ≡ does_alone (vals_in tables.now) no_calls (Stmt-F.Set x expression.now) env store n) }
{
    let weight = met(alloc, of_set(expression)?);
    match value_of(alloc, tables, expression, env.as_slice())? {
        None => Ok(Partial::GoneWrong(weight)),
        Some(value) => {
            let mut env = env;
            env.push(Binding { var: x, value })?;
            Ok(Partial::Yes(State::of(env, store), weight, n))
        }
    }
}

/// Results are bound to variables.
pub fn received(
    alloc: Global,
    ys: &[u32],
    env: Env,
    answer: Answer,
    n: u32,
) -> Result<Partial<State>, Memory>
    ensures { IfOk result (λ w. w ≡ received_by ys.now (ends no_bodies) env answer n) }
{
    let Answer { values, store } = answer;
    match bind_all(alloc, ys, values.as_slice(), env)? {
        None => Ok(Partial::GoneWrong(no_trace(alloc))),
        Some(env) => Ok(Partial::Yes(State::of(env, store), no_trace(alloc), n)),
    }
}

/// What a built-in gave, and its results bound to variables.
fn built(
    alloc: Global,
    number: u16,
    ys: &[u32],
    env: Env,
    applied: Applied,
    n: u32,
) -> Result<Partial<State>, Memory>
    ensures { IfOk result (λ w. w ≡ built_in_gave number ys.now (ends no_bodies) env applied n) }
{
    match applied {
        Applied::Yes(answer, text) => {
            let trace = Trace {
                text: Items::from_slice(alloc, text.as_slice())?,
                made: made_by(number, answer.values.as_slice())?,
                weighed: 0,
            };
            put_before(trace, received(alloc, ys, env, answer, n)?)
        }
        Applied::No => Ok(Partial::No(no_trace(alloc), n)),
        Applied::Wrong => Ok(Partial::GoneWrong(no_trace(alloc))),
    }
}

/// A built-in, by its number, on variables.
#[tactic(auto, using(rml_evaluation::proofs::Callers::joined_nothing))]
pub fn built_in(
    alloc: Global,
    number: u16,
    xs: &[u32],
    ys: &[u32],
    env: Env,
    store: Store,
    n: u32,
) -> Result<Partial<State>, Memory>
    ensures { IfOk result (λ w. w ≡ does_alone no_vals no_calls (Stmt-F.Builtin number xs.now ys.now) env store n) }
{
    let weight = met(alloc, of_built_in(number, ys.len())?);
    match values_of(alloc, xs, env.as_slice())? {
        None => Ok(Partial::GoneWrong(weight)),
        Some(values) => {
            let applied = apply_at(alloc, number, values.as_slice(), store)?;
            put_before(weight, built(alloc, number, ys, env, applied, n)?)
        }
    }
}

/// Whether two variables stand for one value. None where one of them stands for nothing.
fn are_equal(x: u32, y: u32, env: &[Binding]) -> Option<bool>
    ensures { result ≡ equal_in x y env.now }
{
    match find(x, env) {
        None => None,
        Some(v) => match find(y, env) {
            None => None,
            Some(w) => Some(equal(v, w)),
        },
    }
}

/// Two variables that stand for one value.
#[tactic(auto, using(rml_evaluation::proofs::Callers::joined_nothing))]
pub fn equals(
    alloc: Global,
    x: u32,
    y: u32,
    env: Env,
    store: Store,
    n: u32,
) -> Result<Partial<State>, Memory>
    ensures { IfOk result (λ w. w ≡ does_alone no_vals no_calls (Stmt-F.Equal x y) env store n) }
{
    let weight = met(alloc, EQUAL_WEIGHT);
    match are_equal(x, y, env.as_slice()) {
        None => Ok(Partial::GoneWrong(weight)),
        Some(true) => Ok(Partial::Yes(State::of(env, store), weight, n)),
        Some(false) => Ok(Partial::No(weight, n)),
    }
}

/// The answer of a block.
pub fn give(
    alloc: Global,
    xs: &[u32],
    env: &[Binding],
    store: Store,
    n: u32,
) -> Result<Partial<State>, Memory>
    ensures { IfOk result (λ w. w ≡ does_alone no_vals no_calls (Stmt-F.Give xs.now) env.now store n) }
{
    match bindings_of(alloc, xs, env)? {
        None => Ok(Partial::GoneWrong(no_trace(alloc))),
        Some(all) => Ok(Partial::Yes(State::of(all, store), no_trace(alloc), n)),
    }
}
