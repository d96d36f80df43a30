//! The plain search. It owns what it holds, and copies it where a rule or a `not` may have to go back.

ghost use Rattle.std.specs.Prelude.{◌≡◌, ◌≤◌, IfOk, sum_by};
ghost use Rattle.rml_simulation.specs.Partial.{then_go};
ghost use Rattle.rml_search.specs.Size.{goals_size, relations_size};
ghost use Rattle.rml_search.specs.Given.{context_in, relations_in};
ghost use Rattle.rml_search.specs.Whole.{rules_of};
ghost use Rattle.rml_search.specs.Search.{step_trace, weighted_step, goes_on, answer, taken as taken_by, from_match, from_built_in, relation_of, relation_called, call as call_of, going, going_all, called as called_by, try, by_rule as rule_gives, search_in};

use crate::patterns::{match_each, matching};
use crate::state::State;
use crate::tables::Tables;
use crate::values::{val_of, value_of, values_of};
use rml_base::Memory;
use rml_builtin::{Answer, Applied, Store, apply_at};
use rml_evaluation::{copy_env, copy_store, find, made_by, relation_named};
use rml_resolved::{Callee, RExp, RGoal, RPat, RRule};
use rml_simulation::{Partial, Trace, join, no_trace, put_before};
use rml_terms::{Binding, Env, Matched};
use rml_value::{Value, equal};
use sqlite_items::{Items, at};
use std::alloc::Global;

/// The trace of a step.
fn weight_of_step(alloc: Global, tables: &Tables) -> Trace
    ensures { result ≡ step_trace tables.now.step_weight }
{
    Trace {
        text: Items::new(alloc),
        made: 0,
        weighed: tables.step_weight,
    }
}

fn matched(alloc: Global, matched: Matched, store: Store, n: u32) -> Partial<State>
    ensures { result ≡ from_match matched store n }
{
    match matched {
        Matched::Yes(env) => Partial::Yes(State { env, store }, no_trace(alloc), n),
        Matched::No => Partial::No(no_trace(alloc), n),
        Matched::Wrong => Partial::GoneWrong(no_trace(alloc)),
    }
}

/// The results of a call against its patterns.
fn taken(
    alloc: Global,
    tables: &Tables,
    patterns: &[RPat],
    env: Env,
    given: Answer,
    n: u32,
) -> Result<Partial<State>, Memory>
    ensures { IfOk result (λ w. w ≡ taken_by (context_in tables.now) patterns.now env given n) }
{
    let Answer { values, store } = given;
    let outcome = match_each(alloc, tables.names, patterns, values.as_slice(), env)?;
    Ok(matched(alloc, outcome, store, n))
}

/// What a built-in gave, and its results against the patterns.
#[tactic(auto, using(crate::proofs::Traces::trace_rules))]
fn taken_from(
    alloc: Global,
    tables: &Tables,
    number: u16,
    patterns: &[RPat],
    env: Env,
    given: Applied,
    n: u32,
) -> Result<Partial<State>, Memory>
    ensures { IfOk result (λ w. w ≡ from_built_in (context_in tables.now) number patterns.now env given n) }
{
    match given {
        Applied::Yes(answer, text) => {
            let trace = Trace {
                text: Items::from_slice(alloc, text.as_slice())?,
                made: made_by(number, answer.values.as_slice())?,
                weighed: 0,
            };
            put_before(trace, taken(alloc, tables, patterns, env, answer, n)?)
        }
        Applied::No => Ok(Partial::No(no_trace(alloc), n)),
        Applied::Wrong => Ok(Partial::GoneWrong(no_trace(alloc))),
    }
}

/// The values of a rule's results, and a step for the answer.
#[tactic(auto, using(crate::proofs::Traces::trace_rules))]
fn answered(
    alloc: Global,
    tables: &Tables,
    results: &[RExp],
    state: State,
    n: u32,
) -> Result<Partial<Answer>, Memory>
    ensures { IfOk result (λ w. w ≡ answer (context_in tables.now) results.now state n) }
{
    let State { env, store } = state;
    match values_of(alloc, tables, results, env.as_slice())? {
        None => Ok(Partial::GoneWrong(no_trace(alloc))),
        Some(values) => {
            if n == 0 {
                return Ok(Partial::CutOff(no_trace(alloc)));
            }
            let answer = Answer { values, store };
            Ok(Partial::Yes(answer, weight_of_step(alloc, tables), n - 1))
        }
    }
}

/// The step of a `not` whose goal has no answer.
#[tactic(auto, using(crate::proofs::Traces::trace_rules))]
fn denied(alloc: Global, tables: &Tables, env: Env, store: Store, n: u32) -> Partial<State>
    ensures { result ≡ weighted_step tables.now.step_weight (goes_on env store) n }
{
    if n == 0 {
        return Partial::CutOff(no_trace(alloc));
    }
    let state = State { env, store };
    Partial::Yes(state, weight_of_step(alloc, tables), n - 1)
}

/// The relation that is called.
fn relation(
    alloc: Global,
    tables: &Tables,
    callee: Callee,
    env: &[Binding],
) -> Result<Option<u32>, Memory>
    ensures { IfOk result (λ r. r ≡ relation_of (context_in tables.now) callee env.now) }
{
    match callee {
        Callee::Rel(r) => Ok(Some(r)),
        Callee::Built(_) => Ok(None),
        Callee::Var(x) => match find(x, env) {
            Some(value) => Ok(relation_named(value)),
            None => Ok(None),
        },
        Callee::Val(k) => match val_of(alloc, tables, k)? {
            Some(value) => Ok(relation_named(&value)),
            None => Ok(None),
        },
    }
}

/// A relation on values: its rules from top to bottom.
#[cycle(search)]
fn by_relation(
    alloc: Global,
    tables: &Tables,
    rel: u32,
    args: &[Value],
    store: &[Option<Value>],
    n: u32,
    depth: u32,
) -> Result<Partial<Answer>, Memory>
    ensures { IfOk result (λ w. w ≡ relations_in tables.now depth rel (record { values = args.now; store = store.now }) n) }
{
    if depth == 0 {
        return Ok(Partial::CutOff(no_trace(alloc)));
    }
    match at(tables.rels, rel as usize) {
        None => Ok(Partial::No(no_trace(alloc), n)),
        Some(def) => {
            let rules = def.rules.as_slice();
            by_rules(alloc, tables, rules, args, store, n, depth - 1)
        }
    }
}

/// Rules from top to bottom, each from the same store, up to the first that answers.
#[cycle(search)]
#[tactic(auto, using(crate::proofs::Traces::trace_rules))]
fn by_rules(
    alloc: Global,
    tables: &Tables,
    rules: &[RRule],
    args: &[Value],
    store: &[Option<Value>],
    n: u32,
    depth: u32,
) -> Result<Partial<Answer>, Memory>
    requires { sum_by goals_size rules.now ≤ relations_size tables.now.rels.now }
    ensures { IfOk result (λ w. w ≡ try (context_in tables.now) (relations_in tables.now depth) rules.now (record { values = args.now; store = store.now }) n) }
{
    let mut trace = no_trace(alloc);
    let mut left = n;
    for rule in rules {
        if left == 0 {
            return Ok(Partial::CutOff(trace));
        }
        let begun = join(trace, weight_of_step(alloc, tables))?;
        let own = copy_store(alloc, store)?;
        match by_rule(alloc, tables, rule, args, own, left - 1, depth)? {
            Partial::Yes(a, more, m) => return Ok(Partial::Yes(a, join(begun, more)?, m)),
            Partial::No(more, m) => {
                trace = join(begun, more)?;
                left = m;
            }
            Partial::CutOff(more) => return Ok(Partial::CutOff(join(begun, more)?)),
            Partial::GoneWrong(more) => return Ok(Partial::GoneWrong(join(begun, more)?)),
        }
    }
    Ok(Partial::No(trace, left))
}

/// A rule's head, its premises and its results.
#[cycle(search)]
fn by_rule(
    alloc: Global,
    tables: &Tables,
    rule: &RRule,
    args: &[Value],
    store: Store,
    n: u32,
    depth: u32,
) -> Result<Partial<Answer>, Memory>
    requires { goals_size rule.now ≤ relations_size tables.now.rels.now }
    ensures { IfOk result (λ w. w ≡ rule_gives (context_in tables.now) (relations_in tables.now depth) rule.now (record { values = args.now; store = store }) n) }
{
    let inputs = rule.inputs.as_slice();
    match match_each(alloc, tables.names, inputs, args, Items::new(alloc))? {
        Matched::Wrong => Ok(Partial::GoneWrong(no_trace(alloc))),
        Matched::No => Ok(Partial::No(no_trace(alloc), n)),
        Matched::Yes(env) => after_head(alloc, tables, rule, env, store, n, depth),
    }
}

/// A rule's premises and its results.
#[cycle(search)]
fn after_head(
    alloc: Global,
    tables: &Tables,
    rule: &RRule,
    env: Env,
    store: Store,
    n: u32,
    depth: u32,
) -> Result<Partial<Answer>, Memory>
    requires { goals_size rule.now ≤ relations_size tables.now.rels.now }
    ensures { IfOk result (λ w. w ≡ then_go (going_all (context_in tables.now) (relations_in tables.now depth) rule.now.goals env store n) (answer (context_in tables.now) rule.now.results)) }
{
    let goals = rule.goals.as_slice();
    match go_all(alloc, tables, goals, env, store, n, depth)? {
        Partial::Yes(state, trace, m) => {
            let results = rule.results.as_slice();
            put_before(trace, answered(alloc, tables, results, state, m)?)
        }
        Partial::No(trace, m) => Ok(Partial::No(trace, m)),
        Partial::CutOff(trace) => Ok(Partial::CutOff(trace)),
        Partial::GoneWrong(trace) => Ok(Partial::GoneWrong(trace)),
    }
}

/// Goals from left to right.
#[cycle(search)]
#[tactic(auto, using(crate::proofs::Traces::trace_rules))]
fn go_all(
    alloc: Global,
    tables: &Tables,
    goals: &[RGoal],
    env: Env,
    store: Store,
    n: u32,
    depth: u32,
) -> Result<Partial<State>, Memory>
    ensures { IfOk result (λ w. w ≡ going_all (context_in tables.now) (relations_in tables.now depth) goals.now env store n) }
{
    let mut env = env;
    let mut store = store;
    let mut trace = no_trace(alloc);
    let mut left = n;
    for goal in goals {
        match go(alloc, tables, goal, env, store, left, depth)? {
            Partial::Yes(state, more, m) => {
                env = state.env;
                store = state.store;
                trace = join(trace, more)?;
                left = m;
            }
            Partial::No(more, m) => return Ok(Partial::No(join(trace, more)?, m)),
            Partial::CutOff(more) => return Ok(Partial::CutOff(join(trace, more)?)),
            Partial::GoneWrong(more) => return Ok(Partial::GoneWrong(join(trace, more)?)),
        }
    }
    Ok(Partial::Yes(State { env, store }, trace, left))
}

/// A goal.
#[cycle(search)]
#[tactic(auto, using(crate::proofs::Traces::trace_rules))]
fn go(
    alloc: Global,
    tables: &Tables,
    goal: &RGoal,
    env: Env,
    store: Store,
    n: u32,
    depth: u32,
) -> Result<Partial<State>, Memory>
    ensures { IfOk result (λ w. w ≡ going (context_in tables.now) (relations_in tables.now depth) goal.now env store n) }
{
    match goal {
        RGoal::Call(callee, exps, patterns) => {
            match values_of(alloc, tables, exps.as_slice(), env.as_slice())? {
                None => Ok(Partial::GoneWrong(no_trace(alloc))),
                Some(args) => {
                    let patterns = patterns.as_slice();
                    let args = args.as_slice();
                    called(alloc, tables, *callee, args, patterns, env, store, n, depth)
                }
            }
        }
        RGoal::Equal(a, b) => match value_of(alloc, tables, a, env.as_slice())? {
            None => Ok(Partial::GoneWrong(no_trace(alloc))),
            Some(v) => match value_of(alloc, tables, b, env.as_slice())? {
                None => Ok(Partial::GoneWrong(no_trace(alloc))),
                Some(w) => {
                    if equal(&v, &w) {
                        Ok(Partial::Yes(State { env, store }, no_trace(alloc), n))
                    } else {
                        Ok(Partial::No(no_trace(alloc), n))
                    }
                }
            },
        },
        RGoal::Let(pattern, exp) => match value_of(alloc, tables, exp, env.as_slice())? {
            None => Ok(Partial::GoneWrong(no_trace(alloc))),
            Some(v) => {
                let outcome = matching(alloc, tables.names, pattern, &v, env)?;
                Ok(matched(alloc, outcome, store, n))
            }
        },
        RGoal::Not(inner) => {
            let own_env = copy_env(alloc, env.as_slice())?;
            let own = copy_store(alloc, store.as_slice())?;
            match go(alloc, tables, inner.get(), own_env, own, n, depth)? {
                Partial::Yes(_, trace, m) => Ok(Partial::No(trace, m)),
                Partial::No(trace, m) => put_before(trace, denied(alloc, tables, env, store, m)),
                Partial::CutOff(trace) => Ok(Partial::CutOff(trace)),
                Partial::GoneWrong(trace) => Ok(Partial::GoneWrong(trace)),
            }
        }
        RGoal::All(goals) => go_all(alloc, tables, goals.as_slice(), env, store, n, depth),
    }
}

/// A call with the values of its arguments.
#[cycle(search)]
fn called(
    alloc: Global,
    tables: &Tables,
    callee: Callee,
    args: &[Value],
    patterns: &[RPat],
    env: Env,
    store: Store,
    n: u32,
    depth: u32,
) -> Result<Partial<State>, Memory>
    ensures { IfOk result (λ w. w ≡ called_by (context_in tables.now) (relations_in tables.now depth) callee args.now patterns.now env store n) }
{
    match callee {
        Callee::Built(number) => {
            let given = apply_at(alloc, number, args, store)?;
            taken_from(alloc, tables, number, patterns, env, given, n)
        }
        _ => {
            let rel = relation(alloc, tables, callee, env.as_slice())?;
            called_at(alloc, tables, rel, args, patterns, env, store, n, depth)
        }
    }
}

/// A relation on values, and its results.
#[cycle(search)]
#[tactic(auto, using(crate::proofs::Traces::trace_rules))]
fn called_at(
    alloc: Global,
    tables: &Tables,
    rel: Option<u32>,
    args: &[Value],
    patterns: &[RPat],
    env: Env,
    store: Store,
    n: u32,
    depth: u32,
) -> Result<Partial<State>, Memory>
    ensures { IfOk result (λ w. w ≡ relation_called (context_in tables.now) (relations_in tables.now depth) rel args.now patterns.now env store n) }
{
    match call(alloc, tables, rel, args, store.as_slice(), n, depth)? {
        Partial::Yes(given, trace, m) => {
            put_before(trace, taken(alloc, tables, patterns, env, given, m)?)
        }
        Partial::No(trace, m) => Ok(Partial::No(trace, m)),
        Partial::CutOff(trace) => Ok(Partial::CutOff(trace)),
        Partial::GoneWrong(trace) => Ok(Partial::GoneWrong(trace)),
    }
}

/// A call: a step, and then the relation.
#[cycle(search)]
#[tactic(auto, using(crate::proofs::Traces::trace_rules))]
fn call(
    alloc: Global,
    tables: &Tables,
    rel: Option<u32>,
    args: &[Value],
    store: &[Option<Value>],
    n: u32,
    depth: u32,
) -> Result<Partial<Answer>, Memory>
    ensures { IfOk result (λ w. w ≡ call_of (context_in tables.now) (relations_in tables.now depth) rel (record { values = args.now; store = store.now }) n) }
{
    if n == 0 {
        return Ok(Partial::CutOff(no_trace(alloc)));
    }
    let begun = weight_of_step(alloc, tables);
    match rel {
        None => Ok(Partial::GoneWrong(begun)),
        Some(rel) => {
            let part = by_relation(alloc, tables, rel, args, store, n - 1, depth)?;
            put_before(begun, part)
        }
    }
}

/// The call of a relation from an empty store, in at most `n` steps.
#[tactic(auto, using(crate::proofs::Traces::call_by_steps))]
pub fn search_from(
    alloc: Global,
    tables: &Tables,
    rel: u32,
    args: &[Value],
    n: u32,
) -> Result<Partial<Answer>, Memory>
    ensures { IfOk result (λ w. w ≡ search_in (context_in tables.now) (rules_of tables.now.rels.now) rel args.now n) }
{
    call(alloc, tables, Some(rel), args, &[], n, n)
}
