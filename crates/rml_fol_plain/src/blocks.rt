//! Blocks, and what relations do. A block owns what it holds, and copies it where an alternative or a `not` may have to go back.

ghost use Rattle.std.specs.Prelude.{◌≡◌, [], IfOk};
ghost use Rattle.rml_simulation.specs.Partial.{take_step};
ghost use Rattle.rml_value.specs.declared.value.Value.{out-Value};
ghost use Rattle.rml_fol.specs.declared.statements.Stmt.{out-Stmt};
ghost use Rattle.rml_fol.specs.declared.statements.Stmt.TheOpen.{Stmt-F};
ghost use Rattle.rml_fol.specs.Relations.{answered as answered_by, relations};
ghost use Rattle.rml_fol.specs.Statements.{is_of_kind as of_kind, has_tag as tagged, arguments_at, relation_of, call as call_of, no_bodies, retried as tried_again};
ghost use Rattle.rml_fol_plain.specs.Given.{vals_in, calls_in, ends, does_alone, alone, block_in, known, is_last_at, not_alone, in_order_in, cond_in, switched_in, chosen_in, goto_in, are_of_kind as kind_of_first};

use crate::named::{Named, copy_named};
use crate::simple::{built_in, equals, give, matches, received, set};
use crate::state::{State, Tables};
use crate::vars::{bind_all, parameters, values_in, values_of};
use crate::weights::{CALL_WEIGHT, NOT_WEIGHT, entry, met, of_goto};
use rml_base::Memory;
use rml_builtin::{Answer, Store};
use rml_evaluation::{copy_env, copy_store, find, found, relation_named};
use rml_fol::{Alternative, Callee, Case, Literal, Stmt, Tag};
use rml_simulation::{Partial, join, no_trace, put_before};
use rml_terms::{Binding, Env};
use rml_value::Value;
use sqlite_items::{Items, at};
use std::alloc::Global;

/// Whether nothing may follow a statement in its block.
fn is_last(stmt: &Stmt) -> bool
    ensures { result ≡ is_last_at (out-Stmt stmt.now) }
{
    match stmt {
        Stmt::Or(_) | Stmt::Cond(_, _, _) | Stmt::Switch(_, _, _) => true,
        Stmt::Goto(_, _) | Stmt::Give(_) | Stmt::Fail => true,
        _ => false,
    }
}

/// The relation that is called.
fn relation(callee: Callee, env: &[Binding]) -> Option<u32>
    ensures { result ≡ relation_of callee env.now }
{
    match callee {
        Callee::Rel(r) => Some(r),
        Callee::Var(x) => match find(x, env) {
            Some(value) => relation_named(value),
            None => None,
        },
    }
}

/// The answer of a relation, which is a step.
fn answered(alloc: Global, state: State, n: u32) -> Result<Partial<Answer>, Memory>
    ensures { IfOk result (λ w. w ≡ answered_by state n) }
{
    if n == 0 {
        return Ok(Partial::CutOff(no_trace(alloc)));
    }
    let (env, store) = state.parts();
    let values = values_in(alloc, env.as_slice())?;
    Ok(Partial::Yes(Answer { values, store }, no_trace(alloc), n - 1))
}

/// Whether a value is of the kind that a tag asks for.
fn is_of_kind(tag: &Tag, value: &Value) -> bool
    ensures { result ≡ of_kind tag.now (out-Value value.now) }
{
    match tag {
        Tag::Con(_) => matches!(value, Value::Con(_, _)),
        Tag::Lit(Literal::Int(_)) => matches!(value, Value::Int(_)),
        Tag::Lit(Literal::Char(_)) => matches!(value, Value::Char(_)),
        Tag::Lit(Literal::Text(_)) => matches!(value, Value::Text(_)),
    }
}

/// Whether a value has a tag.
fn has_tag(tag: &Tag, value: &Value) -> bool
    ensures { result ≡ tagged tag.now (out-Value value.now) }
{
    match tag {
        Tag::Con(c) => match value {
            Value::Con(d, _) => c == d,
            _ => false,
        },
        Tag::Lit(Literal::Int(n)) => match value {
            Value::Int(m) => n == m,
            _ => false,
        },
        Tag::Lit(Literal::Char(c)) => match value {
            Value::Char(d) => c == d,
            _ => false,
        },
        Tag::Lit(Literal::Text(bytes)) => match value {
            Value::Text(text) => bytes.as_slice() == text.as_slice(),
            _ => false,
        },
    }
}

/// The arguments of a constructor; of another value, none.
fn arguments(value: &Value) -> &[Value]
    ensures { result.now ≡ arguments_at (out-Value value.now) }
{
    match value {
        Value::Con(_, vs) => vs.as_slice(),
        _ => &[],
    }
}

/// The step of a `not` whose block has no answer.
fn denied(alloc: Global, env: Env, store: Store, n: u32) -> Result<Partial<State>, Memory>
    ensures { IfOk result (λ w. w ≡ tried_again (λ m. ends no_bodies env store m) n) }
{
    if n == 0 {
        return Ok(Partial::CutOff(no_trace(alloc)));
    }
    let begun = met(alloc, entry(0)?);
    Ok(Partial::Yes(State::of(env, store), begun, n - 1))
}

/// A relation on values.
#[cycle(blocks)]
fn by_relation(
    alloc: Global,
    tables: &Tables,
    rel: u32,
    args: &[Value],
    store: Store,
    n: u32,
    depth: u32,
) -> Result<Partial<Answer>, Memory>
    ensures { IfOk result (λ w. w ≡ calls_in tables.now depth rel (record { values = args.now; store = store }) n) }
{
    if depth == 0 {
        return Ok(Partial::CutOff(no_trace(alloc)));
    }
    match at(tables.rels, rel as usize) {
        None => Ok(Partial::No(no_trace(alloc), n)),
        Some(def) => {
            if def.params as usize != args.len() {
                return Ok(Partial::GoneWrong(no_trace(alloc)));
            }
            let weight = met(alloc, entry(args.len())?);
            let env = parameters(alloc, args)?;
            let stmts = def.body.stmts.as_slice();
            match block(
                alloc,
                tables,
                stmts,
                Items::new(alloc),
                env,
                store,
                n,
                depth - 1,
            )? {
                Partial::Yes(state, trace, m) => {
                    let answer = put_before(trace, answered(alloc, state, m)?)?;
                    put_before(weight, answer)
                }
                Partial::No(trace, m) => put_before(weight, Partial::No(trace, m)),
                Partial::CutOff(trace) => put_before(weight, Partial::CutOff(trace)),
                Partial::GoneWrong(trace) => put_before(weight, Partial::GoneWrong(trace)),
            }
        }
    }
}

/// A block, where these bodies are named.
#[cycle(blocks)]
fn block<'a>(
    alloc: Global,
    tables: &Tables<'a>,
    stmts: &'a [Stmt],
    bodies: Items<Named<'a>>,
    env: Env,
    store: Store,
    n: u32,
    depth: u32,
) -> Result<Partial<State>, Memory>
    ensures { IfOk result (λ w. w ≡ block_in tables.now depth stmts.now (known tables.now depth bodies.entry) env store n) }
{
    let mut bodies = bodies;
    let mut env = env;
    let mut store = store;
    let mut trace = no_trace(alloc);
    let mut left = n;
    for stmt in stmts {
        if is_last(stmt) {
            let end = statement(alloc, tables, stmt, bodies, env, store, left, depth)?;
            return put_before(trace, end);
        }
        if let Stmt::Body(number, vars, block) = stmt {
            bodies.push(Named {
                number: *number,
                vars: vars.as_slice(),
                block: block.as_slice(),
                env: copy_env(alloc, env.as_slice())?,
            })?;
        } else {
            match statement(
                alloc,
                tables,
                stmt,
                Items::new(alloc),
                env,
                store,
                left,
                depth,
            )? {
                Partial::Yes(state, more, m) => {
                    let parts = state.parts();
                    env = parts.0;
                    store = parts.1;
                    trace = join(trace, more)?;
                    left = m;
                }
                Partial::No(more, m) => return Ok(Partial::No(join(trace, more)?, m)),
                Partial::CutOff(more) => return Ok(Partial::CutOff(join(trace, more)?)),
                Partial::GoneWrong(more) => return Ok(Partial::GoneWrong(join(trace, more)?)),
            }
        }
    }
    Ok(Partial::GoneWrong(trace))
}

/// A statement, where these bodies are named and nothing follows it.
#[cycle(blocks)]
fn statement<'a>(
    alloc: Global,
    tables: &Tables<'a>,
    stmt: &'a Stmt,
    bodies: Items<Named<'a>>,
    env: Env,
    store: Store,
    n: u32,
    depth: u32,
) -> Result<Partial<State>, Memory>
    ensures { IfOk result (λ w. w ≡ alone tables.now depth stmt.now (known tables.now depth bodies.entry) env store n) }
{
    match stmt {
        Stmt::Match(x, pattern) => matches(alloc, *x, pattern, env, store, n),
        Stmt::Set(x, expression) => set(alloc, tables, *x, expression, env, store, n),
        Stmt::Call(f, xs, ys) => {
            called(
                alloc,
                tables,
                *f,
                xs.as_slice(),
                ys.as_slice(),
                env,
                store,
                n,
                depth,
            )
        }
        Stmt::Builtin(number, xs, ys) => {
            built_in(alloc, *number, xs.as_slice(), ys.as_slice(), env, store, n)
        }
        Stmt::Equal(x, y) => equals(alloc, *x, *y, env, store, n),
        Stmt::Not(block) => not(alloc, tables, block.as_slice(), env, store, n, depth),
        Stmt::Or(alternatives) => {
            in_order(
                alloc,
                tables,
                alternatives.as_slice(),
                bodies,
                env,
                store,
                n,
                depth,
            )
        }
        Stmt::Cond(first, second, third) => {
            let blocks = (first.as_slice(), second.as_slice(), third.as_slice());
            cond(alloc, tables, blocks, bodies, env, store, n, depth)
        }
        Stmt::Switch(x, cases, otherwise) => match found(alloc, *x, env.as_slice())? {
            None => Ok(Partial::GoneWrong(no_trace(alloc))),
            Some(value) => {
                let blocks = (cases.as_slice(), otherwise.as_slice());
                switched(alloc, tables, blocks, &value, bodies, env, store, n, depth)
            }
        },
        Stmt::Body(_, _, _) => Ok(Partial::Yes(State::of(env, store), no_trace(alloc), n)),
        Stmt::Goto(number, xs) => {
            let weight = met(alloc, of_goto(xs.len())?);
            match values_of(alloc, xs.as_slice(), env.as_slice())? {
                None => Ok(Partial::GoneWrong(weight)),
                Some(values) => {
                    let values = values.as_slice();
                    let part = goto(alloc, tables, *number, values, bodies, store, n, depth)?;
                    put_before(weight, part)
                }
            }
        }
        Stmt::Give(xs) => give(alloc, xs.as_slice(), env.as_slice(), store, n),
        Stmt::Fail => Ok(Partial::No(no_trace(alloc), n)),
    }
}

/// A call: a step, and then the relation.
#[cycle(blocks)]
fn call(
    alloc: Global,
    tables: &Tables,
    rel: Option<u32>,
    args: &[Value],
    store: Store,
    n: u32,
    depth: u32,
) -> Result<Partial<Answer>, Memory>
    ensures { IfOk result (λ w. w ≡ call_of (calls_in tables.now depth) rel args.now store n) }
{
    if n == 0 {
        return Ok(Partial::CutOff(no_trace(alloc)));
    }
    match rel {
        None => Ok(Partial::GoneWrong(no_trace(alloc))),
        Some(rel) => by_relation(alloc, tables, rel, args, store, n - 1, depth),
    }
}

/// A call of what a callee stands for, and its results.
#[cycle(blocks)]
fn called(
    alloc: Global,
    tables: &Tables,
    callee: Callee,
    xs: &[u32],
    ys: &[u32],
    env: Env,
    store: Store,
    n: u32,
    depth: u32,
) -> Result<Partial<State>, Memory>
    ensures { IfOk result (λ w. w ≡ does_alone (vals_in tables.now) (calls_in tables.now depth) (Stmt-F.Call callee xs.now ys.now) env store n) }
{
    let weight = met(alloc, CALL_WEIGHT);
    match values_of(alloc, xs, env.as_slice())? {
        None => Ok(Partial::GoneWrong(weight)),
        Some(args) => {
            let rel = relation(callee, env.as_slice());
            match call(alloc, tables, rel, args.as_slice(), store, n, depth)? {
                Partial::Yes(answer, trace, m) => {
                    let begun = met(alloc, entry(ys.len())?);
                    let part = put_before(begun, received(alloc, ys, env, answer, m)?)?;
                    put_before(weight, put_before(trace, part)?)
                }
                Partial::No(trace, m) => put_before(weight, Partial::No(trace, m)),
                Partial::CutOff(trace) => put_before(weight, Partial::CutOff(trace)),
                Partial::GoneWrong(trace) => put_before(weight, Partial::GoneWrong(trace)),
            }
        }
    }
}

/// A block that is to have no answer.
#[cycle(blocks)]
fn not(
    alloc: Global,
    tables: &Tables,
    stmts: &[Stmt],
    env: Env,
    store: Store,
    n: u32,
    depth: u32,
) -> Result<Partial<State>, Memory>
    ensures { IfOk result (λ w. w ≡ not_alone tables.now depth stmts.now env store n) }
{
    let weight = met(alloc, NOT_WEIGHT);
    let own_env = copy_env(alloc, env.as_slice())?;
    let own = copy_store(alloc, store.as_slice())?;
    match block(
        alloc,
        tables,
        stmts,
        Items::new(alloc),
        own_env,
        own,
        n,
        depth,
    )? {
        Partial::Yes(_, trace, m) => put_before(weight, Partial::No(trace, m)),
        Partial::No(trace, m) => {
            let next = denied(alloc, env, store, m)?;
            put_before(weight, put_before(trace, next)?)
        }
        Partial::CutOff(trace) => put_before(weight, Partial::CutOff(trace)),
        Partial::GoneWrong(trace) => put_before(weight, Partial::GoneWrong(trace)),
    }
}

/// Alternatives in order, each from the same bindings and store; that another follows is a step.
#[cycle(blocks)]
fn in_order<'a>(
    alloc: Global,
    tables: &Tables<'a>,
    alternatives: &'a [Alternative],
    bodies: Items<Named<'a>>,
    env: Env,
    store: Store,
    n: u32,
    depth: u32,
) -> Result<Partial<State>, Memory>
    ensures { IfOk result (λ w. w ≡ in_order_in tables.now depth alternatives.now (known tables.now depth bodies.entry) env store n) }
{
    let mut trace = no_trace(alloc);
    let mut left = n;
    for (i, alternative) in alternatives.iter().enumerate() {
        let stmts = alternative.block.as_slice();
        let own_bodies = copy_named(alloc, bodies.as_slice())?;
        let own_env = copy_env(alloc, env.as_slice())?;
        let own = copy_store(alloc, store.as_slice())?;
        match block(alloc, tables, stmts, own_bodies, own_env, own, left, depth)? {
            Partial::No(more, m) => {
                trace = join(trace, more)?;
                if i + 1 == alternatives.len() {
                    return Ok(Partial::No(trace, m));
                }
                if m == 0 {
                    return Ok(Partial::CutOff(trace));
                }
                trace = join(trace, met(alloc, entry(0)?))?;
                left = m - 1;
            }
            part => return put_before(trace, part),
        }
    }
    Ok(Partial::No(trace, left))
}

/// Where the first block answers, the second with what it gives; else, by a step, the third.
#[cycle(blocks)]
fn cond<'a>(
    alloc: Global,
    tables: &Tables<'a>,
    blocks: (&'a [Stmt], &'a [Stmt], &'a [Stmt]),
    bodies: Items<Named<'a>>,
    env: Env,
    store: Store,
    n: u32,
    depth: u32,
) -> Result<Partial<State>, Memory>
    ensures { IfOk result (λ w. w ≡ cond_in tables.now depth blocks.entry.0.now blocks.entry.1.now blocks.entry.2.now (known tables.now depth bodies.entry) env store n) }
{
    let (first, second, third) = blocks;
    let own_env = copy_env(alloc, env.as_slice())?;
    let own = copy_store(alloc, store.as_slice())?;
    match block(
        alloc,
        tables,
        first,
        Items::new(alloc),
        own_env,
        own,
        n,
        depth,
    )? {
        Partial::Yes(state, trace, m) => {
            let (given, after) = state.parts();
            let mut env = env;
            env.append(given)?;
            put_before(
                trace,
                block(alloc, tables, second, bodies, env, after, m, depth)?,
            )
        }
        Partial::No(trace, m) => {
            if m == 0 {
                return Ok(Partial::CutOff(trace));
            }
            let begun = join(trace, met(alloc, entry(0)?))?;
            put_before(
                begun,
                block(alloc, tables, third, bodies, env, store, m - 1, depth)?,
            )
        }
        Partial::CutOff(trace) => Ok(Partial::CutOff(trace)),
        Partial::GoneWrong(trace) => Ok(Partial::GoneWrong(trace)),
    }
}

/// Whether a value is of the kind that the first tag asks for.
fn are_of_kind(cases: &[Case], value: &Value) -> bool
    ensures { result ≡ kind_of_first cases.now (out-Value value.now) }
{
    match cases {
        [] => true,
        [first, ..] => is_of_kind(&first.tag, value),
    }
}

/// The first case whose tag a value has, or else the last block, for a value of the kind that the first tag asks for.
#[cycle(blocks)]
fn switched<'a>(
    alloc: Global,
    tables: &Tables<'a>,
    blocks: (&'a [Case], &'a [Stmt]),
    value: &Value,
    bodies: Items<Named<'a>>,
    env: Env,
    store: Store,
    n: u32,
    depth: u32,
) -> Result<Partial<State>, Memory>
    ensures { IfOk result (λ w. w ≡ switched_in tables.now depth blocks.entry.0.now blocks.entry.1.now (out-Value value.now) (known tables.now depth bodies.entry) env store n) }
{
    if !are_of_kind(blocks.0, value) {
        return Ok(Partial::GoneWrong(no_trace(alloc)));
    }
    chosen(alloc, tables, blocks, value, bodies, env, store, n, depth)
}

/// The first case whose tag a value has, or else the last block.
#[cycle(blocks)]
fn chosen<'a>(
    alloc: Global,
    tables: &Tables<'a>,
    blocks: (&'a [Case], &'a [Stmt]),
    value: &Value,
    bodies: Items<Named<'a>>,
    env: Env,
    store: Store,
    n: u32,
    depth: u32,
) -> Result<Partial<State>, Memory>
    ensures { IfOk result (λ w. w ≡ chosen_in tables.now depth blocks.entry.0.now blocks.entry.1.now (out-Value value.now) (known tables.now depth bodies.entry) env store n) }
{
    let (cases, otherwise) = blocks;
    for case in cases {
        if has_tag(&case.tag, value) {
            return match bind_all(alloc, case.vars.as_slice(), arguments(value), env)? {
                None => Ok(Partial::GoneWrong(no_trace(alloc))),
                Some(env) => {
                    block(
                        alloc,
                        tables,
                        case.block.as_slice(),
                        bodies,
                        env,
                        store,
                        n,
                        depth,
                    )
                }
            };
        }
    }
    block(alloc, tables, otherwise, bodies, env, store, n, depth)
}

/// The block of a number that was named last, with the values that are handed on.
#[cycle(blocks)]
fn goto<'a>(
    alloc: Global,
    tables: &Tables<'a>,
    number: u32,
    values: &[Value],
    bodies: Items<Named<'a>>,
    store: Store,
    n: u32,
    depth: u32,
) -> Result<Partial<State>, Memory>
    ensures { IfOk result (λ w. w ≡ goto_in tables.now depth number values.now (known tables.now depth bodies.entry) store n) }
{
    let mut before = bodies;
    while let Some(named) = before.pop() {
        if named.number == number {
            let Named {
                number: _,
                vars,
                block: stmts,
                env,
            } = named;
            return match bind_all(alloc, vars, values, env)? {
                None => Ok(Partial::GoneWrong(no_trace(alloc))),
                Some(env) => block(alloc, tables, stmts, before, env, store, n, depth),
            };
        }
    }
    Ok(Partial::GoneWrong(no_trace(alloc)))
}

/// The call of a relation as a run begins, in at most `n` steps.
#[tactic(auto, using(crate::proofs::Calls::call_by_steps))]
pub fn called_from(
    alloc: Global,
    tables: &Tables,
    rel: u32,
    args: &[Value],
    n: u32,
) -> Result<Partial<Answer>, Memory>
    ensures { IfOk result (λ w. w ≡ take_step (relations (vals_in tables.now) tables.now.rels.now rel (record { values = args.now; store = [] })) n) }
{
    call(alloc, tables, Some(rel), args, Items::new(alloc), n, n)
}
