//! Premises in clause form: the sets of the expressions, the statement itself, and the matches of the patterns.

ghost use Rattle.std.specs.Prelude.{◌+◌, ◌-◌, ◌<◌, ◌^◌, ◌&&◌, IfOk, OnOk, IsTrue, length, sum_by};
ghost use Rattle.rml_resolved.specs.declared.trees.RGoal.TheVariants as goals_of;
ghost use Rattle.rml_resolved.specs.Size.{exp_size, goal_size};
ghost use Rattle.rml_fol.specs.declared.statements.Stmt.TheVariants as called;
ghost use Rattle.rml_clause.specs.Plain.{numbers_from, IsIn, AreIn, AreMatched, IsPremise, ArePremises};
ghost use Rattle.rml_clause.specs.Added.{Adds, Receives, Negates};
ghost use Rattle.rml_clause.specs.Within.{pattern_within, patterns_within, expression_within, expressions_within, goal_within, goals_within, callee_within};

use super::making::Making;
use super::terms::{expression, pattern};
use rml_base::{Bytes, Memory};
use rml_fol::{Callee as Called, Expression, Stmt, Vars};
use rml_resolved::{Callee, RExp, RGoal, RPat};
use sqlite_items::Items;
use std::alloc::Global;

/// The variable with the value of an expression: its own where it is one, and else one that is set to it.
fn place(
    alloc: Global,
    names: &[Bytes],
    params: u32,
    exp: &RExp,
    making: &mut Making,
) -> Result<u32, Memory>
    requires within { IsTrue (expression_within (2 ^ 32 - params) exp.now) }
    requires room { making.old.next + exp_size exp.now < 2 ^ 32 }
    ensures { IfOk result (λ y. Adds making.old making.new (exp_size exp.now) (IsIn names.now params exp.now y)) }
{
    match exp {
        RExp::Var(x) => Ok(params + *x),
        _ => {
            let value = expression(alloc, names, params, exp)?;
            let variable = making.variable();
            making.add(Stmt::Set(variable, value))?;
            Ok(variable)
        }
    }
}

/// The variables with the values of expressions.
pub fn places(
    alloc: Global,
    names: &[Bytes],
    params: u32,
    exps: &[RExp],
    making: &mut Making,
) -> Result<Vars, Memory>
    requires within { IsTrue (expressions_within (2 ^ 32 - params) exps.now) }
    requires room { making.old.next + sum_by exp_size exps.now < 2 ^ 32 }
    ensures { IfOk result (λ ys. Adds making.old making.new (sum_by exp_size exps.now) (AreIn names.now params exps.now ys)) }
{
    let mut variables = Items::new(alloc);
    for exp in exps {
        let variable = place(alloc, names, params, exp, making)?;
        variables.push(variable)?;
    }
    Ok(variables)
}

/// Patterns against as many variables, from the first of these on.
pub fn match_each(
    alloc: Global,
    names: &[Bytes],
    params: u32,
    patterns: &[RPat],
    first: u32,
    making: &mut Making,
) -> Result<(), Memory>
    requires within { IsTrue (patterns_within (2 ^ 32 - params) patterns.now) }
    requires room { first + length patterns.now < 2 ^ 32 }
    ensures { OnOk result (Adds making.old making.new 0 (AreMatched names.now params patterns.now (numbers_from first (length patterns.now)))) }
{
    let mut variable = first;
    for one in patterns {
        let matched = pattern(alloc, names, params, one)?;
        making.add(Stmt::Match(variable, matched))?;
        variable += 1;
    }
    Ok(())
}

/// A call of a relation, whose results are received and matched.
fn call_relation(
    alloc: Global,
    names: &[Bytes],
    params: u32,
    callee: Called,
    xs: Vars,
    patterns: &[RPat],
    making: &mut Making,
) -> Result<(), Memory>
    requires within { IsTrue (patterns_within (2 ^ 32 - params) patterns.now) }
    requires room { making.old.next + length patterns.now < 2 ^ 32 }
    ensures { OnOk result (Adds making.old making.new (length patterns.now) (Receives names.now params (λ ys. called.Call callee xs ys) patterns.now)) }
{
    let first = making.next;
    let ys = making.variables(alloc, patterns.len())?;
    making.add(Stmt::Call(callee, xs, ys))?;
    match_each(alloc, names, params, patterns, first, making)?;
    Ok(())
}

/// A call of a built-in, whose results are received and matched.
fn call_built_in(
    alloc: Global,
    names: &[Bytes],
    params: u32,
    number: u16,
    xs: Vars,
    patterns: &[RPat],
    making: &mut Making,
) -> Result<(), Memory>
    requires within { IsTrue (patterns_within (2 ^ 32 - params) patterns.now) }
    requires room { making.old.next + length patterns.now < 2 ^ 32 }
    ensures { OnOk result (Adds making.old making.new (length patterns.now) (Receives names.now params (λ ys. called.Builtin number xs ys) patterns.now)) }
{
    let received = making.next;
    let ys = making.variables(alloc, patterns.len())?;
    making.add(Stmt::Builtin(number, xs, ys))?;
    match_each(alloc, names, params, patterns, received, making)?;
    Ok(())
}

fn call(
    alloc: Global,
    names: &[Bytes],
    params: u32,
    callee: Callee,
    exps: &[RExp],
    patterns: &[RPat],
    making: &mut Making,
) -> Result<(), Memory>
    requires within { IsTrue (callee_within (2 ^ 32 - params) callee && expressions_within (2 ^ 32 - params) exps.now && patterns_within (2 ^ 32 - params) patterns.now) }
    requires room { making.old.next + (sum_by exp_size exps.now + 1 + length patterns.now) < 2 ^ 32 }
    ensures { OnOk result (Adds making.old making.new (sum_by exp_size exps.now + 1 + length patterns.now) (IsPremise names.now params (goals_of.Call callee exps.now patterns.now))) }
{
    let xs = places(alloc, names, params, exps, making)?;
    match callee {
        Callee::Rel(r) => {
            call_relation(alloc, names, params, Called::Rel(r), xs, patterns, making)
        }
        Callee::Built(number) => {
            call_built_in(alloc, names, params, number, xs, patterns, making)
        }
        Callee::Var(x) => {
            call_relation(
                alloc,
                names,
                params,
                Called::Var(params + x),
                xs,
                patterns,
                making,
            )
        }
        Callee::Val(k) => {
            let held = making.variable();
            making.add(Stmt::Set(held, Expression::Val(k)))?;
            call_relation(
                alloc,
                names,
                params,
                Called::Var(held),
                xs,
                patterns,
                making,
            )
        }
    }
}

fn equal(
    alloc: Global,
    names: &[Bytes],
    params: u32,
    a: &RExp,
    b: &RExp,
    making: &mut Making,
) -> Result<(), Memory>
    requires within { IsTrue (expression_within (2 ^ 32 - params) a.now && expression_within (2 ^ 32 - params) b.now) }
    requires room { making.old.next + (exp_size a.now + exp_size b.now) < 2 ^ 32 }
    ensures { OnOk result (Adds making.old making.new (exp_size a.now + exp_size b.now) (IsPremise names.now params (goals_of.Equal a.now b.now))) }
{
    let x = place(alloc, names, params, a, making)?;
    let y = place(alloc, names, params, b, making)?;
    making.add(Stmt::Equal(x, y))?;
    Ok(())
}

fn bind(
    alloc: Global,
    names: &[Bytes],
    params: u32,
    p: &RPat,
    e: &RExp,
    making: &mut Making,
) -> Result<(), Memory>
    requires within { IsTrue (pattern_within (2 ^ 32 - params) p.now && expression_within (2 ^ 32 - params) e.now) }
    requires room { making.old.next + exp_size e.now < 2 ^ 32 }
    ensures { OnOk result (Adds making.old making.new (exp_size e.now) (IsPremise names.now params (goals_of.Let p.now e.now))) }
{
    let y = place(alloc, names, params, e, making)?;
    let matched = pattern(alloc, names, params, p)?;
    making.add(Stmt::Match(y, matched))?;
    Ok(())
}

/// A premise.
#[cycle(premises)]
fn premise(
    alloc: Global,
    names: &[Bytes],
    params: u32,
    goal: &RGoal,
    making: &mut Making,
) -> Result<(), Memory>
    requires within { IsTrue (goal_within (2 ^ 32 - params) goal.now) }
    requires room { making.old.next + goal_size goal.now < 2 ^ 32 }
    ensures { OnOk result (Adds making.old making.new (goal_size goal.now) (IsPremise names.now params goal.now)) }
{
    match goal {
        RGoal::Call(callee, es, ps) => {
            call(
                alloc,
                names,
                params,
                *callee,
                es.as_slice(),
                ps.as_slice(),
                making,
            )
        }
        RGoal::Equal(a, b) => equal(alloc, names, params, a, b, making),
        RGoal::Let(p, e) => bind(alloc, names, params, p, e, making),
        RGoal::Not(inner) => not(alloc, names, params, inner.get(), making),
        RGoal::All(goals) => premises(alloc, names, params, goals.as_slice(), making),
    }
}

/// A `not`: its block is the goal, and gives nothing.
#[cycle(premises)]
fn not(
    alloc: Global,
    names: &[Bytes],
    params: u32,
    goal: &RGoal,
    making: &mut Making,
) -> Result<(), Memory>
    requires within { IsTrue (goal_within (2 ^ 32 - params) goal.now) }
    requires room { making.old.next + goal_size goal.now < 2 ^ 32 }
    ensures { OnOk result (Adds making.old making.new (goal_size goal.now) (Negates (IsPremise names.now params goal.now))) }
{
    let mut inside = Making::new(alloc, making.next);
    premise(alloc, names, params, goal, &mut inside)?;
    let nothing = Items::new(alloc);
    inside.add(Stmt::Give(nothing))?;
    let Making { stmts, next } = inside;
    making.next = next;
    making.add(Stmt::Not(stmts))?;
    Ok(())
}

/// Premises in order.
#[cycle(premises)]
pub fn premises(
    alloc: Global,
    names: &[Bytes],
    params: u32,
    goals: &[RGoal],
    making: &mut Making,
) -> Result<(), Memory>
    requires within { IsTrue (goals_within (2 ^ 32 - params) goals.now) }
    requires room { making.old.next + sum_by goal_size goals.now < 2 ^ 32 }
    ensures { OnOk result (Adds making.old making.new (sum_by goal_size goals.now) (ArePremises names.now params goals.now)) }
{
    for goal in goals {
        premise(alloc, names, params, goal, making)?;
    }
    Ok(())
}
