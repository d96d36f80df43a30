//! Where the variables of rules are bound and used.

ghost use Rattle.std.specs.Prelude.{◌≡◌, ◌++◌, IfOk, [], map};
ghost use Rattle.std.specs.List.{list_all, concat};
ghost use Rattle.rml_resolved.specs.Binding.{binds, all_bind, goal_binds, rule_binds, is_distinct, binds_once, relation_binds_once, uses, all_use, callee_uses, can_use as can_use_of, use_then_bind, after_goal as after_goal_of, after_goals as after_goals_of, before_results, uses_bound, relation_uses_bound};

use crate::bound::BoundVars;
use rml_base::Memory;
use rml_resolved::{Callee, RExp, RGoal, RPat, RRule, RelDef};
use sqlite_items::Items;
use std::alloc::Global;

/// The variables of `all`, and then those that a pattern binds, from left to right.
#[cycle(patterns)]
fn with_bound(pattern: &RPat, all: BoundVars) -> Result<BoundVars, Memory>
    ensures { IfOk result (λ r. r ≡ all ++ binds pattern.now) }
{
    match pattern {
        RPat::Any => Ok(all),
        RPat::Lit(_) => Ok(all),
        RPat::Var(x) => Ok(all.with(*x)?),
        RPat::Con(_, ps) => with_all_bound(ps.as_slice(), all),
        RPat::Tuple(ps) => with_all_bound(ps.as_slice(), all),
        RPat::List(ps) => with_all_bound(ps.as_slice(), all),
        RPat::Cons(ps) => with_all_bound(ps.as_slice(), all),
        RPat::Bind(x, inner) => with_bound(inner.get(), all.with(*x)?),
    }
}

#[cycle(patterns)]
fn with_all_bound(patterns: &[RPat], all: BoundVars) -> Result<BoundVars, Memory>
    ensures { IfOk result (λ r. r ≡ all ++ all_bind patterns.now) }
{
    let mut all = all;
    for pattern in patterns {
        all = with_bound(pattern, all)?;
    }
    Ok(all)
}

/// The variables of `all`, and then those that a goal binds.
#[cycle(bindings)]
fn with_goal_bound(goal: &RGoal, all: BoundVars) -> Result<BoundVars, Memory>
    ensures { IfOk result (λ r. r ≡ all ++ goal_binds goal.now) }
{
    match goal {
        RGoal::Call(_, _, ps) => with_all_bound(ps.as_slice(), all),
        RGoal::Equal(_, _) => Ok(all),
        RGoal::Let(p, _) => with_bound(p, all),
        RGoal::Not(inner) => with_goal_bound(inner.get(), all),
        RGoal::All(goals) => with_goals_bound(goals.as_slice(), all),
    }
}

#[cycle(bindings)]
fn with_goals_bound(goals: &[RGoal], all: BoundVars) -> Result<BoundVars, Memory>
    ensures { IfOk result (λ r. r ≡ all ++ concat (map goal_binds goals.now)) }
{
    let mut all = all;
    for goal in goals {
        all = with_goal_bound(goal, all)?;
    }
    Ok(all)
}

fn variables_of(alloc: Global, rule: &RRule) -> Result<BoundVars, Memory>
    ensures { IfOk result (λ r. r ≡ rule_binds rule.now) }
{
    let in_head = with_all_bound(rule.inputs.as_slice(), BoundVars::new(alloc))?;
    with_goals_bound(rule.goals.as_slice(), in_head)
}

fn are_distinct(alloc: Global, xs: &[u32]) -> Result<bool, Memory>
    ensures { IfOk result (λ b. b ≡ is_distinct xs.now) }
{
    let mut seen = BoundVars::new(alloc);
    for x in xs {
        if seen.has(*x) {
            return Ok(false);
        }
        seen = seen.with(*x)?;
    }
    Ok(true)
}

fn is_each_bound_once(alloc: Global, rule: &RRule) -> Result<bool, Memory>
    ensures { IfOk result (λ b. b ≡ binds_once rule.now) }
{
    let variables = variables_of(alloc, rule)?;
    Ok(are_distinct(alloc, variables.as_slice())? && variables.len() == rule.vars as usize)
}

fn is_relation_bound_once(alloc: Global, rel: &RelDef) -> Result<bool, Memory>
    ensures { IfOk result (λ b. b ≡ relation_binds_once rel.now) }
{
    for rule in rel.rules.as_slice() {
        if !is_each_bound_once(alloc, rule)? {
            return Ok(false);
        }
    }
    Ok(true)
}

/// Whether each variable of each rule is bound, at one place alone.
pub fn are_bound_once(alloc: Global, rels: &[RelDef]) -> Result<bool, Memory>
    ensures { IfOk result (λ b. b ≡ list_all relation_binds_once rels.now) }
{
    for rel in rels {
        if !is_relation_bound_once(alloc, rel)? {
            return Ok(false);
        }
    }
    Ok(true)
}

/// The variables of `all`, and then those that an expression uses, from left to right.
#[cycle(expressions)]
fn with_used(exp: &RExp, all: Items<u32>) -> Result<Items<u32>, Memory>
    ensures { IfOk result (λ r. r ≡ all ++ uses exp.now) }
{
    let mut all = all;
    match exp {
        RExp::Lit(_) => Ok(all),
        RExp::Val(_) => Ok(all),
        RExp::Rel(_) => Ok(all),
        RExp::Var(x) => {
            all.push(*x)?;
            Ok(all)
        }
        RExp::Con(_, es) => with_all_used(es.as_slice(), all),
        RExp::Tuple(es) => with_all_used(es.as_slice(), all),
        RExp::List(es) => with_all_used(es.as_slice(), all),
        RExp::Cons(es) => with_all_used(es.as_slice(), all),
    }
}

#[cycle(expressions)]
fn with_all_used(exps: &[RExp], all: Items<u32>) -> Result<Items<u32>, Memory>
    ensures { IfOk result (λ r. r ≡ all ++ all_use exps.now) }
{
    let mut all = all;
    for exp in exps {
        all = with_used(exp, all)?;
    }
    Ok(all)
}

fn callee_variables(alloc: Global, callee: Callee) -> Result<Items<u32>, Memory>
    ensures { IfOk result (λ xs. xs ≡ callee_uses callee) }
{
    let mut variables = Items::new(alloc);
    match callee {
        Callee::Var(x) => {
            variables.push(x)?;
            Ok(variables)
        }
        _ => Ok(variables),
    }
}

fn can_use(xs: &[u32], bound: &BoundVars) -> bool
    ensures { result ≡ can_use_of xs.now bound.now }
{
    xs.iter().all(|x| bound.has(*x))
}

fn after_call(
    alloc: Global,
    callee: Callee,
    exps: &[RExp],
    patterns: &[RPat],
    bound: BoundVars,
) -> Result<Option<BoundVars>, Memory>
    ensures { IfOk result (λ b. b ≡ use_then_bind (callee_uses callee ++ all_use exps.now) (all_bind patterns.now) bound) }
{
    let used = with_all_used(exps, callee_variables(alloc, callee)?)?;
    if can_use(used.as_slice(), &bound) {
        Ok(Some(with_all_bound(patterns, bound)?))
    } else {
        Ok(None)
    }
}

fn after_equal(
    alloc: Global,
    a: &RExp,
    b: &RExp,
    bound: BoundVars,
) -> Result<Option<BoundVars>, Memory>
    ensures { IfOk result (λ r. r ≡ use_then_bind (uses a.now ++ uses b.now) [] bound) }
{
    let used = with_used(b, with_used(a, Items::new(alloc))?)?;
    if can_use(used.as_slice(), &bound) {
        Ok(Some(bound))
    } else {
        Ok(None)
    }
}

fn after_let(
    alloc: Global,
    p: &RPat,
    e: &RExp,
    bound: BoundVars,
) -> Result<Option<BoundVars>, Memory>
    ensures { IfOk result (λ r. r ≡ use_then_bind (uses e.now) (binds p.now) bound) }
{
    let used = with_used(e, Items::new(alloc))?;
    if can_use(used.as_slice(), &bound) {
        Ok(Some(with_bound(p, bound)?))
    } else {
        Ok(None)
    }
}

/// What is bound after a goal, or None where it uses what is not.
#[cycle(goals)]
fn after_goal(alloc: Global, goal: &RGoal, bound: BoundVars) -> Result<Option<BoundVars>, Memory>
    ensures { IfOk result (λ b. b ≡ after_goal_of goal.now bound) }
{
    match goal {
        RGoal::Call(callee, es, ps) => {
            after_call(alloc, *callee, es.as_slice(), ps.as_slice(), bound)
        }
        RGoal::Equal(a, b) => after_equal(alloc, a, b, bound),
        RGoal::Let(p, e) => after_let(alloc, p, e, bound),
        RGoal::Not(inner) => {
            let outside = bound.len();
            match after_goal(alloc, inner.get(), bound)? {
                Some(inside) => Ok(Some(inside.cut(outside))),
                None => Ok(None),
            }
        }
        RGoal::All(goals) => after_goals(alloc, goals.as_slice(), bound),
    }
}

#[cycle(goals)]
fn after_goals(
    alloc: Global,
    goals: &[RGoal],
    bound: BoundVars,
) -> Result<Option<BoundVars>, Memory>
    ensures { IfOk result (λ b. b ≡ after_goals_of goals.now bound) }
{
    let mut bound = bound;
    for goal in goals {
        match after_goal(alloc, goal, bound)? {
            Some(next) => bound = next,
            None => return Ok(None),
        }
    }
    Ok(Some(bound))
}

fn bound_before_results(alloc: Global, rule: &RRule) -> Result<Option<BoundVars>, Memory>
    ensures { IfOk result (λ b. b ≡ before_results rule.now) }
{
    let in_head = with_all_bound(rule.inputs.as_slice(), BoundVars::new(alloc))?;
    after_goals(alloc, rule.goals.as_slice(), in_head)
}

fn is_each_used_after(alloc: Global, rule: &RRule) -> Result<bool, Memory>
    ensures { IfOk result (λ b. b ≡ uses_bound rule.now) }
{
    match bound_before_results(alloc, rule)? {
        Some(bound) => {
            let used = with_all_used(rule.results.as_slice(), Items::new(alloc))?;
            Ok(can_use(used.as_slice(), &bound))
        }
        None => Ok(false),
    }
}

fn is_relation_used_after(alloc: Global, rel: &RelDef) -> Result<bool, Memory>
    ensures { IfOk result (λ b. b ≡ relation_uses_bound rel.now) }
{
    for rule in rel.rules.as_slice() {
        if !is_each_used_after(alloc, rule)? {
            return Ok(false);
        }
    }
    Ok(true)
}

/// Whether each variable of each rule is used only after the place where it is bound, one that is bound inside a `not` only up
/// to the end of that `not`.
pub fn are_used_after(alloc: Global, rels: &[RelDef]) -> Result<bool, Memory>
    ensures { IfOk result (λ b. b ≡ list_all relation_uses_bound rels.now) }
{
    for rel in rels {
        if !is_relation_used_after(alloc, rel)? {
            return Ok(false);
        }
    }
    Ok(true)
}
