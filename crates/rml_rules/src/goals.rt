//! Goals with numbers for names.

ghost use Rattle.std.specs.Prelude.{◌≡◌, IfOk, OnOk};
ghost use Rattle.rml_rules.specs.Rules.{binding, call, equal, goal, goals};

use crate::env::Env;
use crate::terms::{exp, exps, pattern, patterns};
use rml_base::Memory;
use rml_named::{end_part, enter, leave};
use rml_resolved::RGoal;
use rml_scopes::Scope;
use rml_syntax::{Exp, Goal, Long, Pattern};
use sqlite_items::{Boxed, Items};
use std::alloc::Global;

fn call(
    alloc: Global,
    env: &Env,
    long: Long,
    arguments: &[Exp],
    results: &[Pattern],
    scope: &mut Scope,
) -> Result<RGoal, Memory>
    ensures tree { IfOk result (λ g. g ≡ (call env.now long arguments.now results.now scope.old).tree) }
    ensures scope { OnOk result (scope.new ≡ (call env.now long arguments.now results.now scope.old).after) }
{
    let callee = env.callee(scope, long);
    let arguments = exps(alloc, env, scope, arguments)?;
    let results = patterns(alloc, env, results, scope)?;
    end_part(&env.world, scope)?;
    Ok(RGoal::Call(callee, arguments, results))
}

fn equal(
    alloc: Global,
    env: &Env,
    long: Long,
    value: &Exp,
    scope: &mut Scope,
) -> Result<RGoal, Memory>
    ensures tree { IfOk result (λ g. g ≡ (equal env.now long value.now scope.old).tree) }
    ensures scope { OnOk result (scope.new ≡ (equal env.now long value.now scope.old).after) }
{
    let left = env.value(alloc, scope, long);
    let right = exp(alloc, env, scope, value)?;
    end_part(&env.world, scope)?;
    Ok(RGoal::Equal(left, right))
}

fn binding(
    alloc: Global,
    env: &Env,
    bound: &Pattern,
    value: &Exp,
    scope: &mut Scope,
) -> Result<RGoal, Memory>
    ensures tree { IfOk result (λ g. g ≡ (binding env.now bound.now value.now scope.old).tree) }
    ensures scope { OnOk result (scope.new ≡ (binding env.now bound.now value.now scope.old).after) }
{
    let value = exp(alloc, env, scope, value)?;
    let bound = pattern(alloc, env, bound, scope)?;
    end_part(&env.world, scope)?;
    Ok(RGoal::Let(bound, value))
}

/// A premise, and the scope behind it. The only error is want of memory.
#[cycle(goals)]
pub fn goal(alloc: Global, env: &Env, tree: &Goal, scope: &mut Scope) -> Result<RGoal, Memory>
    ensures tree { IfOk result (λ g. g ≡ (goal env.now tree.now scope.old).tree) }
    ensures scope { OnOk result (scope.new ≡ (goal env.now tree.now scope.old).after) }
{
    match tree {
        Goal::Call(long, arguments, results) => {
            call(
                alloc,
                env,
                *long,
                arguments.as_slice(),
                results.as_slice(),
                scope,
            )
        }
        Goal::Equal(long, value) => equal(alloc, env, *long, value, scope),
        Goal::Let(bound, value) => binding(alloc, env, bound.get(), value, scope),
        Goal::Not(inner) => {
            enter(&env.world, scope)?;
            let inner = goal(alloc, env, inner.get(), scope)?;
            leave(&env.world, scope);
            Ok(RGoal::Not(Boxed::new(alloc, inner)?))
        }
        Goal::All(inner) => Ok(RGoal::All(goals(alloc, env, inner.as_slice(), scope)?)),
    }
}

/// Premises one behind another, and the scope behind them.
#[cycle(goals)]
pub fn goals(
    alloc: Global,
    env: &Env,
    trees: &[Goal],
    scope: &mut Scope,
) -> Result<Items<RGoal>, Memory>
    ensures tree { IfOk result (λ gs. gs ≡ (goals env.now trees.now scope.old).tree) }
    ensures scope { OnOk result (scope.new ≡ (goals env.now trees.now scope.old).after) }
{
    let mut items = Items::new(alloc);
    for item in trees {
        let made = goal(alloc, env, item, scope)?;
        items.push(made)?;
    }
    Ok(items)
}
