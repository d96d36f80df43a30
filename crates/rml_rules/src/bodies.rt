//! Rules with numbers for names, and the expressions of vals.

ghost use Rattle.std.specs.Prelude.{◌≡◌, IfOk, OnOk};
ghost use Rattle.rml_rules.specs.Rules.{head, rule, rules, val_value};

use crate::env::Env;
use crate::goals::goals;
use crate::terms::{exp, exps, patterns};
use rml_base::Memory;
use rml_named::{begin, end_part, number_behind};
use rml_resolved::{RExp, RPat, RRule};
use rml_scopes::Scope;
use rml_syntax::{Exp, Rule};
use sqlite_items::Items;
use std::alloc::Global;

/// The head of a rule, and the scope behind it.
fn head(alloc: Global, env: &Env, tree: &Rule, scope: &mut Scope) -> Result<Items<RPat>, Memory>
    ensures tree { IfOk result (λ ps. ps ≡ (head env.now tree.now scope.old).tree) }
    ensures scope { OnOk result (scope.new ≡ (head env.now tree.now scope.old).after) }
{
    begin(&env.world, scope);
    let inputs = patterns(alloc, env, tree.inputs.as_slice(), scope)?;
    end_part(&env.world, scope)?;
    Ok(inputs)
}

/// A rule, and the scope behind it.
fn rule(alloc: Global, env: &Env, tree: &Rule, scope: &mut Scope) -> Result<RRule, Memory>
    ensures tree { IfOk result (λ r. r ≡ (rule env.now tree.now scope.old).tree) }
    ensures scope { OnOk result (scope.new ≡ (rule env.now tree.now scope.old).after) }
{
    let inputs = head(alloc, env, tree, scope)?;
    let premises = goals(alloc, env, tree.goals.as_slice(), scope)?;
    let results = exps(alloc, env, scope, tree.results.as_slice())?;
    Ok(RRule {
        place: tree.place,
        inputs,
        goals: premises,
        results,
        vars: number_behind(0, scope.bound.len()),
        tokens: tree.tokens,
    })
}

/// The rules of a relation, each from the beginning of a scope. The scope is that of the text, in which its body has begun. The only error
/// is want of memory.
pub fn rules(
    alloc: Global,
    env: &Env,
    trees: &[Rule],
    scope: &mut Scope,
) -> Result<Items<RRule>, Memory>
    ensures tree { IfOk result (λ rs. rs ≡ (rules env.now trees.now scope.old).tree) }
    ensures scope { OnOk result (scope.new ≡ (rules env.now trees.now scope.old).after) }
{
    let mut items = Items::new(alloc);
    for item in trees {
        let made = rule(alloc, env, item, scope)?;
        items.push(made)?;
    }
    Ok(items)
}

/// The expression of a val, from the beginning of a scope. The only error is want of memory.
pub fn val_value(alloc: Global, env: &Env, tree: &Exp, scope: &mut Scope) -> Result<RExp, Memory>
    ensures tree { IfOk result (λ e. e ≡ (val_value env.now tree.now scope.old).tree) }
    ensures scope { OnOk result (scope.new ≡ (val_value env.now tree.now scope.old).after) }
{
    begin(&env.world, scope);
    let value = exp(alloc, env, scope, tree)?;
    Ok(value)
}
