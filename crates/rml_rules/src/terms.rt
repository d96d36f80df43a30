//! Patterns and expressions with numbers for names.

ghost use Rattle.std.specs.Prelude.{◌≡◌, map, IfOk, OnOk};
ghost use Rattle.rml_scopes.specs.Machine.{after_name};
ghost use Rattle.rml_scopes.specs.declared.role.Role.TheVariants as role;
ghost use Rattle.rml_rules.specs.Names.{named};
ghost use Rattle.rml_rules.specs.Terms.{exp, pattern, patterns};

use crate::env::Env;
use crate::names::variable;
use rml_base::{Memory, Place};
use rml_named::short;
use rml_resolved::{RExp, RPat};
use rml_scopes::{Role, Scope};
use rml_syntax::{Exp, Long, Pattern};
use sqlite_items::{Boxed, Items};
use std::alloc::Global;

/// An expression. The only error is want of memory.
#[cycle(exps)]
pub fn exp(alloc: Global, env: &Env, scope: &Scope, tree: &Exp) -> Result<RExp, Memory>
    ensures { IfOk result (λ e. e ≡ exp env.now scope.now tree.now) }
{
    match tree {
        Exp::Lit(lit) => Ok(RExp::Lit(*lit)),
        Exp::Name(long) => Ok(env.value(alloc, scope, *long)),
        Exp::App(long, inner) => {
            let items = exps(alloc, env, scope, inner.as_slice())?;
            Ok(RExp::Con(env.con(scope, *long), items))
        }
        Exp::Tuple(inner) => Ok(RExp::Tuple(exps(alloc, env, scope, inner.as_slice())?)),
        Exp::List(inner) => Ok(RExp::List(exps(alloc, env, scope, inner.as_slice())?)),
        Exp::Cons(inner) => Ok(RExp::Cons(exps(alloc, env, scope, inner.as_slice())?)),
    }
}

/// Expressions of one part.
#[cycle(exps)]
pub fn exps(alloc: Global, env: &Env, scope: &Scope, trees: &[Exp]) -> Result<Items<RExp>, Memory>
    ensures { IfOk result (λ es. es ≡ map (exp env.now scope.now) trees.now) }
{
    let mut items = Items::new(alloc);
    for item in trees {
        items.push(exp(alloc, env, scope, item)?)?;
    }
    Ok(items)
}

/// A name alone, and the scope behind it.
fn name(alloc: Global, env: &Env, long: Long, scope: &mut Scope) -> Result<RPat, Memory>
    ensures tree { IfOk result (λ p. p ≡ named env.now scope.old long) }
    ensures scope { OnOk result (scope.new ≡ after_name env.now.world scope.old role.Pattern long) }
{
    let tree = env.named_pattern(alloc, scope, long);
    scope.pass_name(&env.world, Role::Pattern, long)?;
    Ok(tree)
}

/// A pattern, and the scope behind it. The only error is want of memory.
#[cycle(patterns)]
pub fn pattern(alloc: Global, env: &Env, tree: &Pattern, scope: &mut Scope) -> Result<RPat, Memory>
    ensures tree { IfOk result (λ p. p ≡ (pattern env.now tree.now scope.old).tree) }
    ensures scope { OnOk result (scope.new ≡ (pattern env.now tree.now scope.old).after) }
{
    match tree {
        Pattern::Any => Ok(RPat::Any),
        Pattern::Lit(lit) => Ok(RPat::Lit(*lit)),
        Pattern::Name(long) => name(alloc, env, *long, scope),
        Pattern::App(long, inner) => {
            let con = env.con(scope, *long);
            let items = patterns(alloc, env, inner.as_slice(), scope)?;
            Ok(RPat::Con(con, items))
        }
        Pattern::Tuple(inner) => Ok(RPat::Tuple(patterns(alloc, env, inner.as_slice(), scope)?)),
        Pattern::List(inner) => Ok(RPat::List(patterns(alloc, env, inner.as_slice(), scope)?)),
        Pattern::Cons(inner) => Ok(RPat::Cons(patterns(alloc, env, inner.as_slice(), scope)?)),
        Pattern::Bind(name, place, inner) => {
            let number = variable(scope, *name);
            scope.pass_name(&env.world, Role::Variable, short(*name, *place))?;
            let inner = pattern(alloc, env, inner.get(), scope)?;
            Ok(RPat::Bind(number, Boxed::new(alloc, inner)?))
        }
    }
}

/// Patterns one behind another, and the scope behind them.
#[cycle(patterns)]
pub fn patterns(
    alloc: Global,
    env: &Env,
    trees: &[Pattern],
    scope: &mut Scope,
) -> Result<Items<RPat>, Memory>
    ensures tree { IfOk result (λ ps. ps ≡ (patterns env.now trees.now scope.old).tree) }
    ensures scope { OnOk result (scope.new ≡ (patterns env.now trees.now scope.old).after) }
{
    let mut items = Items::new(alloc);
    for item in trees {
        let made = pattern(alloc, env, item, scope)?;
        items.push(made)?;
    }
    Ok(items)
}
