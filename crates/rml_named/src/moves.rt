//! The scope behind the steps that are no names.

ghost use Rattle.std.specs.Prelude.{◌≡◌, OnOk};
ghost use Rattle.rml_scopes.specs.Machine.{after_step};
ghost use Rattle.rml_scopes.specs.Steps as step;

use rml_base::Memory;
use rml_scopes::{Scope, World};

/// Begins a rule, or the expression of a val.
pub fn begin(world: &World, scope: &mut Scope)
    ensures { scope.new ≡ after_step world.now scope.old step.Begins }
{
    scope.seen.keep(0);
    scope.bound.keep(0);
    scope.part.keep(0);
    scope.opened.clear();
}

/// Ends a part of a rule. The only error is want of memory.
pub fn end_part(world: &World, scope: &mut Scope) -> Result<(), Memory>
    ensures { OnOk result (scope.new ≡ after_step world.now scope.old step.Part) }
{
    scope.seen.add_each(&scope.part)?;
    scope.bound.add_each(&scope.part)?;
    scope.part.keep(0);
    Ok(())
}

/// Opens a `not`. The only error is want of memory.
pub fn enter(world: &World, scope: &mut Scope) -> Result<(), Memory>
    ensures { OnOk result (scope.new ≡ after_step world.now scope.old step.Enter) }
{
    let count = scope.seen.len();
    scope.opened.push(count)?;
    Ok(())
}

/// Closes a `not`.
pub fn leave(world: &World, scope: &mut Scope)
    ensures { scope.new ≡ after_step world.now scope.old step.Leave }
{
    scope.close();
}
