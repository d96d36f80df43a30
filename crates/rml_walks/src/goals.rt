//! The walk over goals and rules.

ghost use Rattle.std.specs.Prelude.{◌≡◌, map, OnOk};
ghost use Rattle.rml_scopes.specs.Steps.{call_steps, equal_steps, goal_steps, joined, let_steps, rule_steps};
ghost use Rattle.rml_scopes.specs.Walks.{run};

use crate::terms::{exp, exps, pattern, patterns, short};
use rml_base::Memory;
use rml_scopes::{Role, Walk, World};
use rml_syntax::{Exp, Goal, Long, Pattern, Rule};

#[tactic(auto, using(crate::proofs::Runs::run_over))]
fn call(
    world: &World,
    long: Long,
    arguments: &[Exp],
    results: &[Pattern],
    walk: &mut Walk,
) -> Result<(), Memory>
    ensures { OnOk result (walk.new ≡ run world.now walk.old (call_steps long arguments.now results.now)) }
{
    walk.name(world, Role::Callee, long)?;
    exps(world, arguments, walk)?;
    patterns(world, results, walk)?;
    walk.end_part(world)?;
    Ok(())
}

#[tactic(auto, using(crate::proofs::Runs::run_over))]
fn equal(world: &World, long: Long, value: &Exp, walk: &mut Walk) -> Result<(), Memory>
    ensures { OnOk result (walk.new ≡ run world.now walk.old (equal_steps long value.now)) }
{
    walk.name(world, Role::Value, long)?;
    exp(world, value, walk)?;
    walk.end_part(world)?;
    Ok(())
}

#[tactic(auto, using(crate::proofs::Runs::run_over))]
fn binding(world: &World, bound: &Pattern, value: &Exp, walk: &mut Walk) -> Result<(), Memory>
    ensures { OnOk result (walk.new ≡ run world.now walk.old (let_steps bound.now value.now)) }
{
    exp(world, value, walk)?;
    pattern(world, bound, walk)?;
    walk.end_part(world)?;
    Ok(())
}

#[cycle(goals)]
fn goal(world: &World, tree: &Goal, walk: &mut Walk) -> Result<(), Memory>
    ensures { OnOk result (walk.new ≡ run world.now walk.old (goal_steps tree.now)) }
{
    match tree {
        Goal::Call(long, arguments, results) => {
            call(world, *long, arguments.as_slice(), results.as_slice(), walk)
        }
        Goal::Equal(long, value) => equal(world, *long, value, walk),
        Goal::Let(bound, value) => binding(world, bound.get(), value, walk),
        Goal::Not(inner) => {
            walk.enter(world)?;
            goal(world, inner.get(), walk)?;
            walk.leave(world);
            Ok(())
        }
        Goal::All(inner) => goals(world, inner.as_slice(), walk),
    }
}

#[tactic(auto, using(crate::proofs::Runs::run_over))]
#[cycle(goals)]
fn goals(world: &World, trees: &[Goal], walk: &mut Walk) -> Result<(), Memory>
    ensures { OnOk result (walk.new ≡ run world.now walk.old (joined (map goal_steps trees.now))) }
{
    for item in trees {
        goal(world, item, walk)?;
    }
    Ok(())
}

#[tactic(auto, using(crate::proofs::Runs::run_over))]
fn rule(world: &World, relation: u32, tree: &Rule, walk: &mut Walk) -> Result<(), Memory>
    ensures { OnOk result (walk.new ≡ run world.now walk.old (rule_steps relation tree.now)) }
{
    walk.begin(world);
    walk.name(
        world,
        Role::Head(relation),
        short(tree.head, tree.head_place),
    )?;
    patterns(world, tree.inputs.as_slice(), walk)?;
    walk.end_part(world)?;
    goals(world, tree.goals.as_slice(), walk)?;
    exps(world, tree.results.as_slice(), walk)?;
    Ok(())
}

/// The rules of a relation.
#[tactic(auto, using(crate::proofs::Runs::run_over))]
pub fn rules(world: &World, relation: u32, trees: &[Rule], walk: &mut Walk) -> Result<(), Memory>
    ensures { OnOk result (walk.new ≡ run world.now walk.old (joined (map (rule_steps relation) trees.now))) }
{
    for item in trees {
        rule(world, relation, item, walk)?;
    }
    Ok(())
}
