//! Gathering over goals and rules.

ghost use Rattle.std.specs.Prelude.{◌≡◌, map, OnOk};
ghost use Rattle.rml_scopes.specs.Steps.{call_steps, equal_steps, goal_steps, joined, let_steps, rule_steps};
ghost use Rattle.rml_named.specs.Gathered.{gather_each};

use crate::gathering::Gathering;
use crate::terms::{exp, exps, pattern, patterns, short};
use rml_base::Memory;
use rml_scopes::{Role, World};
use rml_syntax::{Exp, Goal, Long, Pattern, Rule};
use rml_values::Values;

#[tactic(auto, using(crate::proofs::Turns::gather_over))]
fn call(
    world: &World,
    values: &Values,
    long: Long,
    arguments: &[Exp],
    results: &[Pattern],
    gathering: &mut Gathering,
) -> Result<(), Memory>
    ensures { OnOk result (gathering.new ≡ gather_each world.now values.now gathering.old (call_steps long arguments.now results.now)) }
{
    gathering.name(world, values, Role::Callee, long)?;
    exps(world, values, arguments, gathering)?;
    patterns(world, values, results, gathering)?;
    gathering.end_part(world, values)?;
    Ok(())
}

#[tactic(auto, using(crate::proofs::Turns::gather_over))]
fn equal(
    world: &World,
    values: &Values,
    long: Long,
    value: &Exp,
    gathering: &mut Gathering,
) -> Result<(), Memory>
    ensures { OnOk result (gathering.new ≡ gather_each world.now values.now gathering.old (equal_steps long value.now)) }
{
    gathering.name(world, values, Role::Value, long)?;
    exp(world, values, value, gathering)?;
    gathering.end_part(world, values)?;
    Ok(())
}

#[tactic(auto, using(crate::proofs::Turns::gather_over))]
fn binding(
    world: &World,
    values: &Values,
    bound: &Pattern,
    value: &Exp,
    gathering: &mut Gathering,
) -> Result<(), Memory>
    ensures { OnOk result (gathering.new ≡ gather_each world.now values.now gathering.old (let_steps bound.now value.now)) }
{
    exp(world, values, value, gathering)?;
    pattern(world, values, bound, gathering)?;
    gathering.end_part(world, values)?;
    Ok(())
}

#[cycle(goals)]
fn goal(
    world: &World,
    values: &Values,
    tree: &Goal,
    gathering: &mut Gathering,
) -> Result<(), Memory>
    ensures { OnOk result (gathering.new ≡ gather_each world.now values.now gathering.old (goal_steps tree.now)) }
{
    match tree {
        Goal::Call(long, arguments, results) => {
            call(
                world,
                values,
                *long,
                arguments.as_slice(),
                results.as_slice(),
                gathering,
            )
        }
        Goal::Equal(long, value) => equal(world, values, *long, value, gathering),
        Goal::Let(bound, value) => binding(world, values, bound.get(), value, gathering),
        Goal::Not(inner) => {
            gathering.enter(world, values)?;
            goal(world, values, inner.get(), gathering)?;
            gathering.leave(world, values);
            Ok(())
        }
        Goal::All(inner) => goals(world, values, inner.as_slice(), gathering),
    }
}

#[tactic(auto, using(crate::proofs::Turns::gather_over))]
#[cycle(goals)]
fn goals(
    world: &World,
    values: &Values,
    trees: &[Goal],
    gathering: &mut Gathering,
) -> Result<(), Memory>
    ensures { OnOk result (gathering.new ≡ gather_each world.now values.now gathering.old (joined (map goal_steps trees.now))) }
{
    for item in trees {
        goal(world, values, item, gathering)?;
    }
    Ok(())
}

#[tactic(auto, using(crate::proofs::Turns::gather_over))]
fn rule(
    world: &World,
    values: &Values,
    relation: u32,
    tree: &Rule,
    gathering: &mut Gathering,
) -> Result<(), Memory>
    ensures { OnOk result (gathering.new ≡ gather_each world.now values.now gathering.old (rule_steps relation tree.now)) }
{
    gathering.begin(world, values);
    gathering.name(
        world,
        values,
        Role::Head(relation),
        short(tree.head, tree.head_place),
    )?;
    patterns(world, values, tree.inputs.as_slice(), gathering)?;
    gathering.end_part(world, values)?;
    goals(world, values, tree.goals.as_slice(), gathering)?;
    exps(world, values, tree.results.as_slice(), gathering)?;
    Ok(())
}

/// The rules of a relation.
#[tactic(auto, using(crate::proofs::Turns::gather_over))]
pub fn rules(
    world: &World,
    values: &Values,
    relation: u32,
    trees: &[Rule],
    gathering: &mut Gathering,
) -> Result<(), Memory>
    ensures { OnOk result (gathering.new ≡ gather_each world.now values.now gathering.old (joined (map (rule_steps relation) trees.now))) }
{
    for item in trees {
        rule(world, values, relation, item, gathering)?;
    }
    Ok(())
}
