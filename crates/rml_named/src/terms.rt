//! Gathering over patterns and expressions.

ghost use Rattle.std.specs.Prelude.{◌≡◌, map, OnOk};
ghost use Rattle.rml_scopes.specs.Steps.{built_steps, exp_steps, joined, pattern_steps, short};
ghost use Rattle.rml_named.specs.Gathered.{gather_each};

use crate::gathering::Gathering;
use rml_base::{Memory, Place};
use rml_scopes::{Role, World};
use rml_syntax::{Exp, Long, Pattern};
use rml_values::Values;

/// A short name.
pub fn short(name: u32, place: Place) -> Long
    ensures { result ≡ short name place }
{
    Long {
        module: None,
        name,
        place,
    }
}

#[cycle(patterns)]
pub fn pattern(
    world: &World,
    values: &Values,
    tree: &Pattern,
    gathering: &mut Gathering,
) -> Result<(), Memory>
    ensures { OnOk result (gathering.new ≡ gather_each world.now values.now gathering.old (pattern_steps tree.now)) }
{
    match tree {
        Pattern::Any => Ok(()),
        Pattern::Lit(_) => Ok(()),
        Pattern::Name(long) => gathering.name(world, values, Role::Pattern, *long),
        Pattern::App(long, inner) => built_pattern(
            world,
            values,
            *long,
            inner.as_slice(),
            gathering,
        ),
        Pattern::Tuple(inner) => patterns(world, values, inner.as_slice(), gathering),
        Pattern::List(inner) => patterns(world, values, inner.as_slice(), gathering),
        Pattern::Cons(inner) => patterns(world, values, inner.as_slice(), gathering),
        Pattern::Bind(name, place, inner) => {
            gathering.name(world, values, Role::Variable, short(*name, *place))?;
            pattern(world, values, inner.get(), gathering)
        }
    }
}

#[tactic(auto, using(crate::proofs::Turns::gather_over))]
#[cycle(patterns)]
pub fn patterns(
    world: &World,
    values: &Values,
    trees: &[Pattern],
    gathering: &mut Gathering,
) -> Result<(), Memory>
    ensures { OnOk result (gathering.new ≡ gather_each world.now values.now gathering.old (joined (map pattern_steps trees.now))) }
{
    for item in trees {
        pattern(world, values, item, gathering)?;
    }
    Ok(())
}

#[cycle(patterns)]
fn built_pattern(
    world: &World,
    values: &Values,
    long: Long,
    arguments: &[Pattern],
    gathering: &mut Gathering,
) -> Result<(), Memory>
    ensures { OnOk result (gathering.new ≡ gather_each world.now values.now gathering.old (built_steps long (map pattern_steps arguments.now))) }
{
    gathering.name(world, values, Role::Constructor(arguments.len()), long)?;
    patterns(world, values, arguments, gathering)?;
    Ok(())
}

#[cycle(exps)]
pub fn exp(
    world: &World,
    values: &Values,
    tree: &Exp,
    gathering: &mut Gathering,
) -> Result<(), Memory>
    ensures { OnOk result (gathering.new ≡ gather_each world.now values.now gathering.old (exp_steps tree.now)) }
{
    match tree {
        Exp::Lit(_) => Ok(()),
        Exp::Name(long) => gathering.name(world, values, Role::Value, *long),
        Exp::App(long, inner) => built_exp(world, values, *long, inner.as_slice(), gathering),
        Exp::Tuple(inner) => exps(world, values, inner.as_slice(), gathering),
        Exp::List(inner) => exps(world, values, inner.as_slice(), gathering),
        Exp::Cons(inner) => exps(world, values, inner.as_slice(), gathering),
    }
}

#[tactic(auto, using(crate::proofs::Turns::gather_over))]
#[cycle(exps)]
pub fn exps(
    world: &World,
    values: &Values,
    trees: &[Exp],
    gathering: &mut Gathering,
) -> Result<(), Memory>
    ensures { OnOk result (gathering.new ≡ gather_each world.now values.now gathering.old (joined (map exp_steps trees.now))) }
{
    for item in trees {
        exp(world, values, item, gathering)?;
    }
    Ok(())
}

#[cycle(exps)]
fn built_exp(
    world: &World,
    values: &Values,
    long: Long,
    arguments: &[Exp],
    gathering: &mut Gathering,
) -> Result<(), Memory>
    ensures { OnOk result (gathering.new ≡ gather_each world.now values.now gathering.old (built_steps long (map exp_steps arguments.now))) }
{
    gathering.name(world, values, Role::Constructor(arguments.len()), long)?;
    exps(world, values, arguments, gathering)?;
    Ok(())
}
