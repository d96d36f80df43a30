//! The walk over patterns and expressions.

ghost use Rattle.std.specs.Prelude.{◌≡◌, map, OnOk};
ghost use Rattle.rml_scopes.specs.Steps.{built_steps, exp_steps, joined, pattern_steps, short};
ghost use Rattle.rml_scopes.specs.Walks.{run};

use rml_base::{Memory, Place};
use rml_scopes::{Role, Walk, World};
use rml_syntax::{Exp, Long, Pattern};

/// A short name.
pub fn short(name: u32, place: Place) -> Long
    ensures { result ≡ short name place }
{
    Long {
        module: None,
        name,
        place,
    }
}

#[cycle(patterns)]
pub fn pattern(world: &World, tree: &Pattern, walk: &mut Walk) -> Result<(), Memory>
    ensures { OnOk result (walk.new ≡ run world.now walk.old (pattern_steps tree.now)) }
{
    match tree {
        Pattern::Any => Ok(()),
        Pattern::Lit(_) => Ok(()),
        Pattern::Name(long) => walk.name(world, Role::Pattern, *long),
        Pattern::App(long, inner) => built_pattern(world, *long, inner.as_slice(), walk),
        Pattern::Tuple(inner) => patterns(world, inner.as_slice(), walk),
        Pattern::List(inner) => patterns(world, inner.as_slice(), walk),
        Pattern::Cons(inner) => patterns(world, inner.as_slice(), walk),
        Pattern::Bind(name, place, inner) => {
            walk.name(world, Role::Variable, short(*name, *place))?;
            pattern(world, inner.get(), walk)
        }
    }
}

#[tactic(auto, using(crate::proofs::Runs::run_over))]
#[cycle(patterns)]
pub fn patterns(world: &World, trees: &[Pattern], walk: &mut Walk) -> Result<(), Memory>
    ensures { OnOk result (walk.new ≡ run world.now walk.old (joined (map pattern_steps trees.now))) }
{
    for item in trees {
        pattern(world, item, walk)?;
    }
    Ok(())
}

#[cycle(patterns)]
fn built_pattern(
    world: &World,
    long: Long,
    arguments: &[Pattern],
    walk: &mut Walk,
) -> Result<(), Memory>
    ensures { OnOk result (walk.new ≡ run world.now walk.old (built_steps long (map pattern_steps arguments.now))) }
{
    walk.name(world, Role::Constructor(arguments.len()), long)?;
    patterns(world, arguments, walk)?;
    Ok(())
}

#[cycle(exps)]
pub fn exp(world: &World, tree: &Exp, walk: &mut Walk) -> Result<(), Memory>
    ensures { OnOk result (walk.new ≡ run world.now walk.old (exp_steps tree.now)) }
{
    match tree {
        Exp::Lit(_) => Ok(()),
        Exp::Name(long) => walk.name(world, Role::Value, *long),
        Exp::App(long, inner) => built_exp(world, *long, inner.as_slice(), walk),
        Exp::Tuple(inner) => exps(world, inner.as_slice(), walk),
        Exp::List(inner) => exps(world, inner.as_slice(), walk),
        Exp::Cons(inner) => exps(world, inner.as_slice(), walk),
    }
}

#[tactic(auto, using(crate::proofs::Runs::run_over))]
#[cycle(exps)]
pub fn exps(world: &World, trees: &[Exp], walk: &mut Walk) -> Result<(), Memory>
    ensures { OnOk result (walk.new ≡ run world.now walk.old (joined (map exp_steps trees.now))) }
{
    for item in trees {
        exp(world, item, walk)?;
    }
    Ok(())
}

#[cycle(exps)]
fn built_exp(world: &World, long: Long, arguments: &[Exp], walk: &mut Walk) -> Result<(), Memory>
    ensures { OnOk result (walk.new ≡ run world.now walk.old (built_steps long (map exp_steps arguments.now))) }
{
    walk.name(world, Role::Constructor(arguments.len()), long)?;
    exps(world, arguments, walk)?;
    Ok(())
}
