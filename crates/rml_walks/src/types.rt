//! The walk over types and signatures.

ghost use Rattle.std.specs.Prelude.{◌≡◌, map, OnOk};
ghost use Rattle.rml_scopes.specs.Steps.{applied_steps, joined, later_names, sig_steps, type_names, type_steps};
ghost use Rattle.rml_scopes.specs.Walks.{run};

use rml_base::Memory;
use rml_scopes::{Role, Walk, World};
use rml_syntax::{Long, Sig, TypeExp};

#[cycle(types)]
pub fn type_exp(world: &World, tree: &TypeExp, walk: &mut Walk) -> Result<(), Memory>
    ensures { OnOk result (walk.new ≡ run world.now walk.old (type_steps tree.now)) }
{
    match tree {
        TypeExp::Var(name, place) => {
            walk.type_variable(world, *name, *place);
            Ok(())
        }
        TypeExp::App(arguments, names) => {
            applied(world, arguments.as_slice(), names.as_slice(), walk)
        }
        TypeExp::Tuple(parts) => type_exps(world, parts.as_slice(), walk),
        TypeExp::Rel(inner) => sig(world, inner.get(), walk),
    }
}

#[tactic(auto, using(crate::proofs::Runs::run_over))]
#[cycle(types)]
pub fn type_exps(world: &World, trees: &[TypeExp], walk: &mut Walk) -> Result<(), Memory>
    ensures { OnOk result (walk.new ≡ run world.now walk.old (joined (map type_steps trees.now))) }
{
    for item in trees {
        type_exp(world, item, walk)?;
    }
    Ok(())
}

/// Arguments, and the names behind them.
#[tactic(auto, using(crate::proofs::Runs::run_over))]
#[cycle(types)]
fn applied(
    world: &World,
    arguments: &[TypeExp],
    names: &[Long],
    walk: &mut Walk,
) -> Result<(), Memory>
    ensures { OnOk result (walk.new ≡ run world.now walk.old (applied_steps (map type_steps arguments.now) names.now)) }
{
    type_exps(world, arguments, walk)?;
    all_names(world, arguments.len(), names, walk)?;
    Ok(())
}

#[cycle(types)]
pub fn sig(world: &World, tree: &Sig, walk: &mut Walk) -> Result<(), Memory>
    ensures { OnOk result (walk.new ≡ run world.now walk.old (sig_steps tree.now)) }
{
    type_exps(world, tree.inputs.as_slice(), walk)?;
    type_exps(world, tree.outputs.as_slice(), walk)?;
    Ok(())
}

/// Names of types, of which the first stands behind so many arguments and each other behind one.
fn all_names(world: &World, count: usize, names: &[Long], walk: &mut Walk) -> Result<(), Memory>
    ensures { OnOk result (walk.new ≡ run world.now walk.old (type_names count names.now)) }
{
    let Some((first, others)) = names.split_first() else {
        return Ok(());
    };
    walk.name(world, Role::TypeName(count), *first)?;
    other_names(world, others, walk)?;
    Ok(())
}

fn other_names(world: &World, names: &[Long], walk: &mut Walk) -> Result<(), Memory>
    ensures { OnOk result (walk.new ≡ run world.now walk.old (later_names names.now)) }
{
    for long in names {
        walk.name(world, Role::TypeName(1), *long)?;
    }
    Ok(())
}
