//! The walk over declarations.

ghost use Rattle.std.specs.Prelude.{◌≡◌, ◌∷◌, [], map, IfOk, OnOk};
ghost use Rattle.rml_scopes.specs.Steps.{abbrev_steps, bind_steps, con_steps, decl_steps, has_repeats, head_step, joined, relation_steps, sig_steps, steps_if, type_steps, val_exp_steps, val_steps};
ghost use Rattle.rml_scopes.specs.Walks.{run};

use crate::goals::rules;
use crate::terms::exp;
use crate::types::{sig, type_exp, type_exps};
use rml_base::{Memory, Place};
use rml_outlines::{TypeKind, ValueEntry, add_each, type_entry};
use rml_scopes::{Walk, Within, World};
use rml_syntax::{ConBind, DataBind, Decl, Exp, Rule, Sig, TypeExp, TypeHead};
use rml_tables::NameSet;
use std::alloc::Global;

/// Whether one of some names stands twice.
fn has_repeats(alloc: Global, names: &[u32]) -> Result<bool, Memory>
    ensures { IfOk result (λ r. r ≡ has_repeats names.now) }
{
    let mut different = NameSet::new(alloc);
    add_each(&mut different, names)?;
    Ok(different.len() < names.len())
}

/// The head of a declaration of a type.
fn head(
    alloc: Global,
    world: &World,
    kind: TypeKind,
    tree: &TypeHead,
    walk: &mut Walk,
) -> Result<(), Memory>
    ensures { OnOk result (walk.new ≡ run world.now walk.old (head_step kind tree.now ∷ [])) }
{
    let twice = has_repeats(alloc, tree.vars.as_slice())?;
    walk.declare_type(world, type_entry(kind, tree), twice, tree.name, tree.place)?;
    Ok(())
}

#[tactic(auto, using(crate::proofs::Runs::run_over))]
fn constructor(world: &World, tree: &ConBind, walk: &mut Walk) -> Result<(), Memory>
    ensures { OnOk result (walk.new ≡ run world.now walk.old (con_steps tree.now)) }
{
    let parts = tree.parts.as_slice();
    type_exps(world, parts, walk)?;
    let entry = ValueEntry::Constructor(parts.len());
    walk.declare_value(world, entry, true, tree.name, tree.place)?;
    Ok(())
}

#[tactic(auto, using(crate::proofs::Runs::run_over))]
fn constructors(world: &World, trees: &[ConBind], walk: &mut Walk) -> Result<(), Memory>
    ensures { OnOk result (walk.new ≡ run world.now walk.old (joined (map con_steps trees.now))) }
{
    for item in trees {
        constructor(world, item, walk)?;
    }
    Ok(())
}

#[tactic(auto, using(crate::proofs::Runs::run_over))]
fn datatype(alloc: Global, world: &World, tree: &DataBind, walk: &mut Walk) -> Result<(), Memory>
    ensures { OnOk result (walk.new ≡ run world.now walk.old (bind_steps tree.now)) }
{
    head(alloc, world, TypeKind::Datatype, &tree.head, walk)?;
    walk.limit_params(world, tree.head.vars.as_slice())?;
    constructors(world, tree.cons.as_slice(), walk)?;
    walk.free_params(world);
    Ok(())
}

#[tactic(auto, using(crate::proofs::Runs::run_over))]
fn datatypes(
    alloc: Global,
    world: &World,
    trees: &[DataBind],
    walk: &mut Walk,
) -> Result<(), Memory>
    ensures { OnOk result (walk.new ≡ run world.now walk.old (joined (map bind_steps trees.now))) }
{
    for item in trees {
        datatype(alloc, world, item, walk)?;
    }
    Ok(())
}

#[tactic(auto, using(crate::proofs::Runs::run_over))]
fn abbrev(
    alloc: Global,
    world: &World,
    tree: &TypeHead,
    means: &TypeExp,
    walk: &mut Walk,
) -> Result<(), Memory>
    ensures { OnOk result (walk.new ≡ run world.now walk.old (abbrev_steps tree.now means.now)) }
{
    walk.limit_params(world, tree.vars.as_slice())?;
    walk.go_to(world, Within::AType);
    type_exp(world, means, walk)?;
    walk.go_to(world, Within::Anything);
    walk.free_params(world);
    head(alloc, world, TypeKind::Abbrev, tree, walk)?;
    Ok(())
}

fn optional_type(world: &World, tree: &Option<TypeExp>, walk: &mut Walk) -> Result<(), Memory>
    ensures { OnOk result (walk.new ≡ run world.now walk.old (steps_if type_steps tree.now)) }
{
    match tree {
        None => Ok(()),
        Some(tree) => type_exp(world, tree, walk),
    }
}

fn optional_sig(world: &World, tree: &Option<Sig>, walk: &mut Walk) -> Result<(), Memory>
    ensures { OnOk result (walk.new ≡ run world.now walk.old (steps_if sig_steps tree.now)) }
{
    match tree {
        None => Ok(()),
        Some(tree) => sig(world, tree, walk),
    }
}

/// The expression of a val.
#[tactic(auto, using(crate::proofs::Runs::run_over))]
fn val_exp(world: &World, tree: &Exp, walk: &mut Walk) -> Result<(), Memory>
    ensures { OnOk result (walk.new ≡ run world.now walk.old (val_exp_steps tree.now)) }
{
    walk.begin(world);
    walk.go_to(world, Within::AVal);
    exp(world, tree, walk)?;
    walk.go_to(world, Within::Anything);
    Ok(())
}

fn optional_exp(world: &World, tree: &Option<Exp>, walk: &mut Walk) -> Result<(), Memory>
    ensures { OnOk result (walk.new ≡ run world.now walk.old (steps_if val_exp_steps tree.now)) }
{
    match tree {
        None => Ok(()),
        Some(tree) => val_exp(world, tree, walk),
    }
}

#[tactic(auto, using(crate::proofs::Runs::run_over))]
fn val(
    world: &World,
    name: u32,
    place: Place,
    of: &Option<TypeExp>,
    value: &Option<Exp>,
    walk: &mut Walk,
) -> Result<(), Memory>
    ensures { OnOk result (walk.new ≡ run world.now walk.old (val_steps name place of.now value.now)) }
{
    optional_type(world, of, walk)?;
    optional_exp(world, value, walk)?;
    walk.declare_value(world, ValueEntry::Val, of.is_some(), name, place)?;
    Ok(())
}

#[tactic(auto, using(crate::proofs::Runs::run_over))]
fn relation(
    world: &World,
    name: u32,
    place: Place,
    of: &Option<Sig>,
    trees: &[Rule],
    walk: &mut Walk,
) -> Result<(), Memory>
    ensures { OnOk result (walk.new ≡ run world.now walk.old (relation_steps name place of.now trees.now)) }
{
    optional_sig(world, of, walk)?;
    walk.declare_value(world, ValueEntry::Relation, of.is_some(), name, place)?;
    rules(world, name, trees, walk)?;
    Ok(())
}

fn decl(alloc: Global, world: &World, tree: &Decl, walk: &mut Walk) -> Result<(), Memory>
    ensures { OnOk result (walk.new ≡ run world.now walk.old (decl_steps tree.now)) }
{
    match tree {
        Decl::Datatype(binds) => datatypes(alloc, world, binds.as_slice(), walk),
        Decl::Abbrev(tree, means) => abbrev(alloc, world, tree, means, walk),
        Decl::Abstype(tree) => head(alloc, world, TypeKind::Abstype, tree, walk),
        Decl::Val(name, place, of, value) => val(world, *name, *place, of, value, walk),
        Decl::Relation(name, place, of, trees) => {
            relation(world, *name, *place, of, trees.as_slice(), walk)
        }
    }
}

/// The declarations of a half of a text.
#[tactic(auto, using(crate::proofs::Runs::run_over))]
pub fn decls(alloc: Global, world: &World, trees: &[Decl], walk: &mut Walk) -> Result<(), Memory>
    ensures { OnOk result (walk.new ≡ run world.now walk.old (joined (map decl_steps trees.now))) }
{
    for item in trees {
        decl(alloc, world, item, walk)?;
    }
    Ok(())
}
