//! Gathering over texts.

ghost use Rattle.std.specs.Prelude.{◌≡◌, ◌<◌, ◌^◌, [], length, map, nat_eq, IfOk, OnOk};
ghost use Rattle.rml_tables.specs.Words.{with_each};
ghost use Rattle.rml_scopes.specs.Steps.{joined, steps_if, val_exp_steps};
ghost use Rattle.rml_named.specs.Gathered.{gather_each};
ghost use Rattle.rml_named.specs.Rows.{text_rows, texts_rows};
ghost use Rattle.rml_named.specs.Uses.{decl_uses, text_uses};

use crate::gathering::Gathering;
use crate::goals::rules;
use crate::terms::exp;
use rml_base::Memory;
use rml_scopes::{Scope, Within, World};
use rml_syntax::{Decl, Exp, Text};
use rml_tables::NameSet;
use rml_values::Values;
use std::alloc::Global;

/// The expression of a val.
#[tactic(auto, using(crate::proofs::Turns::gather_over))]
fn val_exp(
    world: &World,
    values: &Values,
    tree: &Exp,
    gathering: &mut Gathering,
) -> Result<(), Memory>
    ensures { OnOk result (gathering.new ≡ gather_each world.now values.now gathering.old (val_exp_steps tree.now)) }
{
    gathering.begin(world, values);
    gathering.go_to(world, values, Within::AVal);
    exp(world, values, tree, gathering)?;
    gathering.go_to(world, values, Within::Anything);
    Ok(())
}

fn optional_exp(
    world: &World,
    values: &Values,
    tree: &Option<Exp>,
    gathering: &mut Gathering,
) -> Result<(), Memory>
    ensures { OnOk result (gathering.new ≡ gather_each world.now values.now gathering.old (steps_if val_exp_steps tree.now)) }
{
    match tree {
        None => Ok(()),
        Some(tree) => val_exp(world, values, tree, gathering),
    }
}

fn decl(
    world: &World,
    values: &Values,
    tree: &Decl,
    gathering: &mut Gathering,
) -> Result<(), Memory>
    ensures { OnOk result (gathering.new ≡ gather_each world.now values.now gathering.old (decl_uses tree.now)) }
{
    match tree {
        Decl::Datatype(_) => Ok(()),
        Decl::Abbrev(_, _) => Ok(()),
        Decl::Abstype(_) => Ok(()),
        Decl::Val(_, _, _, value) => optional_exp(world, values, value, gathering),
        Decl::Relation(name, _, _, trees) => {
            rules(world, values, *name, trees.as_slice(), gathering)
        }
    }
}

/// The declarations of a half of a text.
#[tactic(auto, using(crate::proofs::Turns::gather_over))]
fn decls(
    world: &World,
    values: &Values,
    trees: &[Decl],
    gathering: &mut Gathering,
) -> Result<(), Memory>
    ensures { OnOk result (gathering.new ≡ gather_each world.now values.now gathering.old (joined (map decl_uses trees.now))) }
{
    for item in trees {
        decl(world, values, item, gathering)?;
    }
    Ok(())
}

/// A whole text.
#[tactic(auto, using(crate::proofs::Turns::gather_over))]
fn text(
    world: &World,
    values: &Values,
    tree: &Text,
    gathering: &mut Gathering,
) -> Result<(), Memory>
    ensures { OnOk result (gathering.new ≡ gather_each world.now values.now gathering.old (text_uses tree.now)) }
{
    decls(world, values, tree.specs.as_slice(), gathering)?;
    gathering.begin_body(world, values);
    decls(world, values, tree.decls.as_slice(), gathering)?;
    Ok(())
}

/// A text of this number, from its beginning, with the rows of the texts before it.
fn in_text(
    alloc: Global,
    world: &World,
    values: &Values,
    number: u32,
    tree: &Text,
    gathering: &mut Gathering,
) -> Result<(), Memory>
    ensures { OnOk result (gathering.new.rows ≡ with_each nat_eq gathering.old.rows (text_rows world.now values.now number tree.now)) }
{
    gathering.scope = Scope::new(alloc, number);
    text(world, values, tree, gathering)?;
    Ok(())
}

/// The rows of all texts.
pub fn in_texts(
    alloc: Global,
    world: &World,
    values: &Values,
    texts: &[Text],
) -> Result<Gathering, Memory>
    requires { length texts.now < 2 ^ 32 }
    ensures { IfOk result (λ g. g.rows ≡ with_each nat_eq [] (texts_rows world.now values.now 0 texts.now)) }
{
    let mut gathering = Gathering {
        scope: Scope::new(alloc, 0),
        rows: NameSet::new(alloc),
    };
    for (number, tree) in texts.iter().enumerate() {
        in_text(alloc, world, values, number as u32, tree, &mut gathering)?;
    }
    Ok(gathering)
}
