//! The walk over a text.

ghost use Rattle.std.specs.Prelude.{◌≡◌, map, OnOk};
ghost use Rattle.rml_scopes.specs.Steps.{joined, text_steps, with_step};
ghost use Rattle.rml_scopes.specs.Walks.{run};

use crate::decls::decls;
use rml_base::Memory;
use rml_scopes::{Walk, World};
use rml_syntax::{Text, Uses};
use std::alloc::Global;

/// The `with`s of a half of a text.
fn withs(world: &World, trees: &[Uses], walk: &mut Walk)
    ensures { walk.new ≡ run world.now walk.old (joined (map with_step trees.now)) }
{
    for item in trees {
        walk.with(world, item.file, item.place);
    }
}

/// A whole text.
#[tactic(auto, using(crate::proofs::Runs::run_over))]
pub fn text(alloc: Global, world: &World, tree: &Text, walk: &mut Walk) -> Result<(), Memory>
    ensures { OnOk result (walk.new ≡ run world.now walk.old (text_steps tree.now)) }
{
    walk.module_name(world, tree.module, tree.place);
    withs(world, tree.uses.as_slice(), walk);
    decls(alloc, world, tree.specs.as_slice(), walk)?;
    walk.begin_body(world);
    withs(world, tree.body_uses.as_slice(), walk);
    decls(alloc, world, tree.decls.as_slice(), walk)?;
    Ok(())
}
