//! What the abstypes that a text defines by `type` stand for, written out.

ghost use Rattle.std.specs.Prelude.{◌≡◌, ℕ, ◌-◌, length, map, IfOk, slice_get};
ghost use Rattle.std.specs.Option.{option_map};
ghost use Rattle.rml_abbreviations.specs.Written.{meaning_in, written};
ghost use Rattle.rml_typed.specs.Own.{own_meanings};
ghost use Rattle.rml_equations.specs.Rebuilding.{meanings_in};
ghost use Rattle.rml_meanings.specs.Bodies.{body_in};

use rml_abbreviations::{Body, MOST_NODES, written, written_out};
use rml_base::Memory;
use rml_resolved::TypeDef;
use rml_types::{SchemeTree, copy_tree};
use std::alloc::Global;

/// What a type name of a program stands for in the text of a module, by its definition alone.
fn body_of(alloc: Global, owner: u32, def: &TypeDef) -> Result<Option<Body>, Memory>
    ensures { IfOk result (λ o. o ≡ body_in owner def.now) }
{
    match &def.means {
        Some(scheme) => {
            if def.module == owner {
                let tree = copy_tree(alloc, &scheme.body)?;
                Ok(Some(Body::of(tree)))
            } else {
                Ok(None)
            }
        }
        None => Ok(None),
    }
}

/// The same of all type names.
fn bodies(alloc: Global, types: &[TypeDef], owner: u32) -> Result<Vec<Option<Body>>, Memory>
    ensures { IfOk result (λ v. v.items ≡ map (body_in owner) types.now) }
{
    let mut all = Vec::new(alloc);
    for def in types {
        let body = body_of(alloc, owner, def)?;
        all.push(body)?;
    }
    Ok(all)
}

/// What a name stands for, written out by a table.
fn written_body(
    alloc: Global,
    table: &[Option<Body>],
    room: &mut usize,
    body: &Option<Body>,
) -> Result<Option<SchemeTree>, Memory>
    ensures { IfOk result (λ o. o ≡ option_map (written (meaning_in table.now)) body.now) }
{
    match body {
        None => Ok(None),
        Some(body) => {
            let tree = written(alloc, table, room, body.tree())?;
            Ok(Some(tree))
        }
    }
}

/// What names stand for, written out by a table.
fn all_written(
    alloc: Global,
    table: &[Option<Body>],
    bodies: &[Option<Body>],
) -> Result<Vec<Option<SchemeTree>>, Memory>
    ensures { IfOk result (λ v. v.items ≡ map (option_map (written (meaning_in table.now))) bodies.now) }
{
    let mut room = MOST_NODES;
    let mut all = Vec::new(alloc);
    for body in bodies {
        let tree = written_body(alloc, table, &mut room, body)?;
        all.push(tree)?;
    }
    Ok(all)
}

/// What each type name stands for in the text of a module: an abstype that this text defines by `type` for its definition, in
/// which those of the same text are written out in turn. By the numbers of types.
pub fn meanings(
    alloc: Global,
    types: &[TypeDef],
    owner: u32,
) -> Result<Vec<Option<SchemeTree>>, Memory>
    ensures { IfOk result (λ v. (c : ℕ) → meanings_in v.items c ≡ own_meanings types.now owner c) }
{
    let Ok(depth) = u32::try_from(types.len().saturating_sub(1)) else {
        return Err(Memory);
    };
    let bodies = bodies(alloc, types, owner)?;
    let table = written_out(alloc, &bodies, depth)?;
    all_written(alloc, &table, &bodies)
}
