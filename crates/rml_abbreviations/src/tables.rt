//! Tables of what names stand for: one written out by another, and whether two are the same.

ghost use Rattle.std.specs.Prelude.{◌≡◌, map, IfOk, IsTrue};
ghost use Rattle.std.specs.Option.{option_map};
ghost use Rattle.rml_abbreviations.specs.Written.{meaning_in, written};

use crate::body::Body;
use crate::writing::{MOST_NODES, written};
use rml_base::Memory;
use rml_type_ops::same_type;
use rml_types::copy_tree;
use std::alloc::Global;

/// What a name stands for, written out by a table.
fn written_body(
    alloc: Global,
    next: &[Option<Body>],
    room: &mut usize,
    body: &Option<Body>,
) -> Result<Option<Body>, Memory>
    ensures { IfOk result (λ o. o ≡ option_map (written (meaning_in next.now)) body.now) }
{
    match body {
        None => Ok(None),
        Some(body) => {
            let tree = written(alloc, next, room, body.tree())?;
            Ok(Some(Body::of(tree)))
        }
    }
}

/// What names stand for, written out by a table. So to write a type out by what is made is to write it out by the first and then by the
/// other.
pub fn followed(
    alloc: Global,
    first: &[Option<Body>],
    next: &[Option<Body>],
) -> Result<Vec<Option<Body>>, Memory>
    ensures { IfOk result (λ table. table.items ≡ map (option_map (written (meaning_in next.now))) first.now) }
{
    let mut room = MOST_NODES;
    let mut table = Vec::new(alloc);
    for body in first {
        table.push(written_body(alloc, next, &mut room, body)?)?;
    }
    Ok(table)
}

fn copied_body(alloc: Global, body: &Option<Body>) -> Result<Option<Body>, Memory>
    ensures { IfOk result (λ o. o ≡ body.now) }
{
    match body {
        None => Ok(None),
        Some(body) => {
            let tree = copy_tree(alloc, body.tree())?;
            Ok(Some(Body::of(tree)))
        }
    }
}

/// The same table, once more.
pub fn copied(alloc: Global, bodies: &[Option<Body>]) -> Result<Vec<Option<Body>>, Memory>
    ensures { IfOk result (λ table. table.items ≡ bodies.now) }
{
    let mut table = Vec::new(alloc);
    for body in bodies {
        table.push(copied_body(alloc, body)?)?;
    }
    Ok(table)
}

/// Whether what two names stand for is the same.
fn is_same_body(alloc: Global, a: &Option<Body>, b: &Option<Body>) -> Result<bool, Memory>
    ensures { IfOk result (λ same. IsTrue same → a.now ≡ b.now) }
{
    match a {
        None => Ok(b.is_none()),
        Some(a) => match b {
            None => Ok(false),
            Some(b) => {
                let same = same_type(alloc, a.tree(), b.tree())?;
                Ok(same)
            }
        },
    }
}

/// Whether two tables are the same.
pub fn are_same(alloc: Global, a: &[Option<Body>], b: &[Option<Body>]) -> Result<bool, Memory>
    ensures { IfOk result (λ same. IsTrue same → a.now ≡ b.now) }
{
    if a.len() != b.len() {
        return Ok(false);
    }
    for (i, body) in a.iter().enumerate() {
        if !is_same_body(alloc, body, &b[i])? {
            return Ok(false);
        }
    }
    Ok(true)
}
