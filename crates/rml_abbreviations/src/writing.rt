//! A type is written out once: each name that stands for a type gives way to that.

ghost use Rattle.std.specs.Prelude.{◌≡◌, ℕ, ◌≤◌, ◌+◌, ◌-◌, ◌∷◌, [], length, IfOk, OnOk};
ghost use Rattle.rml_types.specs.declared.form.TypeCon.{TypeCon};
ghost use Rattle.rml_types.specs.Nodes.{Fits};
ghost use Rattle.rml_types.specs.Runs.{Ready, run_by};
ghost use Rattle.rml_types.specs.Schemes.{inst};
ghost use Rattle.rml_abbreviations.specs.Written.{meaning_in, written, written_by};

use crate::body::{Body, meaning};
use rml_base::Memory;
use rml_type_ops::substitute;
use rml_types::{Label, SchemeTree, TypeCon, forget_all, labels_of};
use sqlite_items::Items;
use std::alloc::Global;

/// How many nodes the types may have that are put in place of names when one table of types is written out once.
pub const MOST_NODES: usize = 16_777_216;

/// A type in which each name that stands for a type has given way to that, over the name's arguments. `room` counts the nodes that types
/// in place of names may still have; where there would be more the answer is want of memory, before there is none.
pub fn written(
    alloc: Global,
    bodies: &[Option<Body>],
    room: &mut usize,
    tree: &SchemeTree,
) -> Result<SchemeTree, Memory>
    ensures { IfOk result (λ t. t ≡ written (meaning_in bodies.now) tree.now) }
{
    let labels = labels_of(alloc, tree)?;
    let tree = written_of(alloc, bodies, room, &labels)?;
    Ok(tree)
}

/// The type of some labels, which are those of a type, written out.
fn written_of(
    alloc: Global,
    bodies: &[Option<Body>],
    room: &mut usize,
    labels: &[Label],
) -> Result<SchemeTree, Memory>
    requires { (vars : ℕ) × Ready vars labels.now 0 }
    ensures { IfOk result (λ t. run_by (written_by (meaning_in bodies.now)) labels.now [] ≡ t ∷ []) }
{
    let mut made = Vec::new(alloc);
    for label in labels {
        if let Err(memory) = write(alloc, bodies, room, *label, &mut made) {
            forget_all(Items::from_vec(made));
            return Err(memory);
        }
    }
    Ok(made.remove(0))
}

/// Makes what a label stands for of the last types that were made.
fn write(
    alloc: Global,
    bodies: &[Option<Body>],
    room: &mut usize,
    label: Label,
    made: &mut Vec<SchemeTree>,
) -> Result<(), Memory>
    requires count { label.1 ≤ length made.old.items }
    requires fits { Fits label.0 label.1 }
    ensures count { OnOk result (length made.new.items ≡ length made.old.items - label.1 + 1) }
    ensures made { OnOk result (made.new.items ≡ run_by (written_by (meaning_in bodies.now)) (label ∷ []) made.old.items) }
{
    let (con, count) = label;
    let at = made.len() - count;
    let parts = made.split_off(at)?;
    let tree = written_by(alloc, bodies, room, con, parts)?;
    made.push(tree)?;
    Ok(())
}

/// What a constructor makes of types that are written out.
fn written_by(
    alloc: Global,
    bodies: &[Option<Body>],
    room: &mut usize,
    con: TypeCon,
    mut parts: Vec<SchemeTree>,
) -> Result<SchemeTree, Memory>
    requires { Fits con (length parts.items) }
    ensures { IfOk result (λ t. t ≡ written_by (meaning_in bodies.now) con parts.items) }
{
    match con {
        TypeCon::Named(c) => named(alloc, bodies, room, c, parts),
        TypeCon::Fixed(k) => Ok(SchemeTree::Var(k)),
        TypeCon::Tuple => Ok(SchemeTree::Tuple(Items::from_vec(parts))),
        TypeCon::Rel(inputs) => {
            let outputs = parts.split_off(inputs as usize)?;
            Ok(SchemeTree::Rel(Items::from_vec(parts), Items::from_vec(outputs)))
        }
    }
}

/// What a name makes of its arguments.
fn named(
    alloc: Global,
    bodies: &[Option<Body>],
    room: &mut usize,
    number: u32,
    parts: Vec<SchemeTree>,
) -> Result<SchemeTree, Memory>
    ensures { IfOk result (λ t. t ≡ written_by (meaning_in bodies.now) (TypeCon.Named number) parts.items) }
{
    match meaning(bodies, number) {
        None => Ok(SchemeTree::Named(number, Items::from_vec(parts))),
        Some(body) => filled(alloc, room, parts, body.tree()),
    }
}

/// A type with others in place of its variables, which go.
fn filled(
    alloc: Global,
    room: &mut usize,
    parts: Vec<SchemeTree>,
    body: &SchemeTree,
) -> Result<SchemeTree, Memory>
    ensures { IfOk result (λ t. t ≡ inst parts.items body.now) }
{
    let filled = filled_by(alloc, room, &parts, body);
    forget_all(Items::from_vec(parts));
    filled
}

/// A type with others in place of its variables, where there is room for it.
fn filled_by(
    alloc: Global,
    room: &mut usize,
    parts: &[SchemeTree],
    body: &SchemeTree,
) -> Result<SchemeTree, Memory>
    ensures { IfOk result (λ t. t ≡ inst parts.now body.now) }
{
    let nodes = nodes(alloc, parts, body)?;
    if nodes > *room {
        return Err(Memory);
    }
    *room -= nodes;
    let tree = substitute(alloc, parts, body)?;
    Ok(tree)
}

/// How many nodes a type has with others in place of its variables.
fn nodes(alloc: Global, parts: &[SchemeTree], body: &SchemeTree) -> Result<usize, Memory> {
    let mut each = Vec::new(alloc);
    for part in parts {
        let labels = labels_of(alloc, part)?;
        each.push(labels.len())?;
    }
    let mut nodes = 0usize;
    for (con, _) in &labels_of(alloc, body)? {
        nodes = nodes.saturating_add(nodes_for(*con, &each));
    }
    Ok(nodes)
}

/// How many nodes stand in place of a constructor, by those of the types in place of variables.
fn nodes_for(con: TypeCon, each: &[usize]) -> usize {
    match con {
        TypeCon::Fixed(k) => each.get(k as usize).copied().unwrap_or(1),
        _ => 1,
    }
}
