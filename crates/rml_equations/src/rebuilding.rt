//! Types made anew, constructor by constructor: packed, or as a text reads them. It goes by the labels of a type, so that deep
//! types need no deep stack.

ghost use Rattle.std.specs.Prelude.{◌≡◌, ℕ, ◌≤◌, ◌∷◌, [], length, IfOk, OnOk};
ghost use Rattle.rml_types.specs.Nodes.{Fits};
ghost use Rattle.rml_types.specs.Runs.{Ready, run_by};
ghost use Rattle.rml_typed.specs.Own.{written};
ghost use Rattle.rml_equations.specs.Coding.{packed};
ghost use Rattle.rml_equations.specs.Rebuilding.{made_by, meanings_in, named_by, rebuilt, related_by, turned};
ghost use Rattle.rml_equations.specs.declared.rebuilding.Way.{Way};

use rml_base::Memory;
use rml_type_ops::substitute;
use rml_types::{Label, SchemeTree, TypeCon, forget_all, labels_of};
use sqlite_items::{Items, at};
use std::alloc::Global;

/// How a type is made anew.
#[derive(Clone, Copy)]
enum Way<'a> {
    /// Each relation type becomes one from the tuple of its inputs to the tuple of its outputs.
    Packed,
    /// Each name that stands for a type, by its number, gives way to that, over the name's arguments.
    Written(&'a [Option<SchemeTree>]),
}

/// A type in which each relation type is one from a tuple of the inputs to a tuple of the outputs.
pub fn packed(alloc: Global, tree: &SchemeTree) -> Result<SchemeTree, Memory>
    ensures { IfOk result (λ t. t ≡ packed tree.now) }
{
    rebuilt(alloc, Way::Packed, tree)
}

/// A type as a text reads it: each name that stands for a type gives way to that, over the name's arguments. What names stand
/// for is told by their numbers.
pub fn written(
    alloc: Global,
    meanings: &[Option<SchemeTree>],
    tree: &SchemeTree,
) -> Result<SchemeTree, Memory>
    ensures { IfOk result (λ t. t ≡ written (meanings_in meanings.now) tree.now) }
{
    rebuilt(alloc, Way::Written(meanings), tree)
}

fn rebuilt(alloc: Global, way: Way, tree: &SchemeTree) -> Result<SchemeTree, Memory>
    ensures { IfOk result (λ t. t ≡ rebuilt way.entry tree.now) }
{
    let labels = labels_of(alloc, tree)?;
    rebuild_all(alloc, way, &labels)
}

/// What is made of the type of some labels.
fn rebuild_all(alloc: Global, way: Way, labels: &[Label]) -> Result<SchemeTree, Memory>
    requires { (vars : ℕ) × Ready vars labels.now 0 }
    ensures { IfOk result (λ t. run_by (made_by way.entry) labels.now [] ≡ t ∷ []) }
{
    let mut made = Vec::new(alloc);
    for label in labels {
        rebuild(alloc, way, *label, &mut made)?;
    }
    Ok(made.remove(0))
}

/// Lets the last types that were made give way to what is made of a label over them.
fn rebuild(alloc: Global, way: Way, label: Label, made: &mut Vec<SchemeTree>) -> Result<(), Memory>
    requires count { label.1 ≤ length made.old.items }
    requires fits { Fits label.0 label.1 }
    ensures { OnOk result (made.new.items ≡ turned (made_by way.entry) label made.old.items) }
{
    let (con, count) = label;
    let at = made.len() - count;
    let parts = made.split_off(at)?;
    let tree = made_of(alloc, way, con, parts)?;
    made.push(tree)?;
    Ok(())
}

/// What is made of a constructor over what was made of its arguments.
fn made_of(
    alloc: Global,
    way: Way,
    con: TypeCon,
    mut parts: Vec<SchemeTree>,
) -> Result<SchemeTree, Memory>
    requires { Fits con (length parts.items) }
    ensures { IfOk result (λ t. t ≡ made_by way.entry con parts.items) }
{
    match con {
        TypeCon::Named(c) => named(alloc, way, c, Items::from_vec(parts)),
        TypeCon::Fixed(k) => Ok(SchemeTree::Var(k)),
        TypeCon::Tuple => Ok(SchemeTree::Tuple(Items::from_vec(parts))),
        TypeCon::Rel(inputs) => {
            let outputs = parts.split_off(inputs as usize)?;
            related(alloc, way, Items::from_vec(parts), Items::from_vec(outputs))
        }
    }
}

/// What is made of a type name over some arguments.
fn named(alloc: Global, way: Way, c: u32, args: Items<SchemeTree>) -> Result<SchemeTree, Memory>
    ensures { IfOk result (λ t. t ≡ named_by way.entry c args) }
{
    match way {
        Way::Packed => Ok(SchemeTree::Named(c, args)),
        Way::Written(meanings) => match at(meanings, c as usize) {
            Some(Some(body)) => {
                let tree = substitute(alloc, args.as_slice(), body);
                forget_all(args);
                tree
            }
            _ => Ok(SchemeTree::Named(c, args)),
        },
    }
}

/// What is made of a relation type from some types to others.
fn related(
    alloc: Global,
    way: Way,
    inputs: Items<SchemeTree>,
    outputs: Items<SchemeTree>,
) -> Result<SchemeTree, Memory>
    ensures { IfOk result (λ t. t ≡ related_by way.entry inputs outputs) }
{
    match way {
        Way::Packed => {
            let mut taken = Items::new(alloc);
            taken.push(SchemeTree::Tuple(inputs))?;
            let mut given = Items::new(alloc);
            given.push(SchemeTree::Tuple(outputs))?;
            Ok(SchemeTree::Rel(taken, given))
        }
        Way::Written(_) => Ok(SchemeTree::Rel(inputs, outputs)),
    }
}
