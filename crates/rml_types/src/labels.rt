//! Types in reverse Polish order: each constructor after its arguments. A type is walked and made by way of this list, so
//! that deep types need no deep stack.

ghost use Rattle.std.specs.Prelude.{◌≡◌, ℕ, ◌+◌, ◌-◌, ◌≤◌, ◌++◌, ◌∷◌, [], length, IfOk, OnOk};
ghost use Rattle.rml_types.specs.Finite.{built};
ghost use Rattle.rml_types.specs.Labels.{all_labels, labels, looked_at};
ghost use Rattle.rml_types.specs.Nodes.{Fits};
ghost use Rattle.rml_types.specs.Runs.{Ready};
ghost use Rattle.rml_types.specs.declared.tree.SchemeTree.{SchemeTree};

use crate::form::TypeCon;
use crate::tree::SchemeTree;
use rml_base::Memory;
use sqlite_items::Items;
use std::alloc::Global;

/// A constructor and the number of its arguments, which stand before it.
pub type Label = (TypeCon, usize);

/// The labels of a type, each behind those of its arguments, the arguments from left to right. No two types have the same
/// labels, and `tree_of` gives the type back.
pub fn labels_of(alloc: Global, tree: &SchemeTree) -> Result<Vec<Label>, Memory>
    ensures { IfOk result (λ v. v.items ≡ labels tree.now) }
{
    let mut labels = Vec::new(alloc);
    let mut waiting = Vec::new(alloc);
    waiting.push(tree)?;
    while let Some(tree) = waiting.pop() {
        let label = take_apart(tree, &mut waiting)?;
        labels.push(label)?;
    }
    labels.reverse();
    Ok(labels)
}

/// The type of some labels, which are those of a type.
pub fn tree_of(alloc: Global, all: &[Label]) -> Result<SchemeTree, Memory>
    requires { (vars : ℕ) × Ready vars all.now 0 }
    ensures { IfOk result (λ t. labels t ≡ all.now) }
{
    let mut made = Vec::new(alloc);
    for label in all {
        put_together(*label, &mut made)?;
    }
    Ok(made.remove(0))
}

/// Makes the type of a label of the last types that were made.
fn put_together(label: Label, made: &mut Vec<SchemeTree>) -> Result<(), Memory>
    requires count { label.1 ≤ length made.old.items }
    requires fits { Fits label.0 label.1 }
    ensures count { OnOk result (length made.new.items ≡ length made.old.items - label.1 + 1) }
    ensures labels { OnOk result (all_labels made.new.items ≡ all_labels made.old.items ++ label ∷ []) }
{
    let (con, count) = label;
    let at = made.len() - count;
    let parts = made.split_off(at)?;
    let tree = tree_by(con, parts)?;
    made.push(tree)?;
    Ok(())
}

/// The type that a constructor makes of some types.
fn tree_by(con: TypeCon, mut parts: Vec<SchemeTree>) -> Result<SchemeTree, Memory>
    requires { Fits con (length parts.items) }
    ensures { IfOk result (λ t. t ≡ built con parts.items) }
{
    match con {
        TypeCon::Named(c) => Ok(SchemeTree::Named(c, Items::from_vec(parts))),
        TypeCon::Fixed(k) => Ok(SchemeTree::Var(k)),
        TypeCon::Tuple => Ok(SchemeTree::Tuple(Items::from_vec(parts))),
        TypeCon::Rel(inputs) => {
            let outputs = parts.split_off(inputs as usize)?;
            Ok(SchemeTree::Rel(Items::from_vec(parts), Items::from_vec(outputs)))
        }
    }
}

/// The label of a type. Its parts wait.
fn take_apart<'a>(tree: &'a SchemeTree, waiting: &mut Vec<&'a SchemeTree>) -> Result<Label, Memory>
    ensures { IfOk result (λ label. all_labels (looked_at waiting.old.items) ++ labels tree.now ≡ all_labels (looked_at waiting.new.items) ++ label ∷ []) }
{
    match tree {
        SchemeTree::Var(k) => Ok((TypeCon::Fixed(*k), 0)),
        SchemeTree::Named(c, args) => {
            wait(args.as_slice(), waiting)?;
            Ok((TypeCon::Named(*c), args.len()))
        }
        SchemeTree::Tuple(parts) => {
            wait(parts.as_slice(), waiting)?;
            Ok((TypeCon::Tuple, parts.len()))
        }
        SchemeTree::Rel(inputs, outputs) => {
            let Ok(count) = u32::try_from(inputs.len()) else {
                return Err(Memory);
            };
            wait(inputs.as_slice(), waiting)?;
            wait(outputs.as_slice(), waiting)?;
            Ok((TypeCon::Rel(count), inputs.len() + outputs.len()))
        }
    }
}

/// Lets some types wait.
fn wait<'a>(trees: &'a [SchemeTree], waiting: &mut Vec<&'a SchemeTree>) -> Result<(), Memory>
    ensures { OnOk result (looked_at waiting.new.items ≡ looked_at waiting.old.items ++ trees.now) }
{
    for tree in trees {
        waiting.push(tree)?;
    }
    Ok(())
}
