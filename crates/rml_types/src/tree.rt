//! The one tree of types, of schemes and of finite types alike.

ghost use Rattle.std.specs.Prelude.{◌≡◌, ◌+◌, ◌<◌, map, IfOk, IsTrue};
ghost use Rattle.rml_types.specs.Finite.{nodes, sum_of};

use crate::labels::{labels_of, tree_of};
use rml_base::Memory;
use sqlite_items::Items;
use std::alloc::Global;

/// A type. In a scheme a variable is any type; where a type stands for itself, a variable is one that stands fixed.
#[derive(Debug, Drop)]
pub enum SchemeTree {
    /// A variable, by its number.
    Var(u32),
    /// A declared or built-in type, by its number, with its arguments.
    Named(u32, Items<SchemeTree>),
    Tuple(Items<SchemeTree>),
    /// A relation type: its inputs and its outputs.
    Rel(Items<SchemeTree>, Items<SchemeTree>),
}

/// The same type, once more. It goes by way of the type's labels, so that deep types need no deep stack.
pub fn copy_tree(alloc: Global, tree: &SchemeTree) -> Result<SchemeTree, Memory>
    ensures { IfOk result (λ t. t ≡ tree.now) }
{
    let labels = labels_of(alloc, tree)?;
    tree_of(alloc, &labels)
}

/// The same types, once more.
pub fn copy_trees(alloc: Global, trees: &[SchemeTree]) -> Result<Items<SchemeTree>, Memory>
    ensures { IfOk result (λ all. all ≡ trees.now) }
{
    let mut all = Items::new(alloc);
    for tree in trees {
        all.push(copy_tree(alloc, tree)?)?;
    }
    Ok(all)
}

/// Drops a type piece by piece, so that deep types need no deep stack.
pub fn forget(tree: SchemeTree) {
    match tree {
        SchemeTree::Var(_) => {}
        SchemeTree::Named(_, args) => forget_all(args),
        SchemeTree::Tuple(parts) => forget_all(parts),
        SchemeTree::Rel(inputs, outputs) => {
            forget_all(inputs);
            forget_all(outputs);
        }
    }
}

/// Drops some types piece by piece. Without memory for what waits, what is left is dropped level by level.
pub fn forget_all(mut rest: Items<SchemeTree>) {
    while let Some(tree) = rest.pop() {
        if !take_parts(tree, &mut rest) {
            return;
        }
    }
}

/// Lets the parts of a type wait in its place. False where there is no memory for them.
fn take_parts(tree: SchemeTree, rest: &mut Items<SchemeTree>) -> bool
    ensures { IsTrue result → sum_of (map nodes rest.new) < sum_of (map nodes rest.old) + nodes tree }
{
    match tree {
        SchemeTree::Var(_) => true,
        SchemeTree::Named(_, args) => rest.append(args).is_ok(),
        SchemeTree::Tuple(parts) => rest.append(parts).is_ok(),
        SchemeTree::Rel(inputs, outputs) => {
            rest.append(inputs).is_ok() && rest.append(outputs).is_ok()
        }
    }
}
