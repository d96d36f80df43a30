//! Types: the one tree of types with its schemes, and the graph on which types are inferred.
//! It knows nothing of programs, names or rules: a named type is a number.
#![tactic(auto)]

mod form;
mod graph;
mod labels;
pub mod laws;
mod scheme;
mod tree;
mod union_find;

pub use form::{TypeCon, UnifyErr};
pub use graph::Graph;
pub use labels::{Label, labels_of, tree_of};
pub use scheme::{Scheme, are_below};
pub use tree::{SchemeTree, copy_tree, copy_trees, forget, forget_all};
