//! How relation types stand in a graph: plain, as themselves, or packed, as a relation type from one tuple, of the inputs, to
//! one, of the outputs. Packed, a relation type whose counts are not known yet is one over two nodes without forms. The parts
//! of a group up to one of them may leave a count open; a whole unit leaves none.

ghost use Rattle.std.specs.Prelude.{◌≡◌, IfOk};
ghost use Rattle.rml_equations.specs.Coding.{coded};

use crate::rebuilding::packed;
use rml_base::Memory;
use rml_types::{SchemeTree, forget};
use std::alloc::Global;

/// How relation types stand in a graph.
#[derive(Clone, Copy, Debug, PartialEq, Eq)]
pub enum Coding {
    Plain,
    Packed,
}

/// A type as it stands in a graph.
pub fn coded(alloc: Global, coding: Coding, tree: SchemeTree) -> Result<SchemeTree, Memory>
    ensures { IfOk result (λ t. t ≡ coded coding tree) }
{
    match coding {
        Coding::Plain => Ok(tree),
        Coding::Packed => {
            let made = packed(alloc, &tree);
            forget(tree);
            made
        }
    }
}
