//! The general types of the relations of a group, read off its graph.

ghost use Rattle.std.specs.Prelude.{◌≡◌, ◌<◌, ℕ, length, All, None, IfOk};
ghost use Rattle.std.specs.List.{AllZip};
ghost use Rattle.rml_types.specs.Finite.{HasTypes};
ghost use Rattle.rml_types.specs.Nodes.{HasNoFixed};
ghost use Rattle.rml_types.specs.declared.tree.SchemeTree.{SchemeTree};
ghost use Rattle.rml_groups.specs.Found.{IsReadOff};
ghost use Rattle.rml_groups.specs.declared.members.Member.{Member};

use crate::members::Member;
use rml_base::Memory;
use rml_base::limits::TYPES;
use rml_types::{Graph, Scheme};
use std::alloc::Global;

/// The general type of a relation, by its number; None where that has more nodes than the limit.
#[derive(Drop)]
pub struct Inferred {
    pub rel: usize,
    pub scheme: Option<Scheme>,
}

/// The general types of relations whose nodes are in a graph.
pub fn read_off(
    alloc: Global,
    graph: &mut Graph,
    members: &[Member],
) -> Result<Vec<Inferred>, Memory>
    requires within { All (λ (m : Member). m.node < length graph.old.forms) members.now }
    requires accepted { graph.old.failed ≡ None }
    requires finite { (types : ℕ → SchemeTree) × HasTypes graph.old types }
    requires unfixed { HasNoFixed graph.old }
    ensures { IfOk result (λ v. AllZip (IsReadOff graph.old) members.now v.items) }
{
    let mut all = Vec::new(alloc);
    for member in members {
        let scheme = graph.general(member.node, TYPES)?;
        all.push(Inferred {
            rel: member.number,
            scheme,
        })?;
    }
    Ok(all)
}
