//! Union-find: which nodes were made one class. Each class is named by its least node, its root.

ghost use Rattle.std.specs.Prelude.{◌≡◌, ◌<◌, ◌≤◌, [], ◌∷◌, ◌++◌, length, map, slice_index, IfOk, OnOk, OnErr};
ghost use Rattle.rml_types.specs.UnionFind.{Falls, SameRoots, moved, root_of};

use rml_base::Memory;
use std::alloc::Global;
use std::marker::Model;

/// Nodes from 0 on in classes, which contracts see as the list of each node's root. Each node leads to a lesser one of its
/// class, up to the root, and ways that were gone are made shorter.
#[derive(Drop)]
pub struct UnionFind {
    parents: Vec<usize>,
}

impl Model for UnionFind {
    ghost use Rattle.std.specs.Prelude.{List, ℕ};
    ghost use Rattle.rml_types.specs.UnionFind.{Falls, roots};

    ghost Value = { List ℕ };

    ghost view = { λ c. roots c.parents.items };

    ghost invariant = { λ c. Falls c.parents.items };
}

impl UnionFind {
    pub fn new(alloc: Global) -> UnionFind
        ensures { result ≡ [] }
    {
        UnionFind {
            parents: Vec::new(alloc),
        }
    }

    /// A further node, in a class of its own.
    pub fn add(&mut self) -> Result<usize, Memory>
        ensures node { IfOk result (λ n. n ≡ length self.old) }
        ensures ok { OnOk result (self.new ≡ self.old ++ length self.old ∷ []) }
        ensures err { OnErr result (self.new ≡ self.old) }
    {
        let node = self.parents.len();
        self.parents.push(node)?;
        Ok(node)
    }

    /// The root of a node's class.
    pub fn find(&mut self, node: usize) -> usize
        requires { node < length self.old }
        ensures root { result ≡ slice_index self.old node }
        ensures own { slice_index self.old result ≡ result }
        ensures within { result < length self.old }
        ensures same { self.new ≡ self.old }
    {
        find_by_halving(&mut self.parents, node)
    }

    /// Makes the classes of two roots one, whose root is the lesser.
    pub fn union(&mut self, kept: usize, lost: usize)
        requires order { kept < lost }
        requires within { lost < length self.old }
        requires kept_root { slice_index self.old kept ≡ kept }
        requires lost_root { slice_index self.old lost ≡ lost }
        ensures { self.new ≡ map (moved kept lost) self.old }
    {
        self.parents[lost] = kept;
    }
}

/// The root of a node, with path halving: on the way each second node comes to lead to the one after the next.
fn find_by_halving(parents: &mut [usize], node: usize) -> usize
    requires within { node < length parents.old }
    requires falls { Falls parents.old }
    ensures root { result ≡ root_of parents.old node }
    ensures own { slice_index parents.new result ≡ result }
    ensures below { result < length parents.old }
    ensures falls { Falls parents.new }
    ensures same { SameRoots parents.old parents.new }
{
    let mut at = node;
    while parents[at] != at {
        let next = parents[parents[at]];
        parents[at] = next;
        at = next;
    }
    at
}
