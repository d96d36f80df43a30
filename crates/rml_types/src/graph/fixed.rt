//! Types as they stand: a type as a node, its variables standing fixed.

ghost use Rattle.std.specs.Prelude.{◌≡◌, ℕ, ◌<◌, ◌≤◌, ◌∷◌, [], length, map, All, IfOk, OnOk};
ghost use Rattle.rml_types.specs.Finite.{HasTypes, built};
ghost use Rattle.rml_types.specs.Nodes.{Fits};
ghost use Rattle.rml_types.specs.Runs.{Keeps, Placed, Ready, as_it_stands, run_by};
ghost use Rattle.rml_types.specs.declared.tree.SchemeTree.{SchemeTree};

use crate::form::TypeCon;
use crate::graph::Graph;
use crate::labels::{Label, labels_of};
use crate::tree::SchemeTree;
use rml_base::Memory;

impl Graph {
    /// A node of a type as it stands: its variables stand fixed.
    pub fn fixed(&mut self, tree: &SchemeTree) -> Result<usize, Memory>
        ensures keeps { Keeps self.old self.new }
        ensures within { IfOk result (λ n. n < length self.new.forms) }
        ensures types { IfOk result (λ n. (types : ℕ → SchemeTree) → HasTypes self.new types → types n ≡ tree.now) }
    {
        let labels = labels_of(self.alloc, tree)?;
        self.place_fixed(&labels)
    }

    /// The node of a type by its labels.
    fn place_fixed(&mut self, labels: &[Label]) -> Result<usize, Memory>
        requires { (vars : ℕ) × Ready vars labels.now 0 }
        ensures keeps { Keeps self.old self.new }
        ensures within { IfOk result (λ n. n < length self.new.forms) }
        ensures types { IfOk result (λ n. (types : ℕ → SchemeTree) → HasTypes self.new types → run_by built labels.now [] ≡ types n ∷ []) }
    {
        let mut made = Vec::new(self.alloc);
        for label in labels {
            self.take_fixed(*label, &mut made)?;
        }
        Ok(made[0])
    }

    /// Makes the node of a label of the last nodes that were made.
    fn take_fixed(&mut self, label: Label, made: &mut Vec<usize>) -> Result<(), Memory>
        requires count { label.1 ≤ length made.old.items }
        requires fits { Fits label.0 label.1 }
        requires within { All (λ n. n < length self.old.forms) made.old.items }
        ensures keeps { Keeps self.old self.new }
        ensures ok { OnOk result (Placed as_it_stands self.new label made.old.items made.new.items) }
    {
        let (con, count) = label;
        let at = made.len() - count;
        let node = self.stand(con, &made[at..])?;
        made.truncate(at);
        made.push(node)?;
        Ok(())
    }

    /// A node of a label over nodes, a variable standing fixed.
    fn stand(&mut self, con: TypeCon, args: &[usize]) -> Result<usize, Memory>
        requires fits { Fits con (length args.now) }
        requires within { All (λ n. n < length self.old.forms) args.now }
        ensures keeps { Keeps self.old self.new }
        ensures within { IfOk result (λ n. n < length self.new.forms) }
        ensures types { IfOk result (λ n. (types : ℕ → SchemeTree) → HasTypes self.new types → types n ≡ built con (map types args.now)) }
    {
        self.app(con, args)
    }
}
