//! Instances of schemes: a scheme's type as a node, with a new node for each variable.

ghost use Rattle.std.specs.Prelude.{◌≡◌, ℕ, ◌<◌, ◌≤◌, ◌++◌, ◌∷◌, [], length, map, get_or, All, IfOk, OnOk, vec_len};
ghost use Rattle.rml_types.specs.Labels.{labels};
ghost use Rattle.rml_types.specs.Runs.{Fresh, Grows, HasInstances, InScope, Placed, Ready, make, over, run};
ghost use Rattle.rml_types.specs.Finite.{HasTypes};
ghost use Rattle.rml_types.specs.Nodes.{Fits};
ghost use Rattle.rml_types.specs.declared.tree.SchemeTree.{SchemeTree};

use crate::form::TypeCon;
use crate::graph::Graph;
use crate::labels::{Label, labels_of};
use crate::scheme::Scheme;
use rml_base::Memory;

impl Graph {
    /// A node of the scheme's type, with new nodes for its variables.
    pub fn instance(&mut self, scheme: &Scheme) -> Result<usize, Memory>
        ensures grows { Grows self.old self.new }
        ensures ok { IfOk result (λ n. HasInstances self.old self.new n scheme.now.body) }
    {
        let labels = labels_of(self.alloc, &scheme.body)?;
        let vars = self.fresh(scheme.vars)?;
        self.place(&labels, &vars)
    }

    /// The node of a type by its labels, over nodes for its variables.
    fn place(&mut self, labels: &[Label], vars: &[usize]) -> Result<usize, Memory>
        requires ready { Ready (length vars.now) labels.now 0 }
        requires vars_within { All (λ n. n < length self.old.forms) vars.now }
        ensures grows { Grows self.old self.new }
        ensures within { IfOk result (λ n. n < length self.new.forms) }
        ensures types { IfOk result (λ n. (types : ℕ → SchemeTree) → HasTypes self.new types → run (map types vars.now) labels.now [] ≡ types n ∷ []) }
    {
        let mut made = Vec::new(self.alloc);
        for label in labels {
            self.take_label(*label, vars, &mut made)?;
        }
        Ok(made[0])
    }

    /// Makes the node of a label of the last nodes that were made.
    fn take_label(
        &mut self,
        label: Label,
        vars: &[usize],
        made: &mut Vec<usize>,
    ) -> Result<(), Memory>
        requires count { label.1 ≤ length made.old.items }
        requires fits { Fits label.0 label.1 }
        requires scope { InScope (length vars.now) label.0 }
        requires vars_within { All (λ n. n < length self.old.forms) vars.now }
        requires within { All (λ n. n < length self.old.forms) made.old.items }
        ensures grows { Grows self.old self.new }
        ensures ok { OnOk result (Placed (over vars.now) self.new label made.old.items made.new.items) }
    {
        let (con, count) = label;
        let at = made.len() - count;
        let node = self.labelled(con, &made[at..], vars)?;
        made.truncate(at);
        made.push(node)?;
        Ok(())
    }

    /// So many new nodes without forms.
    fn fresh(&mut self, count: u32) -> Result<Vec<usize>, Memory>
        ensures grows { Grows self.old self.new }
        ensures count { IfOk result (λ v. vec_len v ≡ count) }
        ensures ok { IfOk result (λ v. Fresh self.old self.new v.items) }
    {
        let mut nodes = Vec::new(self.alloc);
        for _ in 0..count {
            let node = self.var()?;
            nodes.push(node)?;
        }
        Ok(nodes)
    }

    /// A node of a label over nodes, a variable being the node of its number.
    fn labelled(&mut self, con: TypeCon, args: &[usize], vars: &[usize]) -> Result<usize, Memory>
        requires fits { Fits con (length args.now) }
        requires scope { InScope (length vars.now) con }
        requires args_within { All (λ n. n < length self.old.forms) args.now }
        requires vars_within { All (λ n. n < length self.old.forms) vars.now }
        ensures grows { Grows self.old self.new }
        ensures within { IfOk result (λ n. n < length self.new.forms) }
        ensures types { IfOk result (λ n. (types : ℕ → SchemeTree) → HasTypes self.new types → types n ≡ make (map types vars.now) con (map types args.now)) }
    {
        match con {
            TypeCon::Fixed(k) => Ok(vars[k as usize]),
            _ => self.app(con, args),
        }
    }
}
