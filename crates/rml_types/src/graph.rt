//! Type nodes and equations between them. A node has a form or none, and nodes that equations made equal are one class.
//! Which trees solve the equations is what the contracts speak of; no list of the equations is kept.

ghost use Rattle.std.specs.Prelude.{◌≡◌, ◌<◌, [], length, Some, None, All, IfOk, OnOk, OnErr, option_and_then};
ghost use Rattle.std.specs.Option.{ForSome, option_copied};
ghost use Rattle.rml_types.specs.Finite.{Adds};
ghost use Rattle.rml_types.specs.Kept.{MayHave};
ghost use Rattle.rml_types.specs.Nodes.{Fits, form_in, with_node};

mod acyclic;
mod fixed;
mod general;
mod instance;
mod unify;

use crate::form::{Form, TypeCon, UnifyErr};
use crate::union_find::UnionFind;
use rml_base::Memory;
use sqlite_items::Items;
use std::alloc::Global;
use std::marker::Model;

/// How far the search for a circle has come with a class.
#[derive(Clone, Copy, Debug, PartialEq, Eq)]
enum Mark {
    New,
    Open,
    Done,
}

/// Type nodes, numbered from 0 on, and the equations between them.
#[derive(Drop)]
pub struct Graph {
    alloc: Global,
    forms: Vec<Option<Form>>,
    classes: UnionFind,
    /// Of a root, a node of its class that has a form.
    shapes: Vec<Option<usize>>,
    failed: Option<UnifyErr>,
    /// Room for the search for a circle: a mark for each class, and the classes on the way with how far their arguments
    /// were gone through.
    marks: Vec<Mark>,
    path: Vec<(usize, usize)>,
}

impl Model for Graph {
    ghost use Rattle.std.specs.Prelude.{◌≡◌, vec_len, vec_capacity};
    ghost use Rattle.rml_types.specs.Nodes.{Nodes};
    ghost use Rattle.rml_types.specs.Kept.{HasRoom, IsGraph};

    ghost Value = { Nodes };

    ghost view = { λ g. record { forms = g.forms.items; roots = g.classes; failed = g.failed } };

    ghost invariant = { λ g.
        let n : Nodes = record { forms = g.forms.items; roots = g.classes; failed = g.failed } in
        IsGraph n g.shapes.items × HasRoom n (vec_len g.marks) (vec_capacity g.path) };
}

impl Graph {
    /// A graph without nodes.
    pub fn new(alloc: Global) -> Graph
        ensures { result ≡ record { forms = []; roots = []; failed = None } }
    {
        Graph {
            alloc,
            forms: Vec::new(alloc),
            classes: UnionFind::new(alloc),
            shapes: Vec::new(alloc),
            failed: None,
            marks: Vec::new(alloc),
            path: Vec::new(alloc),
        }
    }

    /// A new node without a form.
    pub fn var(&mut self) -> Result<usize, Memory>
        ensures node { IfOk result (λ n. n ≡ length self.old.forms) }
        ensures ok { OnOk result (self.new ≡ with_node self.old None) }
        ensures types { OnOk result (Adds self.old self.new None) }
        ensures err { OnErr result (self.new ≡ self.old) }
    {
        self.add(None)
    }

    /// A new node that is made by `con` of the nodes `args`.
    pub fn app(&mut self, con: TypeCon, args: &[usize]) -> Result<usize, Memory>
        requires fits { Fits con (length args.now) }
        requires within { All (λ n. n < length self.old.forms) args.now }
        ensures node { IfOk result (λ n. n ≡ length self.old.forms) }
        ensures ok { OnOk result (self.new ≡ with_node self.old (Some (record { con = con; args = args.now }))) }
        ensures types { OnOk result (Adds self.old self.new (Some (record { con = con; args = args.now }))) }
        ensures err { OnErr result (self.new ≡ self.old) }
    {
        let args = Items::from_slice(self.alloc, args)?;
        self.add(Some(Form { con, args }))
    }

    fn add(&mut self, form: Option<Form>) -> Result<usize, Memory>
        requires { ForSome form (MayHave self.old) }
        ensures node { IfOk result (λ n. n ≡ length self.old.forms) }
        ensures ok { OnOk result (self.new ≡ with_node self.old form) }
        ensures types { OnOk result (Adds self.old self.new form) }
        ensures err { OnErr result (self.new ≡ self.old) }
    {
        let count = self.forms.len();
        self.forms.reserve(1)?;
        self.shapes.reserve(1)?;
        self.marks.reserve(1)?;
        self.path.reserve(count + 1)?;
        let node = self.classes.add()?;
        let shape = if form.is_some() { Some(node) } else { None };
        self.forms.push(form).unwrap();
        self.shapes.push(shape).unwrap();
        self.marks.push(Mark::New).unwrap();
        Ok(node)
    }
}

/// The form of a node, if there is the node.
fn form_at(forms: &[Option<Form>], shape: Option<usize>) -> Option<&Form>
    ensures { option_copied result ≡ option_and_then (form_in forms.now) shape }
{
    match shape {
        Some(node) if node < forms.len() => forms[node].as_ref(),
        _ => None,
    }
}
