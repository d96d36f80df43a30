//! What the parts of a rule are typed with: the tables of the program as the rule's text reads them, the nodes of the rule's
//! variables, and the types of the relations of the text's group.

ghost use Rattle.std.specs.Prelude.{◌≡◌, ◌==◌, [], None, IsTrue};
ghost use Rattle.std.specs.Option.{option_copied};
ghost use Rattle.rml_types.specs.Instances.{IsInstance};
ghost use Rattle.rml_types.specs.Schemes.{vars_below};
ghost use Rattle.rml_typed.specs.Typed.{HasInstance};
ghost use Rattle.rml_equations.specs.Joins.{Links};
ghost use Rattle.rml_generator.specs.Entries.{entry};

use rml_equations::{Coding, Stop, coded, tuple, written};
use rml_resolved::{ConDef, RelDef, ValDef};
use rml_types::{Graph, Scheme, SchemeTree, copy_tree};
use sqlite_items::at;
use std::alloc::Global;

/// How the rules of a unit use the relations of their text's group.
#[derive(Clone, Copy)]
pub enum Group<'a> {
    /// Inside the group: at the type of a node, by the relation's number.
    Inside(&'a [Option<usize>]),
    /// Elsewhere in the text: at an instance of its general type, by the relation's number.
    Outside(&'a [Option<Scheme>]),
}

/// What the parts of a rule are typed with.
#[derive(Clone, Copy)]
pub struct Scope<'a> {
    pub cons: &'a [ConDef],
    pub vals: &'a [ValDef],
    pub rels: &'a [RelDef],
    /// The number of the text, whose group alone is seen.
    pub text: u32,
    /// What the text's own abstypes stand for, written out, by the numbers of types.
    pub meanings: &'a [Option<SchemeTree>],
    pub coding: Coding,
    pub group: Group<'a>,
    /// The nodes of the rule's variables, by their numbers.
    pub variables: &'a [usize],
}

impl Scope<'_> {
    ghost use Rattle.rml_generator.specs.Scopes.{FindsNode, Serves, grouped, read, reads, used_by, uses};

    /// A node of the type of a variable. One that the rule has not is of the type without parts.
    pub fn variable(&self, graph: &mut Graph, x: u32) -> Result<usize, Stop>
        requires { Serves self.now graph.old }
        ensures { FindsNode self.now graph.old graph.new (λ told t. t ≡ told.vars x) result }
    {
        match at(self.variables, x as usize) {
            Some(node) => Ok(*node),
            None => Ok(tuple(graph, &[])?),
        }
    }

    /// A node of the instances of a constructor's type.
    pub fn constructor(&self, alloc: Global, graph: &mut Graph, c: u32) -> Result<usize, Stop>
        requires { graph.old.failed ≡ None }
        ensures { Links self.now.coding graph.old graph.new [] (λ ts t. HasInstance ((reads self.now).con c) t) result }
    {
        match at(self.cons, c as usize) {
            Some(con) => self.instance(alloc, graph, &con.scheme),
            None => Err(Stop::Untyped),
        }
    }

    /// A node of the instances of a val's type.
    pub fn val(&self, alloc: Global, graph: &mut Graph, v: u32) -> Result<usize, Stop>
        requires { graph.old.failed ≡ None }
        ensures { Links self.now.coding graph.old graph.new [] (λ ts t. HasInstance ((reads self.now).val v) t) result }
    {
        match at(self.vals, v as usize) {
            Some(val) => self.instance(alloc, graph, &val.scheme),
            None => Err(Stop::Untyped),
        }
    }

    /// A node of the types at which a relation may be used.
    pub fn relation(&self, alloc: Global, graph: &mut Graph, number: u32) -> Result<usize, Stop>
        requires { Serves self.now graph.old }
        ensures { FindsNode self.now graph.old graph.new (λ told t. uses self.now told number t) result }
    {
        match at(self.rels, number as usize) {
            Some(rel) => self.used(alloc, graph, number, rel),
            None => Err(Stop::Untyped),
        }
    }

    /// A node of the types at which a relation of the program may be used.
    fn used(
        &self,
        alloc: Global,
        graph: &mut Graph,
        number: u32,
        rel: &RelDef,
    ) -> Result<usize, Stop>
        requires { Serves self.now graph.old }
        ensures { FindsNode self.now graph.old graph.new (λ told t. used_by self.now told number rel.now.scheme (rel.now.place.text == self.now.text) t) result }
    {
        match &rel.scheme {
            Some(scheme) => self.instance(alloc, graph, scheme),
            None => {
                if rel.place.text == self.text {
                    self.own(alloc, graph, number)
                } else {
                    Err(Stop::Untyped)
                }
            }
        }
    }

    /// A node of the types at which a relation of the text's group may be used.
    fn own(&self, alloc: Global, graph: &mut Graph, number: u32) -> Result<usize, Stop>
        requires { Serves self.now graph.old }
        ensures { FindsNode self.now graph.old graph.new (λ told t. grouped self.now.group told number t) result }
    {
        match self.group {
            Group::Inside(nodes) => match entry(nodes, number) {
                Some(node) => Ok(*node),
                None => Err(Stop::Untyped),
            },
            Group::Outside(types) => match entry(types, number) {
                Some(scheme) => instance_as_is(alloc, graph, self.coding, scheme),
                None => Err(Stop::Untyped),
            },
        }
    }

    /// A node of the instances of a scheme, as the text reads it.
    fn instance(&self, alloc: Global, graph: &mut Graph, scheme: &Scheme) -> Result<usize, Stop>
        requires { graph.old.failed ≡ None }
        ensures { Links self.now.coding graph.old graph.new [] (λ ts t. IsInstance (read self.now scheme.now.body) t) result }
    {
        let body = written(alloc, self.meanings, &scheme.body)?;
        instance_of(alloc, graph, self.coding, scheme.vars, body)
    }
}

/// A node of the instances of a scheme that no text reads otherwise.
pub fn instance_as_is(
    alloc: Global,
    graph: &mut Graph,
    coding: Coding,
    scheme: &Scheme,
) -> Result<usize, Stop>
    requires { graph.old.failed ≡ None }
    ensures { Links coding graph.old graph.new [] (λ ts t. IsInstance scheme.now.body t) result }
{
    let body = copy_tree(alloc, &scheme.body)?;
    instance_of(alloc, graph, coding, scheme.vars, body)
}

/// A node of the instances of a type whose variables stand for all types.
fn instance_of(
    alloc: Global,
    graph: &mut Graph,
    coding: Coding,
    vars: u32,
    body: SchemeTree,
) -> Result<usize, Stop>
    requires live { graph.old.failed ≡ None }
    requires below { IsTrue (vars_below vars body) }
    ensures { Links coding graph.old graph.new [] (λ ts t. IsInstance body t) result }
{
    let body = coded(alloc, coding, body)?;
    let node = graph.instance(&Scheme::of(vars, body))?;
    Ok(node)
}

/// An entry of a table, where it has one.
fn entry<T>(table: &[Option<T>], number: u32) -> Option<&T>
    ensures { option_copied result ≡ entry table.now number }
{
    match at(table, number as usize) {
        Some(value) => value.as_ref(),
        None => None,
    }
}
