//! Types are read as trees over numbers.

ghost use Rattle.std.specs.Prelude.{◌≡◌, ◌++◌, length, map, IfOk};
ghost use Rattle.rml_signatures.specs.Reading.{applied, context_of, counted, later, named, sig_tree, type_tree, unknown, variable_by};

use crate::numbers::{Numbers, capped, number_of};
use rml_base::Memory;
use rml_outlines::Known;
use rml_syntax::{Long, Sig, TypeExp};
use rml_tables::NameSet;
use rml_types::SchemeTree;
use sqlite_items::Items;
use std::alloc::Global;

/// Where a type is read: in a half of a text, with numbers for its names.
#[derive(Drop)]
pub struct View<'a> {
    pub known: &'a Known,
    pub numbers: &'a Numbers,
    /// Of each type that stands for another, how many parameters it has.
    pub params: &'a [Option<usize>],
    pub text: u32,
    pub in_body: bool,
    /// The type variables that have numbers here; where any may stand, each has its own name as number.
    pub vars: Option<&'a NameSet<u32>>,
}

fn variable(view: &View, name: u32) -> u32
    ensures { result ≡ variable_by (context_of view.now).vars name }
{
    match view.vars {
        None => name,
        Some(vars) => capped(0, vars.place(name)),
    }
}

/// The number of a type that stands for another has to have as many arguments as that has parameters; with others it is left as it stands,
/// which has a number of its own.
fn counted(view: &View, number: u32, count: usize) -> u32
    ensures { result ≡ counted (context_of view.now) number count }
{
    match view.params.get(number as usize) {
        Some(Some(params)) => {
            if *params == count {
                number
            } else {
                capped(view.numbers.count, number as usize)
            }
        }
        _ => number,
    }
}

/// A name that means no type, which equals its own spelling alone.
fn unknown(
    alloc: Global,
    view: &View,
    parts: Items<SchemeTree>,
    long: Long,
) -> Result<SchemeTree, Memory>
    ensures { IfOk result (λ t. t ≡ unknown (context_of view.now) parts long.name long.«module») }
{
    let first = capped(view.numbers.count, view.numbers.count as usize);
    let name = SchemeTree::Named(capped(first, long.name as usize), parts);
    match long.module {
        None => Ok(name),
        Some(module) => {
            let mut inner = Items::new(alloc);
            inner.push(name)?;
            let mut outer = Items::new(alloc);
            outer.push(SchemeTree::Tuple(inner))?;
            Ok(SchemeTree::Named(capped(first, module as usize), outer))
        }
    }
}

/// The type that a name makes of some others.
#[tactic(auto, unfolding(crate::specs::Reading::named))]
fn named(
    alloc: Global,
    view: &View,
    parts: Items<SchemeTree>,
    long: Long,
) -> Result<SchemeTree, Memory>
    ensures { IfOk result (λ t. t ≡ named (context_of view.now) parts long) }
{
    match number_of(view.known, view.numbers, view.text, view.in_body, long) {
        Some(number) => {
            let number = counted(view, number, parts.len());
            Ok(SchemeTree::Named(number, parts))
        }
        None => unknown(alloc, view, parts, long),
    }
}

/// The type that some names make, each of what the one before it made.
fn later(alloc: Global, view: &View, tree: SchemeTree, names: &[Long]) -> Result<SchemeTree, Memory>
    ensures { IfOk result (λ t. t ≡ later (context_of view.now) tree names.now) }
{
    let mut tree = tree;
    for long in names {
        let mut parts = Items::new(alloc);
        parts.push(tree)?;
        tree = named(alloc, view, parts, *long)?;
    }
    Ok(tree)
}

/// The type that some names make, of which the first is applied to the arguments.
fn applied(
    alloc: Global,
    view: &View,
    parts: Items<SchemeTree>,
    names: &[Long],
) -> Result<SchemeTree, Memory>
    ensures { IfOk result (λ t. t ≡ applied (context_of view.now) parts names.now) }
{
    match names.split_first() {
        None => Ok(SchemeTree::Tuple(parts)),
        Some((first, rest)) => {
            let tree = named(alloc, view, parts, *first)?;
            later(alloc, view, tree, rest)
        }
    }
}

/// A type as a tree over numbers.
#[cycle(types)]
pub fn type_tree(alloc: Global, view: &View, tree: &TypeExp) -> Result<SchemeTree, Memory>
    ensures { IfOk result (λ t. t ≡ type_tree (context_of view.now) tree.now) }
{
    match tree {
        TypeExp::Var(name, _) => Ok(SchemeTree::Var(variable(view, *name))),
        TypeExp::App(arguments, names) => {
            let parts = type_trees(alloc, view, arguments.as_slice())?;
            applied(alloc, view, parts, names.as_slice())
        }
        TypeExp::Tuple(parts) => Ok(SchemeTree::Tuple(type_trees(alloc, view, parts.as_slice())?)),
        TypeExp::Rel(sig) => sig_tree(alloc, view, sig.get()),
    }
}

#[cycle(types)]
fn type_trees(alloc: Global, view: &View, trees: &[TypeExp]) -> Result<Items<SchemeTree>, Memory>
    ensures { IfOk result (λ ts. ts ≡ map (type_tree (context_of view.now)) trees.now) }
{
    let mut parts = Items::new(alloc);
    for tree in trees {
        parts.push(type_tree(alloc, view, tree)?)?;
    }
    Ok(parts)
}

/// A signature as a relation type.
#[cycle(types)]
pub fn sig_tree(alloc: Global, view: &View, sig: &Sig) -> Result<SchemeTree, Memory>
    ensures { IfOk result (λ t. t ≡ sig_tree (context_of view.now) sig.now) }
{
    let inputs = type_trees(alloc, view, sig.inputs.as_slice())?;
    let outputs = type_trees(alloc, view, sig.outputs.as_slice())?;
    Ok(SchemeTree::Rel(inputs, outputs))
}
