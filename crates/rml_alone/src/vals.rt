//! Vals.

ghost use Rattle.std.specs.Prelude.{◌≡◌, ℕ, ◌<◌, length, IfOk, IsTrue, ◌↔◌};
ghost use Rattle.rml_types.specs.Finite.{HasTypes};
ghost use Rattle.rml_types.specs.declared.tree.SchemeTree.{SchemeTree};
ghost use Rattle.rml_resolved.specs.declared.parts.Counts.{Counts};
ghost use Rattle.rml_resolved.specs.declared.parts.Parts.{Parts};
ghost use Rattle.rml_resolved.specs.Fits.{exp_fits};
ghost use Rattle.rml_typed.specs.Typed.{ExpOf};
ghost use Rattle.rml_typed.specs.Units.{ValTyped};
ghost use Rattle.rml_equations.specs.Coding.{coded};
ghost use Rattle.rml_generator.specs.Scopes.{FindsFact, Serves, reads, uses};
ghost use Rattle.rml_alone.specs.Texts.{ExpTypedAlone, IsTextOf};

use crate::nodes::is_solved;
use crate::text::Text;
use rml_base::Memory;
use rml_equations::{Coding, Stop, written};
use rml_generator::{Group, Scope, expression};
use rml_resolved::{RExp, ValDef};
use rml_types::{Graph, SchemeTree, forget};
use std::alloc::Global;

/// Adds the equations by which an expression is of the type of a node.
fn hold(
    alloc: Global,
    graph: &mut Graph,
    scope: &Scope,
    exp: &RExp,
    wanted: usize,
) -> Result<(), Stop>
    requires serves { Serves scope.now graph.old }
    requires within { wanted < length graph.old.forms }
    ensures { (t : SchemeTree) → ((types : ℕ → SchemeTree) → HasTypes graph.old types → types wanted ≡ coded scope.now.coding t)
        → FindsFact scope.now graph.old graph.new (λ told. ExpOf (reads scope.now) (uses scope.now told) told.vars exp.now t) result }
{
    let node = expression(alloc, graph, scope, exp)?;
    graph.unify(node, wanted)?;
    Ok(())
}

/// Whether an expression without variables is of a type as it stands.
fn is_of(alloc: Global, text: &Text, exp: &RExp, tree: &SchemeTree) -> Result<bool, Memory>
    ensures { IfOk result (λ b. IsTrue b ↔ ExpTypedAlone text.now exp.now tree.now) }
{
    let mut graph = Graph::new(alloc);
    let wanted = graph.fixed(tree)?;
    let scope = Scope {
        cons: text.cons,
        vals: text.vals,
        rels: text.rels,
        text: text.number,
        meanings: text.meanings,
        coding: Coding::Plain,
        group: Group::Outside(text.general),
        variables: &[],
    };
    let made = hold(alloc, &mut graph, &scope, exp, wanted);
    is_solved(&mut graph, made)
}

/// Whether the expression of a val has the val's declared type.
pub fn is_val_typed(alloc: Global, text: &Text, val: &ValDef) -> Result<bool, Memory>
    ensures { (p : Parts) (n : Counts) → IsTextOf p val.now.place.text val.now.«module» text.now → IsTrue (exp_fits n p.cons 0 val.now.value)
        → IfOk result (λ b. IsTrue b ↔ ValTyped p val.now) }
{
    let tree = written(alloc, text.meanings, &val.scheme.body)?;
    let found = is_of(alloc, text, &val.value, &tree);
    forget(tree);
    found
}
