//! Rules of declared relations.

ghost use Rattle.std.specs.Prelude.{◌≡◌, ◌+◌, length, IfOk, IsTrue, ◌↔◌};
ghost use Rattle.rml_types.specs.declared.tree.SchemeTree.{out-SchemeTree};
ghost use Rattle.rml_resolved.specs.declared.parts.Counts.{Counts};
ghost use Rattle.rml_resolved.specs.declared.parts.Parts.{Parts};
ghost use Rattle.rml_resolved.specs.declared.tables.RelDef.{RelDef};
ghost use Rattle.rml_resolved.specs.Fits.{rule_fits};
ghost use Rattle.rml_typed.specs.Parts.{pieces, sides};
ghost use Rattle.rml_typed.specs.Units.{DeclaredFirstTyped};
ghost use Rattle.rml_alone.specs.Answers.{IsLeast};
ghost use Rattle.rml_alone.specs.Texts.{FirstTypedAlone, IsTextOf, held};

use crate::nodes::{fixed_all, fresh, is_solved};
use crate::text::Text;
use rml_base::Memory;
use rml_equations::{Coding, written};
use rml_generator::{Group, Scope, Side, first_parts};
use rml_resolved::RRule;
use rml_types::{Graph, Scheme, SchemeTree, forget};
use std::alloc::Global;

/// Whether the first parts of a rule, so many, can be typed where its relation takes and gives some types.
fn can_be_typed(
    alloc: Global,
    text: &Text,
    inputs: &[SchemeTree],
    outputs: &[SchemeTree],
    rule: &RRule,
    count: usize,
) -> Result<bool, Memory>
    ensures { IfOk result (λ b. IsTrue b ↔ FirstTypedAlone text.now (held inputs.now outputs.now) rule.now count) }
{
    let mut graph = Graph::new(alloc);
    let variables = fresh(alloc, &mut graph, rule.vars as usize)?;
    let taken = fixed_all(alloc, &mut graph, inputs)?;
    let given = fixed_all(alloc, &mut graph, outputs)?;
    let scope = Scope {
        cons: text.cons,
        vals: text.vals,
        rels: text.rels,
        text: text.number,
        meanings: text.meanings,
        coding: Coding::Plain,
        group: Group::Outside(text.general),
        variables: &variables,
    };
    let made = first_parts(
        alloc,
        &mut graph,
        &scope,
        &Side::Each(taken),
        &Side::Each(given),
        rule,
        count,
    );
    is_solved(&mut graph, made)
}

/// The number of the least part at which a rule is untyped, where its relation takes and gives some types. The rule is tried
/// whole, and only where that is refused the part is looked for, by halving.
fn untyped_under(
    alloc: Global,
    text: &Text,
    inputs: &[SchemeTree],
    outputs: &[SchemeTree],
    rule: &RRule,
) -> Result<Option<usize>, Memory>
    ensures { IfOk result (IsLeast (FirstTypedAlone text.now (held inputs.now outputs.now) rule.now) (length (pieces rule.now))) }
{
    let count = rule.goals.as_slice().len() + 2;
    if can_be_typed(alloc, text, inputs, outputs, rule, count)? {
        return Ok(None);
    }
    let mut typed = 0;
    let mut untyped = count;
    while typed + 1 < untyped {
        let middle = typed + (untyped - typed) / 2;
        if can_be_typed(alloc, text, inputs, outputs, rule, middle)? {
            typed = middle;
        } else {
            untyped = middle;
        }
    }
    Ok(Some(typed))
}

/// What a relation type takes. Any other type takes nothing.
fn inputs_of(tree: &SchemeTree) -> &[SchemeTree]
    ensures { result.now ≡ (sides (out-SchemeTree tree.now)).inputs }
{
    match tree {
        SchemeTree::Rel(inputs, _) => inputs.as_slice(),
        SchemeTree::Var(_) => &[],
        SchemeTree::Named(_, _) => &[],
        SchemeTree::Tuple(_) => &[],
    }
}

/// What a relation type gives. Any other type gives nothing.
fn outputs_of(tree: &SchemeTree) -> &[SchemeTree]
    ensures { result.now ≡ (sides (out-SchemeTree tree.now)).outputs }
{
    match tree {
        SchemeTree::Rel(_, outputs) => outputs.as_slice(),
        SchemeTree::Var(_) => &[],
        SchemeTree::Named(_, _) => &[],
        SchemeTree::Tuple(_) => &[],
    }
}

/// The number of the least part at which a rule of a relation that is declared with a scheme is untyped. None exactly where the
/// rule is typed.
pub fn untyped_part(
    alloc: Global,
    text: &Text,
    scheme: &Scheme,
    rule: &RRule,
) -> Result<Option<usize>, Memory>
    ensures { (p : Parts) (rel : RelDef) (n : Counts) → IsTextOf p rel.place.text rel.«module» text.now → IsTrue (rule_fits n p.cons rule.now)
        → IfOk result (IsLeast (DeclaredFirstTyped p rel scheme.now rule.now) (length (pieces rule.now))) }
{
    let tree = written(alloc, text.meanings, &scheme.body)?;
    let found = untyped_under(alloc, text, inputs_of(&tree), outputs_of(&tree), rule);
    forget(tree);
    found
}
