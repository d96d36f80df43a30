//! The nodes of the relations of a group, with which its graph begins.

ghost use Rattle.std.specs.Prelude.{◌≡◌, length, slice_get, None, IfOk};
ghost use Rattle.rml_equations.specs.declared.coding.Coding.TheVariants.{Plain, Packed};
ghost use Rattle.rml_groups.specs.Groups.{rule_inputs, rule_outputs};
ghost use Rattle.rml_groups.specs.Members.{Begins, IsMade, empty};

use crate::unit::{Unit, is_member};
use rml_alone::fresh;
use rml_base::Memory;
use rml_equations::{Coding, relation};
use rml_generator::Side;
use rml_resolved::{RRule, RelDef};
use rml_types::Graph;
use std::alloc::Global;

/// A relation of the group, by its number: the node of its type, and what the heads and results of its rules are held to.
#[derive(Drop)]
pub struct Member<'a> {
    pub number: usize,
    pub rel: &'a RelDef,
    pub node: usize,
    pub inputs: Side,
    pub outputs: Side,
}

/// The relations of a group, and their nodes by the numbers of relations.
#[derive(Drop)]
pub struct Start<'a> {
    pub members: Vec<Member<'a>>,
    pub nodes: Vec<Option<usize>>,
}

/// Nodes for a relation whose counts of inputs and outputs are open.
fn packed<'a>(
    alloc: Global,
    graph: &mut Graph,
    number: usize,
    rel: &'a RelDef,
) -> Result<Member<'a>, Memory>
    requires { graph.old.failed ≡ None }
    ensures number { IfOk result (λ m. (m.number ≡ number) × (m.rel.now ≡ rel.now)) }
    ensures made { IfOk result (λ m. IsMade Packed graph.old graph.new m) }
{
    let taken = graph.var()?;
    let given = graph.var()?;
    let node = relation(alloc, graph, Coding::Plain, &[taken], &[given])?;
    Ok(Member {
        number,
        rel,
        node,
        inputs: Side::Whole(taken),
        outputs: Side::Whole(given),
    })
}

/// How many inputs the first of some rules has.
fn input_count(rules: &[RRule]) -> usize
    ensures { result ≡ rule_inputs (slice_get rules.now 0) }
{
    match rules.first() {
        Some(rule) => rule.inputs.as_slice().len(),
        None => 0,
    }
}

/// How many results the first of some rules has.
fn output_count(rules: &[RRule]) -> usize
    ensures { result ≡ rule_outputs (slice_get rules.now 0) }
{
    match rules.first() {
        Some(rule) => rule.results.as_slice().len(),
        None => 0,
    }
}

/// Nodes for a relation that has as many inputs and outputs as its first rule.
fn plain<'a>(
    alloc: Global,
    graph: &mut Graph,
    number: usize,
    rel: &'a RelDef,
) -> Result<Member<'a>, Memory>
    requires { graph.old.failed ≡ None }
    ensures number { IfOk result (λ m. (m.number ≡ number) × (m.rel.now ≡ rel.now)) }
    ensures made { IfOk result (λ m. IsMade Plain graph.old graph.new m) }
{
    let rules = rel.rules.as_slice();
    let taken = fresh(alloc, graph, input_count(rules))?;
    let given = fresh(alloc, graph, output_count(rules))?;
    let node = relation(alloc, graph, Coding::Plain, &taken, &given)?;
    Ok(Member {
        number,
        rel,
        node,
        inputs: Side::Each(taken),
        outputs: Side::Each(given),
    })
}

/// Nodes for a relation of the group.
fn held<'a>(
    alloc: Global,
    graph: &mut Graph,
    coding: Coding,
    number: usize,
    rel: &'a RelDef,
) -> Result<Member<'a>, Memory>
    requires { graph.old.failed ≡ None }
    ensures number { IfOk result (λ m. (m.number ≡ number) × (m.rel.now ≡ rel.now)) }
    ensures made { IfOk result (λ m. IsMade coding graph.old graph.new m) }
{
    match coding {
        Coding::Plain => plain(alloc, graph, number, rel),
        Coding::Packed => packed(alloc, graph, number, rel),
    }
}

/// Nodes for all relations of a group, in a graph without nodes.
pub fn begin<'a>(
    alloc: Global,
    graph: &mut Graph,
    unit: &Unit<'a>,
    coding: Coding,
) -> Result<Start<'a>, Memory>
    requires { graph.old ≡ empty }
    ensures { IfOk result (λ s. Begins coding unit.now.rels.now unit.now.number (length unit.now.rels.now) graph.new s.members.items s.nodes.items) }
{
    let mut members = Vec::new(alloc);
    let mut nodes = Vec::new(alloc);
    for (number, rel) in unit.rels.iter().enumerate() {
        if is_member(unit.number, rel) {
            let member = held(alloc, graph, coding, number, rel)?;
            nodes.push(Some(member.node))?;
            members.push(member)?;
        } else {
            nodes.push(None)?;
        }
    }
    Ok(Start { members, nodes })
}
