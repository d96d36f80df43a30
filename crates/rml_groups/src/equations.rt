//! The equations of the first parts of a group.

ghost use Rattle.std.specs.Prelude.{◌≡◌, All, None, Some};
ghost use Rattle.rml_generator.specs.Adds.{Bare, Finds, IsWithin, no_node};
ghost use Rattle.rml_generator.specs.Entries.{entry};
ghost use Rattle.rml_groups.specs.Groups.{FirstTypedInside};
ghost use Rattle.rml_groups.specs.Members.{IsHeld, IsListed, MembersTyped, RelationTyped, watch};

use crate::extent::Extent;
use crate::members::Member;
use crate::unit::{Unit, of_module};
use rml_alone::fresh;
use rml_equations::{Coding, Stop};
use rml_generator::{Group, Scope, first_parts};
use rml_resolved::RRule;
use rml_types::Graph;
use std::alloc::Global;

/// Adds the equations of the first parts of a rule of the group, so many of them.
fn rule_equations(
    alloc: Global,
    graph: &mut Graph,
    unit: &Unit,
    coding: Coding,
    nodes: &[Option<usize>],
    member: &Member,
    rule: &RRule,
    count: usize,
) -> Result<(), Stop>
    requires live { graph.old.failed ≡ None }
    requires within { IsWithin coding (watch nodes.now) graph.old }
    requires noded { entry nodes.now member.now.number ≡ Some member.now.node }
    requires held { IsHeld coding graph.old member.now }
    ensures { Finds no_node coding (watch nodes.now) graph.old graph.new
        (Bare (λ told. FirstTypedInside unit.now member.now.rel.now.«module» nodes.now told.group (told.group member.now.number) rule.now count)) result }
{
    let variables = fresh(alloc, graph, rule.vars as usize)?;
    let scope = Scope {
        cons: unit.cons,
        vals: unit.vals,
        rels: unit.rels,
        text: unit.number,
        meanings: of_module(unit.meanings, member.rel.module),
        coding,
        group: Group::Inside(nodes),
        variables: &variables,
    };
    first_parts(
        alloc,
        graph,
        &scope,
        &member.inputs,
        &member.outputs,
        rule,
        count,
    )
}

/// Adds the equations of the first parts of the rules of a relation of the group.
fn relation_equations(
    alloc: Global,
    graph: &mut Graph,
    unit: &Unit,
    coding: Coding,
    nodes: &[Option<usize>],
    member: &Member,
    extent: Extent,
) -> Result<(), Stop>
    requires live { graph.old.failed ≡ None }
    requires within { IsWithin coding (watch nodes.now) graph.old }
    requires noded { entry nodes.now member.now.number ≡ Some member.now.node }
    requires held { IsHeld coding graph.old member.now }
    ensures { Finds no_node coding (watch nodes.now) graph.old graph.new (Bare (λ told. RelationTyped unit.now nodes.now told.group extent member.now)) result }
{
    for rule in member.rel.rules.as_slice() {
        rule_equations(
            alloc,
            graph,
            unit,
            coding,
            nodes,
            member,
            rule,
            extent.of(rule),
        )?;
    }
    Ok(())
}

/// Adds the equations of the first parts of a group.
pub fn equations(
    alloc: Global,
    graph: &mut Graph,
    unit: &Unit,
    coding: Coding,
    nodes: &[Option<usize>],
    members: &[Member],
    extent: Extent,
) -> Result<(), Stop>
    requires live { graph.old.failed ≡ None }
    requires within { IsWithin coding (watch nodes.now) graph.old }
    requires listed { All (IsListed coding unit.now.rels.now unit.now.number graph.old nodes.now) members.now }
    ensures { Finds no_node coding (watch nodes.now) graph.old graph.new (Bare (λ told. MembersTyped unit.now nodes.now told.group extent members.now)) result }
{
    for member in members {
        relation_equations(alloc, graph, unit, coding, nodes, member, extent)?;
    }
    Ok(())
}
