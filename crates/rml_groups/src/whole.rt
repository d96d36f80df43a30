//! The types of a group, or where it is untyped.

ghost use Rattle.std.specs.Prelude.{◌≡◌, ℕ, IfOk};
ghost use Rattle.rml_resolved.specs.declared.parts.Parts.{Parts};
ghost use Rattle.rml_groups.specs.Found.{AreGeneral, IsFound};
ghost use Rattle.rml_groups.specs.Groups.{IsGroupOf};
ghost use Rattle.rml_groups.specs.Spots.{CanBeTyped, part_by};
ghost use Rattle.rml_groups.specs.declared.extent.Extent.TheVariants as extent;

use crate::equations::equations;
use crate::extent::Extent;
use crate::general::{Inferred, read_off};
use crate::least::least_part;
use crate::members::begin;
use crate::unit::Unit;
use rml_base::{Memory, Place};
use rml_equations::{Coding, Stop};
use rml_typed::Part;
use rml_types::Graph;
use std::alloc::Global;

/// What is found of a group.
#[derive(Drop)]
pub enum Found {
    /// It is typed: the general type of each of its relations.
    Typed(Vec<Inferred>),
    /// No types type its parts up to this one, of a rule at this place, and some type those before it.
    Untyped(Place, Part),
}

/// The part of a number, in a rule of so many parts.
fn part_of(parts: usize, number: usize) -> Result<Part, Memory>
    ensures { IfOk result (λ part. part ≡ part_by parts number) }
{
    if number == 0 {
        return Ok(Part::Head);
    }
    if parts.saturating_sub(number) == 1 {
        return Ok(Part::Results);
    }
    match u32::try_from(number) {
        Ok(number) => Ok(Part::Premise(number)),
        Err(_) => Err(Memory),
    }
}

/// The general types of a group, where types type all its rules with the counts of each relation's first.
fn general(alloc: Global, unit: &Unit) -> Result<Option<Vec<Inferred>>, Memory>
    ensures { (p : Parts) (text : ℕ) → IsGroupOf p text unit.now → IfOk result (AreGeneral p text) }
{
    let mut graph = Graph::new(alloc);
    let start = begin(alloc, &mut graph, unit, Coding::Plain)?;
    let made = equations(
        alloc,
        &mut graph,
        unit,
        Coding::Plain,
        &start.nodes,
        &start.members,
        Extent::All,
    );
    match made {
        Ok(()) => {}
        Err(Stop::Untyped) => return Ok(None),
        Err(Stop::Memory) => return Err(Memory),
    }
    if !graph.acyclic() {
        return Ok(None);
    }
    let all = read_off(alloc, &mut graph, &start.members)?;
    Ok(Some(all))
}

/// The least part at which a group is untyped.
fn untyped_at(alloc: Global, unit: &Unit) -> Result<Found, Memory>
    ensures { (p : Parts) (text : ℕ) → IsGroupOf p text unit.now → (CanBeTyped p text extent.All → ⊥) → IfOk result (IsFound p text) }
{
    let found = least_part(alloc, unit)?;
    match found {
        Some(least) => {
            let (rule, number) = least;
            let part = part_of(rule.parts, number)?;
            Ok(Found::Untyped(rule.place, part))
        }
        // a group that is untyped is so at one of its parts
        None => Ok(Found::Typed(Vec::new(alloc))),
    }
}

/// The types of a group, or the least part at which it is untyped. The group is tried whole, and only where that is refused the part
/// is looked for, by halving.
pub fn types(alloc: Global, unit: &Unit) -> Result<Found, Memory>
    ensures { (p : Parts) (text : ℕ) → IsGroupOf p text unit.now → IfOk result (IsFound p text) }
{
    let found = general(alloc, unit)?;
    match found {
        Some(all) => Ok(Found::Typed(all)),
        None => untyped_at(alloc, unit),
    }
}
