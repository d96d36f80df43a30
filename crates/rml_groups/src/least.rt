//! The least part at which a group is untyped. Counts of inputs and outputs are open here, since a relation's first rule may stand
//! behind that part.

ghost use Rattle.std.specs.Prelude.{◌≡◌, ◌↔◌, ℕ, ◌<◌, IfOk, IsTrue, Some, None};
ghost use Rattle.rml_resolved.specs.declared.parts.Parts.{Parts};
ghost use Rattle.rml_groups.specs.Groups.{IsGroupOf};
ghost use Rattle.rml_groups.specs.Spots.{CanBeTyped, IsLeastPart, IsRuleFound};
ghost use Rattle.rml_groups.specs.declared.extent.Extent.TheVariants as extent;

use crate::equations::equations;
use crate::extent::Extent;
use crate::members::begin;
use crate::spots::{Spot, keep_after, keep_before, spots_of};
use crate::unit::Unit;
use rml_alone::is_solved;
use rml_base::Memory;
use rml_equations::Coding;
use rml_types::Graph;
use std::alloc::Global;

/// Whether the first parts of a group can be typed.
fn can_be_typed(alloc: Global, unit: &Unit, extent: Extent) -> Result<bool, Memory>
    ensures { (p : Parts) (text : ℕ) → IsGroupOf p text unit.now → IfOk result (λ b. IsTrue b ↔ CanBeTyped p text extent) }
{
    let mut graph = Graph::new(alloc);
    let start = begin(alloc, &mut graph, unit, Coding::Packed)?;
    let made = equations(
        alloc,
        &mut graph,
        unit,
        Coding::Packed,
        &start.nodes,
        &start.members,
        extent,
    );
    is_solved(&mut graph, made)
}

/// The rule at which a group is untyped, of all that stand at its place one with the most parts. The one in the middle of those
/// that are left is tried, and those on one side of it are left.
fn least_rule(alloc: Global, unit: &Unit) -> Result<Option<Spot>, Memory>
    ensures { (p : Parts) (text : ℕ) → IsGroupOf p text unit.now → (CanBeTyped p text extent.All → ⊥) → IfOk result (IsRuleFound p text) }
{
    let mut left = spots_of(alloc, unit)?;
    let mut found = None;
    while !left.is_empty() {
        let middle = left.remove(left.len() / 2);
        if can_be_typed(alloc, unit, Extent::UpTo(middle.place, 0))? {
            found = Some(middle);
            keep_after(&mut left, middle);
        } else {
            keep_before(&mut left, middle.place);
        }
    }
    Ok(found)
}

/// The number of the least part at which a group is untyped, in a rule of which no part can be typed with all before it, and which
/// cannot be typed whole.
fn least_in(alloc: Global, unit: &Unit, rule: Spot) -> Result<usize, Memory>
    ensures { (p : Parts) (text : ℕ) → IsGroupOf p text unit.now → IsRuleFound p text (Some rule) → IfOk result (λ n. IsLeastPart p text (Some (rule, n))) }
{
    let mut typed = 0;
    let mut untyped = rule.parts;
    while typed + 1 < untyped {
        let middle = typed + (untyped - typed) / 2;
        if can_be_typed(alloc, unit, Extent::UpTo(rule.place, middle))? {
            typed = middle;
        } else {
            untyped = middle;
        }
    }
    Ok(typed)
}

/// The rule and the number of the least part at which a group is untyped.
pub fn least_part(alloc: Global, unit: &Unit) -> Result<Option<(Spot, usize)>, Memory>
    ensures { (p : Parts) (text : ℕ) → IsGroupOf p text unit.now → (CanBeTyped p text extent.All → ⊥) → IfOk result (IsLeastPart p text) }
{
    match least_rule(alloc, unit)? {
        Some(rule) => {
            let number = least_in(alloc, unit, rule)?;
            Ok(Some((rule, number)))
        }
        None => Ok(None),
    }
}
