//! The rules of a group, by where they stand and how many parts they have, and their order.

ghost use Rattle.std.specs.Prelude.{◌≡◌, ◌++◌, map, All, IfOk, OnOk};
ghost use Rattle.std.specs.List.{Contains, filter};
ghost use Rattle.rml_base.specs.Order.{is_before};
ghost use Rattle.rml_groups.specs.Spots.{HasAllSpots, IsSpotOf, comes_after, spot_of};
ghost use Rattle.rml_groups.specs.declared.spots.Spot.{Spot};

use crate::extent::part_count;
use crate::unit::{Unit, is_member};
use rml_base::{Memory, Place};
use rml_resolved::RRule;
use std::alloc::Global;

/// A rule of a group: where it stands, and how many parts it has.
#[derive(Clone, Copy, Debug, PartialEq, Eq)]
pub struct Spot {
    pub place: Place,
    pub parts: usize,
}

impl Spot {
    /// Whether this rule comes after another: it stands behind it, or at its place with more parts.
    fn comes_after(self, other: Spot) -> bool
        ensures { result ≡ comes_after self other }
    {
        other.place.is_before(self.place)
            || (!self.place.is_before(other.place) && other.parts < self.parts)
    }
}

/// Adds the rules of a relation.
fn add_spots(rules: &[RRule], spots: &mut Vec<Spot>) -> Result<(), Memory>
    ensures { OnOk result (spots.new.items ≡ spots.old.items ++ map spot_of rules.now) }
{
    for rule in rules {
        spots.push(Spot {
            place: rule.place,
            parts: part_count(rule),
        })?;
    }
    Ok(())
}

/// The rules of a group.
pub fn spots_of(alloc: Global, unit: &Unit) -> Result<Vec<Spot>, Memory>
    ensures { IfOk result (λ v. HasAllSpots unit.now.rels.now unit.now.number v.items) }
{
    let mut spots = Vec::new(alloc);
    for rel in unit.rels {
        if is_member(unit.number, rel) {
            add_spots(rel.rules.as_slice(), &mut spots)?;
        }
    }
    Ok(spots)
}

/// Keeps those that come after one.
pub fn keep_after(spots: &mut Vec<Spot>, one: Spot)
    ensures { spots.new.items ≡ filter (λ s. comes_after s one) spots.old.items }
{
    spots.retain(|other| other.comes_after(one));
}

/// Keeps those that stand before a place.
pub fn keep_before(spots: &mut Vec<Spot>, place: Place)
    ensures { spots.new.items ≡ filter (λ s. is_before s.place place) spots.old.items }
{
    spots.retain(|other| other.place.is_before(place));
}
