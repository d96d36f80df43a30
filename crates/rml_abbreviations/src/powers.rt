//! A table by which a type is written out so many times over at once. It is made by doubling, and no further where nothing changes.

ghost use Rattle.std.specs.Option.{option_map};
ghost use Rattle.std.specs.Prelude.{◌≡◌, ◌<◌, ◌/◌, ℕ, false, map, IfOk};
ghost use Rattle.rml_types.specs.declared.tree.SchemeTree.{SchemeTree};
ghost use Rattle.rml_abbreviations.specs.Powers.{IsPower};
ghost use Rattle.rml_abbreviations.specs.Written.{meaning_in, written, written_out};

use crate::body::Body;
use crate::tables::{are_same, copied, followed};
use rml_base::Memory;
use std::alloc::Global;

/// A table by which types are written out some times over at once, and whether a further time is known to change nothing.
#[derive(Drop)]
struct Power {
    table: Vec<Option<Body>>,
    is_fixed: bool,
}

/// The table that writes types out `count` times over. The calls nest as often as `count` can be halved.
fn power_of(alloc: Global, bodies: &[Option<Body>], count: u32) -> Result<Power, Memory>
    requires { 0 < count }
    ensures { IfOk result (λ p. IsPower bodies.now count p.table.items p.is_fixed) }
{
    if count == 1 {
        let table = copied(alloc, bodies)?;
        return Ok(Power {
            table,
            is_fixed: false,
        });
    }
    let half = power_of(alloc, bodies, count / 2)?;
    if half.is_fixed {
        return Ok(half);
    }
    doubled(alloc, bodies, &half.table, count)
}

/// From the table of half as many times, rounded down, that of all.
fn doubled(
    alloc: Global,
    bodies: &[Option<Body>],
    half: &[Option<Body>],
    count: u32,
) -> Result<Power, Memory>
    requires { IsPower bodies.now (count / 2) half.now false }
    ensures { IfOk result (λ p. IsPower bodies.now count p.table.items p.is_fixed) }
{
    let more = followed(alloc, half, bodies)?;
    let is_fixed = are_same(alloc, &more, half)?;
    if is_fixed {
        return Ok(Power {
            table: more,
            is_fixed: true,
        });
    }
    let table = twice(alloc, bodies, half, &more, count)?;
    Ok(Power {
        table,
        is_fixed: false,
    })
}

/// From the tables of half as many times, rounded down, and of once more, that of all.
fn twice(
    alloc: Global,
    bodies: &[Option<Body>],
    half: &[Option<Body>],
    more: &[Option<Body>],
    count: u32,
) -> Result<Vec<Option<Body>>, Memory>
    requires half { IsPower bodies.now (count / 2) half.now false }
    requires more { more.now ≡ map (option_map (written (meaning_in bodies.now))) half.now }
    ensures { IfOk result (λ table. IsPower bodies.now count table.items false) }
{
    let _ = bodies;
    if count % 2 == 0 {
        let table = followed(alloc, half, half)?;
        Ok(table)
    } else {
        let table = followed(alloc, half, more)?;
        Ok(table)
    }
}

/// A table by which a type is written out once exactly as it is by `bodies` so many times over.
pub fn written_out(
    alloc: Global,
    bodies: &[Option<Body>],
    count: u32,
) -> Result<Vec<Option<Body>>, Memory>
    ensures { IfOk result (λ table. (t : SchemeTree) → written (meaning_in table.items) t ≡ written_out count (meaning_in bodies.now) t) }
{
    if count == 0 {
        return Ok(Vec::new(alloc));
    }
    let power = power_of(alloc, bodies, count)?;
    Ok(power.table)
}
