//! The built-ins that are named as values, and the numbers of their relations.

ghost use Rattle.std.specs.Prelude.{◌≡◌, ◌+◌, ◌<◌, ◌^◌, length, nat_eq, IfOk, OnOk};
ghost use Rattle.std.specs.List.{filter, range_with_len};
ghost use Rattle.rml_tables.specs.Words.{has};
ghost use Rattle.rml_values.specs.Numbers.{capped};
ghost use Rattle.rml_named.specs.Gathered.{with_where};
ghost use Rattle.rml_named.specs.Rows.{named_as_values, row_number};

use crate::texts::in_texts;
use rml_base::Memory;
use rml_scopes::World;
use rml_syntax::Text;
use rml_tables::NameSet;
use rml_values::Values;
use std::alloc::Global;

/// Adds a row where it is named.
fn add_where(named: &mut NameSet<usize>, is_named: bool, row: usize) -> Result<(), Memory>
    ensures { OnOk result (named.new ≡ with_where is_named named.old row) }
{
    if is_named {
        named.add(row)?;
    }
    Ok(())
}

/// Of so many rows those that are among some, in the order of the rows.
fn in_order(alloc: Global, count: usize, rows: &NameSet<usize>) -> Result<NameSet<usize>, Memory>
    ensures { IfOk result (λ named. named ≡ filter (λ row. has nat_eq row rows.now) (range_with_len 0 count)) }
{
    let mut named = NameSet::new(alloc);
    for row in 0..count {
        let is_named = rows.has(row);
        add_where(&mut named, is_named, row)?;
    }
    Ok(named)
}

/// The rows of the built-ins that some texts name as values, in the order of the table. The only error is want of memory.
pub fn named_as_values(
    alloc: Global,
    world: &World,
    values: &Values,
    texts: &[Text],
) -> Result<NameSet<usize>, Memory>
    requires { length texts.now < 2 ^ 32 }
    ensures { IfOk result (λ named. named ≡ named_as_values world.now values.now texts.now) }
{
    let gathering = in_texts(alloc, world, values, texts)?;
    let named = in_order(alloc, values.rows.len(), &gathering.rows)?;
    Ok(named)
}

/// A number that stands so far behind another. A set within the limits has no so great a number that it would be cut.
pub fn number_behind(first: u32, place: usize) -> u32
    ensures { result ≡ capped (first + place) }
{
    match u32::try_from(place) {
        Ok(place) => first.saturating_add(place),
        Err(_) => u32::MAX,
    }
}

/// The number of the relation of a row, where this is the number behind all relations of the texts, and these are the rows that are named
/// as values.
#[tactic(auto, unfolding(crate::specs::Rows::row_number))]
pub fn row_number(first: u32, named: &NameSet<usize>, row: usize) -> u32
    ensures { result ≡ row_number first named.now row }
{
    number_behind(first, named.place(row))
}
