//! Names, constructors and vals.

ghost use Rattle.std.specs.Prelude.{◌≡◌, IfOk};

use crate::terms::{copy_bytes, copy_expression};
use rml_base::Memory;
use rml_fol::limits::MOST_NESTED;
use rml_fol::{Constructor, Name, Val};
use sqlite_items::Items;
use std::alloc::Global;

/// A copy of a name.
pub fn copy_name(alloc: Global, name: &Name) -> Result<Name, Memory>
    ensures { IfOk result (λ n. n ≡ name.now) }
{
    Ok(Name {
        of: copy_bytes(alloc, &name.of)?,
        name: copy_bytes(alloc, &name.name)?,
    })
}

fn copy_constructor(alloc: Global, constructor: &Constructor) -> Result<Constructor, Memory>
    ensures { IfOk result (λ c. c ≡ constructor.now) }
{
    let name = copy_name(alloc, &constructor.name)?;
    Ok(Constructor {
        name,
        arity: constructor.arity,
    })
}

/// A copy of a table of constructors.
pub fn copy_constructors(
    alloc: Global,
    constructors: &[Constructor],
) -> Result<Items<Constructor>, Memory>
    ensures { IfOk result (λ all. all ≡ constructors.now) }
{
    let mut all = Items::new(alloc);
    for constructor in constructors {
        let copy = copy_constructor(alloc, constructor)?;
        all.push(copy)?;
    }
    Ok(all)
}

fn copy_val(alloc: Global, val: &Val) -> Result<Val, Memory>
    ensures { IfOk result (λ v. v ≡ val.now) }
{
    let name = copy_name(alloc, &val.name)?;
    let value = copy_expression(alloc, &val.value, MOST_NESTED)?;
    Ok(Val { name, value })
}

/// A copy of a table of vals, whose expressions nest no deeper than `MOST_NESTED`.
pub fn copy_vals(alloc: Global, vals: &[Val]) -> Result<Items<Val>, Memory>
    ensures { IfOk result (λ all. all ≡ vals.now) }
{
    let mut all = Items::new(alloc);
    for val in vals {
        let copy = copy_val(alloc, val)?;
        all.push(copy)?;
    }
    Ok(all)
}
