//! The rows over vectors. Arguments of other kinds are Wrong.

ghost use Rattle.std.specs.Prelude.{◌≡◌, IfOk};
ghost use Rattle.rml_builtin.specs.BuiltIns.{apply};
ghost use Rattle.rml_builtin.specs.Vectors.{nth_item};

use crate::answers::{answer_one, length_in_range};
use crate::applied::{Applied, Store};
use crate::arguments::one_list;
use crate::row::Row;
use rml_base::Memory;
use rml_value::{Value, copy, copy_all, list_of};
use sqlite_items::at;
use std::alloc::Global;

/// The vector of the items of a list.
pub fn of_list(alloc: Global, args: &[Value], store: Store) -> Result<Applied, Memory>
    ensures { IfOk result (λ g. g ≡ apply Row.ListVector args.now store) }
{
    match one_list(alloc, args)? {
        Some(items) => answer_one(alloc, Value::Vector(items), store),
        None => Ok(Applied::Wrong),
    }
}

/// The list of the items of a vector.
pub fn list(alloc: Global, args: &[Value], store: Store) -> Result<Applied, Memory>
    ensures { IfOk result (λ g. g ≡ apply Row.VectorList args.now store) }
{
    match args {
        [Value::Vector(items)] => {
            let copies = copy_all(alloc, items.as_slice())?;
            answer_one(alloc, list_of(alloc, copies)?, store)
        }
        _ => Ok(Applied::Wrong),
    }
}

/// How many items a vector has, or no answer out of range.
pub fn length(alloc: Global, args: &[Value], store: Store) -> Result<Applied, Memory>
    ensures { IfOk result (λ g. g ≡ apply Row.VectorLength args.now store) }
{
    match args {
        [Value::Vector(items)] => length_in_range(alloc, items.len(), store),
        _ => Ok(Applied::Wrong),
    }
}

fn item_at(alloc: Global, items: &[Value], n: i64, store: Store) -> Result<Applied, Memory>
    ensures { IfOk result (λ g. g ≡ nth_item items.now n store) }
{
    if n < 0 {
        return Ok(Applied::No);
    }
    match at(items, n as usize) {
        None => Ok(Applied::No),
        Some(item) => answer_one(alloc, copy(alloc, item)?, store),
    }
}

/// The item of a vector at an index, from 0, or no answer outside.
pub fn nth(alloc: Global, args: &[Value], store: Store) -> Result<Applied, Memory>
    ensures { IfOk result (λ g. g ≡ apply Row.VectorNth args.now store) }
{
    match args {
        [Value::Vector(items), Value::Int(n)] => item_at(alloc, items.as_slice(), *n, store),
        _ => Ok(Applied::Wrong),
    }
}
