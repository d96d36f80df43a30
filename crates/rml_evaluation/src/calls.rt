//! What calls are made with, and what they leave.

ghost use Rattle.std.specs.Prelude.{◌≡◌, IfOk, slice_get};
ghost use Rattle.rml_builtin.specs.declared.row.TheConstants.{ROWS};
ghost use Rattle.rml_terms.specs.Calling.{made_at, relation_in};

use rml_base::Memory;
use rml_builtin::{Store, cells_made, row_at};
use rml_value::{Value, copy};
use sqlite_items::Items;
use std::alloc::Global;

/// The relation that a value names, if it names one.
pub fn relation_named(value: &Value) -> Option<u32>
    ensures { result ≡ relation_in value.now }
{
    match value {
        Value::Rel(r) => Some(*r),
        _ => None,
    }
}

/// The cells that the built-in of a number makes where these are its results; none where there is no such number. The only
/// error is that no 64 bits hold them, which is answered as want of memory.
pub fn made_by(number: u16, values: &[Value]) -> Result<u64, Memory>
    ensures { IfOk result (λ cells. cells ≡ made_at (slice_get ROWS number) values.now) }
{
    match row_at(number) {
        None => Ok(0),
        Some(row) => cells_made(row, values),
    }
}

/// What the logical variables hold, copied. The only error is want of memory.
pub fn copy_store(alloc: Global, store: &[Option<Value>]) -> Result<Store, Memory>
    ensures { IfOk result (λ all. all ≡ store.now) }
{
    let mut all = Items::new(alloc);
    for held in store {
        match held {
            None => all.push(None)?,
            Some(v) => all.push(Some(copy(alloc, v)?))?,
        }
    }
    Ok(all)
}
