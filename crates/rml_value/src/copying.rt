//! Copies of values.

ghost use Rattle.std.specs.Prelude.{◌≡◌, IfOk};

use crate::value::{Value, Values};
use rml_base::{Bytes, Memory};
use sqlite_items::Items;
use std::alloc::Global;

fn copy_text(alloc: Global, text: &Bytes) -> Result<Bytes, Memory>
    ensures { IfOk result (λ t. t ≡ text.now) }
{
    let bytes = Vec::from_slice(alloc, text.as_slice())?;
    Ok(Bytes::of(bytes))
}

/// A copy, which is the same value.
#[cycle(copy)]
pub fn copy(alloc: Global, value: &Value) -> Result<Value, Memory>
    ensures { IfOk result (λ v. v ≡ value.now) }
{
    match value {
        Value::Int(n) => Ok(Value::Int(*n)),
        Value::Char(c) => Ok(Value::Char(*c)),
        Value::Text(t) => Ok(Value::Text(copy_text(alloc, t)?)),
        Value::Con(c, xs) => Ok(Value::Con(*c, copy_all(alloc, xs.as_slice())?)),
        Value::Tuple(xs) => Ok(Value::Tuple(copy_all(alloc, xs.as_slice())?)),
        Value::Rel(r) => Ok(Value::Rel(*r)),
        Value::Cell(k) => Ok(Value::Cell(*k)),
        Value::Vector(xs) => Ok(Value::Vector(copy_all(alloc, xs.as_slice())?)),
    }
}

/// A copy of each value, in order.
#[cycle(copy)]
pub fn copy_all(alloc: Global, values: &[Value]) -> Result<Values, Memory>
    ensures { IfOk result (λ all. all ≡ values.now) }
{
    let mut all = Items::new(alloc);
    for value in values {
        all.push(copy(alloc, value)?)?;
    }
    Ok(all)
}
