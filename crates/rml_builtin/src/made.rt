//! The cells that a built-in makes. A count that no 64 bits hold is answered as want of memory.

ghost use Rattle.std.specs.Prelude.{◌≡◌, IfOk, sum_by};
ghost use Rattle.rml_builtin.specs.Made.{cells_of as cells_of_value, cells_made as cells_made_by};

use crate::row::Row;
use rml_base::Memory;
use rml_value::{Value, length_of};

/// The cells of a text, a list or a vector, and none of another value.
fn cells_of(value: &Value) -> Result<u64, Memory>
    ensures { IfOk result (λ cells. cells ≡ cells_of_value value.now) }
{
    match value {
        Value::Text(text) => Ok(1 + (text.as_slice().len() as u64 + 7) / 8),
        Value::Vector(items) => (items.len() as u64).checked_add(1).ok_or(Memory),
        _ => match length_of(value)? {
            Some(items) => items.checked_mul(3).ok_or(Memory),
            None => Ok(0),
        },
    }
}

fn all_cells(values: &[Value]) -> Result<u64, Memory>
    ensures { IfOk result (λ cells. cells ≡ sum_by cells_of_value values.now) }
{
    let mut all: u64 = 0;
    for value in values {
        all = all.checked_add(cells_of(value)?).ok_or(Memory)?;
    }
    Ok(all)
}

/// The cells that a row makes where these are its results: those of the texts, lists and vectors that it builds anew.
pub fn cells_made(row: Row, values: &[Value]) -> Result<u64, Memory>
    ensures { IfOk result (λ cells. cells ≡ cells_made_by row values.now) }
{
    match row {
        Row::IntString | Row::StringAppend | Row::StringList => all_cells(values),
        Row::ListString | Row::ListVector | Row::VectorList => all_cells(values),
        _ => Ok(0),
    }
}
