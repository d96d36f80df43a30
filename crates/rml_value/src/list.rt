//! The lists of the language, as values of the constructors `[]` and `::`.

ghost use Rattle.std.specs.Prelude.{◌≡◌, IfOk, length};
ghost use Rattle.std.specs.Option.{option_map};
ghost use Rattle.rml_value.specs.Lists.{onto, list_of as list_of_values, items_of as items_of_value};

use crate::copying::copy;
use crate::value::{CONS, NIL, Value, Values};
use rml_base::Memory;
use sqlite_items::Items;
use std::alloc::Global;

/// A list with some values before its items, in order.
pub fn list_onto(alloc: Global, values: Values, list: Value) -> Result<Value, Memory>
    ensures { IfOk result (λ v. v ≡ onto values list) }
{
    let mut values = values;
    let mut list = list;
    while let Some(last) = values.pop() {
        let mut parts = Items::new(alloc);
        parts.push(last)?;
        parts.push(list)?;
        list = Value::Con(CONS, parts);
    }
    Ok(list)
}

/// The list of some values, in order.
pub fn list_of(alloc: Global, values: Values) -> Result<Value, Memory>
    ensures { IfOk result (λ v. v ≡ list_of_values values) }
{
    list_onto(alloc, values, Value::Con(NIL, Items::new(alloc)))
}

/// Copies of the items of a list, in order, or None for a value that is no list.
pub fn items_of(alloc: Global, value: &Value) -> Result<Option<Values>, Memory>
    ensures { IfOk result (λ items. items ≡ items_of_value value.now) }
{
    let mut all = Items::new(alloc);
    let mut rest = value;
    loop {
        match rest {
            Value::Con(c, parts) => match parts.as_slice() {
                [] => return Ok(if *c == NIL { Some(all) } else { None }),
                [head, tail] => {
                    if *c != CONS {
                        return Ok(None);
                    }
                    all.push(copy(alloc, head)?)?;
                    rest = tail;
                }
                _ => return Ok(None),
            },
            _ => return Ok(None),
        }
    }
}

/// How many items a list has, or None for a value that is no list. A count that no 64 bits hold is answered as want of
/// memory; nothing is copied.
pub fn length_of(value: &Value) -> Result<Option<u64>, Memory>
    ensures { IfOk result (λ count. count ≡ option_map length (items_of_value value.now)) }
{
    let mut count: u64 = 0;
    let mut rest = value;
    loop {
        match rest {
            Value::Con(c, parts) => match parts.as_slice() {
                [] => return Ok(if *c == NIL { Some(count) } else { None }),
                [_, tail] => {
                    if *c != CONS {
                        return Ok(None);
                    }
                    count = count.checked_add(1).ok_or(Memory)?;
                    rest = tail;
                }
                _ => return Ok(None),
            },
            _ => return Ok(None),
        }
    }
}
