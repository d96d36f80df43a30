//! Making answers of built-ins.

ghost use Rattle.std.specs.Prelude.{◌≡◌, IfOk, pos};
ghost use Rattle.rml_builtin.specs.Applied.{gives, gives_one, ranged as ranged_of, truth as truth_of};

use crate::applied::{Answer, Applied, Store};
use rml_base::{Bytes, Memory};
use rml_value::{FALSE, TRUE, Value, Values, in_range};
use sqlite_items::Items;
use std::alloc::Global;

/// Results, and no text.
pub fn answer(alloc: Global, values: Values, store: Store) -> Applied
    ensures { result ≡ gives values store }
{
    let answer = Answer { values, store };
    Applied::Yes(answer, Bytes::of(Vec::new(alloc)))
}

/// One result, and no text.
pub fn answer_one(alloc: Global, value: Value, store: Store) -> Result<Applied, Memory>
    ensures { IfOk result (λ g. g ≡ gives_one value store) }
{
    let mut values = Items::new(alloc);
    values.push(value)?;
    Ok(answer(alloc, values, store))
}

/// An integer, or no answer out of range.
pub fn ranged(alloc: Global, n: i64, store: Store) -> Result<Applied, Memory>
    ensures { IfOk result (λ g. g ≡ ranged_of n store) }
{
    if in_range(n) {
        answer_one(alloc, Value::Int(n), store)
    } else {
        Ok(Applied::No)
    }
}

/// A length, or no answer out of range.
pub fn length_in_range(alloc: Global, n: usize, store: Store) -> Result<Applied, Memory>
    ensures { IfOk result (λ g. g ≡ ranged_of (pos n) store) }
{
    if n < 1 << 30 {
        ranged(alloc, n as i64, store)
    } else {
        Ok(Applied::No)
    }
}

/// A truth value.
pub fn truth(alloc: Global, holds: bool, store: Store) -> Result<Applied, Memory>
    ensures { IfOk result (λ g. g ≡ truth_of holds store) }
{
    let number = if holds { TRUE } else { FALSE };
    answer_one(alloc, Value::Con(number, Items::new(alloc)), store)
}
