//! The rows over logical variables. Arguments of other kinds are Wrong, and so is a number that names no entry.

ghost use Rattle.std.specs.Prelude.{◌≡◌, IfOk};
ghost use Rattle.rml_builtin.specs.BuiltIns.{apply};
ghost use Rattle.rml_builtin.specs.Lvars.{get_lvar, set_lvar, option_value};

use crate::answers::{answer, answer_one};
use crate::applied::{Applied, Store};
use crate::row::Row;
use rml_base::Memory;
use rml_value::{NONE, SOME, Value, copy};
use sqlite_items::Items;
use std::alloc::Global;

/// A new logical variable, with an entry of its own, which is unset.
pub fn new(alloc: Global, args: &[Value], store: Store) -> Result<Applied, Memory>
    ensures { IfOk result (λ g. g ≡ apply Row.LvarNew args.now store) }
{
    match args {
        [] => {
            let mut store = store;
            let fresh = Value::Cell(store.len());
            store.push(None)?;
            answer_one(alloc, fresh, store)
        }
        _ => Ok(Applied::Wrong),
    }
}

fn option_of(alloc: Global, held: &Option<Value>) -> Result<Value, Memory>
    ensures { IfOk result (λ v. v ≡ option_value held.now) }
{
    let mut parts = Items::new(alloc);
    match held {
        None => Ok(Value::Con(NONE, parts)),
        Some(value) => {
            parts.push(copy(alloc, value)?)?;
            Ok(Value::Con(SOME, parts))
        }
    }
}

fn held_at(alloc: Global, k: usize, store: Store) -> Result<Applied, Memory>
    ensures { IfOk result (λ g. g ≡ get_lvar k store) }
{
    match store.get(k) {
        None => Ok(Applied::Wrong),
        Some(held) => {
            let value = option_of(alloc, held)?;
            answer_one(alloc, value, store)
        }
    }
}

/// What the entry of a logical variable holds, as an option.
pub fn get(alloc: Global, args: &[Value], store: Store) -> Result<Applied, Memory>
    ensures { IfOk result (λ g. g ≡ apply Row.LvarGet args.now store) }
{
    match args {
        [Value::Cell(k)] => held_at(alloc, *k, store),
        _ => Ok(Applied::Wrong),
    }
}

fn set_at(alloc: Global, k: usize, value: &Value, store: Store) -> Result<Applied, Memory>
    ensures { IfOk result (λ g. g ≡ set_lvar k value.now store) }
{
    let mut store = store;
    match store.get(k) {
        None => Ok(Applied::Wrong),
        Some(Some(_)) => Ok(Applied::No),
        Some(None) => {
            let value = copy(alloc, value)?;
            store.set(k, Some(value));
            Ok(answer(alloc, Items::new(alloc), store))
        }
    }
}

/// No result; it sets the entry of a logical variable that is unset, and there is no answer where it is set.
pub fn set(alloc: Global, args: &[Value], store: Store) -> Result<Applied, Memory>
    ensures { IfOk result (λ g. g ≡ apply Row.LvarSet args.now store) }
{
    match args {
        [Value::Cell(k), value] => set_at(alloc, *k, value, store),
        _ => Ok(Applied::Wrong),
    }
}
