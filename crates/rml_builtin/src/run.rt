//! What each row gives of its arguments and the store.

ghost use Rattle.std.specs.Prelude.{◌≡◌, IfOk};
ghost use Rattle.rml_builtin.specs.BuiltIns.{apply as effect_of, apply_at as effect_of_number};

use crate::applied::{Applied, Store};
use crate::row::{Row, row_at};
use crate::{arithmetic, comparisons, lvars, texts, vectors};
use rml_base::Memory;
use rml_value::Value;
use std::alloc::Global;

/// What a row gives of its arguments and the store.
pub fn apply(alloc: Global, row: Row, args: &[Value], store: Store) -> Result<Applied, Memory>
    ensures { IfOk result (λ g. g ≡ effect_of row args.now store) }
{
    match row {
        Row::IntAdd => arithmetic::sum(alloc, args, store),
        Row::IntSub => arithmetic::difference(alloc, args, store),
        Row::IntMul => arithmetic::product(alloc, args, store),
        Row::IntDiv => arithmetic::quotient(alloc, args, store),
        Row::IntMod => arithmetic::remainder(alloc, args, store),
        Row::IntNeg => arithmetic::negation(alloc, args, store),
        Row::IntAbs => arithmetic::absolute_value(alloc, args, store),
        Row::IntMax => arithmetic::greatest(alloc, args, store),
        Row::IntMin => arithmetic::least(alloc, args, store),
        Row::IntLt => comparisons::is_less(alloc, args, store),
        Row::IntLe => comparisons::is_at_most(alloc, args, store),
        Row::IntGt => comparisons::is_greater(alloc, args, store),
        Row::IntGe => comparisons::is_at_least(alloc, args, store),
        Row::IntEq => comparisons::is_equal(alloc, args, store),
        Row::IntNe => comparisons::is_unequal(alloc, args, store),
        Row::IntString => texts::written(alloc, args, store),
        Row::StringInt => texts::read(alloc, args, store),
        Row::IntChar => texts::character(alloc, args, store),
        Row::CharInt => texts::code(alloc, args, store),
        Row::StringLength => texts::length(alloc, args, store),
        Row::StringNth => texts::nth(alloc, args, store),
        Row::StringAppend => texts::joined(alloc, args, store),
        Row::StringList => texts::characters(alloc, args, store),
        Row::ListString => texts::text(alloc, args, store),
        Row::LvarNew => lvars::new(alloc, args, store),
        Row::LvarGet => lvars::get(alloc, args, store),
        Row::LvarSet => lvars::set(alloc, args, store),
        Row::Print => texts::print(alloc, args, store),
        Row::ListVector => vectors::of_list(alloc, args, store),
        Row::VectorList => vectors::list(alloc, args, store),
        Row::VectorLength => vectors::length(alloc, args, store),
        Row::VectorNth => vectors::nth(alloc, args, store),
    }
}

/// What the built-in of a number gives, or Wrong where the table has no such number.
pub fn apply_at(alloc: Global, number: u16, args: &[Value], store: Store) -> Result<Applied, Memory>
    ensures { IfOk result (λ g. g ≡ effect_of_number number args.now store) }
{
    match row_at(number) {
        Some(row) => apply(alloc, row, args, store),
        None => Ok(Applied::Wrong),
    }
}
