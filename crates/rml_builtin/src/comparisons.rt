//! The rows that compare two integers, whose results are truth values. Arguments of other kinds are Wrong.

ghost use Rattle.std.specs.Prelude.{◌≡◌, IfOk};
ghost use Rattle.rml_builtin.specs.BuiltIns.{apply};

use crate::answers::truth;
use crate::applied::{Applied, Store};
use crate::arguments::two_ints;
use crate::row::Row;
use rml_base::Memory;
use rml_value::Value;
use std::alloc::Global;

/// Whether the first is below the second.
pub fn is_less(alloc: Global, args: &[Value], store: Store) -> Result<Applied, Memory>
    ensures { IfOk result (λ g. g ≡ apply Row.IntLt args.now store) }
{
    match two_ints(args) {
        Some((m, n)) => truth(alloc, m < n, store),
        None => Ok(Applied::Wrong),
    }
}

/// Whether the first is below the second or equal to it.
pub fn is_at_most(alloc: Global, args: &[Value], store: Store) -> Result<Applied, Memory>
    ensures { IfOk result (λ g. g ≡ apply Row.IntLe args.now store) }
{
    match two_ints(args) {
        Some((m, n)) => truth(alloc, m <= n, store),
        None => Ok(Applied::Wrong),
    }
}

/// Whether the first is above the second.
pub fn is_greater(alloc: Global, args: &[Value], store: Store) -> Result<Applied, Memory>
    ensures { IfOk result (λ g. g ≡ apply Row.IntGt args.now store) }
{
    match two_ints(args) {
        Some((m, n)) => truth(alloc, m > n, store),
        None => Ok(Applied::Wrong),
    }
}

/// Whether the first is above the second or equal to it.
pub fn is_at_least(alloc: Global, args: &[Value], store: Store) -> Result<Applied, Memory>
    ensures { IfOk result (λ g. g ≡ apply Row.IntGe args.now store) }
{
    match two_ints(args) {
        Some((m, n)) => truth(alloc, m >= n, store),
        None => Ok(Applied::Wrong),
    }
}

/// Whether they are equal.
pub fn is_equal(alloc: Global, args: &[Value], store: Store) -> Result<Applied, Memory>
    ensures { IfOk result (λ g. g ≡ apply Row.IntEq args.now store) }
{
    match two_ints(args) {
        Some((m, n)) => truth(alloc, m == n, store),
        None => Ok(Applied::Wrong),
    }
}

/// Whether they differ.
pub fn is_unequal(alloc: Global, args: &[Value], store: Store) -> Result<Applied, Memory>
    ensures { IfOk result (λ g. g ≡ apply Row.IntNe args.now store) }
{
    match two_ints(args) {
        Some((m, n)) => truth(alloc, m != n, store),
        None => Ok(Applied::Wrong),
    }
}
