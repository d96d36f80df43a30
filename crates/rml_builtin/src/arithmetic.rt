//! The rows that calculate. Arguments are any 64-bit numbers; those of a typed program are in range. Arguments of other
//! kinds are Wrong.

ghost use Rattle.std.specs.Prelude.{◌≡◌, ◌-ℤ◌, ◌*ℤ◌, IfOk, neg_ℤ, int_div};
ghost use Rattle.std.specs.Int.{IsNonZero, w64};
ghost use Rattle.rml_builtin.specs.BuiltIns.{apply};
ghost use Rattle.rml_builtin.specs.Applied.{ranged as ranged_of};

use crate::answers::{answer_one, ranged};
use crate::applied::{Applied, Store};
use crate::arguments::{one_int, two_ints};
use crate::row::Row;
use rml_base::Memory;
use rml_value::Value;
use std::alloc::Global;

/// The sum of two integers, or no answer out of range.
pub fn sum(alloc: Global, args: &[Value], store: Store) -> Result<Applied, Memory>
    ensures { IfOk result (λ g. g ≡ apply Row.IntAdd args.now store) }
{
    let Some((m, n)) = two_ints(args) else {
        return Ok(Applied::Wrong);
    };
    match m.checked_add(n) {
        Some(sum) => ranged(alloc, sum, store),
        None => Ok(Applied::No),
    }
}

/// The first of two integers minus the second, or no answer out of range.
pub fn difference(alloc: Global, args: &[Value], store: Store) -> Result<Applied, Memory>
    ensures { IfOk result (λ g. g ≡ apply Row.IntSub args.now store) }
{
    let Some((m, n)) = two_ints(args) else {
        return Ok(Applied::Wrong);
    };
    match m.checked_sub(n) {
        Some(difference) => ranged(alloc, difference, store),
        None => Ok(Applied::No),
    }
}

/// The product of two integers, or no answer out of range.
pub fn product(alloc: Global, args: &[Value], store: Store) -> Result<Applied, Memory>
    ensures { IfOk result (λ g. g ≡ apply Row.IntMul args.now store) }
{
    let Some((m, n)) = two_ints(args) else {
        return Ok(Applied::Wrong);
    };
    match m.checked_mul(n) {
        Some(product) => ranged(alloc, product, store),
        None => Ok(Applied::No),
    }
}

/// The quotient of two integers toward zero, or no answer for a divisor 0 or out of range.
pub fn quotient(alloc: Global, args: &[Value], store: Store) -> Result<Applied, Memory>
    ensures { IfOk result (λ g. g ≡ apply Row.IntDiv args.now store) }
{
    let Some((m, n)) = two_ints(args) else {
        return Ok(Applied::Wrong);
    };
    match m.checked_div(n) {
        Some(quotient) => ranged(alloc, quotient, store),
        None => Ok(Applied::No),
    }
}

/// The dividend minus the divisor times the quotient toward zero.
fn rest(m: i64, n: i64) -> i64
    requires { IsNonZero w64 n }
    ensures { result ≡ m -ℤ (n *ℤ int_div m n) }
{
    m.wrapping_rem(n)
}

/// The dividend minus the divisor times the quotient toward zero, or no answer for a divisor 0.
pub fn remainder(alloc: Global, args: &[Value], store: Store) -> Result<Applied, Memory>
    ensures { IfOk result (λ g. g ≡ apply Row.IntMod args.now store) }
{
    let Some((m, n)) = two_ints(args) else {
        return Ok(Applied::Wrong);
    };
    if n == 0 {
        Ok(Applied::No)
    } else {
        answer_one(alloc, Value::Int(rest(m, n)), store)
    }
}

fn negated(alloc: Global, n: i64, store: Store) -> Result<Applied, Memory>
    ensures { IfOk result (λ g. g ≡ ranged_of (neg_ℤ n) store) }
{
    match n.checked_neg() {
        Some(n) => ranged(alloc, n, store),
        None => Ok(Applied::No),
    }
}

/// An integer with the other sign, or no answer out of range.
pub fn negation(alloc: Global, args: &[Value], store: Store) -> Result<Applied, Memory>
    ensures { IfOk result (λ g. g ≡ apply Row.IntNeg args.now store) }
{
    match one_int(args) {
        Some(n) => negated(alloc, n, store),
        None => Ok(Applied::Wrong),
    }
}

/// An integer without its sign, or no answer out of range.
pub fn absolute_value(alloc: Global, args: &[Value], store: Store) -> Result<Applied, Memory>
    ensures { IfOk result (λ g. g ≡ apply Row.IntAbs args.now store) }
{
    match one_int(args) {
        Some(n) if n < 0 => negated(alloc, n, store),
        Some(n) => ranged(alloc, n, store),
        None => Ok(Applied::Wrong),
    }
}

/// The greater of two integers.
pub fn greatest(alloc: Global, args: &[Value], store: Store) -> Result<Applied, Memory>
    ensures { IfOk result (λ g. g ≡ apply Row.IntMax args.now store) }
{
    match two_ints(args) {
        Some((m, n)) => answer_one(alloc, Value::Int(m.max(n)), store),
        None => Ok(Applied::Wrong),
    }
}

/// The lesser of two integers.
pub fn least(alloc: Global, args: &[Value], store: Store) -> Result<Applied, Memory>
    ensures { IfOk result (λ g. g ≡ apply Row.IntMin args.now store) }
{
    match two_ints(args) {
        Some((m, n)) => answer_one(alloc, Value::Int(m.min(n)), store),
        None => Ok(Applied::Wrong),
    }
}
