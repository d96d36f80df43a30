//! The rows that calculate with integers. Their arguments are any 64-bit numbers; those of a typed program are in range.

ghost use Rattle.std.specs.Prelude.{◌≡◌, ◌+ℤ◌, ◌-ℤ◌, ◌*ℤ◌, int_div, neg_ℤ, None, pos, if◌then◌else◌};
ghost use Rattle.std.specs.Int.{IsNonZero, w64};
ghost use Rattle.std.specs.Ordering.{int_eq};
ghost use Rattle.rml_builtin.specs.Decimal.{integer_of};
ghost use Rattle.rml_builtin.specs.Integers.{absolute};
ghost use Rattle.rml_prims.specs.Calculated.{calculated as calculated_by, turned as turned_by};

use rml_builtin::Row;
use rml_value::in_range;

/// A number, where it is an integer of the language.
pub fn integer(n: i64) -> Option<i64>
    ensures { result ≡ integer_of n }
{
    if in_range(n) { Some(n) } else { None }
}

/// The sum, or None out of range.
fn sum(m: i64, n: i64) -> Option<i64>
    ensures { result ≡ integer_of (m +ℤ n) }
{
    match m.checked_add(n) {
        Some(sum) => integer(sum),
        None => None,
    }
}

/// The difference, or None out of range.
fn difference(m: i64, n: i64) -> Option<i64>
    ensures { result ≡ integer_of (m -ℤ n) }
{
    match m.checked_sub(n) {
        Some(difference) => integer(difference),
        None => None,
    }
}

/// The product, or None out of range.
fn product(m: i64, n: i64) -> Option<i64>
    ensures { result ≡ integer_of (m *ℤ n) }
{
    match m.checked_mul(n) {
        Some(product) => integer(product),
        None => None,
    }
}

/// The quotient toward zero, or None for a divisor 0 or out of range.
fn quotient(m: i64, n: i64) -> Option<i64>
    ensures { result ≡ if int_eq n (pos 0) then None else integer_of (int_div m n) }
{
    match m.checked_div(n) {
        Some(quotient) => integer(quotient),
        None => None,
    }
}

/// The dividend minus the divisor times the quotient toward zero.
fn rest(m: i64, n: i64) -> i64
    requires { IsNonZero w64 n }
    ensures { result ≡ m -ℤ (n *ℤ int_div m n) }
{
    m.wrapping_rem(n)
}

/// The same, or None for a divisor 0.
fn remainder(m: i64, n: i64) -> Option<i64>
    ensures { result ≡ if int_eq n (pos 0) then None else Some (m -ℤ (n *ℤ int_div m n)) }
{
    if n == 0 { None } else { Some(rest(m, n)) }
}

/// The number with the other sign, or None out of range.
fn negation(n: i64) -> Option<i64>
    ensures { result ≡ integer_of (neg_ℤ n) }
{
    match n.checked_neg() {
        Some(n) => integer(n),
        None => None,
    }
}

/// The number without its sign, or None out of range.
fn magnitude(n: i64) -> Option<i64>
    ensures { result ≡ integer_of (absolute n) }
{
    if n < 0 { negation(n) } else { integer(n) }
}

/// What a row that calculates with two integers gives, or None for no answer.
pub fn calculated(row: Row, m: i64, n: i64) -> Option<i64>
    ensures { result ≡ calculated_by row m n }
{
    match row {
        Row::IntAdd => sum(m, n),
        Row::IntSub => difference(m, n),
        Row::IntMul => product(m, n),
        Row::IntDiv => quotient(m, n),
        Row::IntMod => remainder(m, n),
        Row::IntMax => Some(m.max(n)),
        Row::IntMin => Some(m.min(n)),
        _ => None,
    }
}

/// What a row that turns the sign of an integer gives, or None for no answer.
pub fn turned(row: Row, n: i64) -> Option<i64>
    ensures { result ≡ turned_by row n }
{
    match row {
        Row::IntNeg => negation(n),
        Row::IntAbs => magnitude(n),
        _ => None,
    }
}
