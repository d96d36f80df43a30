//! Integers as texts.

ghost use Rattle.std.specs.Prelude.{ℕ, ◌≡◌, ◌≤◌, ◌^◌, IfOk, IfSome, Option, option_map, option_and_then, [], ◌∷◌};
ghost use Rattle.rml_builtin.specs.Decimal.{decimal_of, natural_of, number_after, read, integer_of, with_sign};
ghost use Rattle.rml_builtin.specs.Capped.{capped};

use rml_base::{Bytes, Memory};
use rml_value::in_range;
use std::alloc::Global;

/// The decimal of an integer, with a `-` before a negative one.
pub fn write_int(alloc: Global, n: i64) -> Result<Bytes, Memory>
    ensures { IfOk result (λ t. t ≡ decimal_of n) }
{
    let text = format!(in alloc; "{n}")?;
    Ok(Bytes::of(text.into_bytes()))
}

/// No integer is further from 0.
const FURTHEST: u64 = 1_073_741_824;

/// The number that digits write, with one digit more, where it is one and the number is at most `FURTHEST`.
pub fn digit_after(n: u64, c: u8) -> Option<u64>
    requires { n ≤ 2 ^ 30 }
    ensures { result ≡ capped (number_after n (c ∷ [])) }
{
    if !c.is_ascii_digit() {
        return None;
    }
    let more = n * 10 + u64::from(c - b'0');
    if more > FURTHEST { None } else { Some(more) }
}

/// The number that one or more digits write, where it is at most `FURTHEST`.
fn number(digits: &[u8]) -> Option<u64>
    ensures { result ≡ capped (natural_of digits.now) }
{
    if digits.is_empty() {
        return None;
    }
    let mut n = 0;
    for c in digits {
        n = digit_after(n, *c)?;
    }
    Some(n)
}

/// The integer of a number with or without a minus before it.
pub fn signed_integer(minus: bool, number: Option<u64>) -> Option<i64>
    requires { IfSome number (λ n. n ≤ 2 ^ 30) }
    ensures { (n : Option ℕ) → number ≡ capped n → result ≡ option_and_then integer_of (option_map (with_sign minus) n) }
{
    match number {
        Some(n) if minus => integer(-(n as i64)),
        Some(n) => integer(n as i64),
        None => None,
    }
}

fn integer(n: i64) -> Option<i64>
    ensures { result ≡ integer_of n }
{
    if in_range(n) { Some(n) } else { None }
}

/// The integer that an optional `-` or `~` and one or more digits write.
pub fn read_int(text: &[u8]) -> Option<i64>
    ensures { result ≡ read text.now }
{
    match text {
        [] => None,
        [b'-' | b'~', digits @ ..] => signed_integer(true, number(digits)),
        digits => signed_integer(false, number(digits)),
    }
}
