//! Integers, and reals, which are faults.

ghost use Rattle.rml_lex.specs.Bytes.{is_digit, number_from};
ghost use Rattle.rml_lex.specs.Machine.{Longest, Stuck};
ghost use Rattle.rml_lex.specs.Number.{exponent, fraction, int_piece, int_value, limit, number, power, power_digits, real, real_end};
ghost use Rattle.std.specs.List.{AllPass};
ghost use Rattle.std.specs.Prelude.{◌≡◌, ◌<◌, ◌≤◌, ◌^◌, MatchOption};

use crate::bytes::{digits_length, is_exponent_byte, is_minus_byte};
use crate::piece::{LexKind, Piece};

/// The greatest distance from 0.
fn greatest(is_negative: bool) -> u64
    ensures value { result ≡ limit is_negative }
    ensures small { result < 2 ^ 31 }
{
    if is_negative {
        1_073_741_824
    } else {
        1_073_741_823
    }
}

fn with_sign(is_negative: bool, distance: u64) -> i64
    requires { distance < 2 ^ 31 }
    ensures { result ≡ int_value is_negative distance }
{
    let value = distance as i64;
    if is_negative { -value } else { value }
}

/// The integer with a sign and these digits.
fn int(is_negative: bool, digits: &[u8]) -> Piece
    requires { AllPass is_digit digits.now }
    ensures { result ≡ int_piece is_negative digits.now }
{
    let limit = greatest(is_negative);
    let mut distance: u64 = 0;
    for d in digits {
        distance = 10 * distance + (*d - b'0') as u64;
        if distance > limit {
            return Piece::Faulty(LexKind::IntRange, 0);
        }
    }
    Piece::Int(with_sign(is_negative, distance))
}

/// The length of the digits at the front of the bytes.
fn power_digits(bytes: &[u8]) -> Option<usize>
    ensures { MatchOption result (Stuck power_digits bytes.now) (λ n. Longest power_digits bytes.now n real) }
{
    let n = digits_length(bytes);
    if n == 0 { None } else { Some(n) }
}

/// The length of the digits of an exponent, with their sign.
fn power_length(bytes: &[u8]) -> Option<usize>
    ensures { MatchOption result (Stuck power bytes.now) (λ n. Longest power bytes.now n real) }
{
    let (sign, more) = bytes.split_first()?;
    if is_minus_byte(*sign) {
        let n = power_digits(more)?;
        return Some(n + 1);
    }
    power_digits(bytes)
}

/// The length of the exponent at the front of the bytes.
fn exponent_length(bytes: &[u8]) -> Option<usize>
    ensures { MatchOption result (Stuck exponent bytes.now) (λ n. Longest exponent bytes.now n real) }
{
    let (e, more) = bytes.split_first()?;
    if !is_exponent_byte(*e) {
        return None;
    }
    let n = power_length(more)?;
    Some(n + 1)
}

/// The length of the digits after a point, with an exponent if there is one.
fn fraction_length(bytes: &[u8]) -> Option<usize>
    ensures { MatchOption result (Stuck fraction bytes.now) (λ n. Longest fraction bytes.now n real) }
{
    let digits = digits_length(bytes);
    if digits == 0 {
        return None;
    }
    let (_, rest) = bytes.split_at(digits);
    match exponent_length(rest) {
        Some(n) => Some(digits + n),
        None => Some(digits),
    }
}

/// The length of what makes the integer before the bytes a real.
fn real_length(bytes: &[u8]) -> Option<usize>
    ensures { MatchOption result (Stuck real_end bytes.now) (λ n. Longest real_end bytes.now n real) }
{
    let (point, more) = bytes.split_first()?;
    if *point == b'.' {
        let n = fraction_length(more)?;
        return Some(n + 1);
    }
    exponent_length(bytes)
}

/// The number at the front of the bytes, after its sign.
pub fn number_at(is_negative: bool, bytes: &[u8]) -> Option<(usize, Piece)>
    ensures { MatchOption result (Stuck (number is_negative) bytes.now) (λ r. Longest (number is_negative) bytes.now r.0 r.1) }
{
    let whole = digits_length(bytes);
    if whole == 0 {
        return None;
    }
    let (digits, rest) = bytes.split_at(whole);
    match real_length(rest) {
        Some(more) => Some((whole + more, Piece::Faulty(LexKind::Real, 0))),
        None => Some((whole, int(is_negative, digits))),
    }
}
