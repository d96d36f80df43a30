//! The longest piece at the front of the bytes.

ghost use Rattle.rml_lex.specs.Machine.{Longest, Stuck};
ghost use Rattle.rml_lex.specs.Spelling.{after_first, class_of, colon, dash, equals, hash, name_piece, prime, round, whole};
ghost use Rattle.rml_lex.specs.Spells.{BeginsNothing, IsLongest, Spells};
ghost use Rattle.rml_lex.specs.declared.piece.Piece.{Piece};
ghost use Rattle.std.specs.Prelude.{◌≡◌, ℕ, ◌<◌, ◌^◌, List, ◌∷◌, Some, length, MatchOption};

use crate::bytes::{dashes_length, is_digit_byte, is_letter_byte, name_length};
use crate::comment::comment_end;
use crate::first::{Class, first_class, sign_of};
use crate::literal::{char_end, text_end};
use crate::number::number_at;
use crate::piece::Piece;
use crate::words::find_word;
use rml_syntax::Mark;

/// A name or a word.
fn name(spelling: &[u8]) -> Piece
    ensures { result ≡ name_piece spelling.now }
{
    match find_word(spelling) {
        Some(key) => Piece::Word(key),
        None => Piece::Name,
    }
}

/// What follows a `-`: more of them, or an integer.
fn after_dash(bytes: &[u8]) -> Option<(usize, Piece)>
    ensures { MatchOption result (Stuck dash bytes.now) (λ r. Longest dash bytes.now r.0 r.1) }
{
    let (first, more) = bytes.split_first()?;
    if *first == b'-' {
        return Some((dashes_length(more) + 1, Piece::Dashes));
    }
    number_at(true, bytes)
}

/// What follows a `'`: a name.
fn after_prime(bytes: &[u8]) -> Option<(usize, Piece)>
    ensures { MatchOption result (Stuck prime bytes.now) (λ r. Longest prime bytes.now r.0 r.1) }
{
    let (first, more) = bytes.split_first()?;
    if is_letter_byte(*first) {
        return Some((name_length(more) + 1, Piece::TyVar));
    }
    None
}

/// What follows a `#`: a quote and a character.
fn after_hash(bytes: &[u8]) -> Option<(usize, Piece)>
    requires { length bytes.now < 2 ^ 32 }
    ensures { MatchOption result (Stuck hash bytes.now) (λ r. Longest hash bytes.now r.0 r.1) }
{
    match bytes {
        [b'"', more @ ..] => {
            let (n, piece) = char_end(more);
            Some((n + 1, piece))
        }
        _ => None,
    }
}

fn after_round(bytes: &[u8]) -> (usize, Piece)
    requires { length bytes.now < 2 ^ 32 }
    ensures { Longest round bytes.now result.0 result.1 }
{
    match bytes {
        [b'*', more @ ..] => {
            let (n, piece) = comment_end(more);
            (n + 1, piece)
        }
        _ => (0, Piece::Sign(Mark::OpenRound)),
    }
}

fn after_colon(bytes: &[u8]) -> (usize, Piece)
    ensures { Longest colon bytes.now result.0 result.1 }
{
    match bytes {
        [b':', ..] => (1, Piece::Sign(Mark::TwoColons)),
        _ => (0, Piece::Sign(Mark::Colon)),
    }
}

fn after_equals(bytes: &[u8]) -> (usize, Piece)
    ensures { Longest equals bytes.now result.0 result.1 }
{
    match bytes {
        [b'>', ..] => (1, Piece::Sign(Mark::Arrow)),
        _ => (0, Piece::Sign(Mark::Equals)),
    }
}

/// The longest piece that stands at the front of the bytes, with its length. None where no piece begins there.
pub fn next_piece(bytes: &[u8]) -> Option<(usize, Piece)>
    requires { length bytes.now < 2 ^ 32 }
    ensures { MatchOption result (BeginsNothing bytes.now) (λ r. IsLongest bytes.now r.0 r.1) }
{
    longest_exact();
    longest(bytes)
}

/// `whole` computes of some bytes what piece they are, if they are one. So the longest front of which it computes any is
/// the longest piece.
fn longest_exact()
    ensures spelled { (s : List ℕ) (p : Piece) → whole s ≡ Some p → Spells s p }
    ensures whole { (s : List ℕ) (p : Piece) → Spells s p → whole s ≡ Some p }
    ensures longest { (bytes : List ℕ) (n : ℕ) (p : Piece) → Longest whole bytes n p → IsLongest bytes n p }
    ensures stuck { (bytes : List ℕ) → Stuck whole bytes → BeginsNothing bytes }
{}

/// The same, as `whole` computes it.
fn longest(bytes: &[u8]) -> Option<(usize, Piece)>
    requires { length bytes.now < 2 ^ 32 }
    ensures { MatchOption result (Stuck whole bytes.now) (λ r. Longest whole bytes.now r.0 r.1) }
{
    let (first, more) = bytes.split_first()?;
    if is_digit_byte(*first) {
        return number_at(false, bytes);
    }
    match after(*first, more, bytes) {
        Some((n, piece)) => Some((n + 1, piece)),
        None => None,
    }
}

/// What the bytes after a first one make of it, with their length.
fn after(first: u8, more: &[u8], bytes: &[u8]) -> Option<(usize, Piece)>
    requires short { length bytes.now < 2 ^ 32 }
    requires parts { bytes.now ≡ first ∷ more.now }
    ensures { MatchOption result (Stuck (after_first (class_of first) first) more.now) (λ r. Longest (after_first (class_of first) first) more.now r.0 r.1) }
{
    match first_class(first) {
        Class::Blank => Some((0, Piece::Blank)),
        Class::Letter => {
            let n = name_length(more);
            Some((n, name(&bytes[..n + 1])))
        }
        Class::Dash => after_dash(more),
        Class::Tilde => number_at(true, more),
        Class::Quote => Some(text_end(more)),
        Class::Hash => after_hash(more),
        Class::Prime => after_prime(more),
        Class::Round => Some(after_round(more)),
        Class::Colon => Some(after_colon(more)),
        Class::Equals => Some(after_equals(more)),
        Class::Other => match sign_of(first) {
            Some(mark) => Some((0, Piece::Sign(mark))),
            None => None,
        },
    }
}
