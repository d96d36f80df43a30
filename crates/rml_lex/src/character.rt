//! The characters of chars and texts, and the bytes that they stand for.

ghost use Rattle.rml_lex.specs.Character.{HasDigits, LeadsOn, character_step, escape_value, read_of, values_from};
ghost use Rattle.rml_lex.specs.declared.character.Inside.TheVariants.{Between};
ghost use Rattle.rml_lex.specs.declared.character.Read.TheVariants.{Cut, Whole};
ghost use Rattle.std.specs.Prelude.{◌≡◌, ◌+◌, ◌*◌, ◌≤◌, IfOk, if◌then◌else◌, nat_le};

use crate::bytes::is_digit_byte;
use rml_base::Memory;
use std::alloc::Global;

/// How far a character has been read.
#[derive(Clone, Copy)]
pub enum Inside {
    /// No byte of it.
    Between,
    /// A `\`.
    Escape,
    /// A `\` and a digit.
    OneDigit(u8),
    /// A `\` and two digits, with their number.
    TwoDigits(u8),
}

/// What a byte means inside a literal.
#[derive(Clone, Copy)]
pub enum Read {
    /// The character goes on.
    Part(Inside),
    /// It ends, and stands for this byte.
    Whole(u8),
    /// The closing quote.
    Quote,
    /// A byte that stands in no literal.
    Stray,
    /// The literal is cut before the byte: by a line end, or within an escape.
    Cut,
}

impl Inside {
    /// How many bytes of the character have been read.
    pub fn read(self) -> usize
        ensures value { result ≡ read_of self }
        ensures few { result ≤ 3 }
    {
        match self {
            Inside::Between => 0,
            Inside::Escape => 1,
            Inside::OneDigit(_) => 2,
            Inside::TwoDigits(_) => 3,
        }
    }
}

fn escaped(letter: u8) -> Option<u8>
    ensures { result ≡ escape_value letter }
{
    match letter {
        b'n' => Some(b'\n'),
        b't' => Some(b'\t'),
        b'r' => Some(b'\r'),
        b'\\' | b'"' => Some(letter),
        _ => None,
    }
}

/// What a third digit makes of the number of the first two.
fn third_digit(first: u8, digit: u8) -> Read
    requires two { first ≤ 99 }
    requires third { digit ≤ 9 }
    ensures { result ≡ (if nat_le (10 * first + digit) 255 then Whole (10 * first + digit) else Cut) }
{
    match u8::try_from(10 * u32::from(first) + u32::from(digit)) {
        Ok(byte) => Read::Whole(byte),
        Err(_) => Read::Cut,
    }
}

pub fn step_character(inside: Inside, b: u8) -> Read
    requires { HasDigits inside }
    ensures step { result ≡ character_step inside b }
    ensures on { LeadsOn inside result }
{
    match inside {
        Inside::Between => match b {
            b'"' => Read::Quote,
            b'\\' => Read::Part(Inside::Escape),
            32..=126 | 128.. => Read::Whole(b),
            b'\n' => Read::Cut,
            _ => Read::Stray,
        },
        Inside::Escape => match escaped(b) {
            Some(value) => Read::Whole(value),
            None if is_digit_byte(b) => Read::Part(Inside::OneDigit(b - b'0')),
            None => Read::Cut,
        },
        Inside::OneDigit(first) if is_digit_byte(b) => Read::Part(Inside::TwoDigits(
            10 * first + (b - b'0'),
        )),
        Inside::TwoDigits(first) if is_digit_byte(b) => third_digit(first, b - b'0'),
        _ => Read::Cut,
    }
}

/// The bytes that the characters stand for, up to the closing quote.
pub fn unescape(alloc: Global, characters: &[u8]) -> Result<Vec<u8>, Memory>
    ensures { IfOk result (λ v. v.items ≡ values_from Between characters.now) }
{
    let mut values = Vec::new(alloc);
    let mut inside = Inside::Between;
    for b in characters {
        match step_character(inside, *b) {
            Read::Part(next) => inside = next,
            Read::Whole(value) => {
                values.push(value)?;
                inside = Inside::Between;
            }
            Read::Quote | Read::Stray | Read::Cut => return Ok(values),
        }
    }
    Ok(values)
}
