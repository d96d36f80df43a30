//! Chars and texts.

ghost use Rattle.rml_lex.specs.Character.{HasDigits, read_of};
ghost use Rattle.rml_lex.specs.Literal.{CharWithin, TextWithin, char_inside, char_step, closed_char, closed_text, stopped, text_inside, text_step};
ghost use Rattle.rml_lex.specs.Machine.{Longest};
ghost use Rattle.std.specs.Prelude.{◌≡◌, ◌+◌, ◌<◌, ◌^◌, length};

use crate::character::{Inside, Read, step_character};
use crate::machine::Move;
use crate::piece::{LexKind, Piece};
use rml_base::limits::LITERAL;

/// Inside a text.
#[derive(Clone, Copy)]
pub struct InText {
    /// Where the character begins that is being read, counted from the opening quote.
    pub at: usize,
    /// The characters before it.
    pub count: usize,
    pub inside: Inside,
}

/// Inside a char.
#[derive(Clone, Copy)]
pub struct InChar {
    /// Where the character begins that is being read, counted from the `#`.
    pub at: usize,
    /// The character before it.
    pub first: Option<u8>,
    pub inside: Inside,
}

/// What a literal is that ends inside, where the offset is that of the character being read.
fn stopped_at(inside: Inside, at: usize) -> Piece
    ensures { result ≡ stopped inside at }
{
    match inside {
        Inside::Between => Piece::Faulty(LexKind::OpenString, 0),
        Inside::Escape | Inside::OneDigit(_) | Inside::TwoDigits(_) => Piece::Faulty(
            LexKind::BadEscape,
            at,
        ),
    }
}

fn close_text(count: usize) -> Piece
    ensures { result ≡ closed_text count }
{
    if count <= LITERAL {
        Piece::Text
    } else {
        Piece::Faulty(LexKind::LongString, 0)
    }
}

fn step_text(state: InText, b: u8) -> Move<InText>
    requires place { state.at + read_of state.inside < 2 ^ 63 }
    requires count { state.count < 2 ^ 63 }
    requires digits { HasDigits state.inside }
    ensures step { result ≡ text_step state b }
    ensures within { TextWithin state result }
{
    match step_character(state.inside, b) {
        Read::Part(inside) => Move::On(InText {
            at: state.at,
            count: state.count,
            inside,
        }),
        Read::Whole(_) => Move::On(InText {
            at: state.at + state.inside.read() + 1,
            count: state.count + 1,
            inside: Inside::Between,
        }),
        Read::Quote => Move::Done(close_text(state.count)),
        Read::Stray => Move::Done(Piece::Faulty(LexKind::BadByte, state.at)),
        Read::Cut => Move::Dead,
    }
}

/// The text whose opening `"` stands before the bytes, with the length of what follows it.
pub fn text_end(bytes: &[u8]) -> (usize, Piece)
    requires { length bytes.now < 2 ^ 32 }
    ensures { Longest text_inside bytes.now result.0 result.1 }
{
    let mut state = InText {
        at: 1,
        count: 0,
        inside: Inside::Between,
    };
    for (i, b) in bytes.iter().enumerate() {
        match step_text(state, *b) {
            Move::On(next) => state = next,
            Move::Done(piece) => return (i + 1, piece),
            Move::Dead => return (i, stopped_at(state.inside, state.at)),
        }
    }
    (bytes.len(), stopped_at(state.inside, state.at))
}

fn close_char(first: Option<u8>) -> Piece
    ensures { result ≡ closed_char first }
{
    match first {
        Some(value) => Piece::Char(value),
        None => Piece::Faulty(LexKind::BadEscape, 0),
    }
}

fn step_char(state: InChar, b: u8) -> Move<InChar>
    requires place { state.at + read_of state.inside < 2 ^ 63 }
    requires digits { HasDigits state.inside }
    ensures step { result ≡ char_step state b }
    ensures within { CharWithin state result }
{
    match step_character(state.inside, b) {
        Read::Part(inside) => Move::On(InChar {
            at: state.at,
            first: state.first,
            inside,
        }),
        Read::Whole(value) => match state.first {
            None => Move::On(InChar {
                at: state.at + state.inside.read() + 1,
                first: Some(value),
                inside: Inside::Between,
            }),
            Some(_) => Move::Done(Piece::Faulty(LexKind::BadEscape, 0)),
        },
        Read::Quote => Move::Done(close_char(state.first)),
        Read::Stray => Move::Done(Piece::Faulty(LexKind::BadByte, state.at)),
        Read::Cut => Move::Dead,
    }
}

/// The char whose opening `#"` stands before the bytes, with the length of what follows it.
pub fn char_end(bytes: &[u8]) -> (usize, Piece)
    requires { length bytes.now < 2 ^ 32 }
    ensures { Longest char_inside bytes.now result.0 result.1 }
{
    let mut state = InChar {
        at: 2,
        first: None,
        inside: Inside::Between,
    };
    for (i, b) in bytes.iter().enumerate() {
        match step_char(state, *b) {
            Move::On(next) => state = next,
            Move::Done(piece) => return (i + 1, piece),
            Move::Dead => return (i, stopped_at(state.inside, state.at)),
        }
    }
    (bytes.len(), stopped_at(state.inside, state.at))
}
