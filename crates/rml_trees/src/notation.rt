//! Texts as words between blanks, and the tokens of words.

use rml_base::{Place, limits};
use rml_parse::{ParseErr, ParseKind, parse};
use rml_syntax::{Key, Lit, Mark, Spot, Text, Token};
use std::alloc::{AllocError, Global};

/// The reserved words and the signs, and how they are written.
const FIXED: [(&str, Token); 33] = [
    ("module", Token::Word(Key::KModule)),
    ("with", Token::Word(Key::KWith)),
    ("end", Token::Word(Key::KEnd)),
    ("datatype", Token::Word(Key::KDatatype)),
    ("and", Token::Word(Key::KAnd)),
    ("of", Token::Word(Key::KOf)),
    ("type", Token::Word(Key::KType)),
    ("abstype", Token::Word(Key::KAbstype)),
    ("val", Token::Word(Key::KVal)),
    ("relation", Token::Word(Key::KRelation)),
    ("rule", Token::Word(Key::KRule)),
    ("axiom", Token::Word(Key::KAxiom)),
    ("let", Token::Word(Key::KLet)),
    ("not", Token::Word(Key::KNot)),
    ("as", Token::Word(Key::KAs)),
    ("default", Token::Word(Key::KDefault)),
    ("eqtype", Token::Word(Key::KEqtype)),
    ("withtype", Token::Word(Key::KWithtype)),
    ("(", Token::Sign(Mark::OpenRound)),
    (")", Token::Sign(Mark::CloseRound)),
    ("[", Token::Sign(Mark::OpenSquare)),
    ("]", Token::Sign(Mark::CloseSquare)),
    (",", Token::Sign(Mark::Comma)),
    (":", Token::Sign(Mark::Colon)),
    ("::", Token::Sign(Mark::TwoColons)),
    ("=>", Token::Sign(Mark::Arrow)),
    ("=", Token::Sign(Mark::Equals)),
    ("&", Token::Sign(Mark::Amp)),
    ("|", Token::Sign(Mark::Bar)),
    ("*", Token::Sign(Mark::Star)),
    (".", Token::Sign(Mark::Dot)),
    ("_", Token::Sign(Mark::Wild)),
    ("--", Token::Dashes(2)),
];

/// The token of a word.
fn token(word: &[u8]) -> Token {
    for (fixed, token) in FIXED {
        if fixed.as_bytes() == word {
            return token;
        }
    }
    spelled(word)
}

/// A name and a type variable have the number of their last byte, a text literal that of its second, and a digit its own.
fn spelled(word: &[u8]) -> Token {
    let last = word.last().copied().unwrap_or(0);
    match word.first() {
        Some(b'\'') => Token::TyVar(last as u32),
        Some(b'"') => Token::Lit(Lit::Text(last as u32)),
        Some(b'0'..=b'9') => Token::Lit(Lit::Int(last as i64)),
        _ => Token::Name(last as u32),
    }
}

/// The tokens of words between blanks. Each stands in line 1, at the column of its number.
pub fn spots(alloc: Global, text: &str) -> Result<Vec<Spot>, AllocError> {
    let mut spots = Vec::new(alloc);
    let mut column = 1;
    for word in text.as_bytes().split(|byte| *byte == b' ') {
        let place = Place {
            text: 0,
            line: 1,
            column,
        };
        let token = token(word);
        spots.push(Spot { token, place })?;
        column = u32::wrapping_add(column, 1);
    }
    Ok(spots)
}

/// Where a text ends.
pub const END: Place = Place {
    text: 0,
    line: 9,
    column: 9,
};

/// The tree of spots that are no more than `parse` takes.
pub fn tree(alloc: Global, spots: &[Spot]) -> Result<Text, ParseErr> {
    if spots.len() > limits::BYTES {
        return Err(ParseErr::Memory);
    }
    parse(alloc, spots, END)
}

/// What is wrong, and the number of the token where it is; 0 at the end.
pub fn fault(alloc: Global, text: &str) -> Result<Option<(ParseKind, u32)>, AllocError> {
    let spots = spots(alloc, text)?;
    match tree(alloc, spots.as_slice()) {
        Err(ParseErr::At(place, kind)) => Ok(Some((kind, number_at(place)))),
        _ => Ok(None),
    }
}

fn number_at(place: Place) -> u32 {
    if place == END { 0 } else { place.column }
}
