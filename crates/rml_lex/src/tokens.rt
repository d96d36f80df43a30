//! The tokens of a text, with their places.

ghost use Rattle.rml_base.specs.Answers.{Explains, Gives, Refuses};
ghost use Rattle.rml_base.specs.Numbering.{GrowsBy};
ghost use Rattle.rml_base.specs.declared.limits.TheConstants.{BYTES};
ghost use Rattle.rml_base.specs.declared.place.Place.{Place};
ghost use Rattle.rml_lex.specs.Reading.{AllGiven, FirstFault, IsFault, IsTokenOf, Shown, Spelled, shown, tokens_of};
ghost use Rattle.rml_lex.specs.Numbered.{IsNumbered, bytes_in, names_in, with_names};
ghost use Rattle.rml_lex.specs.declared.piece.LexKind.{LexKind};
ghost use Rattle.rml_lex.specs.declared.tokens.LexErr.TheVariants as error;
ghost use Rattle.std.specs.Prelude.{◌≡◌, ℕ, ◌<◌, ◌≤◌, ◌^◌, ◌-◌, List, length, IfOk, OnOk};
ghost use Rattle.std.specs.List.{flat_map};

use crate::character::unescape;
use crate::next::next_piece;
use crate::piece::{LexKind, Piece};
use crate::places::{further, start_place};
use rml_base::{Memory, Names, Place};
use rml_syntax::{Lit, Spot, Token};
use std::alloc::{AllocFailed, Global};

/// Why `lex` gives no tokens.
#[derive(Clone, Copy, Debug, PartialEq, Eq)]
pub enum LexErr {
    /// The first fault, and where it stands.
    At(Place, LexKind),
    Memory,
}

impl From<Memory> for LexErr {
    ghost from_gives = { λ _ e. e ≡ error.Memory };

    fn from(_: Memory) -> LexErr {
        LexErr::Memory
    }
}

impl<T: Drop> From<AllocFailed<T>> for LexErr {
    ghost from_gives = { λ _ e. e ≡ error.Memory };

    fn from(_: AllocFailed<T>) -> LexErr {
        LexErr::Memory
    }
}

/// The token of a piece with this spelling, if it is one.
fn token_of(
    alloc: Global,
    piece: Piece,
    spelling: &[u8],
    names: &mut Names,
) -> Result<Option<Token>, Memory>
    requires room { length names.old < 2 ^ 32 - 1 }
    requires size { length spelling.now < 2 ^ 32 }
    requires some { 0 < length spelling.now }
    ensures token { IfOk result (λ t. IsTokenOf names.new (spelling.now, piece) t) }
    ensures names { GrowsBy 1 names.old names.new }
    ensures numbers { OnOk result (names.new ≡ with_names names.old (flat_map bytes_in (tokens_of (spelling.now, piece)))) }
{
    Ok(match piece {
        Piece::Blank | Piece::Comment | Piece::Faulty(_, _) => None,
        Piece::Word(key) => Some(Token::Word(key)),
        Piece::Name => Some(Token::Name(names.intern(spelling)?)),
        Piece::TyVar => Some(Token::TyVar(names.intern(spelling)?)),
        Piece::Int(value) => Some(Token::Lit(Lit::Int(value))),
        Piece::Char(value) => Some(Token::Lit(Lit::Char(value))),
        Piece::Text => {
            let (_, inside) = spelling.split_at(1);
            let bytes = unescape(alloc, inside)?;
            Some(Token::Lit(Lit::Text(names.intern(&bytes)?)))
        }
        Piece::Dashes => Some(Token::Dashes(spelling.len() as u32)),
        Piece::Sign(mark) => Some(Token::Sign(mark)),
    })
}

/// The tokens of a text with their places, or the first fault. What the tokens name is numbered in the order of the tokens:
/// with its old number where `names` knows it, and otherwise with the next one. After a fault `names` may have grown too, by
/// at most as many names as there are bytes.
pub fn lex(alloc: Global, text: u32, bytes: &[u8], names: &mut Names) -> Result<Vec<Spot>, LexErr>
    requires size { length bytes.now ≤ BYTES }
    requires room { length names.old ≤ 2 ^ 31 }
    ensures answer { Explains error.Memory result (λ v. Spelled text bytes.now (shown names.new v.items)) (IsFault text bytes.now) }
    ensures few { IfOk result (λ v. length v.items ≤ length bytes.now) }
    ensures given { IfOk result (λ v. AllGiven (length names.new) v.items) }
    ensures names { GrowsBy (length bytes.now) names.old names.new }
    // What is spelled is given, and a first fault is named: but for want of memory, no other answer comes.
    ensures spelled { (spots : List (Place × Shown)) → Spelled text bytes.now spots → Gives error.Memory result (λ v. shown names.new v.items ≡ spots) }
    // The numbers of the tokens follow from the text and the old names.
    ensures numbered { (spots : List (Place × Shown)) → Spelled text bytes.now spots → IfOk result (λ v. IsNumbered names.old spots v.items names.new) }
    ensures first { (place : Place) (kind : LexKind) → FirstFault text bytes.now place kind → Refuses error.Memory result (λ e. e ≡ error.At place kind) }
{
    let answer = read(alloc, text, bytes, names);
    names.are_distinct();
    answer
}

/// The same, piece by piece.
fn read(alloc: Global, text: u32, bytes: &[u8], names: &mut Names) -> Result<Vec<Spot>, LexErr>
    requires size { length bytes.now ≤ BYTES }
    requires room { length names.old ≤ 2 ^ 31 }
    ensures answer { Explains error.Memory result (λ v. Spelled text bytes.now (shown names.new v.items)) (IsFault text bytes.now) }
    ensures given { IfOk result (λ v. AllGiven (length names.new) v.items) }
    ensures names { GrowsBy (length bytes.now) names.old names.new }
    ensures numbers { IfOk result (λ v. names.new ≡ with_names names.old (names_in (shown names.new v.items))) }
{
    let mut spots = Vec::new(alloc);
    let mut place = start_place(text);
    let mut rest = bytes;
    while !rest.is_empty() {
        let Some((length, piece)) = next_piece(rest) else {
            return Err(LexErr::At(place, LexKind::BadByte));
        };
        let (front, more) = rest.split_at(length);
        if let Piece::Faulty(kind, offset) = piece {
            return Err(LexErr::At(further(place, &front[..offset.min(front.len())]), kind));
        }
        if let Some(token) = token_of(alloc, piece, front, names)? {
            spots.push(Spot { token, place })?;
        }
        place = further(place, front);
        rest = more;
    }
    Ok(spots)
}
