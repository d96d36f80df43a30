//! What a text of the first form prints, from its bytes.

ghost use Rattle.std.specs.Prelude.{◌≡◌, ◌≤◌, ◌<◌, ◌^◌, ◌++◌, ℕ, List, length, flat_map, IfOk, OnOk, IfSome, IfNone};
ghost use Rattle.std.specs.List.{list_all};
ghost use Rattle.rml_base.specs.declared.limits.TheConstants.{BYTES};
ghost use Rattle.rml_lex.specs.Character.{unescaped};
ghost use Rattle.rml_top.specs.FirstForm.{spelled};
ghost use Rattle.rml_top.specs.Text.{HasTokens, IsText, is_blank, is_refused, is_simple};

use crate::first_form::literals_in;
use rml_base::Memory;
use rml_lex::{Piece, next_piece, unescape};
use std::alloc::Global;

/// Whether a text of the first form has no such piece.
fn is_refused(piece: Piece) -> bool
    ensures { result ≡ is_refused piece }
{
    matches!(piece, Piece::Comment | Piece::Faulty(_, _))
}

fn is_blank(piece: Piece) -> bool
    ensures { result ≡ is_blank piece }
{
    matches!(piece, Piece::Blank)
}

/// How the tokens are spelled, where no comment and no fault stands among them.
fn tokens<'a>(alloc: Global, bytes: &'a [u8]) -> Result<Option<Vec<&'a [u8]>>, Memory>
    requires { length bytes.now < 2 ^ 32 }
    ensures found { IfOk result (λ found. IfSome found (λ tokens. HasTokens bytes.now (spelled tokens.items))) }
    ensures only { IfOk result (λ found. IfNone found ((tokens : List (List ℕ)) → ¬ HasTokens bytes.now tokens)) }
{
    let mut tokens = Vec::new(alloc);
    let mut rest = bytes;
    while !rest.is_empty() {
        let Some((length, piece)) = next_piece(rest) else {
            return Ok(None);
        };
        let (front, more) = rest.split_at(length);
        if is_refused(piece) {
            return Ok(None);
        }
        if !is_blank(piece) {
            tokens.push(front)?;
        }
        rest = more;
    }
    Ok(Some(tokens))
}

/// Whether a literal has no other bytes than 32 to 126, and no other escapes than `\n`, `\\` and `\"`.
fn is_simple(literal: &[u8]) -> bool
    ensures { result ≡ is_simple literal.now }
{
    let mut escaped = false;
    for b in literal {
        let fits = if escaped {
            matches!(*b, b'n' | b'\\' | b'"')
        } else {
            matches!(*b, 32..=126)
        };
        if !fits {
            return false;
        }
        escaped = !escaped && *b == b'\\';
    }
    true
}

fn are_simple(literals: &[&[u8]]) -> bool
    ensures { result ≡ list_all (λ literal. is_simple literal.now) literals.now }
{
    literals.iter().all(|literal| is_simple(literal))
}

/// Adds what a literal stands for.
fn add_value(alloc: Global, text: &mut Vec<u8>, literal: &[u8]) -> Result<(), Memory>
    ensures { OnOk result (text.new.items ≡ text.old.items ++ unescaped literal.now) }
{
    if let Some((_, characters)) = literal.split_first() {
        let value = unescape(alloc, characters)?;
        text.extend_from_slice(value.as_slice())?;
    }
    Ok(())
}

/// What the literals stand for, one after the other.
fn joined(alloc: Global, literals: &[&[u8]]) -> Result<Vec<u8>, Memory>
    ensures { IfOk result (λ text. text.items ≡ flat_map unescaped (spelled literals.now)) }
{
    let mut text = Vec::new(alloc);
    for literal in literals {
        add_value(alloc, &mut text, literal)?;
    }
    Ok(text)
}

/// What the text prints, where it is of the first form.
pub fn printed(alloc: Global, bytes: &[u8]) -> Result<Option<Vec<u8>>, Memory>
    requires { length bytes.now ≤ BYTES }
    ensures found { IfOk result (λ found. IfSome found (λ text. IsText bytes.now text.items)) }
    ensures only { IfOk result (λ found. IfNone found ((text : List ℕ) → ¬ IsText bytes.now text)) }
{
    let Some(tokens) = tokens(alloc, bytes)? else {
        return Ok(None);
    };
    let Some(literals) = literals_in(alloc, tokens.as_slice())? else {
        return Ok(None);
    };
    if are_simple(literals.as_slice()) {
        Ok(Some(joined(alloc, literals.as_slice())?))
    } else {
        Ok(None)
    }
}
