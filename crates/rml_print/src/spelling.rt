//! How one token is spelled: words and signs, integers in decimal, chars and texts with their escapes.

ghost use Rattle.rml_lex.specs.Words.{sign_spelling};
ghost use Rattle.rml_print.specs.Spelling.{escaped, literal_spelling, name_bytes, quoted, spelling};
ghost use Rattle.std.specs.Fmt.{signed_decimal};
ghost use Rattle.std.specs.List.{flat_map};
ghost use Rattle.std.specs.Prelude.{◌≡◌, ◌++◌, OnOk, replicate};

use itoa::Buffer;
use rml_base::{Memory, Names};
use rml_lex::word_spelling;
use rml_syntax::{Lit, Mark, Token};

fn sign_spelling(sign: Mark) -> &'static [u8]
    ensures { result.now ≡ sign_spelling sign }
{
    match sign {
        Mark::OpenRound => b"(",
        Mark::CloseRound => b")",
        Mark::OpenSquare => b"[",
        Mark::CloseSquare => b"]",
        Mark::Comma => b",",
        Mark::Colon => b":",
        Mark::TwoColons => b"::",
        Mark::Arrow => b"=>",
        Mark::Equals => b"=",
        Mark::Amp => b"&",
        Mark::Bar => b"|",
        Mark::Star => b"*",
        Mark::Dot => b".",
        Mark::Wild => b"_",
    }
}

/// The bytes of a name, and none where the number was never given.
fn name_bytes(names: &Names, name: u32) -> &[u8]
    ensures { result.now ≡ name_bytes names.now name }
{
    if name < names.len() {
        names.bytes(name)
    } else {
        &[]
    }
}

fn write_escaped(out: &mut Vec<u8>, byte: u8) -> Result<(), Memory>
    ensures { OnOk result (out.new.items ≡ out.old.items ++ escaped byte) }
{
    match byte {
        b'\n' => out.extend_from_slice(b"\\n")?,
        b'\t' => out.extend_from_slice(b"\\t")?,
        b'\r' => out.extend_from_slice(b"\\r")?,
        b'\\' => out.extend_from_slice(b"\\\\")?,
        b'"' => out.extend_from_slice(b"\\\"")?,
        32..=126 => out.push(byte)?,
        _ => out.extend_from_slice(&[
            b'\\',
            b'0' + byte / 100,
            b'0' + byte / 10 % 10,
            b'0' + byte % 10,
        ])?,
    }
    Ok(())
}

fn write_quoted(out: &mut Vec<u8>, bytes: &[u8]) -> Result<(), Memory>
    ensures { OnOk result (out.new.items ≡ out.old.items ++ quoted bytes.now) }
{
    out.push(b'"')?;
    for byte in bytes {
        write_escaped(out, *byte)?;
    }
    out.push(b'"')?;
    Ok(())
}

fn write_literal(out: &mut Vec<u8>, names: &Names, literal: Lit) -> Result<(), Memory>
    ensures { OnOk result (out.new.items ≡ out.old.items ++ literal_spelling names.now literal) }
{
    match literal {
        Lit::Int(value) => {
            let mut digits = Buffer::new();
            out.extend_from_slice(digits.format(value).as_bytes())?;
            Ok(())
        }
        Lit::Char(byte) => {
            out.push(b'#')?;
            write_quoted(out, &[byte])
        }
        Lit::Text(name) => write_quoted(out, name_bytes(names, name)),
    }
}

/// Writes one byte so many times.
pub fn write_repeated(out: &mut Vec<u8>, count: u32, byte: u8) -> Result<(), Memory>
    ensures { OnOk result (out.new.items ≡ out.old.items ++ replicate count byte) }
{
    for _done in 0..count {
        out.push(byte)?;
    }
    Ok(())
}

/// Writes the spelling of a token behind what is there.
pub fn write_token(out: &mut Vec<u8>, names: &Names, token: Token) -> Result<(), Memory>
    ensures { OnOk result (out.new.items ≡ out.old.items ++ spelling names.now token) }
{
    match token {
        Token::Word(key) => out.extend_from_slice(word_spelling(key))?,
        Token::Name(name) | Token::TyVar(name) => out.extend_from_slice(name_bytes(names, name))?,
        Token::Lit(literal) => write_literal(out, names, literal)?,
        Token::Sign(sign) => out.extend_from_slice(sign_spelling(sign))?,
        Token::Dashes(count) => write_repeated(out, count, b'-')?,
    }
    Ok(())
}
