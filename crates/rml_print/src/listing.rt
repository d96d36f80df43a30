//! Tokens one on a line.

ghost use Rattle.rml_print.specs.Listing.{kind_name, listing, spot_line};
ghost use Rattle.std.specs.Fmt.{decimal};
ghost use Rattle.std.specs.Prelude.{◌≡◌, ◌++◌, IfOk, OnOk};

use crate::spelling::write_token;
use itoa::Buffer;
use rml_base::{Memory, Names};
use rml_syntax::{Lit, Spot, Token};
use std::alloc::Global;

fn kind_name(token: Token) -> &'static [u8]
    ensures { result.now ≡ kind_name token }
{
    match token {
        Token::Word(_) => b"word",
        Token::Name(_) => b"name",
        Token::TyVar(_) => b"tyvar",
        Token::Lit(Lit::Int(_)) => b"int",
        Token::Lit(Lit::Char(_)) => b"char",
        Token::Lit(Lit::Text(_)) => b"text",
        Token::Sign(_) => b"sign",
        Token::Dashes(_) => b"dashes",
    }
}

fn write_number(out: &mut Vec<u8>, number: u32) -> Result<(), Memory>
    ensures { OnOk result (out.new.items ≡ out.old.items ++ decimal number) }
{
    let mut digits = Buffer::new();
    out.extend_from_slice(digits.format(number).as_bytes())?;
    Ok(())
}

fn write_spot(out: &mut Vec<u8>, names: &Names, spot: &Spot) -> Result<(), Memory>
    ensures { OnOk result (out.new.items ≡ out.old.items ++ spot_line names.now spot.now) }
{
    write_number(out, spot.place.line)?;
    out.push(b':')?;
    write_number(out, spot.place.column)?;
    out.push(b' ')?;
    out.extend_from_slice(kind_name(spot.token))?;
    out.push(b' ')?;
    write_token(out, names, spot.token)?;
    out.push(b'\n')?;
    Ok(())
}

/// The lines `LINE:COLUMN KIND SPELLING`, one for each token. Only the bytes that it answers take memory.
pub fn print_tokens(alloc: Global, spots: &[Spot], names: &Names) -> Result<Vec<u8>, Memory>
    ensures { IfOk result (λ v. v.items ≡ listing names.now spots.now) }
{
    let mut out = Vec::new(alloc);
    for spot in spots {
        write_spot(&mut out, names, spot)?;
    }
    Ok(out)
}
