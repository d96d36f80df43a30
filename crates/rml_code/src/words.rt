//! Words of the text: numbers, registers, and what one word or two say.

ghost use Rattle.std.specs.Prelude.{◌≡◌, ◌<◌, ◌++◌, OnOk, codes, slice_get};
ghost use Rattle.std.specs.Fmt.{decimal, signed_decimal};
ghost use Rattle.rml_builtin.specs.declared.row.TheConstants.{ROWS};
ghost use Rattle.rml_code.specs.Text.{numbered, register_text, registers_text, word_text, tag_text, else_text, row_name as name_of_row, halt_text};

use crate::instructions::{Else, Halt, Tag, Word};
use rml_base::Memory;
use rml_builtin::{ROWS, builtin};
use std::alloc::Global;

pub fn write_number(alloc: Global, out: &mut Vec<u8>, n: u64) -> Result<(), Memory>
    ensures { OnOk result (out.new.items ≡ out.old.items ++ decimal n) }
{
    let digits = n.to_string(alloc)?;
    out.extend_from_slice(digits.as_bytes())?;
    Ok(())
}

/// A number behind its word.
pub fn write_numbered(alloc: Global, out: &mut Vec<u8>, name: &[u8], n: u64) -> Result<(), Memory>
    ensures { OnOk result (out.new.items ≡ out.old.items ++ numbered name.now n) }
{
    out.extend_from_slice(name)?;
    out.push(b' ')?;
    write_number(alloc, out, n)
}

fn write_int(alloc: Global, out: &mut Vec<u8>, i: i64) -> Result<(), Memory>
    ensures { OnOk result (out.new.items ≡ out.old.items ++ (codes "int " ++ signed_decimal i)) }
{
    out.extend_from_slice(b"int ")?;
    let digits = i.to_string(alloc)?;
    out.extend_from_slice(digits.as_bytes())?;
    Ok(())
}

pub fn write_register(alloc: Global, out: &mut Vec<u8>, r: u64) -> Result<(), Memory>
    ensures { OnOk result (out.new.items ≡ out.old.items ++ register_text r) }
{
    out.extend_from_slice(b" r")?;
    write_number(alloc, out, r)
}

pub fn write_registers(alloc: Global, out: &mut Vec<u8>, rs: &[u64]) -> Result<(), Memory>
    ensures { OnOk result (out.new.items ≡ out.old.items ++ registers_text rs.now) }
{
    for r in rs {
        write_register(alloc, out, *r)?;
    }
    Ok(())
}

pub fn write_word(alloc: Global, out: &mut Vec<u8>, word: Word) -> Result<(), Memory>
    ensures { OnOk result (out.new.items ≡ out.old.items ++ word_text word) }
{
    match word {
        Word::Int(i) => write_int(alloc, out, i),
        Word::Char(c) => write_numbered(alloc, out, b"char", u64::from(c)),
        Word::Rel(b) => write_numbered(alloc, out, b"rel", b),
        Word::Con(c) => write_numbered(alloc, out, b"con", u64::from(c)),
    }
}

pub fn write_tag(alloc: Global, out: &mut Vec<u8>, tag: Tag) -> Result<(), Memory>
    ensures { OnOk result (out.new.items ≡ out.old.items ++ tag_text tag) }
{
    match tag {
        Tag::Int(i) => write_int(alloc, out, i),
        Tag::Char(c) => write_numbered(alloc, out, b"char", u64::from(c)),
        Tag::Con(c) => write_numbered(alloc, out, b"con", u64::from(c)),
        Tag::Text(i) => write_numbered(alloc, out, b"constant", i),
    }
}

pub fn write_else(alloc: Global, out: &mut Vec<u8>, otherwise: Else) -> Result<(), Memory>
    ensures { OnOk result (out.new.items ≡ out.old.items ++ else_text otherwise) }
{
    match otherwise {
        Else::Fail => {
            out.extend_from_slice(b"else fail")?;
            Ok(())
        }
        Else::Block(b) => write_numbered(alloc, out, b"else", b),
    }
}

/// The name of a built-in, or nothing for a number that the table has not.
pub fn row_name(number: u16) -> &'static [u8]
    ensures { result.now ≡ name_of_row (slice_get ROWS number) }
{
    if usize::from(number) < ROWS.len() {
        builtin(number).name.as_bytes()
    } else {
        b""
    }
}

pub fn write_halt(out: &mut Vec<u8>, halt: Halt) -> Result<(), Memory>
    ensures { OnOk result (out.new.items ≡ out.old.items ++ halt_text halt) }
{
    match halt {
        Halt::Yes => out.extend_from_slice(b"yes")?,
        Halt::Integer => out.extend_from_slice(b"yes r0")?,
        Halt::No => out.extend_from_slice(b"no")?,
    }
    Ok(())
}
