//! The text of code.

ghost use Rattle.std.specs.Prelude.{◌≡◌, ◌∷◌, ◌++◌, IfOk, OnOk};
ghost use Rattle.std.specs.List.{flat_map};
ghost use Rattle.rml_code.specs.Text.{numbered, line, instr_lines, part_text, parts_text, constant_text, lines_from, constant_line, block_lines, text_of};

use crate::code::Code;
use crate::constants::{Constant, Part};
use crate::instructions::Instr;
use crate::lines::write_instr;
use crate::listing::Listing;
use crate::words::{write_numbered, write_word};
use rml_base::Memory;
use rml_escapes::write_quoted;
use std::alloc::Global;

/// A line of a word and a number.
fn write_count(alloc: Global, out: &mut Vec<u8>, name: &[u8], n: u64) -> Result<(), Memory>
    ensures { OnOk result (out.new.items ≡ out.old.items ++ line (numbered name.now n)) }
{
    write_numbered(alloc, out, name, n)?;
    out.push(b'\n')?;
    Ok(())
}

fn write_part(alloc: Global, out: &mut Vec<u8>, part: Part) -> Result<(), Memory>
    ensures { OnOk result (out.new.items ≡ out.old.items ++ (32 ∷ part_text part)) }
{
    out.push(b' ')?;
    match part {
        Part::Word(word) => write_word(alloc, out, word),
        Part::Constant(i) => write_numbered(alloc, out, b"constant", i),
    }
}

fn write_parts(alloc: Global, out: &mut Vec<u8>, parts: &[Part]) -> Result<(), Memory>
    ensures { OnOk result (out.new.items ≡ out.old.items ++ parts_text parts.now) }
{
    for part in parts {
        write_part(alloc, out, *part)?;
    }
    Ok(())
}

fn write_value(alloc: Global, out: &mut Vec<u8>, constant: &Constant) -> Result<(), Memory>
    ensures { OnOk result (out.new.items ≡ out.old.items ++ constant_text constant.now) }
{
    match constant {
        Constant::Text(bytes) => {
            out.extend_from_slice(b"text ")?;
            write_quoted(out, bytes.as_slice())
        }
        Constant::Con(c, parts) => {
            write_numbered(alloc, out, b"con", u64::from(*c))?;
            write_parts(alloc, out, parts.as_slice())
        }
        Constant::Tuple(parts) => {
            out.extend_from_slice(b"tuple")?;
            write_parts(alloc, out, parts.as_slice())
        }
        Constant::Cons(head, tail) => {
            out.extend_from_slice(b"cons")?;
            write_part(alloc, out, *head)?;
            write_part(alloc, out, *tail)
        }
    }
}

fn write_constant(
    alloc: Global,
    out: &mut Vec<u8>,
    number: usize,
    constant: &Constant,
) -> Result<(), Memory>
    ensures { OnOk result (out.new.items ≡ out.old.items ++ constant_line number constant.now) }
{
    write_numbered(alloc, out, b"constant", number as u64)?;
    out.push(b' ')?;
    write_value(alloc, out, constant)?;
    out.push(b'\n')?;
    Ok(())
}

fn write_constants(alloc: Global, out: &mut Vec<u8>, listing: &Listing) -> Result<(), Memory>
    ensures { OnOk result (out.new.items ≡ out.old.items ++ lines_from constant_line 0 listing.now.constants) }
{
    for (i, constant) in listing.constants.as_slice().iter().enumerate() {
        write_constant(alloc, out, i, constant)?;
    }
    Ok(())
}

fn write_instrs(alloc: Global, out: &mut Vec<u8>, instrs: &[Instr]) -> Result<(), Memory>
    ensures { OnOk result (out.new.items ≡ out.old.items ++ flat_map instr_lines instrs.now) }
{
    for instr in instrs {
        write_instr(alloc, out, instr)?;
    }
    Ok(())
}

fn write_block(
    alloc: Global,
    out: &mut Vec<u8>,
    number: usize,
    instrs: &[Instr],
) -> Result<(), Memory>
    ensures { OnOk result (out.new.items ≡ out.old.items ++ block_lines number instrs.now) }
{
    write_count(alloc, out, b"block", number as u64)?;
    write_instrs(alloc, out, instrs)
}

fn write_blocks(alloc: Global, out: &mut Vec<u8>, listing: &Listing) -> Result<(), Memory>
    ensures { OnOk result (out.new.items ≡ out.old.items ++ lines_from block_lines 0 listing.now.blocks) }
{
    for (b, block) in listing.blocks.as_slice().iter().enumerate() {
        write_block(alloc, out, b, block.as_slice())?;
    }
    Ok(())
}

/// The text of a listing, whatever it holds.
pub fn print_listing(alloc: Global, listing: &Listing) -> Result<Vec<u8>, Memory>
    ensures { IfOk result (λ text. text.items ≡ text_of listing.now) }
{
    let mut out = Vec::new(alloc);
    write_count(alloc, &mut out, b"registers", listing.registers)?;
    write_count(
        alloc,
        &mut out,
        b"constants",
        listing.constants.len() as u64,
    )?;
    write_constants(alloc, &mut out, listing)?;
    write_count(alloc, &mut out, b"blocks", listing.blocks.len() as u64)?;
    write_count(alloc, &mut out, b"main", listing.main)?;
    write_blocks(alloc, &mut out, listing)?;
    Ok(out)
}

/// The text of code. The only error is want of memory.
pub fn print(alloc: Global, code: &Code) -> Result<Vec<u8>, Memory>
    ensures { IfOk result (λ text. text.items ≡ text_of code.now.listing) }
{
    print_listing(alloc, &code.listing)
}
