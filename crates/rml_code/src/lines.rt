//! The lines of instructions.

ghost use Rattle.std.specs.Prelude.{◌≡◌, ◌∷◌, ◌++◌, OnOk, codes, slice_get};
ghost use Rattle.std.specs.List.{flat_map};
ghost use Rattle.std.specs.Fmt.{decimal};
ghost use Rattle.rml_builtin.specs.declared.row.TheConstants.{ROWS};
ghost use Rattle.rml_code.specs.Text.{numbered, register_text, registers_text, word_text, else_text, row_name as name_of_row, halt_text, deeper, case_line, instr_lines};

use crate::instructions::{Case, Else, Halt, Instr, Word};
use crate::words::{
    row_name, write_else, write_halt, write_number, write_numbered, write_register,
    write_registers, write_tag, write_word,
};
use rml_base::Memory;
use std::alloc::Global;

/// The blanks before an instruction, and the words that it begins with.
fn begin(out: &mut Vec<u8>, words: &[u8]) -> Result<(), Memory>
    ensures { OnOk result (out.new.items ≡ out.old.items ++ (codes "  " ++ words.now)) }
{
    out.extend_from_slice(b"  ")?;
    out.extend_from_slice(words)?;
    Ok(())
}

/// A line of words alone.
fn write_alone(out: &mut Vec<u8>, words: &[u8]) -> Result<(), Memory>
    ensures { OnOk result (out.new.items ≡ out.old.items ++ deeper words.now) }
{
    begin(out, words)?;
    out.push(b'\n')?;
    Ok(())
}

/// A line with a block.
fn write_to_block(alloc: Global, out: &mut Vec<u8>, words: &[u8], block: u64) -> Result<(), Memory>
    ensures { OnOk result (out.new.items ≡ out.old.items ++ deeper (numbered words.now block)) }
{
    begin(out, b"")?;
    write_numbered(alloc, out, words, block)?;
    out.push(b'\n')?;
    Ok(())
}

/// A line with a block and registers.
fn write_frame(
    alloc: Global,
    out: &mut Vec<u8>,
    words: &[u8],
    block: u64,
    rs: &[u64],
) -> Result<(), Memory>
    ensures { OnOk result (out.new.items ≡ out.old.items ++ deeper (numbered words.now block ++ registers_text rs.now)) }
{
    begin(out, b"")?;
    write_numbered(alloc, out, words, block)?;
    write_registers(alloc, out, rs)?;
    out.push(b'\n')?;
    Ok(())
}

/// A line with registers.
fn write_taken(alloc: Global, out: &mut Vec<u8>, words: &[u8], rs: &[u64]) -> Result<(), Memory>
    ensures { OnOk result (out.new.items ≡ out.old.items ++ deeper (words.now ++ registers_text rs.now)) }
{
    begin(out, words)?;
    write_registers(alloc, out, rs)?;
    out.push(b'\n')?;
    Ok(())
}

fn write_move(alloc: Global, out: &mut Vec<u8>, a: u64, b: u64) -> Result<(), Memory>
    ensures { OnOk result (out.new.items ≡ out.old.items ++ deeper (codes "move" ++ register_text a ++ register_text b)) }
{
    begin(out, b"move")?;
    write_register(alloc, out, a)?;
    write_register(alloc, out, b)?;
    out.push(b'\n')?;
    Ok(())
}

fn write_load(alloc: Global, out: &mut Vec<u8>, a: u64, word: Word) -> Result<(), Memory>
    ensures { OnOk result (out.new.items ≡ out.old.items ++ deeper (codes "word" ++ register_text a ++ 32 ∷ word_text word)) }
{
    begin(out, b"word")?;
    write_register(alloc, out, a)?;
    out.push(b' ')?;
    write_word(alloc, out, word)?;
    out.push(b'\n')?;
    Ok(())
}

fn write_const(alloc: Global, out: &mut Vec<u8>, a: u64, i: u64) -> Result<(), Memory>
    ensures { OnOk result (out.new.items ≡ out.old.items ++ deeper (codes "const" ++ register_text a ++ 32 ∷ decimal i)) }
{
    begin(out, b"const")?;
    write_register(alloc, out, a)?;
    out.push(b' ')?;
    write_number(alloc, out, i)?;
    out.push(b'\n')?;
    Ok(())
}

fn write_field(alloc: Global, out: &mut Vec<u8>, a: u64, b: u64, i: u64) -> Result<(), Memory>
    ensures { OnOk result (out.new.items ≡ out.old.items ++ deeper (codes "field" ++ register_text a ++ register_text b ++ 32 ∷ decimal i)) }
{
    begin(out, b"field")?;
    write_register(alloc, out, a)?;
    write_register(alloc, out, b)?;
    out.push(b' ')?;
    write_number(alloc, out, i)?;
    out.push(b'\n')?;
    Ok(())
}

fn write_con(alloc: Global, out: &mut Vec<u8>, a: u64, c: u32, rs: &[u64]) -> Result<(), Memory>
    ensures { OnOk result (out.new.items ≡ out.old.items ++ deeper (codes "con" ++ register_text a ++ 32 ∷ decimal c ++ registers_text rs.now)) }
{
    begin(out, b"con")?;
    write_register(alloc, out, a)?;
    out.push(b' ')?;
    write_number(alloc, out, u64::from(c))?;
    write_registers(alloc, out, rs)?;
    out.push(b'\n')?;
    Ok(())
}

fn write_tuple(alloc: Global, out: &mut Vec<u8>, a: u64, rs: &[u64]) -> Result<(), Memory>
    ensures { OnOk result (out.new.items ≡ out.old.items ++ deeper (codes "tuple" ++ register_text a ++ registers_text rs.now)) }
{
    begin(out, b"tuple")?;
    write_register(alloc, out, a)?;
    write_registers(alloc, out, rs)?;
    out.push(b'\n')?;
    Ok(())
}

fn write_cons(alloc: Global, out: &mut Vec<u8>, a: u64, b: u64, c: u64) -> Result<(), Memory>
    ensures { OnOk result (out.new.items ≡ out.old.items ++ deeper (codes "cons" ++ register_text a ++ register_text b ++ register_text c)) }
{
    begin(out, b"cons")?;
    write_register(alloc, out, a)?;
    write_register(alloc, out, b)?;
    write_register(alloc, out, c)?;
    out.push(b'\n')?;
    Ok(())
}

fn write_built_in(
    alloc: Global,
    out: &mut Vec<u8>,
    number: u16,
    rs: &[u64],
    ys: &[u64],
    otherwise: Else,
) -> Result<(), Memory>
    ensures { OnOk result (out.new.items ≡ out.old.items ++ deeper (codes "builtin " ++ name_of_row (slice_get ROWS number) ++ registers_text rs.now ++ codes " =>" ++ registers_text ys.now ++ 32 ∷ else_text otherwise)) }
{
    begin(out, b"builtin ")?;
    out.extend_from_slice(row_name(number))?;
    write_registers(alloc, out, rs)?;
    out.extend_from_slice(b" =>")?;
    write_registers(alloc, out, ys)?;
    out.push(b' ')?;
    write_else(alloc, out, otherwise)?;
    out.push(b'\n')?;
    Ok(())
}

fn write_equal(
    alloc: Global,
    out: &mut Vec<u8>,
    a: u64,
    b: u64,
    otherwise: Else,
) -> Result<(), Memory>
    ensures { OnOk result (out.new.items ≡ out.old.items ++ deeper (codes "equal" ++ register_text a ++ register_text b ++ 32 ∷ else_text otherwise)) }
{
    begin(out, b"equal")?;
    write_register(alloc, out, a)?;
    write_register(alloc, out, b)?;
    out.push(b' ')?;
    write_else(alloc, out, otherwise)?;
    out.push(b'\n')?;
    Ok(())
}

fn write_case(alloc: Global, out: &mut Vec<u8>, case: &Case) -> Result<(), Memory>
    ensures { OnOk result (out.new.items ≡ out.old.items ++ case_line case.now) }
{
    out.extend_from_slice(b"    ")?;
    write_tag(alloc, out, case.tag)?;
    out.extend_from_slice(b" -> ")?;
    write_number(alloc, out, case.block)?;
    out.push(b'\n')?;
    Ok(())
}

fn write_cases(alloc: Global, out: &mut Vec<u8>, cases: &[Case]) -> Result<(), Memory>
    ensures { OnOk result (out.new.items ≡ out.old.items ++ flat_map case_line cases.now) }
{
    for case in cases {
        write_case(alloc, out, case)?;
    }
    Ok(())
}

/// The last line of a `switch`.
fn write_otherwise(alloc: Global, out: &mut Vec<u8>, otherwise: Else) -> Result<(), Memory>
    ensures { OnOk result (out.new.items ≡ out.old.items ++ (codes "  " ++ deeper (else_text otherwise))) }
{
    out.extend_from_slice(b"    ")?;
    write_else(alloc, out, otherwise)?;
    out.push(b'\n')?;
    Ok(())
}

fn write_switch(
    alloc: Global,
    out: &mut Vec<u8>,
    a: u64,
    cases: &[Case],
    otherwise: Else,
) -> Result<(), Memory>
    ensures { OnOk result (out.new.items ≡ out.old.items ++ (deeper (codes "switch" ++ register_text a) ++ flat_map case_line cases.now ++ codes "  " ++ deeper (else_text otherwise))) }
{
    begin(out, b"switch")?;
    write_register(alloc, out, a)?;
    out.push(b'\n')?;
    write_cases(alloc, out, cases)?;
    write_otherwise(alloc, out, otherwise)
}

fn write_call_register(alloc: Global, out: &mut Vec<u8>, a: u64) -> Result<(), Memory>
    ensures { OnOk result (out.new.items ≡ out.old.items ++ deeper (codes "callr" ++ register_text a)) }
{
    begin(out, b"callr")?;
    write_register(alloc, out, a)?;
    out.push(b'\n')?;
    Ok(())
}

fn write_end(out: &mut Vec<u8>, halt: Halt) -> Result<(), Memory>
    ensures { OnOk result (out.new.items ≡ out.old.items ++ deeper (codes "halt " ++ halt_text halt)) }
{
    begin(out, b"halt ")?;
    write_halt(out, halt)?;
    out.push(b'\n')?;
    Ok(())
}

/// An instruction, with its cases.
pub fn write_instr(alloc: Global, out: &mut Vec<u8>, instr: &Instr) -> Result<(), Memory>
    ensures { OnOk result (out.new.items ≡ out.old.items ++ instr_lines instr.now) }
{
    match instr {
        Instr::Move(a, b) => write_move(alloc, out, *a, *b),
        Instr::Word(a, word) => write_load(alloc, out, *a, *word),
        Instr::Const(a, i) => write_const(alloc, out, *a, *i),
        Instr::Field(a, b, i) => write_field(alloc, out, *a, *b, *i),
        Instr::Con(a, c, rs) => write_con(alloc, out, *a, *c, rs.as_slice()),
        Instr::Tuple(a, rs) => write_tuple(alloc, out, *a, rs.as_slice()),
        Instr::Cons(a, b, c) => write_cons(alloc, out, *a, *b, *c),
        Instr::Save(b, rs) => write_frame(alloc, out, b"save", *b, rs.as_slice()),
        Instr::Guard(b, rs) => write_frame(alloc, out, b"guard", *b, rs.as_slice()),
        Instr::Resume(rs) => write_taken(alloc, out, b"resume", rs.as_slice()),
        Instr::Retry(rs) => write_taken(alloc, out, b"retry", rs.as_slice()),
        Instr::Drop => write_alone(out, b"drop"),
        Instr::Builtin(k, rs, ys, e) => {
            write_built_in(alloc, out, *k, rs.as_slice(), ys.as_slice(), *e)
        }
        Instr::Equal(a, b, e) => write_equal(alloc, out, *a, *b, *e),
        Instr::Switch(a, cases, e) => write_switch(alloc, out, *a, cases.as_slice(), *e),
        Instr::Goto(b) => write_to_block(alloc, out, b"goto", *b),
        Instr::Call(b) => write_to_block(alloc, out, b"call", *b),
        Instr::CallRegister(a) => write_call_register(alloc, out, *a),
        Instr::Answer => write_alone(out, b"answer"),
        Instr::Fail => write_alone(out, b"fail"),
        Instr::Halt(halt) => write_end(out, *halt),
    }
}
