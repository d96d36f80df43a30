//! The lines of statements that have no block.

ghost use Rattle.std.specs.Prelude.{◌≡◌, ◌≤◌, ◌∷◌, ◌++◌, OnOk, codes, length, replicate, slice_get};
ghost use Rattle.rml_builtin.specs.declared.row.TheConstants.{ROWS};
ghost use Rattle.rml_fol.specs.TermText.{variable_text, variables_text, pattern_text, expression_text};
ghost use Rattle.rml_fol.specs.Text.{line, callee_text, row_name as name_of_row, passed_text, tag_text, body_text, case_text};

use crate::expressions::write_expression;
use crate::limits::MOST_NESTED;
use crate::parts::Parts;
use crate::patterns::write_pattern;
use crate::statements::{Callee, Tag};
use crate::terms::{Expression, Pattern};
use crate::words::{
    write_constructor, write_literal, write_number, write_relation, write_variable,
    write_variables, write_variables_if_any,
};
use rml_base::Memory;
use rml_builtin::{ROWS, builtin};
use std::alloc::Global;

fn write_blanks(out: &mut Vec<u8>, count: u64) -> Result<(), Memory>
    ensures { OnOk result (out.new.items ≡ out.old.items ++ replicate count 32) }
{
    for _done in 0..count {
        out.push(b' ')?;
    }
    Ok(())
}

/// The blanks before a line, and the words that it begins with.
pub fn begin_line(out: &mut Vec<u8>, indent: u64, words: &[u8]) -> Result<(), Memory>
    ensures text { OnOk result (out.new.items ≡ out.old.items ++ (replicate indent 32 ++ words.now)) }
    ensures blanks { OnOk result (indent ≤ length out.new.items) }
{
    write_blanks(out, indent)?;
    out.extend_from_slice(words)?;
    Ok(())
}

/// A line of words alone.
pub fn write_line(out: &mut Vec<u8>, indent: u64, words: &[u8]) -> Result<(), Memory>
    ensures text { OnOk result (out.new.items ≡ out.old.items ++ line indent words.now) }
    ensures blanks { OnOk result (indent ≤ length out.new.items) }
{
    begin_line(out, indent, words)?;
    out.push(b'\n')?;
    Ok(())
}

pub fn write_match(
    alloc: Global,
    out: &mut Vec<u8>,
    parts: &Parts,
    indent: u64,
    x: u32,
    pattern: &Pattern,
) -> Result<(), Memory>
    ensures { OnOk result (out.new.items ≡ out.old.items ++ line indent (codes "match " ++ variable_text x ++ 32 ∷ pattern_text parts.now pattern.now)) }
{
    begin_line(out, indent, b"match ")?;
    write_variable(alloc, out, x)?;
    out.push(b' ')?;
    write_pattern(alloc, out, parts, pattern, MOST_NESTED)?;
    out.push(b'\n')?;
    Ok(())
}

pub fn write_set(
    alloc: Global,
    out: &mut Vec<u8>,
    parts: &Parts,
    indent: u64,
    x: u32,
    expression: &Expression,
) -> Result<(), Memory>
    ensures { OnOk result (out.new.items ≡ out.old.items ++ line indent (codes "set " ++ variable_text x ++ 32 ∷ expression_text parts.now expression.now)) }
{
    begin_line(out, indent, b"set ")?;
    write_variable(alloc, out, x)?;
    out.push(b' ')?;
    write_expression(alloc, out, parts, expression, MOST_NESTED)?;
    out.push(b'\n')?;
    Ok(())
}

fn write_callee(
    alloc: Global,
    out: &mut Vec<u8>,
    parts: &Parts,
    callee: Callee,
) -> Result<(), Memory>
    ensures { OnOk result (out.new.items ≡ out.old.items ++ callee_text parts.now callee) }
{
    match callee {
        Callee::Rel(r) => write_relation(out, parts, r),
        Callee::Var(x) => {
            out.push(b'*')?;
            write_variable(alloc, out, x)
        }
    }
}

/// What a call is given, and its results.
fn write_passed(alloc: Global, out: &mut Vec<u8>, xs: &[u32], ys: &[u32]) -> Result<(), Memory>
    ensures { OnOk result (out.new.items ≡ out.old.items ++ passed_text xs.now ys.now) }
{
    write_variables(alloc, out, xs)?;
    out.extend_from_slice(b" => ")?;
    write_variables(alloc, out, ys)
}

pub fn write_call(
    alloc: Global,
    out: &mut Vec<u8>,
    parts: &Parts,
    indent: u64,
    callee: Callee,
    xs: &[u32],
    ys: &[u32],
) -> Result<(), Memory>
    ensures { OnOk result (out.new.items ≡ out.old.items ++ line indent (codes "call " ++ callee_text parts.now callee ++ passed_text xs.now ys.now)) }
{
    begin_line(out, indent, b"call ")?;
    write_callee(alloc, out, parts, callee)?;
    write_passed(alloc, out, xs, ys)?;
    out.push(b'\n')?;
    Ok(())
}

/// The name of a built-in, and nothing where the number has none.
fn row_name(number: u16) -> &'static [u8]
    ensures { result.now ≡ name_of_row (slice_get ROWS number) }
{
    if usize::from(number) < ROWS.len() {
        builtin(number).name.as_bytes()
    } else {
        b""
    }
}

pub fn write_built_in(
    alloc: Global,
    out: &mut Vec<u8>,
    indent: u64,
    number: u16,
    xs: &[u32],
    ys: &[u32],
) -> Result<(), Memory>
    ensures { OnOk result (out.new.items ≡ out.old.items ++ line indent (codes "builtin " ++ name_of_row (slice_get ROWS number) ++ passed_text xs.now ys.now)) }
{
    begin_line(out, indent, b"builtin ")?;
    out.extend_from_slice(row_name(number))?;
    write_passed(alloc, out, xs, ys)?;
    out.push(b'\n')?;
    Ok(())
}

pub fn write_equal(
    alloc: Global,
    out: &mut Vec<u8>,
    indent: u64,
    x: u32,
    y: u32,
) -> Result<(), Memory>
    ensures { OnOk result (out.new.items ≡ out.old.items ++ line indent (codes "equal " ++ variable_text x ++ 32 ∷ variable_text y)) }
{
    begin_line(out, indent, b"equal ")?;
    write_variable(alloc, out, x)?;
    out.push(b' ')?;
    write_variable(alloc, out, y)?;
    out.push(b'\n')?;
    Ok(())
}

pub fn write_switch(alloc: Global, out: &mut Vec<u8>, indent: u64, x: u32) -> Result<(), Memory>
    ensures text { OnOk result (out.new.items ≡ out.old.items ++ line indent (codes "switch " ++ variable_text x)) }
    ensures blanks { OnOk result (indent ≤ length out.new.items) }
{
    begin_line(out, indent, b"switch ")?;
    write_variable(alloc, out, x)?;
    out.push(b'\n')?;
    Ok(())
}

fn write_tag(alloc: Global, out: &mut Vec<u8>, parts: &Parts, tag: &Tag) -> Result<(), Memory>
    ensures { OnOk result (out.new.items ≡ out.old.items ++ tag_text parts.now tag.now) }
{
    match tag {
        Tag::Con(c) => write_constructor(out, parts, *c),
        Tag::Lit(literal) => write_literal(alloc, out, literal),
    }
}

pub fn write_case(
    alloc: Global,
    out: &mut Vec<u8>,
    parts: &Parts,
    indent: u64,
    tag: &Tag,
    xs: &[u32],
) -> Result<(), Memory>
    ensures text { OnOk result (out.new.items ≡ out.old.items ++ line indent (case_text parts.now tag.now xs.now)) }
    ensures blanks { OnOk result (indent ≤ length out.new.items) }
{
    begin_line(out, indent, b"case ")?;
    write_tag(alloc, out, parts, tag)?;
    write_variables_if_any(alloc, out, xs)?;
    out.push(b'\n')?;
    Ok(())
}

/// A body's name with what is handed on, behind these words.
pub fn write_body(
    alloc: Global,
    out: &mut Vec<u8>,
    indent: u64,
    words: &[u8],
    j: u32,
    xs: &[u32],
) -> Result<(), Memory>
    ensures text { OnOk result (out.new.items ≡ out.old.items ++ line indent (words.now ++ body_text j xs.now)) }
    ensures blanks { OnOk result (indent ≤ length out.new.items) }
{
    begin_line(out, indent, words)?;
    out.push(b'j')?;
    write_number(alloc, out, u64::from(j))?;
    write_variables(alloc, out, xs)?;
    out.push(b'\n')?;
    Ok(())
}

pub fn write_give(alloc: Global, out: &mut Vec<u8>, indent: u64, xs: &[u32]) -> Result<(), Memory>
    ensures { OnOk result (out.new.items ≡ out.old.items ++ line indent (codes "give" ++ variables_text xs.now)) }
{
    begin_line(out, indent, b"give")?;
    write_variables(alloc, out, xs)?;
    out.push(b'\n')?;
    Ok(())
}
