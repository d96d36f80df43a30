//! The text of a program in clause form.

ghost use Rattle.std.specs.Prelude.{◌≡◌, ◌++◌, IfOk, OnOk};
ghost use Rattle.rml_fol.specs.Text.{lines_from, parameters_text, val_line, head_line, relation_lines, text_of};

use crate::blocks::write_stmts;
use crate::expressions::write_expression;
use crate::fol::Fol;
use crate::limits::MOST_NESTED;
use crate::lines::begin_line;
use crate::parts::{Parts, Relation, Val};
use crate::words::{separate, write_name, write_number, write_variable};
use rml_base::Memory;
use std::alloc::Global;

fn write_val(
    alloc: Global,
    out: &mut Vec<u8>,
    parts: &Parts,
    number: usize,
    val: &Val,
) -> Result<(), Memory>
    ensures { OnOk result (out.new.items ≡ out.old.items ++ val_line parts.now number val.now) }
{
    begin_line(out, 0, b"val ")?;
    write_number(alloc, out, number as u64)?;
    out.push(b' ')?;
    write_expression(alloc, out, parts, &val.value, MOST_NESTED)?;
    out.push(b'\n')?;
    Ok(())
}

fn write_vals(alloc: Global, out: &mut Vec<u8>, parts: &Parts) -> Result<(), Memory>
    ensures { OnOk result (out.new.items ≡ out.old.items ++ lines_from (val_line parts.now) 0 parts.now.vals) }
{
    for (i, val) in parts.vals.as_slice().iter().enumerate() {
        write_val(alloc, out, parts, i, val)?;
    }
    Ok(())
}

fn write_parameters(alloc: Global, out: &mut Vec<u8>, params: u32) -> Result<(), Memory>
    ensures { OnOk result (out.new.items ≡ out.old.items ++ parameters_text params) }
{
    for x in 0..params {
        separate(out, b", ", x as usize)?;
        write_variable(alloc, out, x)?;
    }
    Ok(())
}

fn write_head(
    alloc: Global,
    out: &mut Vec<u8>,
    number: usize,
    relation: &Relation,
) -> Result<(), Memory>
    ensures { OnOk result (out.new.items ≡ out.old.items ++ head_line number relation.now) }
{
    begin_line(out, 0, b"relation ")?;
    write_number(alloc, out, number as u64)?;
    out.push(b' ')?;
    write_name(out, &relation.name)?;
    out.push(b'(')?;
    write_parameters(alloc, out, relation.params)?;
    out.extend_from_slice(b") -> ")?;
    write_number(alloc, out, u64::from(relation.results))?;
    out.push(b'\n')?;
    Ok(())
}

fn write_relation(
    alloc: Global,
    out: &mut Vec<u8>,
    parts: &Parts,
    number: usize,
    relation: &Relation,
) -> Result<(), Memory>
    ensures { OnOk result (out.new.items ≡ out.old.items ++ relation_lines parts.now number relation.now) }
{
    write_head(alloc, out, number, relation)?;
    write_stmts(alloc, out, parts, relation.body.stmts.as_slice(), 2)
}

fn write_relations(alloc: Global, out: &mut Vec<u8>, parts: &Parts) -> Result<(), Memory>
    ensures { OnOk result (out.new.items ≡ out.old.items ++ lines_from (relation_lines parts.now) 0 parts.now.rels) }
{
    for (i, relation) in parts.rels.as_slice().iter().enumerate() {
        write_relation(alloc, out, parts, i, relation)?;
    }
    Ok(())
}

/// The text of tables in clause form, whatever they hold. A pattern or an expression that nests deeper than `MOST_NESTED` is answered as
/// want of memory.
pub fn print_parts(alloc: Global, parts: &Parts) -> Result<Vec<u8>, Memory>
    ensures { IfOk result (λ text. text.items ≡ text_of parts.now) }
{
    let mut out = Vec::new(alloc);
    write_vals(alloc, &mut out, parts)?;
    write_relations(alloc, &mut out, parts)?;
    Ok(out)
}

/// The text of a program in clause form. The only error is want of memory; a pattern or an expression that nests deeper than
/// `MOST_NESTED` is answered so too.
pub fn print(alloc: Global, fol: &Fol) -> Result<Vec<u8>, Memory>
    ensures { IfOk result (λ text. text.items ≡ text_of fol.now.parts) }
{
    print_parts(alloc, &fol.parts)
}
