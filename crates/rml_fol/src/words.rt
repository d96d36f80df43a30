//! Words of the text: numbers, variables and names, and lists of variables in brackets.

ghost use Rattle.std.specs.Prelude.{◌≡◌, [], ◌∷◌, ◌++◌, OnOk, map};
ghost use Rattle.std.specs.Fmt.{decimal};
ghost use Rattle.rml_fol.specs.TermText.{separated, separator_before, bracketed_if_any, variable_text, variables_text, name_text, constructor_text, val_text, relation_text, literal_text};

use crate::parts::{Name, Parts};
use crate::terms::Literal;
use rml_base::Memory;
use rml_escapes::{write_character, write_quoted};
use rml_value::{CONS, NIL};
use sqlite_items::at;
use std::alloc::Global;

pub fn write_number(alloc: Global, out: &mut Vec<u8>, n: u64) -> Result<(), Memory>
    ensures { OnOk result (out.new.items ≡ out.old.items ++ decimal n) }
{
    let digits = n.to_string(alloc)?;
    out.extend_from_slice(digits.as_bytes())?;
    Ok(())
}

/// What stands before the item of a number: before each but the first, this.
#[tactic(auto, unfolding(crate::specs::TermText::separator_before))]
pub fn separate(out: &mut Vec<u8>, between: &[u8], number: usize) -> Result<(), Memory>
    ensures { OnOk result (out.new.items ≡ out.old.items ++ separator_before between.now number) }
{
    if number == 0 {
        return Ok(());
    }
    out.extend_from_slice(between)?;
    Ok(())
}

pub fn write_variable(alloc: Global, out: &mut Vec<u8>, x: u32) -> Result<(), Memory>
    ensures { OnOk result (out.new.items ≡ out.old.items ++ variable_text x) }
{
    out.push(b'v')?;
    write_number(alloc, out, u64::from(x))
}

fn write_items(alloc: Global, out: &mut Vec<u8>, xs: &[u32]) -> Result<(), Memory>
    ensures { OnOk result (out.new.items ≡ out.old.items ++ separated (44 ∷ 32 ∷ []) (map variable_text xs.now)) }
{
    for (i, x) in xs.iter().enumerate() {
        separate(out, b", ", i)?;
        write_variable(alloc, out, *x)?;
    }
    Ok(())
}

/// Variables in brackets.
pub fn write_variables(alloc: Global, out: &mut Vec<u8>, xs: &[u32]) -> Result<(), Memory>
    ensures { OnOk result (out.new.items ≡ out.old.items ++ variables_text xs.now) }
{
    out.push(b'(')?;
    write_items(alloc, out, xs)?;
    out.push(b')')?;
    Ok(())
}

/// Variables in brackets, where there are any.
pub fn write_variables_if_any(alloc: Global, out: &mut Vec<u8>, xs: &[u32]) -> Result<(), Memory>
    ensures { OnOk result (out.new.items ≡ out.old.items ++ bracketed_if_any (map variable_text xs.now)) }
{
    match xs {
        [] => Ok(()),
        _ => write_variables(alloc, out, xs),
    }
}

pub fn write_name(out: &mut Vec<u8>, name: &Name) -> Result<(), Memory>
    ensures { OnOk result (out.new.items ≡ out.old.items ++ name_text name.now) }
{
    out.extend_from_slice(name.of.as_slice())?;
    out.push(b'.')?;
    out.extend_from_slice(name.name.as_slice())?;
    Ok(())
}

pub fn write_constructor(out: &mut Vec<u8>, parts: &Parts, c: u32) -> Result<(), Memory>
    ensures { OnOk result (out.new.items ≡ out.old.items ++ constructor_text parts.now c) }
{
    if c == NIL {
        out.extend_from_slice(b"[]")?;
        return Ok(());
    }
    if c == CONS {
        out.extend_from_slice(b"::")?;
        return Ok(());
    }
    match at(parts.cons.as_slice(), c as usize) {
        None => Ok(()),
        Some(constructor) => write_name(out, &constructor.name),
    }
}

pub fn write_val(out: &mut Vec<u8>, parts: &Parts, k: u32) -> Result<(), Memory>
    ensures { OnOk result (out.new.items ≡ out.old.items ++ val_text parts.now k) }
{
    match at(parts.vals.as_slice(), k as usize) {
        None => Ok(()),
        Some(val) => write_name(out, &val.name),
    }
}

pub fn write_relation(out: &mut Vec<u8>, parts: &Parts, r: u32) -> Result<(), Memory>
    ensures { OnOk result (out.new.items ≡ out.old.items ++ relation_text parts.now r) }
{
    match at(parts.rels.as_slice(), r as usize) {
        None => Ok(()),
        Some(relation) => write_name(out, &relation.name),
    }
}

pub fn write_literal(alloc: Global, out: &mut Vec<u8>, literal: &Literal) -> Result<(), Memory>
    ensures { OnOk result (out.new.items ≡ out.old.items ++ literal_text literal.now) }
{
    match literal {
        Literal::Int(n) => {
            let digits = n.to_string(alloc)?;
            out.extend_from_slice(digits.as_bytes())?;
            Ok(())
        }
        Literal::Char(c) => write_character(out, *c),
        Literal::Text(bytes) => write_quoted(out, bytes.as_slice()),
    }
}
