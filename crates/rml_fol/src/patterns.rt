//! Patterns as text. A pattern nested deeper than `depth` is answered as want of memory, since it would need a deep stack.

ghost use Rattle.std.specs.Prelude.{◌≡◌, ◌++◌, true, false, OnOk, map};
ghost use Rattle.rml_fol.specs.TermText.{separated, bracketed_if_any, seated, behind_as, binding_text, pattern_text, pattern_written, tuple_text, list_text};

use crate::parts::Parts;
use crate::shapes::{Shape, pattern_shape};
use crate::terms::Pattern;
use crate::words::{separate, write_constructor, write_literal, write_variable};
use rml_base::Memory;
use std::alloc::Global;

#[cycle(patterns)]
pub fn write_pattern(
    alloc: Global,
    out: &mut Vec<u8>,
    parts: &Parts,
    pattern: &Pattern,
    depth: u32,
) -> Result<(), Memory>
    ensures { OnOk result (out.new.items ≡ out.old.items ++ pattern_text parts.now pattern.now) }
{
    if depth == 0 {
        return Err(Memory);
    }
    match pattern {
        Pattern::Any => {
            out.push(b'_')?;
            Ok(())
        }
        Pattern::Lit(literal) => write_literal(alloc, out, literal),
        Pattern::Var(x) => write_variable(alloc, out, *x),
        Pattern::Con(c, ps) => {
            write_constructor(out, parts, *c)?;
            write_arguments(alloc, out, parts, ps.as_slice(), depth - 1)
        }
        Pattern::Tuple(ps) => write_tuple(alloc, out, parts, ps.as_slice(), depth - 1),
        Pattern::List(ps) => write_list(alloc, out, parts, ps.as_slice(), depth - 1),
        Pattern::Cons(ps) => write_patterns(
            alloc,
            out,
            parts,
            ps.as_slice(),
            b" :: ",
            true,
            depth - 1,
        ),
        Pattern::Bind(x, inner) => write_binding(alloc, out, parts, *x, inner.get(), depth - 1),
    }
}

/// In brackets.
#[cycle(patterns)]
fn write_tuple(
    alloc: Global,
    out: &mut Vec<u8>,
    parts: &Parts,
    patterns: &[Pattern],
    depth: u32,
) -> Result<(), Memory>
    ensures { OnOk result (out.new.items ≡ out.old.items ++ tuple_text (map (pattern_written parts.now) patterns.now)) }
{
    out.push(b'(')?;
    write_patterns(alloc, out, parts, patterns, b", ", false, depth)?;
    out.push(b')')?;
    Ok(())
}

/// In square brackets.
#[cycle(patterns)]
fn write_list(
    alloc: Global,
    out: &mut Vec<u8>,
    parts: &Parts,
    patterns: &[Pattern],
    depth: u32,
) -> Result<(), Memory>
    ensures { OnOk result (out.new.items ≡ out.old.items ++ list_text (map (pattern_written parts.now) patterns.now)) }
{
    out.push(b'[')?;
    write_patterns(alloc, out, parts, patterns, b", ", false, depth)?;
    out.push(b']')?;
    Ok(())
}

/// In brackets, where there are any.
#[cycle(patterns)]
fn write_arguments(
    alloc: Global,
    out: &mut Vec<u8>,
    parts: &Parts,
    patterns: &[Pattern],
    depth: u32,
) -> Result<(), Memory>
    ensures { OnOk result (out.new.items ≡ out.old.items ++ bracketed_if_any (map (seated false) (map (pattern_written parts.now) patterns.now))) }
{
    match patterns {
        [] => Ok(()),
        _ => write_tuple(alloc, out, parts, patterns, depth),
    }
}

/// Patterns with this between them, as items of a chain or each by itself.
#[cycle(patterns)]
fn write_patterns(
    alloc: Global,
    out: &mut Vec<u8>,
    parts: &Parts,
    patterns: &[Pattern],
    between: &[u8],
    in_chain: bool,
    depth: u32,
) -> Result<(), Memory>
    ensures { OnOk result (out.new.items ≡ out.old.items ++ separated between.now (map (seated in_chain) (map (pattern_written parts.now) patterns.now))) }
{
    for (i, pattern) in patterns.iter().enumerate() {
        separate(out, between, i)?;
        write_seated(alloc, out, parts, pattern, in_chain, depth)?;
    }
    Ok(())
}

/// A pattern as an item of a chain, or by itself.
#[cycle(patterns)]
fn write_seated(
    alloc: Global,
    out: &mut Vec<u8>,
    parts: &Parts,
    pattern: &Pattern,
    in_chain: bool,
    depth: u32,
) -> Result<(), Memory>
    ensures { OnOk result (out.new.items ≡ out.old.items ++ seated in_chain (pattern_written parts.now pattern.now)) }
{
    if !in_chain {
        return write_pattern(alloc, out, parts, pattern, depth);
    }
    match pattern_shape(pattern) {
        Shape::Other => write_pattern(alloc, out, parts, pattern, depth),
        Shape::Chain | Shape::Binding => {
            out.push(b'(')?;
            write_pattern(alloc, out, parts, pattern, depth)?;
            out.push(b')')?;
            Ok(())
        }
    }
}

/// A variable and the pattern behind its `as`.
#[cycle(patterns)]
fn write_binding(
    alloc: Global,
    out: &mut Vec<u8>,
    parts: &Parts,
    x: u32,
    pattern: &Pattern,
    depth: u32,
) -> Result<(), Memory>
    ensures { OnOk result (out.new.items ≡ out.old.items ++ binding_text x (pattern_written parts.now pattern.now)) }
{
    write_variable(alloc, out, x)?;
    out.extend_from_slice(b" as ")?;
    write_bound(alloc, out, parts, pattern, depth)
}

/// A pattern behind `as`.
#[cycle(patterns)]
fn write_bound(
    alloc: Global,
    out: &mut Vec<u8>,
    parts: &Parts,
    pattern: &Pattern,
    depth: u32,
) -> Result<(), Memory>
    ensures { OnOk result (out.new.items ≡ out.old.items ++ behind_as (pattern_written parts.now pattern.now)) }
{
    match pattern_shape(pattern) {
        Shape::Chain | Shape::Other => write_pattern(alloc, out, parts, pattern, depth),
        Shape::Binding => {
            out.push(b'(')?;
            write_pattern(alloc, out, parts, pattern, depth)?;
            out.push(b')')?;
            Ok(())
        }
    }
}
