//! Expressions as text. An expression nested deeper than `depth` is answered as want of memory, since it would need a deep stack.

ghost use Rattle.std.specs.Prelude.{◌≡◌, ◌++◌, true, false, OnOk, map};
ghost use Rattle.rml_fol.specs.TermText.{separated, bracketed_if_any, seated, expression_text, expression_written, tuple_text, list_text};

use crate::parts::Parts;
use crate::shapes::{Shape, expression_shape};
use crate::terms::Expression;
use crate::words::{
    separate, write_constructor, write_literal, write_relation, write_val, write_variable,
};
use rml_base::Memory;
use std::alloc::Global;

#[cycle(expressions)]
pub fn write_expression(
    alloc: Global,
    out: &mut Vec<u8>,
    parts: &Parts,
    expression: &Expression,
    depth: u32,
) -> Result<(), Memory>
    ensures { OnOk result (out.new.items ≡ out.old.items ++ expression_text parts.now expression.now) }
{
    if depth == 0 {
        return Err(Memory);
    }
    match expression {
        Expression::Lit(literal) => write_literal(alloc, out, literal),
        Expression::Var(x) => write_variable(alloc, out, *x),
        Expression::Val(k) => write_val(out, parts, *k),
        Expression::Rel(r) => write_relation(out, parts, *r),
        Expression::Con(c, es) => {
            write_constructor(out, parts, *c)?;
            write_arguments(alloc, out, parts, es.as_slice(), depth - 1)
        }
        Expression::Tuple(es) => write_tuple(alloc, out, parts, es.as_slice(), depth - 1),
        Expression::List(es) => write_list(alloc, out, parts, es.as_slice(), depth - 1),
        Expression::Cons(es) => {
            write_expressions(alloc, out, parts, es.as_slice(), b" :: ", true, depth - 1)
        }
    }
}

/// In brackets.
#[cycle(expressions)]
fn write_tuple(
    alloc: Global,
    out: &mut Vec<u8>,
    parts: &Parts,
    expressions: &[Expression],
    depth: u32,
) -> Result<(), Memory>
    ensures { OnOk result (out.new.items ≡ out.old.items ++ tuple_text (map (expression_written parts.now) expressions.now)) }
{
    out.push(b'(')?;
    write_expressions(alloc, out, parts, expressions, b", ", false, depth)?;
    out.push(b')')?;
    Ok(())
}

/// In square brackets.
#[cycle(expressions)]
fn write_list(
    alloc: Global,
    out: &mut Vec<u8>,
    parts: &Parts,
    expressions: &[Expression],
    depth: u32,
) -> Result<(), Memory>
    ensures { OnOk result (out.new.items ≡ out.old.items ++ list_text (map (expression_written parts.now) expressions.now)) }
{
    out.push(b'[')?;
    write_expressions(alloc, out, parts, expressions, b", ", false, depth)?;
    out.push(b']')?;
    Ok(())
}

/// In brackets, where there are any.
#[cycle(expressions)]
fn write_arguments(
    alloc: Global,
    out: &mut Vec<u8>,
    parts: &Parts,
    expressions: &[Expression],
    depth: u32,
) -> Result<(), Memory>
    ensures { OnOk result (out.new.items ≡ out.old.items ++ bracketed_if_any (map (seated false) (map (expression_written parts.now) expressions.now))) }
{
    match expressions {
        [] => Ok(()),
        _ => write_tuple(alloc, out, parts, expressions, depth),
    }
}

/// Expressions with this between them, as items of a chain or each by itself.
#[cycle(expressions)]
fn write_expressions(
    alloc: Global,
    out: &mut Vec<u8>,
    parts: &Parts,
    expressions: &[Expression],
    between: &[u8],
    in_chain: bool,
    depth: u32,
) -> Result<(), Memory>
    ensures { OnOk result (out.new.items ≡ out.old.items ++ separated between.now (map (seated in_chain) (map (expression_written parts.now) expressions.now))) }
{
    for (i, expression) in expressions.iter().enumerate() {
        separate(out, between, i)?;
        write_seated(alloc, out, parts, expression, in_chain, depth)?;
    }
    Ok(())
}

/// An expression as an item of a chain, or by itself.
#[cycle(expressions)]
fn write_seated(
    alloc: Global,
    out: &mut Vec<u8>,
    parts: &Parts,
    expression: &Expression,
    in_chain: bool,
    depth: u32,
) -> Result<(), Memory>
    ensures { OnOk result (out.new.items ≡ out.old.items ++ seated in_chain (expression_written parts.now expression.now)) }
{
    if !in_chain {
        return write_expression(alloc, out, parts, expression, depth);
    }
    match expression_shape(expression) {
        Shape::Other => write_expression(alloc, out, parts, expression, depth),
        Shape::Chain | Shape::Binding => {
            out.push(b'(')?;
            write_expression(alloc, out, parts, expression, depth)?;
            out.push(b')')?;
            Ok(())
        }
    }
}
