//! Literals, expressions and tags. An expression nested deeper than `depth` is answered as want of memory, since it would need a deep stack.

ghost use Rattle.std.specs.Prelude.{◌≡◌, IfOk};
ghost use Rattle.rml_fol.specs.declared.statements.Tag.TheVariants as tag;

use rml_base::{Bytes, Memory};
use rml_fol::{Expression, Literal, Tag, Vars};
use sqlite_items::Items;
use std::alloc::Global;

/// A copy of a byte string.
pub fn copy_bytes(alloc: Global, bytes: &Bytes) -> Result<Bytes, Memory>
    ensures { IfOk result (λ b. b ≡ bytes.now) }
{
    let copy = Vec::from_slice(alloc, bytes.as_slice())?;
    Ok(Bytes::of(copy))
}

fn copy_literal(alloc: Global, literal: &Literal) -> Result<Literal, Memory>
    ensures { IfOk result (λ l. l ≡ literal.now) }
{
    match literal {
        Literal::Int(n) => Ok(Literal::Int(*n)),
        Literal::Char(c) => Ok(Literal::Char(*c)),
        Literal::Text(bytes) => Ok(Literal::Text(copy_bytes(alloc, bytes)?)),
    }
}

/// A copy of an expression, which nests no deeper than `depth`.
#[cycle(expressions)]
pub fn copy_expression(
    alloc: Global,
    expression: &Expression,
    depth: u32,
) -> Result<Expression, Memory>
    ensures { IfOk result (λ e. e ≡ expression.now) }
{
    if depth == 0 {
        return Err(Memory);
    }
    match expression {
        Expression::Lit(literal) => Ok(Expression::Lit(copy_literal(alloc, literal)?)),
        Expression::Var(x) => Ok(Expression::Var(*x)),
        Expression::Val(k) => Ok(Expression::Val(*k)),
        Expression::Rel(r) => Ok(Expression::Rel(*r)),
        Expression::Con(c, es) => {
            let parts = copy_expressions(alloc, es.as_slice(), depth - 1)?;
            Ok(Expression::Con(*c, parts))
        }
        Expression::Tuple(es) => {
            let parts = copy_expressions(alloc, es.as_slice(), depth - 1)?;
            Ok(Expression::Tuple(parts))
        }
        Expression::List(es) => {
            let parts = copy_expressions(alloc, es.as_slice(), depth - 1)?;
            Ok(Expression::List(parts))
        }
        Expression::Cons(es) => {
            let parts = copy_expressions(alloc, es.as_slice(), depth - 1)?;
            Ok(Expression::Cons(parts))
        }
    }
}

#[cycle(expressions)]
fn copy_expressions(
    alloc: Global,
    expressions: &[Expression],
    depth: u32,
) -> Result<Items<Expression>, Memory>
    ensures { IfOk result (λ all. all ≡ expressions.now) }
{
    let mut all = Items::new(alloc);
    for expression in expressions {
        let copy = copy_expression(alloc, expression, depth)?;
        all.push(copy)?;
    }
    Ok(all)
}

/// A copy of what a case asks for.
pub fn copy_tag(alloc: Global, tag: &Tag) -> Result<Tag, Memory>
    ensures { IfOk result (λ t. t ≡ tag.now) }
{
    match tag {
        Tag::Con(c) => Ok(Tag::Con(*c)),
        Tag::Lit(literal) => Ok(Tag::Lit(copy_literal(alloc, literal)?)),
    }
}

/// A copy of a literal, as what a case asks for.
pub fn tag_of_literal(alloc: Global, literal: &Literal) -> Result<Tag, Memory>
    ensures { IfOk result (λ t. t ≡ tag.Lit literal.now) }
{
    Ok(Tag::Lit(copy_literal(alloc, literal)?))
}

/// A copy of variables.
pub fn copy_vars(alloc: Global, vars: &[u32]) -> Result<Vars, Memory>
    ensures { IfOk result (λ xs. xs ≡ vars.now) }
{
    Ok(Items::from_slice(alloc, vars)?)
}
