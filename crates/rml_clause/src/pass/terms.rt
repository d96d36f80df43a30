//! Literals, patterns and expressions in clause form. The parameters of a relation are its first variables, and those of a rule stand
//! behind them.

ghost use Rattle.std.specs.Prelude.{◌≡◌, ◌-◌, ◌^◌, [], IfOk, IsTrue, map, slice_index_or};
ghost use Rattle.rml_clause.specs.Plain.{literal_of, pattern_of, expression_of};
ghost use Rattle.rml_clause.specs.Within.{pattern_within, patterns_within, expression_within, expressions_within};

use rml_base::{Bytes, Memory};
use rml_fol::{Expression, Literal, Pattern};
use rml_resolved::{RExp, RPat};
use rml_syntax::Lit;
use sqlite_items::{Boxed, Items, at};
use std::alloc::Global;

/// The bytes of a name, and none where the number has none.
pub fn bytes_of(alloc: Global, names: &[Bytes], number: u32) -> Result<Bytes, Memory>
    ensures { IfOk result (λ b. b ≡ slice_index_or names.now number []) }
{
    match at(names, number as usize) {
        None => Ok(Bytes::of(Vec::new(alloc))),
        Some(bytes) => {
            let copy = Vec::from_slice(alloc, bytes.as_slice())?;
            Ok(Bytes::of(copy))
        }
    }
}

fn literal(alloc: Global, names: &[Bytes], lit: Lit) -> Result<Literal, Memory>
    ensures { IfOk result (λ l. l ≡ literal_of names.now lit) }
{
    match lit {
        Lit::Int(n) => Ok(Literal::Int(n)),
        Lit::Char(c) => Ok(Literal::Char(c)),
        Lit::Text(number) => {
            let bytes = bytes_of(alloc, names, number)?;
            Ok(Literal::Text(bytes))
        }
    }
}

/// A pattern, whose variables come behind so many parameters.
#[cycle(patterns)]
pub fn pattern(
    alloc: Global,
    names: &[Bytes],
    params: u32,
    pattern: &RPat,
) -> Result<Pattern, Memory>
    requires { IsTrue (pattern_within (2 ^ 32 - params) pattern.now) }
    ensures { IfOk result (λ p. p ≡ pattern_of names.now params pattern.now) }
{
    match pattern {
        RPat::Any => Ok(Pattern::Any),
        RPat::Lit(lit) => {
            let made = literal(alloc, names, *lit)?;
            Ok(Pattern::Lit(made))
        }
        RPat::Var(x) => Ok(Pattern::Var(params + *x)),
        RPat::Con(c, ps) => {
            let inner = patterns(alloc, names, params, ps.as_slice())?;
            Ok(Pattern::Con(*c, inner))
        }
        RPat::Tuple(ps) => {
            let inner = patterns(alloc, names, params, ps.as_slice())?;
            Ok(Pattern::Tuple(inner))
        }
        RPat::List(ps) => {
            let inner = patterns(alloc, names, params, ps.as_slice())?;
            Ok(Pattern::List(inner))
        }
        RPat::Cons(ps) => {
            let inner = patterns(alloc, names, params, ps.as_slice())?;
            Ok(Pattern::Cons(inner))
        }
        RPat::Bind(x, inner) => {
            let inner = self::pattern(alloc, names, params, inner.get())?;
            let boxed = Boxed::new(alloc, inner)?;
            Ok(Pattern::Bind(params + *x, boxed))
        }
    }
}

#[cycle(patterns)]
fn patterns(
    alloc: Global,
    names: &[Bytes],
    params: u32,
    patterns: &[RPat],
) -> Result<Items<Pattern>, Memory>
    requires { IsTrue (patterns_within (2 ^ 32 - params) patterns.now) }
    ensures { IfOk result (λ ps. ps ≡ map (pattern_of names.now params) patterns.now) }
{
    let mut all = Items::new(alloc);
    for one in patterns {
        let made = pattern(alloc, names, params, one)?;
        all.push(made)?;
    }
    Ok(all)
}

/// An expression, whose variables come behind so many parameters.
#[cycle(expressions)]
pub fn expression(
    alloc: Global,
    names: &[Bytes],
    params: u32,
    exp: &RExp,
) -> Result<Expression, Memory>
    requires { IsTrue (expression_within (2 ^ 32 - params) exp.now) }
    ensures { IfOk result (λ e. e ≡ expression_of names.now params exp.now) }
{
    match exp {
        RExp::Lit(lit) => {
            let made = literal(alloc, names, *lit)?;
            Ok(Expression::Lit(made))
        }
        RExp::Var(x) => Ok(Expression::Var(params + *x)),
        RExp::Val(k) => Ok(Expression::Val(*k)),
        RExp::Rel(r) => Ok(Expression::Rel(*r)),
        RExp::Con(c, es) => {
            let inner = expressions(alloc, names, params, es.as_slice())?;
            Ok(Expression::Con(*c, inner))
        }
        RExp::Tuple(es) => {
            let inner = expressions(alloc, names, params, es.as_slice())?;
            Ok(Expression::Tuple(inner))
        }
        RExp::List(es) => {
            let inner = expressions(alloc, names, params, es.as_slice())?;
            Ok(Expression::List(inner))
        }
        RExp::Cons(es) => {
            let inner = expressions(alloc, names, params, es.as_slice())?;
            Ok(Expression::Cons(inner))
        }
    }
}

#[cycle(expressions)]
fn expressions(
    alloc: Global,
    names: &[Bytes],
    params: u32,
    exps: &[RExp],
) -> Result<Items<Expression>, Memory>
    requires { IsTrue (expressions_within (2 ^ 32 - params) exps.now) }
    ensures { IfOk result (λ es. es ≡ map (expression_of names.now params) exps.now) }
{
    let mut all = Items::new(alloc);
    for exp in exps {
        let made = expression(alloc, names, params, exp)?;
        all.push(made)?;
    }
    Ok(all)
}
