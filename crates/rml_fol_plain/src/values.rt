//! The values of expressions.

ghost use Rattle.std.specs.Prelude.{◌≡◌, ◌≤◌, [], IfOk, map, sum_by};
ghost use Rattle.rml_terms.specs.Evaluating.{all_of, vals_to};
ghost use Rattle.rml_fol.specs.Expressions.{literal_value, value_of as value_of_expression};
ghost use Rattle.rml_fol.specs.Size.{nodes};
ghost use Rattle.rml_fol_plain.specs.Given.{vals_in, expressions_in};

use crate::state::Tables;
use rml_base::Memory;
use rml_evaluation::{chain_of, found, text_value};
use rml_fol::{Expression, Literal, Val};
use rml_terms::Binding;
use rml_value::{Value, Values, list_of};
use sqlite_items::{Items, at};
use std::alloc::Global;

fn literal(alloc: Global, literal: &Literal) -> Result<Value, Memory>
    ensures { IfOk result (λ v. v ≡ literal_value literal.now) }
{
    match literal {
        Literal::Int(n) => Ok(Value::Int(*n)),
        Literal::Char(c) => Ok(Value::Char(*c)),
        Literal::Text(bytes) => text_value(alloc, bytes.as_slice()),
    }
}

/// The value of a val, where vals need one another so deep at most.
#[cycle(values)]
fn val(alloc: Global, vals: &[Val], k: u32, depth: usize) -> Result<Option<Value>, Memory>
    ensures { IfOk result (λ v. v ≡ vals_to value_of_expression (expressions_in vals.now) depth k) }
{
    if depth == 0 {
        return Ok(None);
    }
    match at(vals, k as usize) {
        Some(def) => val_by(alloc, vals, def, depth - 1),
        None => Ok(None),
    }
}

#[cycle(values)]
fn val_by(alloc: Global, vals: &[Val], def: &Val, depth: usize) -> Result<Option<Value>, Memory>
    requires { nodes def.now.value ≤ sum_by nodes (expressions_in vals.now) }
    ensures { IfOk result (λ v. v ≡ value_of_expression (vals_to value_of_expression (expressions_in vals.now) depth) def.now.value []) }
{
    value(alloc, vals, &def.value, &[], depth)
}

#[cycle(values)]
fn value(
    alloc: Global,
    vals: &[Val],
    expression: &Expression,
    env: &[Binding],
    depth: usize,
) -> Result<Option<Value>, Memory>
    ensures { IfOk result (λ v. v ≡ value_of_expression (vals_to value_of_expression (expressions_in vals.now) depth) expression.now env.now) }
{
    match expression {
        Expression::Lit(l) => Ok(Some(literal(alloc, l)?)),
        Expression::Var(x) => found(alloc, *x, env),
        Expression::Val(k) => val(alloc, vals, *k, depth),
        Expression::Rel(r) => Ok(Some(Value::Rel(*r))),
        Expression::Con(c, es) => match values(alloc, vals, es.as_slice(), env, depth)? {
            Some(vs) => Ok(Some(Value::Con(*c, vs))),
            None => Ok(None),
        },
        Expression::Tuple(es) => match values(alloc, vals, es.as_slice(), env, depth)? {
            Some(vs) => Ok(Some(Value::Tuple(vs))),
            None => Ok(None),
        },
        Expression::List(es) => match values(alloc, vals, es.as_slice(), env, depth)? {
            Some(vs) => Ok(Some(list_of(alloc, vs)?)),
            None => Ok(None),
        },
        Expression::Cons(es) => match values(alloc, vals, es.as_slice(), env, depth)? {
            Some(vs) => chain_of(alloc, vs),
            None => Ok(None),
        },
    }
}

#[cycle(values)]
fn values(
    alloc: Global,
    vals: &[Val],
    expressions: &[Expression],
    env: &[Binding],
    depth: usize,
) -> Result<Option<Values>, Memory>
    ensures { IfOk result (λ vs. vs ≡ all_of (map (value_of_expression (vals_to value_of_expression (expressions_in vals.now) depth)) expressions.now) env.now) }
{
    let mut all = Items::new(alloc);
    for expression in expressions {
        match value(alloc, vals, expression, env, depth)? {
            None => return Ok(None),
            Some(v) => all.push(v)?,
        }
    }
    Ok(Some(all))
}

/// The value of an expression. None is no value, to which no expression of a program comes.
pub fn value_of(
    alloc: Global,
    tables: &Tables,
    expression: &Expression,
    env: &[Binding],
) -> Result<Option<Value>, Memory>
    ensures { IfOk result (λ v. v ≡ value_of_expression (vals_in tables.now) expression.now env.now) }
{
    let depth = tables.vals.len();
    value(alloc, tables.vals, expression, env, depth)
}
