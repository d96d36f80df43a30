//! The values of expressions.

ghost use Rattle.std.specs.Prelude.{◌≡◌, ◌≤◌, [], IfOk, map, sum_by};
ghost use Rattle.rml_resolved.specs.Size.{val_size};
ghost use Rattle.rml_search.specs.Given.{context_in};
ghost use Rattle.rml_terms.specs.Evaluating.{vals_to, all_of};
ghost use Rattle.rml_search.specs.Values.{value_of_lit, meaning, meaning_of_val, value_of as value_of_exp, values_of as values_of_exps};

use crate::tables::Tables;
use rml_base::{Bytes, Memory};
use rml_evaluation::{chain_of, found, text_value};
use rml_resolved::{RExp, ValDef};
use rml_syntax::Lit;
use rml_terms::Binding;
use rml_value::{Value, Values, list_of};
use sqlite_items::{Items, at};
use std::alloc::Global;

fn literal(alloc: Global, names: &[Bytes], lit: Lit) -> Result<Option<Value>, Memory>
    ensures { IfOk result (λ v. v ≡ value_of_lit names.now lit) }
{
    match lit {
        Lit::Int(n) => Ok(Some(Value::Int(n))),
        Lit::Char(c) => Ok(Some(Value::Char(c))),
        Lit::Text(k) => match at(names, k as usize) {
            Some(bytes) => Ok(Some(text_value(alloc, bytes.as_slice())?)),
            None => Ok(None),
        },
    }
}

/// The value of a val, where vals need one another so deep at most.
#[cycle(values)]
fn val(
    alloc: Global,
    names: &[Bytes],
    vals: &[ValDef],
    k: u32,
    depth: usize,
) -> Result<Option<Value>, Memory>
    ensures { IfOk result (λ v. v ≡ vals_to (meaning_of_val names.now) vals.now depth k) }
{
    if depth == 0 {
        return Ok(None);
    }
    match at(vals, k as usize) {
        Some(def) => val_by(alloc, names, vals, def, depth - 1),
        None => Ok(None),
    }
}

#[cycle(values)]
fn val_by(
    alloc: Global,
    names: &[Bytes],
    vals: &[ValDef],
    def: &ValDef,
    depth: usize,
) -> Result<Option<Value>, Memory>
    requires { val_size def.now ≤ sum_by val_size vals.now }
    ensures { IfOk result (λ v. v ≡ meaning names.now (vals_to (meaning_of_val names.now) vals.now depth) def.now.value []) }
{
    value(alloc, names, vals, &def.value, &[], depth)
}

#[cycle(values)]
fn value(
    alloc: Global,
    names: &[Bytes],
    vals: &[ValDef],
    exp: &RExp,
    env: &[Binding],
    depth: usize,
) -> Result<Option<Value>, Memory>
    ensures { IfOk result (λ v. v ≡ meaning names.now (vals_to (meaning_of_val names.now) vals.now depth) exp.now env.now) }
{
    match exp {
        RExp::Lit(lit) => literal(alloc, names, *lit),
        RExp::Var(x) => found(alloc, *x, env),
        RExp::Val(k) => val(alloc, names, vals, *k, depth),
        RExp::Rel(r) => Ok(Some(Value::Rel(*r))),
        RExp::Con(c, es) => match values(alloc, names, vals, es.as_slice(), env, depth)? {
            Some(vs) => Ok(Some(Value::Con(*c, vs))),
            None => Ok(None),
        },
        RExp::Tuple(es) => match values(alloc, names, vals, es.as_slice(), env, depth)? {
            Some(vs) => Ok(Some(Value::Tuple(vs))),
            None => Ok(None),
        },
        RExp::List(es) => match values(alloc, names, vals, es.as_slice(), env, depth)? {
            Some(vs) => Ok(Some(list_of(alloc, vs)?)),
            None => Ok(None),
        },
        RExp::Cons(es) => match values(alloc, names, vals, es.as_slice(), env, depth)? {
            Some(vs) => chain_of(alloc, vs),
            None => Ok(None),
        },
    }
}

#[cycle(values)]
fn values(
    alloc: Global,
    names: &[Bytes],
    vals: &[ValDef],
    exps: &[RExp],
    env: &[Binding],
    depth: usize,
) -> Result<Option<Values>, Memory>
    ensures { IfOk result (λ vs. vs ≡ all_of (map (meaning names.now (vals_to (meaning_of_val names.now) vals.now depth)) exps.now) env.now) }
{
    let mut all = Items::new(alloc);
    for exp in exps {
        match value(alloc, names, vals, exp, env, depth)? {
            None => return Ok(None),
            Some(v) => all.push(v)?,
        }
    }
    Ok(Some(all))
}

/// The value of a val.
pub fn val_of(alloc: Global, tables: &Tables, k: u32) -> Result<Option<Value>, Memory>
    ensures { IfOk result (λ v. v ≡ (context_in tables.now).vals k) }
{
    val(alloc, tables.names, tables.vals, k, tables.vals.len())
}

/// The value of an expression.
pub fn value_of(
    alloc: Global,
    tables: &Tables,
    exp: &RExp,
    env: &[Binding],
) -> Result<Option<Value>, Memory>
    ensures { IfOk result (λ v. v ≡ value_of_exp (context_in tables.now) exp.now env.now) }
{
    let depth = tables.vals.len();
    value(alloc, tables.names, tables.vals, exp, env, depth)
}

/// The values of expressions, from left to right.
pub fn values_of(
    alloc: Global,
    tables: &Tables,
    exps: &[RExp],
    env: &[Binding],
) -> Result<Option<Values>, Memory>
    ensures { IfOk result (λ vs. vs ≡ values_of_exps (context_in tables.now) exps.now env.now) }
{
    let depth = tables.vals.len();
    values(alloc, tables.names, tables.vals, exps, env, depth)
}
