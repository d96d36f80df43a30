//! Patterns against values.

ghost use Rattle.std.specs.Prelude.{◌≡◌, IfOk, map};
ghost use Rattle.rml_value.specs.declared.value.Value.{out-Value};
ghost use Rattle.rml_terms.specs.Matching.{match_list as list_matched, match_chain as chain_matched};
ghost use Rattle.rml_search.specs.Matching.{matching as matching_of, matching_all, match_lit};

use rml_base::{Bytes, Memory};
use rml_evaluation::{
    ListParts, bind, head, match_char, match_end, match_int, match_text, parts, tail,
};
use rml_resolved::RPat;
use rml_syntax::Lit;
use rml_terms::{Env, Matched};
use rml_value::Value;
use sqlite_items::at;
use std::alloc::Global;

fn match_literal(names: &[Bytes], lit: Lit, value: &Value, env: Env) -> Matched
    ensures { result ≡ match_lit names.now lit (out-Value value.now) env }
{
    match lit {
        Lit::Int(n) => match_int(n, value, env),
        Lit::Char(c) => match_char(c, value, env),
        Lit::Text(k) => match at(names, k as usize) {
            Some(bytes) => match_text(bytes.as_slice(), value, env),
            None => Matched::Wrong,
        },
    }
}

/// A pattern against a value.
#[cycle(matching)]
pub fn matching(
    alloc: Global,
    names: &[Bytes],
    pattern: &RPat,
    value: &Value,
    env: Env,
) -> Result<Matched, Memory>
    ensures { IfOk result (λ m. m ≡ matching_of names.now pattern.now value.now env) }
{
    match pattern {
        RPat::Any => Ok(Matched::Yes(env)),
        RPat::Lit(lit) => Ok(match_literal(names, *lit, value, env)),
        RPat::Var(x) => Ok(Matched::Yes(bind(alloc, *x, value, env)?)),
        RPat::Con(c, ps) => match value {
            Value::Con(d, vs) => {
                if c == d {
                    match_each(alloc, names, ps.as_slice(), vs.as_slice(), env)
                } else {
                    Ok(Matched::No)
                }
            }
            _ => Ok(Matched::Wrong),
        },
        RPat::Tuple(ps) => match value {
            Value::Tuple(vs) => match_each(alloc, names, ps.as_slice(), vs.as_slice(), env),
            _ => Ok(Matched::Wrong),
        },
        RPat::List(ps) => match_list(alloc, names, ps.as_slice(), value, env),
        RPat::Cons(ps) => match_chain(alloc, names, ps.as_slice(), value, env),
        RPat::Bind(x, inner) => {
            let env = bind(alloc, *x, value, env)?;
            matching(alloc, names, inner.get(), value, env)
        }
    }
}

/// Patterns against values, from left to right. It is Wrong where they differ in number.
#[cycle(matching)]
pub fn match_each(
    alloc: Global,
    names: &[Bytes],
    patterns: &[RPat],
    values: &[Value],
    env: Env,
) -> Result<Matched, Memory>
    ensures { IfOk result (λ m. m ≡ matching_all names.now patterns.now values.now env) }
{
    if patterns.len() != values.len() {
        return Ok(Matched::Wrong);
    }
    let mut env = env;
    for (i, pattern) in patterns.iter().enumerate() {
        match matching(alloc, names, pattern, &values[i], env)? {
            Matched::Yes(next) => env = next,
            Matched::No => return Ok(Matched::No),
            Matched::Wrong => return Ok(Matched::Wrong),
        }
    }
    Ok(Matched::Yes(env))
}

/// Patterns against the items of a list, which has no more.
#[cycle(matching)]
#[tactic(auto, using(rml_evaluation::proofs::Chains::list_turn))]
fn match_list(
    alloc: Global,
    names: &[Bytes],
    patterns: &[RPat],
    value: &Value,
    env: Env,
) -> Result<Matched, Memory>
    ensures { IfOk result (λ m. m ≡ list_matched (map (matching_of names.now) patterns.now) value.now env) }
{
    let mut env = env;
    let mut rest = value;
    for pattern in patterns {
        match parts(rest) {
            ListParts::HeadAndTail => match matching(alloc, names, pattern, head(rest), env)? {
                Matched::Yes(next) => env = next,
                Matched::No => return Ok(Matched::No),
                Matched::Wrong => return Ok(Matched::Wrong),
            },
            ListParts::Other => return Ok(Matched::No),
            ListParts::Wrong => return Ok(Matched::Wrong),
        }
        rest = tail(rest);
    }
    Ok(match_end(rest, env))
}

/// Patterns against the first items of a list, the last of them against what is left of it.
#[cycle(matching)]
#[tactic(auto, using(rml_evaluation::proofs::Chains::chain_turn))]
fn match_chain(
    alloc: Global,
    names: &[Bytes],
    patterns: &[RPat],
    value: &Value,
    env: Env,
) -> Result<Matched, Memory>
    ensures { IfOk result (λ m. m ≡ chain_matched (map (matching_of names.now) patterns.now) value.now env) }
{
    let mut env = env;
    let mut rest = value;
    for (i, pattern) in patterns.iter().enumerate() {
        if i + 1 == patterns.len() {
            return matching(alloc, names, pattern, rest, env);
        }
        match parts(rest) {
            ListParts::HeadAndTail => match matching(alloc, names, pattern, head(rest), env)? {
                Matched::Yes(next) => env = next,
                Matched::No => return Ok(Matched::No),
                Matched::Wrong => return Ok(Matched::Wrong),
            },
            ListParts::Other => return Ok(Matched::No),
            ListParts::Wrong => return Ok(Matched::Wrong),
        }
        rest = tail(rest);
    }
    Ok(Matched::Wrong)
}
