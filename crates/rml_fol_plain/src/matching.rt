//! Patterns against values.

ghost use Rattle.std.specs.Prelude.{◌≡◌, IfOk, map};
ghost use Rattle.rml_value.specs.declared.value.Value.{out-Value};
ghost use Rattle.rml_terms.specs.Matching.{match_all, match_list as list_matched, match_chain as chain_matched};
ghost use Rattle.rml_fol.specs.Patterns.{matching as matching_of, match_literal as literal_matched};

use rml_base::Memory;
use rml_evaluation::{
    ListParts, bind, head, match_char, match_end, match_int, match_text, parts, tail,
};
use rml_fol::{Literal, Pattern};
use rml_terms::{Env, Matched};
use rml_value::Value;
use std::alloc::Global;

fn match_literal(literal: &Literal, value: &Value, env: Env) -> Matched
    ensures { result ≡ literal_matched literal.now (out-Value value.now) env }
{
    match literal {
        Literal::Int(n) => match_int(*n, value, env),
        Literal::Char(c) => match_char(*c, value, env),
        Literal::Text(bytes) => match_text(bytes.as_slice(), value, env),
    }
}

/// A pattern against a value.
#[cycle(matching)]
pub fn matching(
    alloc: Global,
    pattern: &Pattern,
    value: &Value,
    env: Env,
) -> Result<Matched, Memory>
    ensures { IfOk result (λ m. m ≡ matching_of pattern.now value.now env) }
{
    match pattern {
        Pattern::Any => Ok(Matched::Yes(env)),
        Pattern::Lit(literal) => Ok(match_literal(literal, value, env)),
        Pattern::Var(x) => Ok(Matched::Yes(bind(alloc, *x, value, env)?)),
        Pattern::Con(c, ps) => match value {
            Value::Con(d, vs) => {
                if c == d {
                    match_each(alloc, ps.as_slice(), vs.as_slice(), env)
                } else {
                    Ok(Matched::No)
                }
            }
            _ => Ok(Matched::Wrong),
        },
        Pattern::Tuple(ps) => match value {
            Value::Tuple(vs) => match_each(alloc, ps.as_slice(), vs.as_slice(), env),
            _ => Ok(Matched::Wrong),
        },
        Pattern::List(ps) => match_list(alloc, ps.as_slice(), value, env),
        Pattern::Cons(ps) => match_chain(alloc, ps.as_slice(), value, env),
        Pattern::Bind(x, inner) => {
            let env = bind(alloc, *x, value, env)?;
            matching(alloc, inner.get(), value, env)
        }
    }
}

/// Patterns against values, from left to right. It is Wrong where they differ in number.
#[cycle(matching)]
fn match_each(
    alloc: Global,
    patterns: &[Pattern],
    values: &[Value],
    env: Env,
) -> Result<Matched, Memory>
    ensures { IfOk result (λ m. m ≡ match_all (map matching_of patterns.now) values.now env) }
{
    if patterns.len() != values.len() {
        return Ok(Matched::Wrong);
    }
    let mut env = env;
    for (i, pattern) in patterns.iter().enumerate() {
        match matching(alloc, pattern, &values[i], env)? {
            Matched::Yes(next) => env = next,
            Matched::No => return Ok(Matched::No),
            Matched::Wrong => return Ok(Matched::Wrong),
        }
    }
    Ok(Matched::Yes(env))
}

/// Patterns against the items of a list, which has no more.
#[cycle(matching)]
#[tactic(auto, using(rml_evaluation::proofs::Callers::list_turn))]
fn match_list(
    alloc: Global,
    patterns: &[Pattern],
    value: &Value,
    env: Env,
) -> Result<Matched, Memory>
    ensures { IfOk result (λ m. m ≡ list_matched (map matching_of patterns.now) value.now env) }
{
    let mut env = env;
    let mut rest = value;
    for pattern in patterns {
        match parts(rest) {
            ListParts::HeadAndTail => match matching(alloc, pattern, head(rest), env)? {
                Matched::Yes(next) => env = next,
                Matched::No => return Ok(Matched::No),
                Matched::Wrong => return Ok(Matched::Wrong),
            },
            ListParts::Other => return Ok(Matched::No),
            ListParts::Wrong => return Ok(Matched::Wrong),
        }
        rest = tail(rest);
    }
    Ok(match_end(rest, env))
}

/// Patterns against the first items of a list, the last of them against what is left of it.
#[cycle(matching)]
#[tactic(auto, using(rml_evaluation::proofs::Callers::chain_turn))]
fn match_chain(
    alloc: Global,
    patterns: &[Pattern],
    value: &Value,
    env: Env,
) -> Result<Matched, Memory>
    ensures { IfOk result (λ m. m ≡ chain_matched (map matching_of patterns.now) value.now env) }
{
    let mut env = env;
    let mut rest = value;
    for (i, pattern) in patterns.iter().enumerate() {
        if i + 1 == patterns.len() {
            return matching(alloc, pattern, rest, env);
        }
        match parts(rest) {
            ListParts::HeadAndTail => match matching(alloc, pattern, head(rest), env)? {
                Matched::Yes(next) => env = next,
                Matched::No => return Ok(Matched::No),
                Matched::Wrong => return Ok(Matched::Wrong),
            },
            ListParts::Other => return Ok(Matched::No),
            ListParts::Wrong => return Ok(Matched::Wrong),
        }
        rest = tail(rest);
    }
    Ok(Matched::Wrong)
}
