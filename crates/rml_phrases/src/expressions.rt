//! Expressions, the arguments of calls and the results of rules.

ghost use Rattle.std.specs.Prelude.{◌≡◌, ◌≤◌, [], ◌∷◌, IfOk, length};
ghost use Rattle.rml_syntax.specs.declared.token.Mark.TheVariants as mark;
ghost use Rattle.rml_grammar.specs.Tokens.{after};
ghost use Rattle.rml_grammar.specs.Trees.{applied_exp, tuple_exp, chain_exp, results_exp, listed};
ghost use Rattle.rml_grammar.specs.Reading.{enclosed, enclosed_or_none, repeated};
ghost use Rattle.rml_grammar.specs.Expressions.{exp_at, eapp_at, eatom_at, eapps_at, eargument_at, eargs_at, eseq_at, eseq_inside};
ghost use Rattle.rml_phrases.specs.Mirrors.{Mirrors};

use crate::lists::{alone, joined};
use crate::spots::{eat, front, long};
use crate::stop::{Stop, inward, unexpected};
use rml_grammar::Front;
use rml_syntax::{Exp, Long, Mark, Spot};
use sqlite_items::Items;
use std::alloc::{AllocError, Global};

/// `exp {, exp}` and the closing bracket.
#[cycle(expressions)]
fn exps(
    alloc: Global,
    spots: &[Spot],
    close: Mark,
    levels: u32,
) -> Result<(Items<Exp>, &[Spot]), Stop>
    ensures mirrors { Mirrors (λ x. (x.0, x.1.now)) result (enclosed close (exp_at levels) spots.now) }
    ensures shorter { IfOk result (λ x. length x.1.now ≤ length spots.now) }
{
    let (first, rest) = exp(alloc, spots, levels)?;
    let (more, rest) = more_exps(alloc, rest, levels)?;
    let Some(rest) = eat(rest, close) else {
        return Err(unexpected(rest));
    };
    Ok((joined(first, more)?, rest))
}

/// `{, exp}`
#[cycle(expressions)]
fn more_exps(alloc: Global, spots: &[Spot], levels: u32) -> Result<(Vec<Exp>, &[Spot]), Stop>
    ensures mirrors { Mirrors (λ x. (x.0.items, x.1.now)) result (repeated (after mark.Comma) (exp_at levels) spots.now) }
    ensures shorter { IfOk result (λ x. length x.1.now ≤ length spots.now) }
{
    let mut items = Vec::new(alloc);
    let mut rest = spots;
    while let Some(next) = eat(rest, Mark::Comma) {
        let (item, after) = exp(alloc, next, levels)?;
        items.push(item)?;
        rest = after;
    }
    Ok((items, rest))
}

/// `[exp {, exp}]` and the closing bracket.
#[cycle(expressions)]
fn exps_or_none(
    alloc: Global,
    spots: &[Spot],
    close: Mark,
    levels: u32,
) -> Result<(Items<Exp>, &[Spot]), Stop>
    ensures mirrors { Mirrors (λ x. (x.0, x.1.now)) result (enclosed_or_none close (exp_at levels) spots.now) }
    ensures shorter { IfOk result (λ x. length x.1.now ≤ length spots.now) }
{
    if let Some(rest) = eat(spots, close) {
        return Ok((Items::new(alloc), rest));
    }
    exps(alloc, spots, close, levels)
}

/// An expression in which at most so many brackets are open at once.
#[cycle(expressions)]
#[tactic(auto, using(rml_grammar::proofs::Levels::exp_level))]
pub fn exp(alloc: Global, spots: &[Spot], levels: u32) -> Result<(Exp, &[Spot]), Stop>
    ensures mirrors { Mirrors (λ x. (x.0, x.1.now)) result (exp_at levels spots.now) }
    ensures shorter { IfOk result (λ x. length x.1.now ≤ length spots.now) }
{
    let (first, rest) = application(alloc, spots, levels)?;
    let (more, rest) = tails(alloc, rest, levels)?;
    Ok((chain_from(joined(first, more)?), rest))
}

/// `{:: eapp}`
#[cycle(expressions)]
fn tails(alloc: Global, spots: &[Spot], levels: u32) -> Result<(Vec<Exp>, &[Spot]), Stop>
    ensures mirrors { Mirrors (λ x. (x.0.items, x.1.now)) result (eapps_at levels spots.now) }
    ensures shorter { IfOk result (λ x. length x.1.now ≤ length spots.now) }
{
    let mut items = Vec::new(alloc);
    let mut rest = spots;
    while let Some(next) = eat(rest, Mark::TwoColons) {
        let (item, after) = application(alloc, next, levels)?;
        items.push(item)?;
        rest = after;
    }
    Ok((items, rest))
}

/// An item of a chain.
#[cycle(expressions)]
fn application(alloc: Global, spots: &[Spot], levels: u32) -> Result<(Exp, &[Spot]), Stop>
    ensures mirrors { Mirrors (λ x. (x.0, x.1.now)) result (eapp_at levels spots.now) }
    ensures shorter { IfOk result (λ x. length x.1.now ≤ length spots.now) }
{
    if let (Front::Named, _) = front(spots) {
        let (callee, rest) = long(spots)?;
        let (arguments, rest) = argument(alloc, rest, levels)?;
        return Ok((applied(callee, arguments), rest));
    }
    atom(alloc, spots, levels)
}

/// What stands as one expression without a name before it.
#[cycle(expressions)]
fn atom(alloc: Global, spots: &[Spot], levels: u32) -> Result<(Exp, &[Spot]), Stop>
    ensures mirrors { Mirrors (λ x. (x.0, x.1.now)) result (eatom_at levels spots.now) }
    ensures shorter { IfOk result (λ x. length x.1.now ≤ length spots.now) }
{
    let (first, rest) = front(spots);
    match first {
        Front::Literal(lit) => Ok((Exp::Lit(lit), rest)),
        Front::Square => {
            let inner = inward(spots, levels)?;
            let (items, rest) = exps_or_none(alloc, rest, Mark::CloseSquare, inner)?;
            Ok((Exp::List(items), rest))
        }
        Front::Round => {
            let inner = inward(spots, levels)?;
            let (items, rest) = exps(alloc, rest, Mark::CloseRound, inner)?;
            Ok((tuple_from(items), rest))
        }
        _ => Err(unexpected(spots)),
    }
}

/// The arguments behind a name, where some begin.
#[cycle(expressions)]
fn argument(
    alloc: Global,
    spots: &[Spot],
    levels: u32,
) -> Result<(Option<Items<Exp>>, &[Spot]), Stop>
    ensures mirrors { Mirrors (λ x. (x.0, x.1.now)) result (eargument_at levels spots.now) }
    ensures shorter { IfOk result (λ x. length x.1.now ≤ length spots.now) }
{
    let (first, rest) = front(spots);
    match first {
        Front::Literal(_) | Front::Square => {
            let (item, rest) = atom(alloc, spots, levels)?;
            Ok((Some(alone(alloc, item)?), rest))
        }
        Front::Named => {
            let (name, rest) = long(spots)?;
            Ok((Some(alone(alloc, Exp::Name(name))?), rest))
        }
        Front::Round => {
            let inner = inward(spots, levels)?;
            let (items, rest) = exps(alloc, rest, Mark::CloseRound, inner)?;
            Ok((Some(items), rest))
        }
        _ => Ok((None, spots)),
    }
}

/// The arguments of a call, where absent ones are none.
pub fn arguments(alloc: Global, spots: &[Spot], levels: u32) -> Result<(Items<Exp>, &[Spot]), Stop>
    ensures mirrors { Mirrors (λ x. (x.0, x.1.now)) result (eargs_at levels spots.now) }
    ensures shorter { IfOk result (λ x. length x.1.now ≤ length spots.now) }
{
    if let (Front::Round, rest) = front(spots) {
        let inner = inward(spots, levels)?;
        return exps_or_none(alloc, rest, Mark::CloseRound, inner);
    }
    let (items, rest) = argument(alloc, spots, levels)?;
    Ok((items.unwrap_or(Items::new(alloc)), rest))
}

/// The results of a rule. A tuple that stands bare is as many results.
pub fn results(alloc: Global, spots: &[Spot], levels: u32) -> Result<(Items<Exp>, &[Spot]), Stop>
    ensures mirrors { Mirrors (λ x. (x.0, x.1.now)) result (eseq_at levels spots.now) }
    ensures shorter { IfOk result (λ x. length x.1.now ≤ length spots.now) }
{
    if let (Front::Round, rest) = front(spots) {
        let inner = inward(spots, levels)?;
        return bracketed_results(alloc, rest, levels, inner);
    }
    let (only, rest) = exp(alloc, spots, levels)?;
    Ok((alone(alloc, only)?, rest))
}

/// The results that begin with a round bracket, behind it.
fn bracketed_results(
    alloc: Global,
    spots: &[Spot],
    levels: u32,
    inner: u32,
) -> Result<(Items<Exp>, &[Spot]), Stop>
    ensures mirrors { Mirrors (λ x. (x.0, x.1.now)) result (eseq_inside levels (exp_at inner) spots.now) }
    ensures shorter { IfOk result (λ x. length x.1.now ≤ length spots.now) }
{
    if let Some(rest) = eat(spots, Mark::CloseRound) {
        return Ok((Items::new(alloc), rest));
    }
    let (items, rest) = exps(alloc, spots, Mark::CloseRound, inner)?;
    let (more, rest) = tails(alloc, rest, levels)?;
    Ok((results_from(alloc, items, more)?, rest))
}

fn tuple_from(mut items: Items<Exp>) -> Exp
    ensures { result ≡ tuple_exp items }
{
    if items.len() == 1
        && let Some(only) = items.pop()
    {
        return only;
    }
    Exp::Tuple(items)
}

fn chain_from(mut items: Items<Exp>) -> Exp
    ensures { result ≡ chain_exp items }
{
    if items.len() == 1
        && let Some(only) = items.pop()
    {
        return only;
    }
    Exp::Cons(items)
}

fn applied(callee: Long, arguments: Option<Items<Exp>>) -> Exp
    ensures { result ≡ applied_exp callee arguments }
{
    match arguments {
        Some(arguments) => Exp::App(callee, arguments),
        None => Exp::Name(callee),
    }
}

/// What a bracket with these items gives as results, where a chain goes on with `more`.
fn results_from(alloc: Global, items: Items<Exp>, more: Vec<Exp>) -> Result<Items<Exp>, AllocError>
    ensures { IfOk result (λ xs. xs ≡ results_exp items more.items) }
{
    if items.len() > 1 && more.is_empty() {
        return Ok(items);
    }
    let chain = joined(tuple_from(items), more)?;
    alone(alloc, chain_from(chain))
}
