//! Patterns, the arguments of heads and the results of calls.

ghost use Rattle.std.specs.Prelude.{◌≡◌, ◌≤◌, [], ◌∷◌, IfOk, length};
ghost use Rattle.rml_syntax.specs.declared.token.Mark.TheVariants as mark;
ghost use Rattle.rml_grammar.specs.Tokens.{after};
ghost use Rattle.rml_grammar.specs.Trees.{applied_pat, tuple_pat, chain_pat, results_pat, listed};
ghost use Rattle.rml_grammar.specs.Reading.{enclosed, enclosed_or_none, repeated};
ghost use Rattle.rml_grammar.specs.Patterns.{pat_at, pcons_at, papp_at, patom_at, papps_at, pargument_at, pargs_at, pseq_at, pseq_inside};
ghost use Rattle.rml_phrases.specs.Mirrors.{Mirrors};

use crate::lists::{alone, joined};
use crate::spots::{binder, eat, front, long};
use crate::stop::{Stop, inward, unexpected};
use rml_grammar::Front;
use rml_syntax::{Long, Mark, Pattern, Spot};
use sqlite_items::{Boxed, Items};
use std::alloc::{AllocError, Global};

/// `pat {, pat}` and the closing bracket.
#[cycle(patterns)]
fn pats(
    alloc: Global,
    spots: &[Spot],
    close: Mark,
    levels: u32,
) -> Result<(Items<Pattern>, &[Spot]), Stop>
    ensures mirrors { Mirrors (λ x. (x.0, x.1.now)) result (enclosed close (pat_at levels) spots.now) }
    ensures shorter { IfOk result (λ x. length x.1.now ≤ length spots.now) }
{
    let (first, rest) = pattern(alloc, spots, levels)?;
    let (more, rest) = more_pats(alloc, rest, levels)?;
    let Some(rest) = eat(rest, close) else {
        return Err(unexpected(rest));
    };
    Ok((joined(first, more)?, rest))
}

/// `{, pat}`
#[cycle(patterns)]
fn more_pats(alloc: Global, spots: &[Spot], levels: u32) -> Result<(Vec<Pattern>, &[Spot]), Stop>
    ensures mirrors { Mirrors (λ x. (x.0.items, x.1.now)) result (repeated (after mark.Comma) (pat_at levels) spots.now) }
    ensures shorter { IfOk result (λ x. length x.1.now ≤ length spots.now) }
{
    let mut items = Vec::new(alloc);
    let mut rest = spots;
    while let Some(next) = eat(rest, Mark::Comma) {
        let (item, after) = pattern(alloc, next, levels)?;
        items.push(item)?;
        rest = after;
    }
    Ok((items, rest))
}

/// `[pat {, pat}]` and the closing bracket.
#[cycle(patterns)]
fn pats_or_none(
    alloc: Global,
    spots: &[Spot],
    close: Mark,
    levels: u32,
) -> Result<(Items<Pattern>, &[Spot]), Stop>
    ensures mirrors { Mirrors (λ x. (x.0, x.1.now)) result (enclosed_or_none close (pat_at levels) spots.now) }
    ensures shorter { IfOk result (λ x. length x.1.now ≤ length spots.now) }
{
    if let Some(rest) = eat(spots, close) {
        return Ok((Items::new(alloc), rest));
    }
    pats(alloc, spots, close, levels)
}

/// A pattern in which at most so many brackets are open at once.
#[cycle(patterns)]
#[tactic(auto, using(rml_grammar::proofs::Levels::pat_level))]
pub fn pattern(alloc: Global, spots: &[Spot], levels: u32) -> Result<(Pattern, &[Spot]), Stop>
    ensures mirrors { Mirrors (λ x. (x.0, x.1.now)) result (pat_at levels spots.now) }
    ensures shorter { IfOk result (λ x. length x.1.now ≤ length spots.now) }
{
    let Some(((name, place), rest)) = binder(spots) else {
        return chain(alloc, spots, levels);
    };
    let (bound, rest) = chain(alloc, rest, levels)?;
    Ok((Pattern::Bind(name, place, Boxed::new(alloc, bound)?), rest))
}

/// `papp {:: papp}`
#[cycle(patterns)]
fn chain(alloc: Global, spots: &[Spot], levels: u32) -> Result<(Pattern, &[Spot]), Stop>
    ensures mirrors { Mirrors (λ x. (x.0, x.1.now)) result (pcons_at levels spots.now) }
    ensures shorter { IfOk result (λ x. length x.1.now ≤ length spots.now) }
{
    let (first, rest) = application(alloc, spots, levels)?;
    let (more, rest) = tails(alloc, rest, levels)?;
    Ok((chain_from(joined(first, more)?), rest))
}

/// `{:: papp}`
#[cycle(patterns)]
fn tails(alloc: Global, spots: &[Spot], levels: u32) -> Result<(Vec<Pattern>, &[Spot]), Stop>
    ensures mirrors { Mirrors (λ x. (x.0.items, x.1.now)) result (papps_at levels spots.now) }
    ensures shorter { IfOk result (λ x. length x.1.now ≤ length spots.now) }
{
    let mut items = Vec::new(alloc);
    let mut rest = spots;
    while let Some(next) = eat(rest, Mark::TwoColons) {
        let (item, after) = application(alloc, next, levels)?;
        items.push(item)?;
        rest = after;
    }
    Ok((items, rest))
}

/// An item of a chain.
#[cycle(patterns)]
fn application(alloc: Global, spots: &[Spot], levels: u32) -> Result<(Pattern, &[Spot]), Stop>
    ensures mirrors { Mirrors (λ x. (x.0, x.1.now)) result (papp_at levels spots.now) }
    ensures shorter { IfOk result (λ x. length x.1.now ≤ length spots.now) }
{
    if let (Front::Named, _) = front(spots) {
        let (callee, rest) = long(spots)?;
        let (arguments, rest) = argument(alloc, rest, levels)?;
        return Ok((applied(callee, arguments), rest));
    }
    atom(alloc, spots, levels)
}

/// What stands as one pattern without a name before it.
#[cycle(patterns)]
fn atom(alloc: Global, spots: &[Spot], levels: u32) -> Result<(Pattern, &[Spot]), Stop>
    ensures mirrors { Mirrors (λ x. (x.0, x.1.now)) result (patom_at levels spots.now) }
    ensures shorter { IfOk result (λ x. length x.1.now ≤ length spots.now) }
{
    let (first, rest) = front(spots);
    match first {
        Front::Literal(lit) => Ok((Pattern::Lit(lit), rest)),
        Front::Wild => Ok((Pattern::Any, rest)),
        Front::Square => {
            let inner = inward(spots, levels)?;
            let (items, rest) = pats_or_none(alloc, rest, Mark::CloseSquare, inner)?;
            Ok((Pattern::List(items), rest))
        }
        Front::Round => {
            let inner = inward(spots, levels)?;
            let (items, rest) = pats(alloc, rest, Mark::CloseRound, inner)?;
            Ok((tuple_from(items), rest))
        }
        _ => Err(unexpected(spots)),
    }
}

/// The arguments behind a name, where some begin.
#[cycle(patterns)]
fn argument(
    alloc: Global,
    spots: &[Spot],
    levels: u32,
) -> Result<(Option<Items<Pattern>>, &[Spot]), Stop>
    ensures mirrors { Mirrors (λ x. (x.0, x.1.now)) result (pargument_at levels spots.now) }
    ensures shorter { IfOk result (λ x. length x.1.now ≤ length spots.now) }
{
    let (first, rest) = front(spots);
    match first {
        Front::Literal(_) | Front::Wild | Front::Square => {
            let (item, rest) = atom(alloc, spots, levels)?;
            Ok((Some(alone(alloc, item)?), rest))
        }
        Front::Named => {
            let (name, rest) = long(spots)?;
            Ok((Some(alone(alloc, Pattern::Name(name))?), rest))
        }
        Front::Round => {
            let inner = inward(spots, levels)?;
            let (items, rest) = pats(alloc, rest, Mark::CloseRound, inner)?;
            Ok((Some(items), rest))
        }
        _ => Ok((None, spots)),
    }
}

/// The arguments of a head, where absent ones are none.
pub fn arguments(
    alloc: Global,
    spots: &[Spot],
    levels: u32,
) -> Result<(Items<Pattern>, &[Spot]), Stop>
    ensures mirrors { Mirrors (λ x. (x.0, x.1.now)) result (pargs_at levels spots.now) }
    ensures shorter { IfOk result (λ x. length x.1.now ≤ length spots.now) }
{
    if let (Front::Round, rest) = front(spots) {
        let inner = inward(spots, levels)?;
        return pats_or_none(alloc, rest, Mark::CloseRound, inner);
    }
    let (items, rest) = argument(alloc, spots, levels)?;
    Ok((items.unwrap_or(Items::new(alloc)), rest))
}

/// The patterns of the results of a call. A tuple that stands bare is as many results.
pub fn results(
    alloc: Global,
    spots: &[Spot],
    levels: u32,
) -> Result<(Items<Pattern>, &[Spot]), Stop>
    ensures mirrors { Mirrors (λ x. (x.0, x.1.now)) result (pseq_at levels spots.now) }
    ensures shorter { IfOk result (λ x. length x.1.now ≤ length spots.now) }
{
    if let (Front::Round, rest) = front(spots) {
        let inner = inward(spots, levels)?;
        return bracketed_results(alloc, rest, levels, inner);
    }
    let (only, rest) = pattern(alloc, spots, levels)?;
    Ok((alone(alloc, only)?, rest))
}

/// The results that begin with a round bracket, behind it.
fn bracketed_results(
    alloc: Global,
    spots: &[Spot],
    levels: u32,
    inner: u32,
) -> Result<(Items<Pattern>, &[Spot]), Stop>
    ensures mirrors { Mirrors (λ x. (x.0, x.1.now)) result (pseq_inside levels (pat_at inner) spots.now) }
    ensures shorter { IfOk result (λ x. length x.1.now ≤ length spots.now) }
{
    if let Some(rest) = eat(spots, Mark::CloseRound) {
        return Ok((Items::new(alloc), rest));
    }
    let (items, rest) = pats(alloc, spots, Mark::CloseRound, inner)?;
    let (more, rest) = tails(alloc, rest, levels)?;
    Ok((results_from(alloc, items, more)?, rest))
}

fn tuple_from(mut items: Items<Pattern>) -> Pattern
    ensures { result ≡ tuple_pat items }
{
    if items.len() == 1
        && let Some(only) = items.pop()
    {
        return only;
    }
    Pattern::Tuple(items)
}

fn chain_from(mut items: Items<Pattern>) -> Pattern
    ensures { result ≡ chain_pat items }
{
    if items.len() == 1
        && let Some(only) = items.pop()
    {
        return only;
    }
    Pattern::Cons(items)
}

fn applied(callee: Long, arguments: Option<Items<Pattern>>) -> Pattern
    ensures { result ≡ applied_pat callee arguments }
{
    match arguments {
        Some(arguments) => Pattern::App(callee, arguments),
        None => Pattern::Name(callee),
    }
}

/// What a bracket with these items gives as results, where a chain goes on with `more`.
fn results_from(
    alloc: Global,
    items: Items<Pattern>,
    more: Vec<Pattern>,
) -> Result<Items<Pattern>, AllocError>
    ensures { IfOk result (λ xs. xs ≡ results_pat items more.items) }
{
    if items.len() > 1 && more.is_empty() {
        return Ok(items);
    }
    let chain = joined(tuple_from(items), more)?;
    alone(alloc, chain_from(chain))
}
