//! Rules: `axiom` and `rule`, and the rules of a relation.

ghost use Rattle.std.specs.Prelude.{◌≡◌, ◌<◌, ◌≤◌, ◌-◌, IfOk, length};
ghost use Rattle.rml_base.specs.declared.limits.TheConstants.{BYTES};
ghost use Rattle.rml_grammar.specs.Texts as grammar;
ghost use Rattle.rml_grammar.specs.Trees.{rule_of};
ghost use Rattle.rml_phrases.specs.Mirrors.{Mirrors};

use crate::goals::goals;
use crate::openings::{at_rule, opening};
use rml_base::Place;
use rml_grammar::{Front, Opening, ParseKind};
use rml_phrases::expressions::results;
use rml_phrases::lists::joined;
use rml_phrases::patterns::arguments;
use rml_phrases::spots::{eat, eat_word, front, name};
use rml_phrases::stop::{Stop, at, unexpected};
use rml_syntax::{Exp, Goal, Key, Mark, Pattern, Rule, Spot};
use sqlite_items::Items;
use std::alloc::Global;

/// What a rule concludes.
#[derive(Debug, Drop)]
struct Head {
    name: u32,
    place: Place,
    inputs: Items<Pattern>,
    results: Items<Exp>,
}

/// `clause {clause} end`, with at most so many clauses after the first.
pub(crate) fn rules(
    alloc: Global,
    spots: &[Spot],
    levels: u32,
    further: u32,
) -> Result<(Items<Rule>, &[Spot]), Stop>
    requires { length spots.now ≤ BYTES }
    ensures mirrors { Mirrors (λ x. (x.0, x.1.now)) result (grammar.rules_at levels further spots.now) }
    ensures shorter { IfOk result (λ x. length x.1.now ≤ length spots.now) }
{
    let (first, rest) = rule(alloc, spots, levels)?;
    let (more, rest) = more_rules(alloc, rest, levels, further)?;
    let Some(rest) = eat_word(rest, Key::KEnd) else {
        return Err(unexpected(rest));
    };
    Ok((joined(first, more)?, rest))
}

/// `{clause}`, at most so many.
fn more_rules(
    alloc: Global,
    spots: &[Spot],
    levels: u32,
    most: u32,
) -> Result<(Vec<Rule>, &[Spot]), Stop>
    requires { length spots.now ≤ BYTES }
    ensures mirrors { Mirrors (λ x. (x.0.items, x.1.now)) result (grammar.clauses_at levels most spots.now) }
    ensures shorter { IfOk result (λ x. length x.1.now ≤ length spots.now) }
{
    let mut items = Vec::new(alloc);
    let mut left = most;
    let mut rest = spots;
    while let Some(next) = at_rule(rest) {
        if left == 0 {
            return Err(at(ParseKind::TooManyRules, rest));
        }
        let (item, after) = rule(alloc, next, levels)?;
        items.push(item)?;
        left -= 1;
        rest = after;
    }
    Ok((items, rest))
}

/// `axiom head` or `rule [goals] dashes head`
fn rule(alloc: Global, spots: &[Spot], levels: u32) -> Result<(Rule, &[Spot]), Stop>
    requires { length spots.now ≤ BYTES }
    ensures mirrors { Mirrors (λ x. (x.0, x.1.now)) result (grammar.clause_at levels spots.now) }
    ensures shorter { IfOk result (λ x. length x.1.now < length spots.now) }
{
    let (first, rest) = opening(spots);
    match first {
        Opening::Axiom(place) => {
            let (head, rest) = rule_head(alloc, rest, levels)?;
            let tokens = taken(spots, rest);
            Ok((rule_from(place, Items::new(alloc), head, tokens), rest))
        }
        Opening::Rule(place) => {
            let (goals, rest) = premises(alloc, rest, levels)?;
            let (head, rest) = rule_head(alloc, rest, levels)?;
            let tokens = taken(spots, rest);
            Ok((rule_from(place, goals, head, tokens), rest))
        }
        _ => Err(unexpected(spots)),
    }
}

/// `[goals] dashes`
fn premises(alloc: Global, spots: &[Spot], levels: u32) -> Result<(Items<Goal>, &[Spot]), Stop>
    ensures mirrors { Mirrors (λ x. (x.0, x.1.now)) result (grammar.premises_at levels spots.now) }
    ensures shorter { IfOk result (λ x. length x.1.now ≤ length spots.now) }
{
    if let (Front::Dashes, rest) = front(spots) {
        return Ok((Items::new(alloc), rest));
    }
    let (items, rest) = goals(alloc, spots, levels)?;
    if let (Front::Dashes, after) = front(rest) {
        return Ok((items, after));
    }
    Err(unexpected(rest))
}

/// `name [pargs] [=> eseq]`
fn rule_head(alloc: Global, spots: &[Spot], levels: u32) -> Result<(Head, &[Spot]), Stop>
    ensures mirrors { Mirrors (λ x. (((x.0.name, x.0.place), x.0.inputs, x.0.results), x.1.now)) result (grammar.head_at levels spots.now) }
    ensures shorter { IfOk result (λ x. length x.1.now < length spots.now) }
{
    let ((name, place), rest) = name(spots)?;
    let (inputs, rest) = arguments(alloc, rest, levels)?;
    let (results, rest) = rule_results(alloc, rest, levels)?;
    let head = Head {
        name,
        place,
        inputs,
        results,
    };
    Ok((head, rest))
}

/// The results of a rule, where absent ones are none.
fn rule_results(alloc: Global, spots: &[Spot], levels: u32) -> Result<(Items<Exp>, &[Spot]), Stop>
    ensures mirrors { Mirrors (λ x. (x.0, x.1.now)) result (grammar.rule_results_at levels spots.now) }
    ensures shorter { IfOk result (λ x. length x.1.now ≤ length spots.now) }
{
    let Some(rest) = eat(spots, Mark::Arrow) else {
        return Ok((Items::new(alloc), spots));
    };
    results(alloc, rest, levels)
}

fn rule_from(place: Place, goals: Items<Goal>, head: Head, tokens: u32) -> Rule
    ensures { result ≡ rule_of place goals ((head.name, head.place), head.inputs, head.results) tokens }
{
    Rule {
        place,
        head: head.name,
        head_place: head.place,
        inputs: head.inputs,
        goals,
        results: head.results,
        tokens,
    }
}

/// How many of the spots stand before the rest.
fn taken(spots: &[Spot], rest: &[Spot]) -> u32
    requires within { length rest.now ≤ length spots.now }
    requires few { length spots.now ≤ BYTES }
    ensures { result ≡ length spots.now - length rest.now }
{
    (spots.len() - rest.len()) as u32
}
