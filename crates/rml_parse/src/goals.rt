//! Goals, the premises of rules.

ghost use Rattle.std.specs.Prelude.{◌≡◌, ◌≤◌, [], ◌∷◌, IfOk, length};
ghost use Rattle.rml_syntax.specs.declared.token.Mark.TheVariants as mark;
ghost use Rattle.rml_grammar.specs.Tokens.{after};
ghost use Rattle.rml_grammar.specs.Reading.{repeated};
ghost use Rattle.rml_grammar.specs.Goals as grammar;
ghost use Rattle.rml_phrases.specs.Mirrors.{Mirrors};

use rml_grammar::Front;
use rml_phrases::expressions::{arguments, exp};
use rml_phrases::lists::joined;
use rml_phrases::patterns::{pattern, results};
use rml_phrases::spots::{eat, front, long};
use rml_phrases::stop::{Stop, inward, unexpected};
use rml_syntax::{Goal, Long, Mark, Pattern, Spot};
use sqlite_items::{Boxed, Items};
use std::alloc::Global;

/// Goals in which at most so many brackets are open at once.
#[cycle(goals)]
#[tactic(auto, using(rml_grammar::proofs::Levels::goals_level))]
pub(crate) fn goals(
    alloc: Global,
    spots: &[Spot],
    levels: u32,
) -> Result<(Items<Goal>, &[Spot]), Stop>
    ensures mirrors { Mirrors (λ x. (x.0, x.1.now)) result (grammar.goals_at levels spots.now) }
    ensures shorter { IfOk result (λ x. length x.1.now ≤ length spots.now) }
{
    let (first, rest) = goal(alloc, spots, levels)?;
    let (more, rest) = more_goals(alloc, rest, levels)?;
    Ok((joined(first, more)?, rest))
}

/// `{& goal}`
#[cycle(goals)]
fn more_goals(alloc: Global, spots: &[Spot], levels: u32) -> Result<(Vec<Goal>, &[Spot]), Stop>
    ensures mirrors { Mirrors (λ x. (x.0.items, x.1.now)) result (repeated (after mark.Amp) (grammar.goal_at levels) spots.now) }
    ensures shorter { IfOk result (λ x. length x.1.now ≤ length spots.now) }
{
    let mut items = Vec::new(alloc);
    let mut rest = spots;
    while let Some(next) = eat(rest, Mark::Amp) {
        let (item, after) = goal(alloc, next, levels)?;
        items.push(item)?;
        rest = after;
    }
    Ok((items, rest))
}

#[cycle(goals)]
fn goal(alloc: Global, spots: &[Spot], levels: u32) -> Result<(Goal, &[Spot]), Stop>
    ensures mirrors { Mirrors (λ x. (x.0, x.1.now)) result (grammar.goal_at levels spots.now) }
    ensures shorter { IfOk result (λ x. length x.1.now ≤ length spots.now) }
{
    if let (Front::Not, rest) = front(spots) {
        let (refuted, rest) = atom(alloc, rest, levels)?;
        return Ok((Goal::Not(Boxed::new(alloc, refuted)?), rest));
    }
    atom(alloc, spots, levels)
}

/// A goal that is not negated.
#[cycle(goals)]
fn atom(alloc: Global, spots: &[Spot], levels: u32) -> Result<(Goal, &[Spot]), Stop>
    ensures mirrors { Mirrors (λ x. (x.0, x.1.now)) result (grammar.gatom_at levels spots.now) }
    ensures shorter { IfOk result (λ x. length x.1.now ≤ length spots.now) }
{
    let (first, rest) = front(spots);
    match first {
        Front::Let => matching(alloc, rest, levels),
        Front::Named => {
            let (name, rest) = long(spots)?;
            named(alloc, name, rest, levels)
        }
        Front::Round => {
            let inner = inward(spots, levels)?;
            let (items, rest) = goals(alloc, rest, inner)?;
            let Some(rest) = eat(rest, Mark::CloseRound) else {
                return Err(unexpected(rest));
            };
            Ok((Goal::All(items), rest))
        }
        _ => Err(unexpected(spots)),
    }
}

/// `pat = exp`, behind a `let`.
fn matching(alloc: Global, spots: &[Spot], levels: u32) -> Result<(Goal, &[Spot]), Stop>
    ensures mirrors { Mirrors (λ x. (x.0, x.1.now)) result (grammar.matching_at levels spots.now) }
    ensures shorter { IfOk result (λ x. length x.1.now ≤ length spots.now) }
{
    let (left, rest) = pattern(alloc, spots, levels)?;
    let Some(rest) = eat(rest, Mark::Equals) else {
        return Err(unexpected(rest));
    };
    let (right, rest) = exp(alloc, rest, levels)?;
    Ok((Goal::Let(Boxed::new(alloc, left)?, right), rest))
}

/// What a name begins: an equation, or a call.
fn named(alloc: Global, name: Long, spots: &[Spot], levels: u32) -> Result<(Goal, &[Spot]), Stop>
    ensures mirrors { Mirrors (λ x. (x.0, x.1.now)) result (grammar.long_goal_by levels name spots.now (after mark.Equals spots.now)) }
    ensures shorter { IfOk result (λ x. length x.1.now ≤ length spots.now) }
{
    if let Some(rest) = eat(spots, Mark::Equals) {
        let (right, rest) = exp(alloc, rest, levels)?;
        return Ok((Goal::Equal(name, right), rest));
    }
    let (inputs, rest) = arguments(alloc, spots, levels)?;
    let (outputs, rest) = call_results(alloc, rest, levels)?;
    Ok((Goal::Call(name, inputs, outputs), rest))
}

/// The results of a call, where absent ones are none.
fn call_results(
    alloc: Global,
    spots: &[Spot],
    levels: u32,
) -> Result<(Items<Pattern>, &[Spot]), Stop>
    ensures mirrors { Mirrors (λ x. (x.0, x.1.now)) result (grammar.call_results_at levels spots.now) }
    ensures shorter { IfOk result (λ x. length x.1.now ≤ length spots.now) }
{
    let Some(rest) = eat(spots, Mark::Arrow) else {
        return Ok((Items::new(alloc), spots));
    };
    results(alloc, rest, levels)
}
