//! Types and signatures. What a round bracket holds is known only behind it, or at an arrow in it.

ghost use Rattle.std.specs.Prelude.{◌≡◌, ◌≤◌, [], ◌∷◌, IfOk, length};
ghost use Rattle.std.specs.Option.{option_map};
ghost use Rattle.rml_syntax.specs.declared.token.Mark.TheVariants as mark;
ghost use Rattle.rml_grammar.specs.declared.types.Bracket.TheVariants as bracket;
ghost use Rattle.rml_grammar.specs.Tokens.{after};
ghost use Rattle.rml_grammar.specs.Trees.{named_type, product_type};
ghost use Rattle.rml_grammar.specs.Reading.{repeated};
ghost use Rattle.rml_grammar.specs.Types as grammar;
ghost use Rattle.rml_phrases.specs.Mirrors.{Mirrors};

use crate::lists::{alone, fitted, joined};
use crate::spots::{at_name, eat, front, long};
use crate::stop::{Stop, inward, unexpected};
use rml_grammar::{Bracket, Front, Types};
use rml_syntax::{Long, Mark, Sig, Spot, TypeExp};
use sqlite_items::{Boxed, Items};
use std::alloc::{AllocError, Global};

/// `tseq => tseq`
pub fn sig(alloc: Global, spots: &[Spot], levels: u32) -> Result<(Sig, &[Spot]), Stop>
    ensures mirrors { Mirrors (λ x. (x.0, x.1.now)) result (grammar.sig_at levels spots.now) }
    ensures shorter { IfOk result (λ x. length x.1.now ≤ length spots.now) }
{
    let (inputs, rest) = types(alloc, spots, levels)?;
    let Some(rest) = eat(rest, Mark::Arrow) else {
        return Err(unexpected(rest));
    };
    let (outputs, rest) = types(alloc, rest, levels)?;
    Ok((sig_from(alloc, inputs, outputs)?, rest))
}

/// What stands in a round bracket, and the closing bracket; at most so many further ones are open in it at once.
#[cycle(types)]
#[tactic(auto, using(rml_grammar::proofs::Levels::bracket_level))]
fn bracket(alloc: Global, spots: &[Spot], levels: u32) -> Result<(Bracket, &[Spot]), Stop>
    ensures mirrors { Mirrors (λ x. (x.0, x.1.now)) result (grammar.bracket_at levels spots.now) }
    ensures shorter { IfOk result (λ x. length x.1.now ≤ length spots.now) }
{
    let (first, rest) = types(alloc, spots, levels)?;
    if let Some(rest) = eat(rest, Mark::Arrow) {
        let (outputs, rest) = types(alloc, rest, levels)?;
        let sig = sig_from(alloc, first, outputs)?;
        let Some(rest) = eat(rest, Mark::CloseRound) else {
            return Err(unexpected(rest));
        };
        return Ok((Bracket::Sig(sig), rest));
    }
    bracket_from(alloc, first, rest, levels)
}

/// The types that begin with these, and the closing bracket. A list in brackets is no type.
#[cycle(types)]
fn bracket_from(
    alloc: Global,
    first: Types,
    spots: &[Spot],
    levels: u32,
) -> Result<(Bracket, &[Spot]), Stop>
    ensures mirrors { Mirrors (λ x. (x.0, x.1.now)) result (grammar.bracket_from (grammar.inner_bracket levels) first spots.now) }
    ensures shorter { IfOk result (λ x. length x.1.now ≤ length spots.now) }
{
    let Types::One(first) = first else {
        return Err(unexpected(spots));
    };
    let (more, rest) = more_types(alloc, spots, levels)?;
    let Some(rest) = eat(rest, Mark::CloseRound) else {
        return Err(unexpected(rest));
    };
    Ok((Bracket::Types(joined(first, more)?), rest))
}

/// The inputs or the outputs of a signature. A tuple that stands bare is as many of them.
#[cycle(types)]
fn types(alloc: Global, spots: &[Spot], levels: u32) -> Result<(Types, &[Spot]), Stop>
    ensures mirrors { Mirrors (λ x. (x.0, x.1.now)) result (grammar.tseq_at levels spots.now) }
    ensures shorter { IfOk result (λ x. length x.1.now ≤ length spots.now) }
{
    if let (Front::Round, rest) = front(spots) {
        let inner = inward(spots, levels)?;
        if let Some(rest) = eat(rest, Mark::CloseRound) {
            return Ok((Types::Bare(Items::new(alloc)), rest));
        }
        let (found, rest) = bracket(alloc, rest, inner)?;
        let (names, rest) = longs(alloc, rest)?;
        return types_from(alloc, found, fitted(names), rest, levels);
    }
    let (only, rest) = type_exp(alloc, spots, levels)?;
    Ok((Types::One(only), rest))
}

/// What a bracket and the names behind it begin: more types than one with no name are a list.
#[cycle(types)]
fn types_from(
    alloc: Global,
    found: Bracket,
    names: Items<Long>,
    spots: &[Spot],
    levels: u32,
) -> Result<(Types, &[Spot]), Stop>
    ensures mirrors { Mirrors (λ x. (x.0, x.1.now)) result (grammar.tseq_from (grammar.inner_bracket levels) spots.now found names) }
    ensures shorter { IfOk result (λ x. length x.1.now ≤ length spots.now) }
{
    match found {
        Bracket::Types(types) => {
            if types.len() > 1 && names.is_empty() {
                return Ok((Types::Bare(types), spots));
            }
            let first = type_from_list(alloc, types, names, spots)?;
            one_from(alloc, first, spots, levels)
        }
        Bracket::Sig(sig) => {
            let first = named(alloc, TypeExp::Rel(Boxed::new(alloc, sig)?), names)?;
            one_from(alloc, first, spots, levels)
        }
    }
}

/// The type that begins with the factor `first`.
#[cycle(types)]
fn one_from(
    alloc: Global,
    first: TypeExp,
    spots: &[Spot],
    levels: u32,
) -> Result<(Types, &[Spot]), Stop>
    ensures mirrors { Mirrors (λ x. (x.0, x.1.now)) result (grammar.one_from (grammar.inner_bracket levels) (first, spots.now)) }
    ensures shorter { IfOk result (λ x. length x.1.now ≤ length spots.now) }
{
    let (more, rest) = more_factors(alloc, spots, levels)?;
    Ok((Types::One(product(joined(first, more)?)), rest))
}

/// A type in which at most so many brackets are open at once.
#[cycle(types)]
pub fn type_exp(alloc: Global, spots: &[Spot], levels: u32) -> Result<(TypeExp, &[Spot]), Stop>
    ensures mirrors { Mirrors (λ x. (x.0, x.1.now)) result (grammar.type_at levels spots.now) }
    ensures shorter { IfOk result (λ x. length x.1.now ≤ length spots.now) }
{
    let (first, rest) = factor(alloc, spots, levels)?;
    let (more, rest) = more_factors(alloc, rest, levels)?;
    Ok((product(joined(first, more)?), rest))
}

/// `{, type}`
#[cycle(types)]
fn more_types(alloc: Global, spots: &[Spot], levels: u32) -> Result<(Vec<TypeExp>, &[Spot]), Stop>
    ensures mirrors { Mirrors (λ x. (x.0.items, x.1.now)) result (repeated (after mark.Comma) (grammar.type_at levels) spots.now) }
    ensures shorter { IfOk result (λ x. length x.1.now ≤ length spots.now) }
{
    let mut items = Vec::new(alloc);
    let mut rest = spots;
    while let Some(next) = eat(rest, Mark::Comma) {
        let (item, after) = type_exp(alloc, next, levels)?;
        items.push(item)?;
        rest = after;
    }
    Ok((items, rest))
}

/// `{* tatom}`
#[cycle(types)]
pub fn more_factors(
    alloc: Global,
    spots: &[Spot],
    levels: u32,
) -> Result<(Vec<TypeExp>, &[Spot]), Stop>
    ensures mirrors { Mirrors (λ x. (x.0.items, x.1.now)) result (repeated (after mark.Star) (grammar.tatom_at levels) spots.now) }
    ensures shorter { IfOk result (λ x. length x.1.now ≤ length spots.now) }
{
    let mut items = Vec::new(alloc);
    let mut rest = spots;
    while let Some(next) = eat(rest, Mark::Star) {
        let (item, after) = factor(alloc, next, levels)?;
        items.push(item)?;
        rest = after;
    }
    Ok((items, rest))
}

/// A factor of a tuple type.
#[cycle(types)]
pub fn factor(alloc: Global, spots: &[Spot], levels: u32) -> Result<(TypeExp, &[Spot]), Stop>
    ensures mirrors { Mirrors (λ x. (x.0, x.1.now)) result (grammar.tatom_at levels spots.now) }
    ensures shorter { IfOk result (λ x. length x.1.now ≤ length spots.now) }
{
    let (first, rest) = front(spots);
    match first {
        Front::TyVar(name, place) => {
            let (names, rest) = longs(alloc, rest)?;
            Ok((
                named(alloc, TypeExp::Var(name, place), fitted(names))?,
                rest,
            ))
        }
        Front::Named => {
            let (name, rest) = long(spots)?;
            let (names, rest) = longs(alloc, rest)?;
            let names = joined(name, names)?;
            Ok((TypeExp::App(Items::new(alloc), names), rest))
        }
        Front::Round => {
            let inner = inward(spots, levels)?;
            let (found, rest) = bracket(alloc, rest, inner)?;
            let (names, rest) = longs(alloc, rest)?;
            Ok((type_from(alloc, found, fitted(names), rest)?, rest))
        }
        _ => Err(unexpected(spots)),
    }
}

/// `{long}`
fn longs(alloc: Global, spots: &[Spot]) -> Result<(Vec<Long>, &[Spot]), Stop>
    ensures mirrors { Mirrors (λ x. (x.0.items, x.1.now)) result (grammar.longs_at spots.now) }
    ensures shorter { IfOk result (λ x. length x.1.now ≤ length spots.now) }
{
    let mut items = Vec::new(alloc);
    let mut rest = spots;
    while let Some(next) = at_name(rest) {
        let (item, after) = long(next)?;
        items.push(item)?;
        rest = after;
    }
    Ok((items, rest))
}

/// The type that a bracket and the names behind it make. The spots are what follows.
fn type_from(
    alloc: Global,
    found: Bracket,
    names: Items<Long>,
    spots: &[Spot],
) -> Result<TypeExp, Stop>
    ensures { Mirrors (λ t. (t, spots.now)) result (grammar.bracket_type spots.now found names) }
{
    match found {
        Bracket::Types(types) => type_from_list(alloc, types, names, spots),
        Bracket::Sig(sig) => Ok(named(alloc, TypeExp::Rel(Boxed::new(alloc, sig)?), names)?),
    }
}

/// The type that types in a bracket and the names behind it make: more types than one want a name.
fn type_from_list(
    alloc: Global,
    mut types: Items<TypeExp>,
    names: Items<Long>,
    spots: &[Spot],
) -> Result<TypeExp, Stop>
    ensures { Mirrors (λ t. (t, spots.now)) result (grammar.bracket_type spots.now (bracket.Types types) names) }
{
    if types.len() == 1
        && let Some(only) = types.pop()
    {
        return Ok(named(alloc, only, names)?);
    }
    if names.is_empty() {
        return Err(unexpected(spots));
    }
    Ok(TypeExp::App(types, names))
}

/// A type and the names behind it.
fn named(alloc: Global, base: TypeExp, names: Items<Long>) -> Result<TypeExp, AllocError>
    ensures { IfOk result (λ t. t ≡ named_type base names) }
{
    if names.is_empty() {
        return Ok(base);
    }
    Ok(TypeExp::App(alone(alloc, base)?, names))
}

fn product(mut factors: Items<TypeExp>) -> TypeExp
    ensures { result ≡ product_type factors }
{
    if factors.len() == 1
        && let Some(only) = factors.pop()
    {
        return only;
    }
    TypeExp::Tuple(factors)
}

fn list_from(alloc: Global, types: Types) -> Result<Items<TypeExp>, AllocError>
    ensures { IfOk result (λ xs. xs ≡ grammar.types_of types) }
{
    match types {
        Types::Bare(types) => Ok(types),
        Types::One(only) => alone(alloc, only),
    }
}

fn sig_from(alloc: Global, inputs: Types, outputs: Types) -> Result<Sig, AllocError>
    ensures { IfOk result (λ s. s ≡ record { inputs = grammar.types_of inputs; outputs = grammar.types_of outputs }) }
{
    Ok(Sig {
        inputs: list_from(alloc, inputs)?,
        outputs: list_from(alloc, outputs)?,
    })
}
