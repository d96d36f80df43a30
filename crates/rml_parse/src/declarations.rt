//! Declarations: those of an interface, and those of a body.

ghost use Rattle.std.specs.Prelude.{◌≡◌, ◌<◌, ◌≤◌, IfOk, length};
ghost use Rattle.rml_syntax.specs.declared.token.Mark.TheVariants as mark;
ghost use Rattle.rml_base.specs.declared.limits.TheConstants.{BYTES};
ghost use Rattle.rml_grammar.specs.Reading.{repeated};
ghost use Rattle.rml_grammar.specs.Tokens.{after};
ghost use Rattle.rml_grammar.specs.Types.{sig_at, type_at};
ghost use Rattle.rml_grammar.specs.Texts as grammar;
ghost use Rattle.rml_phrases.specs.Mirrors.{Mirrors};

use crate::datatypes::{datas, type_head};
use crate::openings::{at_decl, at_spec, opening};
use crate::rules::rules;
use rml_grammar::Opening;
use rml_phrases::expressions::exp;
use rml_phrases::spots::{eat, name};
use rml_phrases::stop::{Stop, unexpected};
use rml_phrases::types::{sig, type_exp};
use rml_syntax::{Decl, Mark, Sig, Spot, TypeExp};
use sqlite_items::Items;
use std::alloc::Global;

/// `{spec}`
pub(crate) fn specs(
    alloc: Global,
    spots: &[Spot],
    levels: u32,
) -> Result<(Items<Decl>, &[Spot]), Stop>
    ensures mirrors { Mirrors (λ x. (x.0, x.1.now)) result (repeated grammar.spec_next (grammar.spec_at levels) spots.now) }
    ensures shorter { IfOk result (λ x. length x.1.now ≤ length spots.now) }
{
    let mut items = Items::new(alloc);
    let mut rest = spots;
    while let Some(next) = at_spec(rest) {
        let (item, after) = spec(alloc, next, levels)?;
        items.push(item)?;
        rest = after;
    }
    Ok((items, rest))
}

/// `{decl}`
pub(crate) fn decls(
    alloc: Global,
    spots: &[Spot],
    levels: u32,
    further: u32,
) -> Result<(Items<Decl>, &[Spot]), Stop>
    requires { length spots.now ≤ BYTES }
    ensures mirrors { Mirrors (λ x. (x.0, x.1.now)) result (repeated grammar.decl_next (grammar.decl_at levels further) spots.now) }
    ensures shorter { IfOk result (λ x. length x.1.now ≤ length spots.now) }
{
    let mut items = Items::new(alloc);
    let mut rest = spots;
    while let Some(next) = at_decl(rest) {
        let (item, after) = decl(alloc, next, levels, further)?;
        items.push(item)?;
        rest = after;
    }
    Ok((items, rest))
}

/// A declaration of an interface.
fn spec(alloc: Global, spots: &[Spot], levels: u32) -> Result<(Decl, &[Spot]), Stop>
    ensures mirrors { Mirrors (λ x. (x.0, x.1.now)) result (grammar.spec_at levels spots.now) }
    ensures shorter { IfOk result (λ x. length x.1.now < length spots.now) }
{
    let (first, rest) = opening(spots);
    match first {
        Opening::Datatype => datas(alloc, rest, levels),
        Opening::Type => abbrev(alloc, rest, levels),
        Opening::Abstype => abstype(alloc, rest),
        Opening::Val => val_spec(alloc, rest, levels),
        Opening::Relation => relation_spec(alloc, rest, levels),
        _ => Err(unexpected(spots)),
    }
}

/// A declaration of a body, whose relations have at most so many rules after the first.
fn decl(alloc: Global, spots: &[Spot], levels: u32, further: u32) -> Result<(Decl, &[Spot]), Stop>
    requires { length spots.now ≤ BYTES }
    ensures mirrors { Mirrors (λ x. (x.0, x.1.now)) result (grammar.decl_at levels further spots.now) }
    ensures shorter { IfOk result (λ x. length x.1.now < length spots.now) }
{
    let (first, rest) = opening(spots);
    match first {
        Opening::Datatype => datas(alloc, rest, levels),
        Opening::Type => abbrev(alloc, rest, levels),
        Opening::Val => val(alloc, rest, levels),
        Opening::Relation => relation(alloc, rest, levels, further),
        _ => Err(unexpected(spots)),
    }
}

/// `thead = type`, behind a `type`.
fn abbrev(alloc: Global, spots: &[Spot], levels: u32) -> Result<(Decl, &[Spot]), Stop>
    ensures mirrors { Mirrors (λ x. (x.0, x.1.now)) result (grammar.abbrev_at levels spots.now) }
    ensures shorter { IfOk result (λ x. length x.1.now < length spots.now) }
{
    let (head, rest) = type_head(alloc, spots)?;
    let Some(rest) = eat(rest, Mark::Equals) else {
        return Err(unexpected(rest));
    };
    let (means, rest) = type_exp(alloc, rest, levels)?;
    Ok((Decl::Abbrev(head, means), rest))
}

/// `thead`, behind an `abstype`.
fn abstype(alloc: Global, spots: &[Spot]) -> Result<(Decl, &[Spot]), Stop>
    ensures mirrors { Mirrors (λ x. (x.0, x.1.now)) result (grammar.abstype_at spots.now) }
    ensures shorter { IfOk result (λ x. length x.1.now < length spots.now) }
{
    let (head, rest) = type_head(alloc, spots)?;
    Ok((Decl::Abstype(head), rest))
}

/// `name : type`, behind a `val`.
fn val_spec(alloc: Global, spots: &[Spot], levels: u32) -> Result<(Decl, &[Spot]), Stop>
    ensures mirrors { Mirrors (λ x. (x.0, x.1.now)) result (grammar.val_spec_at levels spots.now) }
    ensures shorter { IfOk result (λ x. length x.1.now < length spots.now) }
{
    let ((name, place), rest) = name(spots)?;
    let Some(rest) = eat(rest, Mark::Colon) else {
        return Err(unexpected(rest));
    };
    let (of, rest) = type_exp(alloc, rest, levels)?;
    Ok((Decl::Val(name, place, Some(of), None), rest))
}

/// `name : sig`, behind a `relation`.
fn relation_spec(alloc: Global, spots: &[Spot], levels: u32) -> Result<(Decl, &[Spot]), Stop>
    ensures mirrors { Mirrors (λ x. (x.0, x.1.now)) result (grammar.relation_spec_at levels spots.now) }
    ensures shorter { IfOk result (λ x. length x.1.now < length spots.now) }
{
    let ((name, place), rest) = name(spots)?;
    let Some(rest) = eat(rest, Mark::Colon) else {
        return Err(unexpected(rest));
    };
    let (of, rest) = sig(alloc, rest, levels)?;
    Ok((
        Decl::Relation(name, place, Some(of), Items::new(alloc)),
        rest,
    ))
}

/// `name [: type] = exp`, behind a `val`.
fn val(alloc: Global, spots: &[Spot], levels: u32) -> Result<(Decl, &[Spot]), Stop>
    ensures mirrors { Mirrors (λ x. (x.0, x.1.now)) result (grammar.val_at levels spots.now) }
    ensures shorter { IfOk result (λ x. length x.1.now < length spots.now) }
{
    let ((name, place), rest) = name(spots)?;
    let (of, rest) = optional_type(alloc, rest, levels)?;
    let Some(rest) = eat(rest, Mark::Equals) else {
        return Err(unexpected(rest));
    };
    let (value, rest) = exp(alloc, rest, levels)?;
    Ok((Decl::Val(name, place, of, Some(value)), rest))
}

/// `name [: sig] = clause {clause} end`, behind a `relation`.
fn relation(
    alloc: Global,
    spots: &[Spot],
    levels: u32,
    further: u32,
) -> Result<(Decl, &[Spot]), Stop>
    requires { length spots.now ≤ BYTES }
    ensures mirrors { Mirrors (λ x. (x.0, x.1.now)) result (grammar.relation_at levels further spots.now) }
    ensures shorter { IfOk result (λ x. length x.1.now < length spots.now) }
{
    let ((name, place), rest) = name(spots)?;
    let (of, rest) = optional_sig(alloc, rest, levels)?;
    let Some(rest) = eat(rest, Mark::Equals) else {
        return Err(unexpected(rest));
    };
    let (items, rest) = rules(alloc, rest, levels, further)?;
    Ok((Decl::Relation(name, place, of, items), rest))
}

/// `[: type]`
fn optional_type(
    alloc: Global,
    spots: &[Spot],
    levels: u32,
) -> Result<(Option<TypeExp>, &[Spot]), Stop>
    ensures mirrors { Mirrors (λ x. (x.0, x.1.now)) result (grammar.optional_by (type_at levels) spots.now (after mark.Colon spots.now)) }
    ensures shorter { IfOk result (λ x. length x.1.now ≤ length spots.now) }
{
    let Some(rest) = eat(spots, Mark::Colon) else {
        return Ok((None, spots));
    };
    let (of, rest) = type_exp(alloc, rest, levels)?;
    Ok((Some(of), rest))
}

/// `[: sig]`
fn optional_sig(alloc: Global, spots: &[Spot], levels: u32) -> Result<(Option<Sig>, &[Spot]), Stop>
    ensures mirrors { Mirrors (λ x. (x.0, x.1.now)) result (grammar.optional_by (sig_at levels) spots.now (after mark.Colon spots.now)) }
    ensures shorter { IfOk result (λ x. length x.1.now ≤ length spots.now) }
{
    let Some(rest) = eat(spots, Mark::Colon) else {
        return Ok((None, spots));
    };
    let (of, rest) = sig(alloc, rest, levels)?;
    Ok((Some(of), rest))
}
