//! Datatypes, and what stands before the `=` of a declaration of types.

ghost use Rattle.std.specs.Prelude.{◌≡◌, ◌<◌, ◌≤◌, IfOk, length};
ghost use Rattle.rml_syntax.specs.declared.token.Key.TheVariants as key;
ghost use Rattle.rml_syntax.specs.declared.token.Mark.TheVariants as mark;
ghost use Rattle.rml_grammar.specs.Reading.{repeated};
ghost use Rattle.rml_grammar.specs.Tokens.{after, after_word};
ghost use Rattle.rml_grammar.specs.Texts as grammar;
ghost use Rattle.rml_phrases.specs.Mirrors.{Mirrors};

use rml_grammar::Front;
use rml_phrases::lists::{alone, joined, led_by};
use rml_phrases::spots::{eat, eat_word, front, name};
use rml_phrases::stop::{Stop, unexpected};
use rml_phrases::types::{factor, more_factors};
use rml_syntax::{ConBind, DataBind, Decl, Key, Mark, Spot, TypeExp, TypeHead};
use sqlite_items::Items;
use std::alloc::Global;

/// `data {and data}`, behind a `datatype`.
pub(crate) fn datas(alloc: Global, spots: &[Spot], levels: u32) -> Result<(Decl, &[Spot]), Stop>
    ensures mirrors { Mirrors (λ x. (x.0, x.1.now)) result (grammar.datas_at levels spots.now) }
    ensures shorter { IfOk result (λ x. length x.1.now < length spots.now) }
{
    let (first, rest) = datatype(alloc, spots, levels)?;
    let (more, rest) = more_datas(alloc, rest, levels)?;
    Ok((Decl::Datatype(joined(first, more)?), rest))
}

/// `{and data}`
fn more_datas(alloc: Global, spots: &[Spot], levels: u32) -> Result<(Vec<DataBind>, &[Spot]), Stop>
    ensures mirrors { Mirrors (λ x. (x.0.items, x.1.now)) result (repeated (after_word key.KAnd) (grammar.data_at levels) spots.now) }
    ensures shorter { IfOk result (λ x. length x.1.now ≤ length spots.now) }
{
    let mut items = Vec::new(alloc);
    let mut rest = spots;
    while let Some(next) = eat_word(rest, Key::KAnd) {
        let (item, after) = datatype(alloc, next, levels)?;
        items.push(item)?;
        rest = after;
    }
    Ok((items, rest))
}

/// `thead = con {| con}`
fn datatype(alloc: Global, spots: &[Spot], levels: u32) -> Result<(DataBind, &[Spot]), Stop>
    ensures mirrors { Mirrors (λ x. (x.0, x.1.now)) result (grammar.data_at levels spots.now) }
    ensures shorter { IfOk result (λ x. length x.1.now < length spots.now) }
{
    let (head, rest) = type_head(alloc, spots)?;
    let Some(rest) = eat(rest, Mark::Equals) else {
        return Err(unexpected(rest));
    };
    let (first, rest) = constructor(alloc, rest, levels)?;
    let (more, rest) = more_constructors(alloc, rest, levels)?;
    let cons = joined(first, more)?;
    Ok((DataBind { head, cons }, rest))
}

/// `{| con}`
fn more_constructors(
    alloc: Global,
    spots: &[Spot],
    levels: u32,
) -> Result<(Vec<ConBind>, &[Spot]), Stop>
    ensures mirrors { Mirrors (λ x. (x.0.items, x.1.now)) result (repeated (after mark.Bar) (grammar.con_at levels) spots.now) }
    ensures shorter { IfOk result (λ x. length x.1.now ≤ length spots.now) }
{
    let mut items = Vec::new(alloc);
    let mut rest = spots;
    while let Some(next) = eat(rest, Mark::Bar) {
        let (item, after) = constructor(alloc, next, levels)?;
        items.push(item)?;
        rest = after;
    }
    Ok((items, rest))
}

/// `name [of tatom {* tatom}]`
fn constructor(alloc: Global, spots: &[Spot], levels: u32) -> Result<(ConBind, &[Spot]), Stop>
    ensures mirrors { Mirrors (λ x. (x.0, x.1.now)) result (grammar.con_at levels spots.now) }
    ensures shorter { IfOk result (λ x. length x.1.now < length spots.now) }
{
    let ((name, place), rest) = name(spots)?;
    let (parts, rest) = parts(alloc, rest, levels)?;
    Ok((ConBind { name, place, parts }, rest))
}

/// `[of tatom {* tatom}]`
fn parts(alloc: Global, spots: &[Spot], levels: u32) -> Result<(Items<TypeExp>, &[Spot]), Stop>
    ensures mirrors { Mirrors (λ x. (x.0, x.1.now)) result (grammar.parts_by levels spots.now (after_word key.KOf spots.now)) }
    ensures shorter { IfOk result (λ x. length x.1.now ≤ length spots.now) }
{
    let Some(rest) = eat_word(spots, Key::KOf) else {
        return Ok((Items::new(alloc), spots));
    };
    let (first, rest) = factor(alloc, rest, levels)?;
    let (more, rest) = more_factors(alloc, rest, levels)?;
    Ok((joined(first, more)?, rest))
}

/// The name that a declaration of types declares, and the type variables before it.
pub(crate) fn type_head(alloc: Global, spots: &[Spot]) -> Result<(TypeHead, &[Spot]), Stop>
    ensures mirrors { Mirrors (λ x. (x.0, x.1.now)) result (grammar.thead_at spots.now) }
    ensures shorter { IfOk result (λ x. length x.1.now < length spots.now) }
{
    let (first, rest) = front(spots);
    match first {
        Front::TyVar(only, _) => head_with(alone(alloc, only)?, rest),
        Front::Round => {
            let (vars, rest) = type_vars(alloc, rest)?;
            head_with(vars, rest)
        }
        _ => head_with(Items::new(alloc), spots),
    }
}

fn head_with(vars: Items<u32>, spots: &[Spot]) -> Result<(TypeHead, &[Spot]), Stop>
    ensures mirrors { Mirrors (λ x. (x.0, x.1.now)) result (grammar.thead_from vars spots.now) }
    ensures shorter { IfOk result (λ x. length x.1.now < length spots.now) }
{
    let ((name, place), rest) = name(spots)?;
    Ok((TypeHead { vars, name, place }, rest))
}

/// `tyvar , tyvar {, tyvar} )`
fn type_vars(alloc: Global, spots: &[Spot]) -> Result<(Items<u32>, &[Spot]), Stop>
    ensures mirrors { Mirrors (λ x. (x.0, x.1.now)) result (grammar.tyvars_at spots.now) }
    ensures shorter { IfOk result (λ x. length x.1.now ≤ length spots.now) }
{
    let (first, rest) = type_var(spots)?;
    let Some(rest) = eat(rest, Mark::Comma) else {
        return Err(unexpected(rest));
    };
    let (second, rest) = type_var(rest)?;
    let (more, rest) = more_type_vars(alloc, rest)?;
    let Some(rest) = eat(rest, Mark::CloseRound) else {
        return Err(unexpected(rest));
    };
    let others = led_by(second, more)?;
    Ok((joined(first, others)?, rest))
}

/// `{, tyvar}`
fn more_type_vars(alloc: Global, spots: &[Spot]) -> Result<(Vec<u32>, &[Spot]), Stop>
    ensures mirrors { Mirrors (λ x. (x.0.items, x.1.now)) result (repeated (after mark.Comma) grammar.tyvar_at spots.now) }
    ensures shorter { IfOk result (λ x. length x.1.now ≤ length spots.now) }
{
    let mut items = Vec::new(alloc);
    let mut rest = spots;
    while let Some(next) = eat(rest, Mark::Comma) {
        let (item, after) = type_var(next)?;
        items.push(item)?;
        rest = after;
    }
    Ok((items, rest))
}

fn type_var(spots: &[Spot]) -> Result<(u32, &[Spot]), Stop>
    ensures mirrors { Mirrors (λ x. (x.0, x.1.now)) result (grammar.tyvar_at spots.now) }
    ensures shorter { IfOk result (λ x. length x.1.now ≤ length spots.now) }
{
    if let (Front::TyVar(var, _), rest) = front(spots) {
        return Ok((var, rest));
    }
    Err(unexpected(spots))
}
