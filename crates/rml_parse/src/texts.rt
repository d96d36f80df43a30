//! Whole texts: an interface and a body.

ghost use Rattle.std.specs.Prelude.{◌≡◌, ◌<◌, ◌≤◌, IfOk, length};
ghost use Rattle.rml_base.specs.declared.limits.TheConstants.{BYTES};
ghost use Rattle.rml_grammar.specs.Reading.{repeated};
ghost use Rattle.rml_grammar.specs.Texts as grammar;
ghost use Rattle.rml_phrases.specs.Mirrors.{Mirrors};

use crate::declarations::{decls, specs};
use crate::openings::{at_uses, file, opening};
use rml_base::Place;
use rml_grammar::Opening;
use rml_phrases::spots::{eat, eat_word, name};
use rml_phrases::stop::{Stop, unexpected};
use rml_syntax::{Decl, Key, Mark, Spot, Text, Uses};
use sqlite_items::Items;
use std::alloc::Global;

/// The `with`s and the declarations of an interface or of a body.
#[derive(Debug, Drop)]
struct Part {
    uses: Items<Uses>,
    decls: Items<Decl>,
}

/// A text, all of it. A relation has at most so many rules after the first.
#[tactic(auto, unfolding(rml_grammar::specs::Texts::whole_text, rml_grammar::specs::Texts::text_at))]
pub(crate) fn whole(
    alloc: Global,
    spots: &[Spot],
    end: Place,
    levels: u32,
    further: u32,
) -> Result<Text, Stop>
    requires { length spots.now ≤ BYTES }
    ensures { Mirrors (λ t. t) result (grammar.whole_text end levels further spots.now) }
{
    let ((module, place), rest) = heading(spots)?;
    let (interface, rest) = interface(alloc, rest, levels)?;
    let (body, rest) = body(alloc, rest, levels, further)?;
    if !rest.is_empty() {
        return Err(unexpected(rest));
    }
    Ok(Text {
        module,
        place,
        end,
        uses: interface.uses,
        specs: interface.decls,
        body_uses: body.uses,
        decls: body.decls,
    })
}

/// `module name :`
fn heading(spots: &[Spot]) -> Result<((u32, Place), &[Spot]), Stop>
    ensures mirrors { Mirrors (λ x. (x.0, x.1.now)) result (grammar.module_at spots.now) }
    ensures shorter { IfOk result (λ x. length x.1.now ≤ length spots.now) }
{
    let Some(rest) = eat_word(spots, Key::KModule) else {
        return Err(unexpected(spots));
    };
    let (named, rest) = name(rest)?;
    let Some(rest) = eat(rest, Mark::Colon) else {
        return Err(unexpected(rest));
    };
    Ok((named, rest))
}

/// `{uses} {spec} end`
fn interface(alloc: Global, spots: &[Spot], levels: u32) -> Result<(Part, &[Spot]), Stop>
    ensures mirrors { Mirrors (λ x. ((x.0.uses, x.0.decls), x.1.now)) result (grammar.interface_at levels spots.now) }
    ensures shorter { IfOk result (λ x. length x.1.now ≤ length spots.now) }
{
    let (uses, rest) = uses(alloc, spots)?;
    let (decls, rest) = specs(alloc, rest, levels)?;
    let Some(rest) = eat_word(rest, Key::KEnd) else {
        return Err(unexpected(rest));
    };
    Ok((Part { uses, decls }, rest))
}

/// `{uses} {decl}`
fn body(alloc: Global, spots: &[Spot], levels: u32, further: u32) -> Result<(Part, &[Spot]), Stop>
    requires { length spots.now ≤ BYTES }
    ensures mirrors { Mirrors (λ x. ((x.0.uses, x.0.decls), x.1.now)) result (grammar.body_at levels further spots.now) }
    ensures shorter { IfOk result (λ x. length x.1.now ≤ length spots.now) }
{
    let (uses, rest) = uses(alloc, spots)?;
    let (decls, rest) = decls(alloc, rest, levels, further)?;
    Ok((Part { uses, decls }, rest))
}

/// `{uses}`
fn uses(alloc: Global, spots: &[Spot]) -> Result<(Items<Uses>, &[Spot]), Stop>
    ensures mirrors { Mirrors (λ x. (x.0, x.1.now)) result (repeated grammar.uses_next grammar.uses_at spots.now) }
    ensures shorter { IfOk result (λ x. length x.1.now ≤ length spots.now) }
{
    let mut items = Items::new(alloc);
    let mut rest = spots;
    while let Some(next) = at_uses(rest) {
        let (item, after) = one_use(next)?;
        items.push(item)?;
        rest = after;
    }
    Ok((items, rest))
}

/// `with text-literal`
fn one_use(spots: &[Spot]) -> Result<(Uses, &[Spot]), Stop>
    ensures mirrors { Mirrors (λ x. (x.0, x.1.now)) result (grammar.uses_at spots.now) }
    ensures shorter { IfOk result (λ x. length x.1.now < length spots.now) }
{
    if let (Opening::With(place), rest) = opening(spots) {
        let (file, rest) = file(rest)?;
        return Ok((Uses { file, place }, rest));
    }
    Err(unexpected(spots))
}
