//! The tree of the prelude's text.

ghost use Rattle.std.specs.Prelude.{◌≡◌, ◌++◌, IfOk};
ghost use Rattle.rml_prelude.specs.Interface.{interface, options, truths};
ghost use Rattle.rml_prelude.specs.Relations.{body, over_links, over_lists, over_truths};
ghost use Rattle.rml_prelude.specs.Text.{tree_of};

use crate::made::{sig_of, with_declared, with_defined};
use crate::parts::{a, con, head, nowhere, one, two};
use crate::rules::{AND, APPEND, DELETE, LENGTH, MEMBER, NOT, NTH, OR, REVERSE, TURN};
use crate::short::ShortType;
use crate::signatures::{SIGNATURES, TURN_INPUTS};
use crate::word::Word;
use crate::words::Words;
use rml_base::Memory;
use rml_syntax::{DataBind, Decl, Items, Text};
use std::alloc::Global;

/// `datatype bool = false | true`
#[tactic(auto, unfolding(crate::specs::Interface::truths))]
fn truths(alloc: Global, w: &Words) -> Result<Decl, Memory>
    ensures { IfOk result (λ d. d ≡ truths w.now) }
{
    let first = con(w, Word::False, Items::new(alloc));
    let second = con(w, Word::True, Items::new(alloc));
    let cons = two(alloc, first, second)?;
    let head = head(w, Items::new(alloc), Word::Bool);
    Ok(Decl::Datatype(one(alloc, DataBind { head, cons })?))
}

/// `datatype 'a option = NONE | SOME of 'a`
#[tactic(auto, unfolding(crate::specs::Interface::options))]
fn options(alloc: Global, w: &Words) -> Result<Decl, Memory>
    ensures { IfOk result (λ d. d ≡ options w.now) }
{
    let parts = one(alloc, a(w))?;
    let first = con(w, Word::NoValue, Items::new(alloc));
    let second = con(w, Word::OneValue, parts);
    let cons = two(alloc, first, second)?;
    let vars = one(alloc, w.number(Word::TypeA))?;
    let head = head(w, vars, Word::Option);
    Ok(Decl::Datatype(one(alloc, DataBind { head, cons })?))
}

fn interface(alloc: Global, w: &Words) -> Result<Items<Decl>, Memory>
    ensures { IfOk result (λ ds. ds ≡ interface w.now) }
{
    let truths = truths(alloc, w)?;
    let options = options(alloc, w)?;
    let types = two(alloc, truths, options)?;
    with_declared(alloc, w, &SIGNATURES, types)
}

fn over_truths(alloc: Global, w: &Words) -> Result<Items<Decl>, Memory>
    ensures { IfOk result (λ ds. ds ≡ over_truths w.now) }
{
    let decls = Items::new(alloc);
    let decls = with_defined(alloc, w, Word::BoolAnd, None, &AND, decls)?;
    let decls = with_defined(alloc, w, Word::BoolOr, None, &OR, decls)?;
    with_defined(alloc, w, Word::BoolNot, None, &NOT, decls)
}

fn over_links(alloc: Global, w: &Words, before: Items<Decl>) -> Result<Items<Decl>, Memory>
    ensures { IfOk result (λ ds. ds ≡ before ++ over_links w.now) }
{
    let turn = sig_of(alloc, w, &TURN_INPUTS, ShortType::Lists)?;
    let decls = with_defined(alloc, w, Word::ListAppend, None, &APPEND, before)?;
    let decls = with_defined(alloc, w, Word::ListTurn, Some(turn), &TURN, decls)?;
    with_defined(alloc, w, Word::ListReverse, None, &REVERSE, decls)
}

fn over_lists(alloc: Global, w: &Words, before: Items<Decl>) -> Result<Items<Decl>, Memory>
    ensures { IfOk result (λ ds. ds ≡ before ++ over_lists w.now) }
{
    let decls = with_defined(alloc, w, Word::ListLength, None, &LENGTH, before)?;
    let decls = with_defined(alloc, w, Word::ListMember, None, &MEMBER, decls)?;
    let decls = with_defined(alloc, w, Word::ListNth, None, &NTH, decls)?;
    with_defined(alloc, w, Word::ListDelete, None, &DELETE, decls)
}

#[tactic(auto, unfolding(crate::specs::Relations::body))]
fn body(alloc: Global, w: &Words) -> Result<Items<Decl>, Memory>
    ensures { IfOk result (λ ds. ds ≡ body w.now) }
{
    let decls = over_truths(alloc, w)?;
    let decls = over_links(alloc, w, decls)?;
    over_lists(alloc, w, decls)
}

/// The tree, over these numbers of its words.
#[tactic(auto, unfolding(crate::specs::Text::tree_of))]
pub fn tree_of(alloc: Global, w: &Words) -> Result<Text, Memory>
    ensures { IfOk result (λ t. t ≡ tree_of w.now) }
{
    let specs = interface(alloc, w)?;
    let decls = body(alloc, w)?;
    Ok(Text {
        module: w.number(Word::Rml),
        place: nowhere(),
        end: nowhere(),
        uses: Items::new(alloc),
        specs,
        body_uses: Items::new(alloc),
        decls,
    })
}
