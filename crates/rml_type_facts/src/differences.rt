//! Which relations and vals have one type in the interface and another in the body.

ghost use Rattle.std.specs.Prelude.{◌≡◌, Some, IfOk, OnOk};
ghost use Rattle.std.specs.Option.{option_map, option_map_or};
ghost use Rattle.rml_abbreviations.specs.Written.{meaning_in, written};
ghost use Rattle.rml_type_facts.specs.Facts.{declared_type, differ, different_in, differing, given_type, half, half_of, is_different};
ghost use Rattle.rml_signatures.specs.Numbers.{added};
ghost use Rattle.rml_signatures.specs.Reading.{context_of, sig_tree, type_tree};
ghost use Rattle.rml_type_facts.specs.Same.{are_one};
ghost use Rattle.rml_signatures.specs.Types.{told};

use rml_abbreviations::{Body, MOST_NODES, written};
use rml_base::Memory;
use rml_outlines::Known;
use rml_signatures::{Space, Tables, View, add_if, places_of, sig_tree, type_tree};
use rml_syntax::{Decl, Sig, Text, TypeExp};
use rml_tables::{NameSet, Table};
use rml_type_ops::{same_type, same_up_to_names};
use rml_types::SchemeTree;
use std::alloc::Global;

fn type_if_given(alloc: Global, view: &View, tree: &Option<TypeExp>) -> Result<Option<Body>, Memory>
    ensures { IfOk result (λ t. t ≡ option_map (type_tree (context_of view.now)) tree.now) }
{
    match tree {
        None => Ok(None),
        Some(tree) => {
            let tree = type_tree(alloc, view, tree)?;
            Ok(Some(Body::of(tree)))
        }
    }
}

fn sig_if_given(alloc: Global, view: &View, sig: &Option<Sig>) -> Result<Option<Body>, Memory>
    ensures { IfOk result (λ t. t ≡ option_map (sig_tree (context_of view.now)) sig.now) }
{
    match sig {
        None => Ok(None),
        Some(sig) => {
            let tree = sig_tree(alloc, view, sig)?;
            Ok(Some(Body::of(tree)))
        }
    }
}

/// The type that a declaration gives a val or a relation, if it gives one.
fn declared_type(alloc: Global, view: &View, decl: &Decl) -> Result<Option<Body>, Memory>
    ensures { IfOk result (λ t. t ≡ declared_type (context_of view.now) decl.now) }
{
    match decl {
        Decl::Val(_, _, tree, _) => type_if_given(alloc, view, tree),
        Decl::Relation(_, _, sig, _) => sig_if_given(alloc, view, sig),
        Decl::Datatype(_) => Ok(None),
        Decl::Abbrev(_, _) => Ok(None),
        Decl::Abstype(_) => Ok(None),
    }
}

/// A half of a text, with the places of its vals and relations.
#[derive(Drop)]
struct Half<'a> {
    view: View<'a>,
    decls: &'a [Decl],
    places: Table<u32, usize>,
}

/// The type that a half of a text gives a val or a relation.
fn given_type(alloc: Global, half: &Half, name: u32) -> Result<Option<Body>, Memory>
    ensures { IfOk result (λ t. t ≡ given_type (half_of half.now) name) }
{
    match half.places.value(name) {
        None => Ok(None),
        Some(place) => match half.decls.get(place) {
            None => Ok(None),
            Some(decl) => declared_type(alloc, &half.view, decl),
        },
    }
}

/// Whether two types are one up to the names of their variables, once they are written out by a table.
fn are_one(
    alloc: Global,
    table: &[Option<Body>],
    a: &SchemeTree,
    b: &SchemeTree,
) -> Result<bool, Memory>
    ensures { IfOk result (λ one. one ≡ are_one (written (meaning_in table.now) a.now) (written (meaning_in table.now) b.now)) }
{
    if same_type(alloc, a, b)? {
        return Ok(true);
    }
    let mut room = MOST_NODES;
    let a = Body::of(written(alloc, table, &mut room, a)?);
    let b = Body::of(written(alloc, table, &mut room, b)?);
    let one = same_up_to_names(alloc, a.tree(), b.tree())?;
    Ok(one)
}

/// Whether two types differ that may be given.
fn differ(
    alloc: Global,
    table: &[Option<Body>],
    outer: Option<Body>,
    inner: Option<Body>,
) -> Result<bool, Memory>
    ensures { IfOk result (λ d. d ≡ differ (written (meaning_in table.now)) outer inner) }
{
    match outer {
        None => Ok(false),
        Some(outer) => match inner {
            None => Ok(false),
            Some(inner) => {
                let one = are_one(alloc, table, outer.tree(), inner.tree())?;
                Ok(!one)
            }
        },
    }
}

/// Whether interface and body give a val or a relation types that differ.
fn is_different(
    alloc: Global,
    table: &[Option<Body>],
    outer: &Half,
    inner: &Half,
    name: u32,
) -> Result<bool, Memory>
    ensures { IfOk result (λ d. d ≡ is_different (written (meaning_in table.now)) (half_of outer.now) (half_of inner.now) name) }
{
    let a = given_type(alloc, outer, name)?;
    let b = given_type(alloc, inner, name)?;
    differ(alloc, table, a, b)
}

/// Adds the name of an entry, if there is one, where the two halves of a text give it types that differ.
fn add_different(
    alloc: Global,
    table: &[Option<Body>],
    outer: &Half,
    inner: &Half,
    entry: Option<(u32, usize)>,
    different: &mut NameSet<u32>,
) -> Result<(), Memory>
    ensures { OnOk result (different.new ≡ option_map_or (λ e. added different.old e.0 (is_different (written (meaning_in table.now)) (half_of outer.now) (half_of inner.now) e.0)) entry different.old) }
{
    match entry {
        None => Ok(()),
        Some((name, _)) => {
            let holds = is_different(alloc, table, outer, inner, name)?;
            add_if(different, name, holds)
        }
    }
}

/// The names to which the two halves of a text give types that differ.
fn differing(
    alloc: Global,
    table: &[Option<Body>],
    outer: &Half,
    inner: &Half,
) -> Result<NameSet<u32>, Memory>
    ensures { IfOk result (λ names. names ≡ differing (written (meaning_in table.now)) (half_of outer.now) (half_of inner.now)) }
{
    let mut different = NameSet::new(alloc);
    for place in 0..inner.places.len() {
        let entry = inner.places.entry(place);
        add_different(alloc, table, outer, inner, entry, &mut different)?;
    }
    Ok(different)
}

/// A half of a text, as what it gives types is looked for.
fn with_places<'a>(alloc: Global, view: View<'a>, decls: &'a [Decl]) -> Result<Half<'a>, Memory>
    ensures { IfOk result (λ h. half_of h ≡ half (context_of view.entry) decls.entry.now) }
{
    let places = places_of(alloc, Space::Values, decls)?;
    Ok(Half {
        view,
        decls,
        places,
    })
}

/// The names of the vals and relations of a text to which interface and body give types that differ.
pub fn different_in<'a>(
    alloc: Global,
    known: &'a Known,
    texts: &[Text],
    tables: &'a Tables,
    number: u32,
    text: &'a Text,
) -> Result<NameSet<u32>, Memory>
    ensures { IfOk result (λ names. names ≡ different_in (told known.now tables.now) texts.now number text.now) }
{
    let table = tables.writing(alloc, known, texts, Some(number))?;
    let outer = with_places(
        alloc,
        tables.view(known, number, false, None),
        text.specs.as_slice(),
    )?;
    let inner = with_places(
        alloc,
        tables.view(known, number, true, None),
        text.decls.as_slice(),
    )?;
    differing(alloc, &table, &outer, &inner)
}
