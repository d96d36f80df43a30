//! What stands for another type: where its `type` stands.

ghost use Rattle.std.specs.Prelude.{◌≡◌, ◌<◌, ◌^◌, ◌++◌, length, map, slice_get, IfOk, OnOk};
ghost use Rattle.std.specs.Option.{option_copied};
ghost use Rattle.rml_signatures.specs.Definitions.{declaration, definition, definitions_from, definitions_in, definitions_of, is_abstype_entry, nothing, params_by, params_of, placed};

use crate::numbers::{NumberedText, Numbers, is_abbrev};
use crate::places::{Space, places_of};
use rml_base::Memory;
use rml_outlines::{Known, TypeEntry, TypeKind};
use rml_syntax::{Decl, Text};
use rml_tables::Table;
use std::alloc::Global;

/// The `type` that a type's name stands for.
#[derive(Clone, Copy, Debug, PartialEq, Eq)]
pub struct Definition {
    pub text: u32,
    pub in_body: bool,
    /// Its place among the declarations of its half.
    pub place: usize,
    /// Whether it defines an abstype, so that the name stands for it in its own text alone.
    pub is_own: bool,
}

fn is_abstype(entry: Option<TypeEntry>) -> bool
    ensures { result ≡ is_abstype_entry entry }
{
    match entry {
        None => false,
        Some(entry) => matches!(entry.kind, TypeKind::Abstype),
    }
}

/// The `type` that a name of a text stands for, by the places of the `type`s of its interface and of its body.
#[tactic(auto, unfolding(crate::specs::Definitions::definition))]
fn definition_of(
    known: &Known,
    text: u32,
    specs: &Table<u32, usize>,
    decls: &Table<u32, usize>,
    name: u32,
) -> Option<Definition>
    ensures { result ≡ definition known.now text specs.now decls.now name }
{
    let interface = known.interface_type(text, name);
    if is_abbrev(interface) {
        return placed(text, false, false, specs.value(name));
    }
    if !is_abbrev(known.body_type(text, name)) {
        return None;
    }
    if interface.is_none() {
        return placed(text, true, false, decls.value(name));
    }
    if is_abstype(interface) {
        return placed(text, true, true, decls.value(name));
    }
    None
}

fn placed(text: u32, in_body: bool, is_own: bool, place: Option<usize>) -> Option<Definition>
    ensures { result ≡ placed text in_body is_own place }
{
    match place {
        None => None,
        Some(place) => Some(Definition {
            text,
            in_body,
            place,
            is_own,
        }),
    }
}

/// Adds the definitions of some names of a text.
fn add_each(
    known: &Known,
    text: u32,
    specs: &Table<u32, usize>,
    decls: &Table<u32, usize>,
    names: &[u32],
    all: &mut Vec<Option<Definition>>,
) -> Result<(), Memory>
    ensures { OnOk result (all.new.items ≡ all.old.items ++ map (definition known.now text specs.now decls.now) names.now) }
{
    for name in names {
        all.push(definition_of(known, text, specs, decls, *name))?;
    }
    Ok(())
}

/// Adds the definitions of the types of a text in a run, in the order of their numbers.
fn add_definitions(
    alloc: Global,
    known: &Known,
    plain: bool,
    number: u32,
    text: &Text,
    numbered: Option<&NumberedText>,
    all: &mut Vec<Option<Definition>>,
) -> Result<(), Memory>
    ensures { OnOk result (all.new.items ≡ all.old.items ++ definitions_in known.now plain number text.now (option_copied numbered.entry)) }
{
    match numbered {
        None => Ok(()),
        Some(numbered) => {
            let specs = places_of(alloc, Space::Abbreviations, text.specs.as_slice())?;
            let decls = places_of(alloc, Space::Abbreviations, text.decls.as_slice())?;
            let names = numbered.run(plain).names.as_slice();
            add_each(known, number, &specs, &decls, names, all)?;
            Ok(())
        }
    }
}

/// As many as there are names: types that are given, which are no `type`s of a text.
fn undefined(alloc: Global, names: &[u32]) -> Result<Vec<Option<Definition>>, Memory>
    ensures { IfOk result (λ all. all.items ≡ map nothing names.now) }
{
    let mut all = Vec::new(alloc);
    for _name in names {
        all.push(None)?;
    }
    Ok(all)
}

/// Adds the definitions of the types of all texts in a run.
fn add_run(
    alloc: Global,
    known: &Known,
    numbers: &Numbers,
    plain: bool,
    texts: &[Text],
    all: &mut Vec<Option<Definition>>,
) -> Result<(), Memory>
    requires { length texts.now < 2 ^ 32 }
    ensures { OnOk result (all.new.items ≡ all.old.items ++ definitions_from known.now numbers.now plain 0 texts.now) }
{
    for (number, text) in texts.iter().enumerate() {
        let numbered = numbers.texts.get(number);
        add_definitions(alloc, known, plain, number as u32, text, numbered, all)?;
    }
    Ok(())
}

/// Of each type, by its number, the `type` that its name stands for, if there is one.
pub fn definitions_of(
    alloc: Global,
    known: &Known,
    numbers: &Numbers,
    texts: &[Text],
) -> Result<Vec<Option<Definition>>, Memory>
    requires { length texts.now < 2 ^ 32 }
    ensures { IfOk result (λ all. all.items ≡ definitions_of known.now numbers.now texts.now) }
{
    let mut all = undefined(alloc, numbers.given.as_slice())?;
    add_run(alloc, known, numbers, false, texts, &mut all)?;
    add_run(alloc, known, numbers, true, texts, &mut all)?;
    Ok(all)
}

/// The declaration of a definition.
pub fn declaration(texts: &[Text], definition: Definition) -> Option<&Decl>
    ensures { option_copied result ≡ declaration texts.now definition }
{
    let text = texts.get(definition.text as usize)?;
    if definition.in_body {
        text.decls.get(definition.place)
    } else {
        text.specs.get(definition.place)
    }
}

fn params_by(decl: Option<&Decl>) -> Option<usize>
    ensures { result ≡ params_by (option_copied decl.entry) }
{
    match decl {
        Some(Decl::Abbrev(head, _)) => Some(head.vars.len()),
        _ => None,
    }
}

/// How many parameters a definition has.
fn params_of(texts: &[Text], definition: Option<Definition>) -> Option<usize>
    ensures { result ≡ params_of texts.now definition }
{
    match definition {
        None => None,
        Some(definition) => params_by(declaration(texts, definition)),
    }
}

/// How many parameters each definition has.
pub fn params(
    alloc: Global,
    texts: &[Text],
    definitions: &[Option<Definition>],
) -> Result<Vec<Option<usize>>, Memory>
    ensures { IfOk result (λ params. params.items ≡ map (params_of texts.now) definitions.now) }
{
    let mut params = Vec::new(alloc);
    for definition in definitions {
        params.push(params_of(texts, *definition))?;
    }
    Ok(params)
}
