//! The relations that a program may begin with.

ghost use Rattle.std.specs.Prelude.{◌≡◌, ◌<◌, ◌^◌, ◌++◌, length, IfOk, OnOk};
ghost use Rattle.std.specs.List.{flat_map};
ghost use Rattle.rml_abbreviations.specs.Written.{meaning_in, written};
ghost use Rattle.rml_scopes.specs.Module.{main_of, mains_from};
ghost use Rattle.rml_outlines.specs.Lookups.{is_there_and};
ghost use Rattle.rml_type_facts.specs.Facts.{are_of_main, fits, fits_in, is_main_type};
ghost use Rattle.rml_type_facts.specs.Same.{same_labels};
ghost use Rattle.rml_signatures.specs.Types.{AreTypes, told};

use rml_abbreviations::Body;
use rml_base::{Memory, Place};
use rml_outlines::Known;
use rml_signatures::{Types, sig_tree};
use rml_syntax::{Decl, Sig, Text};
use rml_types::{Label, SchemeTree, TypeCon, labels_of};
use std::alloc::Global;

/// The numbers of the built-in types that occur here, which are the first that are given.
const INT: u32 = 0;

const STRING: u32 = 2;

const LIST: u32 = 3;

/// `string list => ()`
const GIVES_NONE: [Label; 3] = [
    (TypeCon::Named(STRING), 0),
    (TypeCon::Named(LIST), 1),
    (TypeCon::Rel(1), 1),
];

/// `string list => int`
const GIVES_INT: [Label; 4] = [
    (TypeCon::Named(STRING), 0),
    (TypeCon::Named(LIST), 1),
    (TypeCon::Named(INT), 0),
    (TypeCon::Rel(1), 2),
];

fn are_same(labels: &[Label], others: &[Label]) -> bool
    ensures { result ≡ same_labels labels.now others.now }
{
    labels == others
}

/// Whether labels are those of a type that `main` may have.
fn are_of_main(labels: &[Label]) -> bool
    ensures { result ≡ are_of_main labels.now }
{
    are_same(labels, &GIVES_NONE) || are_same(labels, &GIVES_INT)
}

fn is_main_type(alloc: Global, tree: &SchemeTree) -> Result<bool, Memory>
    ensures { IfOk result (λ is. is ≡ is_main_type tree.now) }
{
    let labels = labels_of(alloc, tree)?;
    Ok(are_of_main(&labels))
}

/// Whether a signature in an interface is one that a program may begin with, once abbreviations are written out.
fn fits<'a>(
    alloc: Global,
    known: &'a Known,
    types: &'a Types,
    text: u32,
    sig: &Sig,
) -> Result<bool, Memory>
    ensures { IfOk result (λ is. is ≡ fits_in (told known.now types.now.tables) (written (meaning_in types.now.plain.items)) text sig.now) }
{
    let view = types.tables.view(known, text, false, None);
    let tree = Body::of(sig_tree(alloc, &view, sig)?);
    let tree = types.plainly(alloc, tree.tree())?;
    is_main_type(alloc, tree.tree())
}

/// The same of a signature that may be given.
fn is_given_and_fits(
    alloc: Global,
    known: &Known,
    types: &Types,
    text: u32,
    sig: &Option<Sig>,
) -> Result<bool, Memory>
    ensures { IfOk result (λ is. is ≡ is_there_and (fits_in (told known.now types.now.tables) (written (meaning_in types.now.plain.items)) text) sig.now) }
{
    match sig {
        None => Ok(false),
        Some(sig) => fits(alloc, known, types, text, sig),
    }
}

/// Adds the place of a declaration of an interface, where it is a relation `main` with a signature that fits.
fn add_main(
    alloc: Global,
    known: &Known,
    types: &Types,
    main: u32,
    text: u32,
    decl: &Decl,
    places: &mut Vec<Place>,
) -> Result<(), Memory>
    ensures { OnOk result (places.new.items ≡ places.old.items ++ main_of main (fits_in (told known.now types.now.tables) (written (meaning_in types.now.plain.items)) text) decl.now) }
{
    match decl {
        Decl::Relation(name, place, sig, _) => {
            if *name != main || !is_given_and_fits(alloc, known, types, text, sig)? {
                return Ok(());
            }
            places.push(*place)?;
            Ok(())
        }
        Decl::Datatype(_) => Ok(()),
        Decl::Abbrev(_, _) => Ok(()),
        Decl::Abstype(_) => Ok(()),
        Decl::Val(_, _, _, _) => Ok(()),
    }
}

/// Adds the places of such relations in an interface.
fn add_mains(
    alloc: Global,
    known: &Known,
    types: &Types,
    main: u32,
    text: u32,
    specs: &[Decl],
    places: &mut Vec<Place>,
) -> Result<(), Memory>
    ensures { OnOk result (places.new.items ≡ places.old.items ++ flat_map (main_of main (fits_in (told known.now types.now.tables) (written (meaning_in types.now.plain.items)) text)) specs.now) }
{
    for decl in specs {
        add_main(alloc, known, types, main, text, decl, places)?;
    }
    Ok(())
}

/// The same of all texts, by the fields of what is known of types.
fn mains(
    alloc: Global,
    known: &Known,
    texts: &[Text],
    types: &Types,
    main: u32,
) -> Result<Vec<Place>, Memory>
    requires { length texts.now < 2 ^ 32 }
    ensures { IfOk result (λ places. places.items ≡ mains_from (fits_in (told known.now types.now.tables) (written (meaning_in types.now.plain.items))) main 0 texts.now) }
{
    let mut places = Vec::new(alloc);
    for (number, text) in texts.iter().enumerate() {
        let specs = text.specs.as_slice();
        add_mains(alloc, known, types, main, number as u32, specs, &mut places)?;
    }
    Ok(places)
}

/// Where interfaces export a relation `main` of a type that a program may have, in order.
pub fn mains_of(
    alloc: Global,
    known: &Known,
    texts: &[Text],
    types: &Types,
    main: u32,
) -> Result<Vec<Place>, Memory>
    requires few { length texts.now < 2 ^ 32 }
    requires types { AreTypes known.now texts.now types.now }
    ensures { IfOk result (λ places. places.items ≡ mains_from (fits known.now texts.now) main 0 texts.now) }
{
    let places = mains(alloc, known, texts, types, main)?;
    Ok(places)
}
