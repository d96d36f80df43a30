//! Which abstypes are defined in circles.

ghost use Rattle.std.specs.Prelude.{◌≡◌, ◌<◌, ◌^◌, ◌++◌, length, None, Some, IfOk, OnOk};
ghost use Rattle.std.specs.Option.{option_copied};
ghost use Rattle.rml_type_facts.specs.Circles.{AreOnCircles, circular_in, counted_number, edges, holds, is_circular, mentions, mentions_by, own_among, own_at, own_in};
ghost use Rattle.rml_signatures.specs.Definitions.{is_own};
ghost use Rattle.rml_signatures.specs.Types.{WritesOut, told};

use rml_abbreviations::Body;
use rml_base::Memory;
use rml_outlines::Known;
use rml_reach::laws::short_paths_are_enough;
use rml_reach::on_circles;
use rml_signatures::{Definition, NumberedText, Types, add_if};
use rml_syntax::Text;
use rml_tables::NameSet;
use rml_types::{Label, TypeCon, labels_of};
use sqlite_items::Items;
use std::alloc::Global;

/// Whether a type is an abstype that some text defines by `type`.
fn is_own(definitions: &[Option<Definition>], number: u32) -> bool
    ensures { result ≡ is_own definitions.now number }
{
    match definitions.get(number as usize) {
        Some(Some(definition)) => definition.is_own,
        _ => false,
    }
}

/// Adds the number of a type, where it is such an abstype.
fn add_own(
    definitions: &[Option<Definition>],
    number: u32,
    own: &mut Items<u32>,
) -> Result<(), Memory>
    ensures { OnOk result (own.new ≡ own.old ++ own_at definitions.now number) }
{
    if !is_own(definitions, number) {
        return Ok(());
    }
    own.push(number)?;
    Ok(())
}

/// The number of a type, also where it stands with a wrong number of arguments.
fn counted_number(count: u32, number: u32) -> u32
    ensures { result ≡ counted_number count number }
{
    if number < count {
        number
    } else {
        number - count
    }
}

/// Adds the abstype that a constructor is, also with a wrong number of arguments. So many types have numbers.
fn add_own_in(
    definitions: &[Option<Definition>],
    count: u32,
    con: TypeCon,
    own: &mut Items<u32>,
) -> Result<(), Memory>
    ensures { OnOk result (own.new ≡ own.old ++ own_in definitions.now count con) }
{
    match con {
        TypeCon::Named(c) => {
            add_own(definitions, counted_number(count, c), own)?;
            Ok(())
        }
        TypeCon::Fixed(_) => Ok(()),
        TypeCon::Tuple => Ok(()),
        TypeCon::Rel(_) => Ok(()),
    }
}

/// The abstypes among the constructors of a type.
fn own_among(
    alloc: Global,
    definitions: &[Option<Definition>],
    count: u32,
    labels: &[Label],
) -> Result<Items<u32>, Memory>
    ensures { IfOk result (λ own. own ≡ own_among definitions.now count labels.now) }
{
    let mut own = Items::new(alloc);
    for label in labels {
        add_own_in(definitions, count, label.0, &mut own)?;
    }
    Ok(own)
}

/// The abstypes that the definition of a type names, once other abbreviations are written out.
fn mentions_by(
    alloc: Global,
    known: &Known,
    texts: &[Text],
    types: &Types,
    body: Option<Body>,
) -> Result<Items<u32>, Memory>
    requires { WritesOut (told known.now types.now.tables) texts.now None types.now.plain.items }
    ensures { IfOk result (λ m. m ≡ mentions_by (told known.now types.now.tables) texts.now body) }
{
    let _ = known;
    let _ = texts;
    match body {
        None => Ok(Items::new(alloc)),
        Some(body) => {
            let tree = types.plainly(alloc, body.tree())?;
            let labels = labels_of(alloc, tree.tree())?;
            let tables = &types.tables;
            own_among(alloc, &tables.definitions, tables.numbers.count, &labels)
        }
    }
}

/// The same of a type that is such an abstype; no other has edges.
fn mentions(
    alloc: Global,
    known: &Known,
    texts: &[Text],
    types: &Types,
    definition: Option<Definition>,
) -> Result<Items<u32>, Memory>
    requires { WritesOut (told known.now types.now.tables) texts.now None types.now.plain.items }
    ensures { IfOk result (λ m. m ≡ mentions (told known.now types.now.tables) texts.now definition) }
{
    match definition {
        None => Ok(Items::new(alloc)),
        Some(definition) => {
            if definition.is_own {
                let body = types.tables.body(alloc, known, texts, definition)?;
                mentions_by(alloc, known, texts, types, body)
            } else {
                Ok(Items::new(alloc))
            }
        }
    }
}

fn edges(
    alloc: Global,
    known: &Known,
    texts: &[Text],
    types: &Types,
) -> Result<Vec<Items<u32>>, Memory>
    requires { WritesOut (told known.now types.now.tables) texts.now None types.now.plain.items }
    ensures { IfOk result (λ all. all.items ≡ edges (told known.now types.now.tables) texts.now) }
{
    let mut all = Vec::new(alloc);
    for definition in &types.tables.definitions {
        all.push(mentions(alloc, known, texts, types, *definition)?)?;
    }
    Ok(all)
}

/// Of each type, whether it is an abstype that is defined in a circle.
pub fn circles(
    alloc: Global,
    known: &Known,
    texts: &[Text],
    types: &Types,
) -> Result<Vec<bool>, Memory>
    requires plain { WritesOut (told known.now types.now.tables) texts.now None types.now.plain.items }
    requires few { length types.now.tables.definitions.items < 2 ^ 32 }
    ensures { IfOk result (λ circles. AreOnCircles (edges (told known.now types.now.tables) texts.now) circles.items) }
{
    short_paths_are_enough();
    let edges = edges(alloc, known, texts, types)?;
    let circles = on_circles(alloc, &edges)?;
    Ok(circles)
}

/// Whether a name of a text is an abstype that is defined in a circle.
fn is_circular(circles: &[bool], numbered: &NumberedText, name: u32) -> bool
    ensures { result ≡ is_circular (holds circles.now) numbered.now name }
{
    match numbered.number(name) {
        None => false,
        Some(number) => circles.get(number as usize).copied().unwrap_or(false),
    }
}

/// The names of a text that are such abstypes.
fn circular_names(
    alloc: Global,
    circles: &[bool],
    numbered: &NumberedText,
) -> Result<NameSet<u32>, Memory>
    ensures { IfOk result (λ names. names ≡ circular_in (holds circles.now) (Some numbered.now)) }
{
    let mut circular = NameSet::new(alloc);
    for name in numbered.kept.names.as_slice() {
        add_if(&mut circular, *name, is_circular(circles, numbered, *name))?;
    }
    Ok(circular)
}

/// The abstypes of a text that are defined in circles, by their names.
pub fn circular_in(
    alloc: Global,
    circles: &[bool],
    numbered: Option<&NumberedText>,
) -> Result<NameSet<u32>, Memory>
    ensures { IfOk result (λ names. names ≡ circular_in (holds circles.now) (option_copied numbered.entry)) }
{
    match numbered {
        None => Ok(NameSet::new(alloc)),
        Some(numbered) => circular_names(alloc, circles, numbered),
    }
}
