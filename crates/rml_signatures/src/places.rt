//! The places of declarations by the names that they declare.

ghost use Rattle.std.specs.Prelude.{◌≡◌, IfOk, OnOk};
ghost use Rattle.rml_signatures.specs.Places.{abbreviation_in, name_in, places_of, value_in, with_place};

use rml_base::Memory;
use rml_syntax::Decl;
use rml_tables::Table;
use std::alloc::Global;

/// What declarations are looked for.
#[derive(Clone, Copy)]
pub enum Space {
    /// `type`s.
    Abbreviations,
    /// Vals and relations.
    Values,
}

fn abbreviation_in(decl: &Decl) -> Option<u32>
    ensures { result ≡ abbreviation_in decl.now }
{
    match decl {
        Decl::Abbrev(head, _) => Some(head.name),
        Decl::Datatype(_) => None,
        Decl::Abstype(_) => None,
        Decl::Val(_, _, _, _) => None,
        Decl::Relation(_, _, _, _) => None,
    }
}

fn value_in(decl: &Decl) -> Option<u32>
    ensures { result ≡ value_in decl.now }
{
    match decl {
        Decl::Val(name, _, _, _) => Some(*name),
        Decl::Relation(name, _, _, _) => Some(*name),
        Decl::Datatype(_) => None,
        Decl::Abbrev(_, _) => None,
        Decl::Abstype(_) => None,
    }
}

/// The name that a declaration declares, where it is one of those that are looked for.
fn name_in(space: Space, decl: &Decl) -> Option<u32>
    ensures { result ≡ name_in space decl.now }
{
    match space {
        Space::Abbreviations => abbreviation_in(decl),
        Space::Values => value_in(decl),
    }
}

fn add_place(places: &mut Table<u32, usize>, name: Option<u32>, place: usize) -> Result<(), Memory>
    ensures { OnOk result (places.new ≡ with_place places.old name place) }
{
    match name {
        None => Ok(()),
        Some(name) => {
            places.declare(name, place)?;
            Ok(())
        }
    }
}

/// Of each name the place of the first declaration that declares it.
pub fn places_of(alloc: Global, space: Space, decls: &[Decl]) -> Result<Table<u32, usize>, Memory>
    ensures { IfOk result (λ places. places ≡ places_of space decls.now) }
{
    let mut places = Table::new(alloc);
    for (place, decl) in decls.iter().enumerate() {
        add_place(&mut places, name_in(space, decl), place)?;
    }
    Ok(places)
}
