//! The names of a text by their kinds, and their numbers.

ghost use Rattle.std.specs.Prelude.{◌≡◌, ◌+◌, IfOk, OnOk};
ghost use Rattle.rml_values.specs.Numbers.{behind, behind_text, capped, is_of, lists_of, names_of, number, with_entry, with_kind};

use rml_base::Memory;
use rml_outlines::{Outline, ValueEntry};
use rml_tables::{NameSet, Table};
use std::alloc::Global;

/// The kinds of values that have names of their own.
#[derive(Clone, Copy, Debug, PartialEq, Eq)]
pub enum Kind {
    Constructors,
    Vals,
    Relations,
}

/// Names with numbers that follow one another, and the number of the first.
#[derive(Drop)]
pub struct Numbered {
    pub first: u32,
    pub names: NameSet<u32>,
}

/// The values that a text declares.
#[derive(Drop)]
pub struct TextValues {
    pub cons: Numbered,
    pub vals: Numbered,
    pub relations: Numbered,
}

/// Of each kind the number at which a text begins.
#[derive(Clone, Copy, Debug)]
pub struct Begins {
    pub cons: u32,
    pub vals: u32,
    pub relations: u32,
}

/// A number that stands so far behind another. A set within the limits has no so great a number that it would be cut.
fn capped(first: u32, place: usize) -> u32
    ensures { result ≡ capped (first + place) }
{
    match u32::try_from(place) {
        Ok(place) => first.saturating_add(place),
        Err(_) => u32::MAX,
    }
}

/// Whether a value is of a kind.
fn is_of(kind: Kind, entry: ValueEntry) -> bool
    ensures { result ≡ is_of kind entry }
{
    match kind {
        Kind::Constructors => matches!(entry, ValueEntry::Constructor(_)),
        Kind::Vals => matches!(entry, ValueEntry::Val),
        Kind::Relations => matches!(entry, ValueEntry::Relation),
    }
}

/// Adds a name where it is of a kind.
fn add_entry(
    names: &mut NameSet<u32>,
    kind: Kind,
    declared: Option<(u32, ValueEntry)>,
) -> Result<(), Memory>
    ensures { OnOk result (names.new ≡ with_entry kind names.old declared) }
{
    let Some((name, entry)) = declared else {
        return Ok(());
    };
    if !is_of(kind, entry) {
        return Ok(());
    }
    names.add(name)?;
    Ok(())
}

/// Adds the names of a kind.
fn add_kind(
    names: &mut NameSet<u32>,
    kind: Kind,
    values: &Table<u32, ValueEntry>,
) -> Result<(), Memory>
    ensures { OnOk result (names.new ≡ with_kind kind names.old values.now) }
{
    for place in 0..values.len() {
        add_entry(names, kind, values.entry(place))?;
    }
    Ok(())
}

/// The names of a kind that a text declares, those of its interface first.
#[tactic(auto, unfolding(crate::specs::Numbers::names_of))]
fn names_of(alloc: Global, kind: Kind, outline: &Outline) -> Result<NameSet<u32>, Memory>
    ensures { IfOk result (λ names. names ≡ names_of kind outline.now) }
{
    let mut names = NameSet::new(alloc);
    add_kind(&mut names, kind, &outline.interface.values)?;
    add_kind(&mut names, kind, &outline.body.values)?;
    Ok(names)
}

impl Numbered {
    /// The number of a name of the list.
    #[tactic(auto, unfolding(crate::specs::Numbers::number))]
    pub fn number(&self, name: u32) -> u32
        ensures { result ≡ number self.now name }
    {
        capped(self.first, self.names.place(name))
    }

    /// The number behind all of the list.
    fn behind(&self) -> u32
        ensures { result ≡ behind self.now }
    {
        capped(self.first, self.names.len())
    }
}

/// The values that a text declares, whose lists begin at these numbers.
#[tactic(auto, unfolding(crate::specs::Numbers::lists_of))]
pub fn lists_of(alloc: Global, begins: Begins, outline: &Outline) -> Result<TextValues, Memory>
    ensures { IfOk result (λ t. t ≡ lists_of begins outline.now) }
{
    let cons = names_of(alloc, Kind::Constructors, outline)?;
    let vals = names_of(alloc, Kind::Vals, outline)?;
    let relations = names_of(alloc, Kind::Relations, outline)?;
    Ok(TextValues {
        cons: Numbered {
            first: begins.cons,
            names: cons,
        },
        vals: Numbered {
            first: begins.vals,
            names: vals,
        },
        relations: Numbered {
            first: begins.relations,
            names: relations,
        },
    })
}

impl TextValues {
    /// Where the lists of the next text begin.
    #[tactic(auto, unfolding(crate::specs::Numbers::behind_text))]
    pub fn behind(&self) -> Begins
        ensures { result ≡ behind_text self.now }
    {
        Begins {
            cons: self.cons.behind(),
            vals: self.vals.behind(),
            relations: self.relations.behind(),
        }
    }
}
