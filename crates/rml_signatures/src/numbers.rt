//! Types by numbers: first those that are given to each text, then the datatypes and abstypes of the texts in their order, and then their
//! plain `type`s, those that define no abstype, which a program has not.

ghost use Rattle.std.specs.Prelude.{◌≡◌, ◌+◌, ◌-◌, ◌^◌, min, nat_eq, IfOk, OnOk};
ghost use Rattle.std.specs.Map.{keys_of};
ghost use Rattle.std.specs.Option.{option_map_or};
ghost use Rattle.rml_tables.specs.Words.{with_each, with_name};
ghost use Rattle.rml_signatures.specs.Numbers.{added, capped, count_from, exported_number, given_names, is_abbrev_entry, is_of_run, is_plain, names_in, names_of_run, number_among, number_of, numbered, numbered_from, numbers_of};

use rml_base::Memory;
use rml_outlines::{Known, Outline, TypeEntry, TypeKind};
use rml_syntax::Long;
use rml_tables::{NameSet, Table};
use sqlite_items::Items;
use std::alloc::Global;

/// Names with numbers in a row, and the number of the first.
#[derive(Drop)]
pub struct NumberedNames {
    pub first: u32,
    pub names: NameSet<u32>,
}

/// The types of a text, each with its number.
#[derive(Drop)]
pub struct NumberedText {
    /// Datatypes and abstypes, which a program has.
    pub kept: NumberedNames,
    /// `type`s that define no abstype.
    pub plain: NumberedNames,
}

/// The numbers of all types of a set of texts.
#[derive(Drop)]
pub struct Numbers {
    pub given: NameSet<u32>,
    pub texts: Items<NumberedText>,
    /// How many types a program has: those that are given, datatypes and abstypes. Their numbers come first.
    pub kept: u32,
    /// How many types there are.
    pub count: u32,
}

/// A number that stands so far behind another. A set within the limits has no so great a number that it would be cut.
pub fn capped(first: u32, place: usize) -> u32
    ensures { result ≡ capped (first + place) }
{
    match u32::try_from(place) {
        Ok(place) => first.saturating_add(place),
        Err(_) => u32::MAX,
    }
}

/// Adds a name where a test holds.
pub fn add_if(names: &mut NameSet<u32>, name: u32, holds: bool) -> Result<(), Memory>
    ensures { OnOk result (names.new ≡ added names.old name holds) }
{
    if !holds {
        return Ok(());
    }
    names.add(name)?;
    Ok(())
}

/// Adds the name of an entry of a table of types, if there is one.
fn add_entry(names: &mut NameSet<u32>, entry: Option<(u32, TypeEntry)>) -> Result<(), Memory>
    ensures { OnOk result (names.new ≡ option_map_or (λ e. with_name nat_eq names.old e.0) entry names.old) }
{
    match entry {
        None => Ok(()),
        Some((name, _)) => {
            names.add(name)?;
            Ok(())
        }
    }
}

/// Adds the names of a table of types.
fn add_types(names: &mut NameSet<u32>, types: &Table<u32, TypeEntry>) -> Result<(), Memory>
    ensures { OnOk result (names.new ≡ with_each nat_eq names.old (keys_of types.now)) }
{
    for place in 0..types.len() {
        add_entry(names, types.entry(place))?;
    }
    Ok(())
}

#[tactic(auto, unfolding(crate::specs::Numbers::names_in))]
fn names_in(alloc: Global, outline: &Outline) -> Result<NameSet<u32>, Memory>
    ensures { IfOk result (λ names. names ≡ names_in outline.now) }
{
    let mut names = NameSet::new(alloc);
    add_types(&mut names, &outline.interface.types)?;
    add_types(&mut names, &outline.body.types)?;
    Ok(names)
}

#[tactic(auto, unfolding(crate::specs::Numbers::given_names))]
fn given_names(alloc: Global, known: &Known) -> Result<NameSet<u32>, Memory>
    ensures { IfOk result (λ names. names ≡ given_names known.now) }
{
    let mut names = NameSet::new(alloc);
    add_types(&mut names, &known.built.types)?;
    add_types(&mut names, &known.prelude.types)?;
    Ok(names)
}

/// Whether a name is declared by `type`.
pub fn is_abbrev(entry: Option<TypeEntry>) -> bool
    ensures { result ≡ is_abbrev_entry entry }
{
    match entry {
        None => false,
        Some(entry) => matches!(entry.kind, TypeKind::Abbrev),
    }
}

fn is_plain(outline: &Outline, name: u32) -> bool
    ensures { result ≡ is_plain outline.now name }
{
    is_abbrev(outline.type_entry(name))
}

/// Whether a name is numbered in a run: that of plain `type`s, or that of all other types.
fn is_of_run(plain: bool, outline: &Outline, name: u32) -> bool
    ensures { result ≡ is_of_run plain outline.now name }
{
    if plain {
        is_plain(outline, name)
    } else {
        !is_plain(outline, name)
    }
}

/// The names of a text that are numbered in a run.
#[tactic(auto, unfolding(crate::specs::Numbers::names_of_run))]
fn names_of_run(alloc: Global, plain: bool, outline: &Outline) -> Result<NameSet<u32>, Memory>
    ensures { IfOk result (λ names. names ≡ names_of_run plain outline.now) }
{
    let all = names_in(alloc, outline)?;
    let mut names = NameSet::new(alloc);
    for name in all.as_slice() {
        add_if(&mut names, *name, is_of_run(plain, outline, *name))?;
    }
    Ok(names)
}

/// The number behind the types of a run, which begins with `first`.
fn count_from(alloc: Global, plain: bool, first: u32, outlines: &[Outline]) -> Result<u32, Memory>
    ensures { IfOk result (λ count. count ≡ count_from plain first outlines.now) }
{
    let mut count = first;
    for outline in outlines {
        let names = names_of_run(alloc, plain, outline)?;
        count = capped(count, names.len());
    }
    Ok(count)
}

/// The names of a text in a run, with their numbers.
fn numbered(
    alloc: Global,
    plain: bool,
    first: u32,
    outline: &Outline,
) -> Result<NumberedNames, Memory>
    ensures { IfOk result (λ n. n ≡ numbered plain first outline.now) }
{
    let names = names_of_run(alloc, plain, outline)?;
    Ok(NumberedNames { first, names })
}

/// The types of some texts with their numbers, by the first number of each run.
fn numbered_from(
    alloc: Global,
    kept: u32,
    plain: u32,
    outlines: &[Outline],
) -> Result<Items<NumberedText>, Memory>
    ensures { IfOk result (λ texts. texts ≡ numbered_from kept plain outlines.now) }
{
    let mut next_kept = kept;
    let mut next_plain = plain;
    let mut texts = Items::new(alloc);
    for outline in outlines {
        let kept = numbered(alloc, false, next_kept, outline)?;
        let plain = numbered(alloc, true, next_plain, outline)?;
        next_kept = capped(next_kept, kept.names.len());
        next_plain = capped(next_plain, plain.names.len());
        texts.push(NumberedText { kept, plain })?;
    }
    Ok(texts)
}

/// The numbers of all types of a set of texts.
#[tactic(auto, unfolding(crate::specs::Numbers::numbers_of))]
pub fn numbers_of(alloc: Global, known: &Known) -> Result<Numbers, Memory>
    ensures { IfOk result (λ numbers. numbers ≡ numbers_of known.now) }
{
    let given = given_names(alloc, known)?;
    let outlines = known.texts.as_slice();
    let first = capped(0, given.len());
    let kept = count_from(alloc, false, first, outlines)?;
    let texts = numbered_from(alloc, first, kept, outlines)?;
    let count = count_from(alloc, true, kept, outlines)?;
    Ok(Numbers {
        given,
        texts,
        kept,
        count,
    })
}

/// The number of a name, where it is one of these, of which the first has the number `first`.
fn number_among(first: u32, names: &NameSet<u32>, name: u32) -> Option<u32>
    ensures { result ≡ number_among first names.now name }
{
    if names.has(name) {
        Some(capped(first, names.place(name)))
    } else {
        None
    }
}

impl NumberedNames {
    ghost use Rattle.std.specs.Prelude.{◌≡◌};
    ghost use Rattle.rml_signatures.specs.Numbers.{number_in_run};

    /// The number of a name, where it is one of these.
    pub fn number(&self, name: u32) -> Option<u32>
        ensures { result ≡ number_in_run self.now name }
    {
        number_among(self.first, &self.names, name)
    }
}

impl NumberedText {
    ghost use Rattle.std.specs.Prelude.{◌≡◌};
    ghost use Rattle.rml_signatures.specs.Numbers.{number_in, run_of};

    /// The number of a name, where it is one of the text's types.
    pub fn number(&self, name: u32) -> Option<u32>
        ensures { result ≡ number_in self.now name }
    {
        match self.kept.number(name) {
            Some(number) => Some(number),
            None => self.plain.number(name),
        }
    }

    /// The types of a run.
    pub fn run(&self, plain: bool) -> &NumberedNames
        ensures { result.now ≡ run_of plain self.now }
    {
        if plain { &self.plain } else { &self.kept }
    }
}

impl Numbers {
    ghost use Rattle.std.specs.Prelude.{◌≡◌};
    ghost use Rattle.rml_signatures.specs.Numbers.{given_number, own_number};

    /// The number of a type that a text declares.
    #[tactic(auto, unfolding(crate::specs::Numbers::own_number))]
    pub fn own(&self, text: u32, name: u32) -> Option<u32>
        ensures { result ≡ own_number self.now text name }
    {
        match self.texts.get(text as usize) {
            None => None,
            Some(numbered) => numbered.number(name),
        }
    }

    /// The number of a type that is given to each text.
    #[tactic(auto, unfolding(crate::specs::Numbers::given_number))]
    pub fn given(&self, name: u32) -> Option<u32>
        ensures { result ≡ given_number self.now name }
    {
        number_among(0, &self.given, name)
    }
}

/// The number of the type that a name means; `None` where it means no type.
#[tactic(auto, unfolding(crate::specs::Numbers::number_of))]
pub fn number_of(
    known: &Known,
    numbers: &Numbers,
    own: u32,
    in_body: bool,
    long: Long,
) -> Option<u32>
    ensures { result ≡ number_of known.now numbers.now own in_body long }
{
    if let Some(module) = long.module {
        return exported(known, numbers, own, in_body, module, long.name);
    }
    match numbers.own(own, long.name) {
        Some(number) => Some(number),
        None => numbers.given(long.name),
    }
}

/// The number of the type that a name means behind a module.
#[tactic(auto, unfolding(crate::specs::Numbers::exported_number))]
fn exported(
    known: &Known,
    numbers: &Numbers,
    own: u32,
    in_body: bool,
    module_name: u32,
    name: u32,
) -> Option<u32>
    ensures { result ≡ exported_number known.now numbers.now own in_body module_name name }
{
    match known.exporter(own, in_body, module_name) {
        None => None,
        Some(text) => {
            if known.interface_type(text, name).is_some() {
                numbers.own(text, name)
            } else {
                None
            }
        }
    }
}
