//! What is in scope at a step of a text, and what names mean there.

ghost use Rattle.std.specs.Prelude.{◌≡◌, None, OnOk};
ghost use Rattle.rml_scopes.specs.Machine.{after_name, after_type, after_value, closed, fresh};
ghost use Rattle.rml_outlines.specs.Lookups.{is_there_and};
ghost use Rattle.rml_scopes.specs.Meaning.{binds, is_abbrev, is_in_type, is_in_val, is_later_type, is_of_own_text, is_own_module, is_unusable_val, is_usable_val, is_val, meaning, val_named, value_by};

use crate::meaning::Meaning;
use crate::role::{Role, Within};
use crate::world::World;
use rml_base::Memory;
use rml_outlines::{Known, TypeEntry, TypeKind, ValueEntry};
use rml_syntax::Long;
use rml_tables::{Marks, NameSet};
use std::alloc::Global;

/// What is in scope at a step of a text.
#[derive(Drop)]
pub struct Scope {
    /// The text, by its number.
    pub text: u32,
    /// Whether its body has begun.
    pub in_body: bool,
    /// The names of types that this half of the text has declared so far.
    pub types: NameSet<u32>,
    /// The names of values that this half of the text has declared so far.
    pub values: NameSet<u32>,
    /// The `type`s that stand earlier in the text.
    pub abbrevs: NameSet<u32>,
    /// The vals that stand earlier in the body.
    pub vals: NameSet<u32>,
    /// Whether only certain type variables may stand here.
    pub has_params: bool,
    /// Those that may, then.
    pub params: NameSet<u32>,
    pub within: Within,
    /// The variables of earlier parts of the rule that have their meaning here.
    pub seen: NameSet<u32>,
    /// All variables that earlier parts of the rule have bound, also in a `not` that has ended.
    pub bound: NameSet<u32>,
    /// The variables that this part has bound so far.
    pub part: NameSet<u32>,
    /// At each open `not`, the innermost first, how many variables were seen where it opened.
    pub opened: Marks,
}

impl Scope {
    /// Where a text begins, which has this number.
    #[tactic(auto, unfolding(crate::specs::Machine::fresh))]
    pub fn new(alloc: Global, text: u32) -> Scope
        ensures { result ≡ fresh text }
    {
        Scope {
            text,
            in_body: false,
            types: NameSet::new(alloc),
            values: NameSet::new(alloc),
            abbrevs: NameSet::new(alloc),
            vals: NameSet::new(alloc),
            has_params: false,
            params: NameSet::new(alloc),
            within: Within::Anything,
            seen: NameSet::new(alloc),
            bound: NameSet::new(alloc),
            part: NameSet::new(alloc),
            opened: Marks::new(alloc),
        }
    }

    /// What a short name means.
    fn short_meaning(&self, known: &Known, name: u32) -> Meaning
        ensures { result ≡ value_by known.now self.now name None }
    {
        if self.seen.has(name) {
            return Meaning::Variable;
        }
        match known.own_value(self.text, name) {
            Some(entry) => Meaning::Declared(entry),
            None => Meaning::of(known.given_value(name)),
        }
    }

    /// What a name of the space of values means.
    #[tactic(auto, unfolding(crate::specs::Meaning::meaning))]
    pub fn meaning(&self, known: &Known, long: Long) -> Meaning
        ensures { result ≡ meaning known.now self.now long }
    {
        match long.module {
            None => self.short_meaning(known, long.name),
            Some(module_name) => {
                Meaning::of(known.exported_value(self.text, self.in_body, module_name, long.name))
            }
        }
    }

    /// Whether a module name is that of the own text.
    #[tactic(auto, unfolding(crate::specs::Meaning::is_own_module))]
    fn is_own_module(&self, known: &Known, module_name: u32) -> bool
        ensures { result ≡ is_own_module known.now self.now module_name }
    {
        match known.text_of_module(module_name) {
            None => false,
            Some(text) => text == self.text,
        }
    }

    /// Whether a name is one of the own text, with its module or without one, unless it is given to each text.
    fn is_of_own_text(&self, known: &Known, long: Long) -> bool
        ensures { result ≡ is_of_own_text known.now self.now long.«module» }
    {
        match long.module {
            None => true,
            Some(module_name) => self.is_own_module(known, module_name),
        }
    }

    /// Whether a name means a `type` of the own text that may not be used here, since it does not stand earlier.
    #[tactic(auto, unfolding(crate::specs::Meaning::is_later_type))]
    pub fn is_later_type(&self, known: &Known, long: Long) -> bool
        ensures { result ≡ is_later_type known.now self.now long }
    {
        is_in_type(self.within)
            && self.is_of_own_text(known, long)
            && is_abbrev_there(known.type_of(self.text, self.in_body, long))
            && !self.abbrevs.has(long.name)
    }

    /// Whether a val may be used in the expression of a val.
    #[tactic(auto, unfolding(crate::specs::Meaning::is_usable_val))]
    fn is_usable_val(&self, known: &Known, long: Long) -> bool
        ensures { result ≡ is_usable_val known.now self.now long.name long.«module» }
    {
        let Some(module_name) = long.module else {
            return self.vals.has(long.name);
        };
        if self.is_own_module(known, module_name) {
            self.vals.has(long.name)
        } else {
            is_val_there(known.exported_value(self.text, false, module_name, long.name))
        }
    }

    /// What a name is declared as, if it means no variable and nothing that is given to each text.
    fn val_named(&self, known: &Known, long: Long) -> Option<ValueEntry>
        ensures { result ≡ val_named known.now self.now long.name long.«module» }
    {
        match long.module {
            None => known.own_value(self.text, long.name),
            Some(module_name) => {
                known.exported_value(self.text, self.in_body, module_name, long.name)
            }
        }
    }

    /// Whether a name means a val that may not be used here, since it does not stand earlier.
    #[tactic(auto, unfolding(crate::specs::Meaning::is_unusable_val))]
    pub fn is_unusable_val(&self, known: &Known, long: Long) -> bool
        ensures { result ≡ is_unusable_val known.now self.now long }
    {
        is_in_val(self.within)
            && is_val_there(self.val_named(known, long))
            && !self.is_usable_val(known, long)
    }

    /// Whether a name in this role binds a variable.
    #[tactic(auto, unfolding(crate::specs::Meaning::binds))]
    pub fn binds(&self, known: &Known, role: Role, long: Long) -> bool
        ensures { result ≡ binds known.now self.now role long }
    {
        match role {
            Role::Pattern => {
                long.module.is_none() && !self.meaning(known, long).is_constructor()
            }
            Role::Variable => true,
            _ => false,
        }
    }

    /// Goes on behind a name that is used.
    #[tactic(auto, unfolding(crate::specs::Machine::after_name))]
    pub fn pass_name(&mut self, world: &World, role: Role, long: Long) -> Result<(), Memory>
        ensures { OnOk result (self.new ≡ after_name world.now self.old role long) }
    {
        if self.binds(&world.known, role, long) {
            self.part.add(long.name)?;
        }
        Ok(())
    }

    /// Goes on behind a type that is declared.
    #[tactic(auto, unfolding(crate::specs::Machine::after_type))]
    pub fn pass_type(&mut self, entry: TypeEntry, name: u32) -> Result<(), Memory>
        ensures { OnOk result (self.new ≡ after_type self.old entry name) }
    {
        self.types.add(name)?;
        if is_abbrev(entry.kind) {
            self.abbrevs.add(name)?;
        }
        Ok(())
    }

    /// Goes on behind a value that is declared.
    #[tactic(auto, unfolding(crate::specs::Machine::after_value))]
    pub fn pass_value(&mut self, entry: ValueEntry, name: u32) -> Result<(), Memory>
        ensures { OnOk result (self.new ≡ after_value self.old entry name) }
    {
        self.values.add(name)?;
        if self.in_body && is_val(entry) {
            self.vals.add(name)?;
        }
        Ok(())
    }

    /// Goes on behind the innermost `not`.
    pub fn close(&mut self)
        ensures { self.new ≡ closed self.old self.old.opened }
    {
        if let Some(count) = self.opened.pop() {
            self.seen.keep(count);
        }
    }
}

fn is_in_type(within: Within) -> bool
    ensures { result ≡ is_in_type within }
{
    matches!(within, Within::AType)
}

fn is_in_val(within: Within) -> bool
    ensures { result ≡ is_in_val within }
{
    matches!(within, Within::AVal)
}

/// Whether a `type` declares it.
pub fn is_abbrev(kind: TypeKind) -> bool
    ensures { result ≡ is_abbrev kind }
{
    matches!(kind, TypeKind::Abbrev)
}

fn is_abbrev_there(entry: Option<TypeEntry>) -> bool
    ensures { result ≡ is_there_and (λ e. is_abbrev e.kind) entry }
{
    match entry {
        None => false,
        Some(entry) => is_abbrev(entry.kind),
    }
}

/// Whether it is a val.
pub fn is_val(entry: ValueEntry) -> bool
    ensures { result ≡ is_val entry }
{
    matches!(entry, ValueEntry::Val)
}

fn is_val_there(entry: Option<ValueEntry>) -> bool
    ensures { result ≡ is_there_and is_val entry }
{
    match entry {
        None => false,
        Some(entry) => is_val(entry),
    }
}
