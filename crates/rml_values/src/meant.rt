//! What a name is in a program.

ghost use Rattle.std.specs.Prelude.{◌≡◌, None};
ghost use Rattle.rml_values.specs.Meant.{meant, meant_built, meant_by, meant_exported, meant_given, meant_in, meant_of};

use crate::numbers::TextValues;
use crate::values::Values;
use rml_outlines::{Known, ValueEntry};
use rml_scopes::Scope;
use rml_syntax::Long;

/// What a name of the space of values is in a program, by its number.
#[derive(Clone, Copy, Debug, PartialEq, Eq)]
pub enum Meant {
    /// A variable that an earlier part of the rule bound.
    Variable,
    /// A constructor, with the number of its arguments.
    Con(u32, usize),
    Val(u32),
    /// A relation of the prelude or of a text.
    Rel(u32),
    /// A built-in, by the place of its row.
    Built(usize),
    Nothing,
}

impl TextValues {
    /// A name that the text declares so.
    fn meant(&self, name: u32, entry: ValueEntry) -> Meant
        ensures { result ≡ meant_in self.now name entry }
    {
        match entry {
            ValueEntry::Constructor(count) => Meant::Con(self.cons.number(name), count),
            ValueEntry::Val => Meant::Val(self.vals.number(name)),
            ValueEntry::Relation => Meant::Rel(self.relations.number(name)),
        }
    }
}

impl Values {
    /// A name that the text of this number declares so.
    #[tactic(auto, unfolding(crate::specs::Meant::meant_of))]
    fn of_text(&self, text: u32, name: u32, entry: ValueEntry) -> Meant
        ensures { result ≡ meant_of self.now text name entry }
    {
        match self.texts.get(text as usize) {
            None => Meant::Nothing,
            Some(lists) => lists.meant(name, entry),
        }
    }

    /// A name that is built in so.
    fn built(&self, name: u32, entry: ValueEntry) -> Meant
        ensures { result ≡ meant_built self.now name entry }
    {
        match entry {
            ValueEntry::Constructor(count) => Meant::Con(0, count),
            ValueEntry::Val => Meant::Nothing,
            ValueEntry::Relation => Meant::Built(self.rows.place(name)),
        }
    }

    /// A name that each text is given.
    #[tactic(auto, unfolding(crate::specs::Meant::meant_given))]
    fn given(&self, known: &Known, name: u32) -> Meant
        ensures { result ≡ meant_given known.now self.now name }
    {
        if let Some(entry) = known.prelude.values.value(name) {
            return self.prelude.meant(name, entry);
        }
        match known.built.values.value(name) {
            None => Meant::Nothing,
            Some(entry) => self.built(name, entry),
        }
    }

    /// A name that the text of this number exports.
    #[tactic(auto, unfolding(crate::specs::Meant::meant_exported))]
    fn exported(&self, known: &Known, name: u32, text: u32) -> Meant
        ensures { result ≡ meant_exported known.now self.now name text }
    {
        match known.interface_value(text, name) {
            None => Meant::Nothing,
            Some(entry) => self.of_text(text, name, entry),
        }
    }

    /// A name without a module.
    fn short(&self, known: &Known, scope: &Scope, name: u32) -> Meant
        ensures { result ≡ meant_by known.now self.now scope.now name None }
    {
        if scope.seen.has(name) {
            return Meant::Variable;
        }
        match known.own_value(scope.text, name) {
            Some(entry) => self.of_text(scope.text, name, entry),
            None => self.given(known, name),
        }
    }

    /// What a name is at its place.
    #[tactic(auto, unfolding(crate::specs::Meant::meant))]
    pub fn meant(&self, known: &Known, scope: &Scope, long: Long) -> Meant
        ensures { result ≡ meant known.now self.now scope.now long }
    {
        let Some(module_name) = long.module else {
            return self.short(known, scope, long.name);
        };
        match known.exporter(scope.text, scope.in_body, module_name) {
            None => Meant::Nothing,
            Some(text) => self.exported(known, long.name, text),
        }
    }
}
