//! What a text declares, and which texts it sees.

use crate::entry::{TypeEntry, ValueEntry};
use rml_tables::{NameSet, Table};

/// Names with what they are declared as, in the two spaces of names. A name that is declared twice in one space has its first
/// declaration.
#[derive(Drop)]
pub struct Entries {
    pub types: Table<u32, TypeEntry>,
    pub values: Table<u32, ValueEntry>,
}

/// What is known of a text before its names are looked at. Other texts stand in it by their numbers.
#[derive(Drop)]
pub struct Outline {
    /// What the interface declares.
    pub interface: Entries,
    /// What the body declares.
    pub body: Entries,
    /// The texts that the `with`s of the interface name.
    pub seen: NameSet<u32>,
    /// The texts that the `with`s of the body name.
    pub body_seen: NameSet<u32>,
    /// Of the texts that the `with`s of the interface name, those whose interfaces lead back to this one.
    pub circles: NameSet<u32>,
}

impl Outline {
    ghost use Rattle.std.specs.Prelude.{◌≡◌, ◌||◌, ◌&&◌, nat_eq};
    ghost use Rattle.rml_tables.specs.Words.{has};
    ghost use Rattle.rml_outlines.specs.Lookups.{type_in, value_in};

    /// What a type's name is declared as in the text, in its interface first; `None` where it is not.
    #[tactic(auto, unfolding(crate::specs::Lookups::type_in))]
    pub fn type_entry(&self, name: u32) -> Option<TypeEntry>
        ensures { result ≡ type_in self.now name }
    {
        match self.interface.types.value(name) {
            Some(entry) => Some(entry),
            None => self.body.types.value(name),
        }
    }

    /// What a value's name is declared as in the text, in its interface first; `None` where it is not.
    #[tactic(auto, unfolding(crate::specs::Lookups::value_in))]
    pub fn value_entry(&self, name: u32) -> Option<ValueEntry>
        ensures { result ≡ value_in self.now name }
    {
        match self.interface.values.value(name) {
            Some(entry) => Some(entry),
            None => self.body.values.value(name),
        }
    }

    /// Whether a text is seen in the interface, or in the body.
    pub fn sees(&self, in_body: bool, text: u32) -> bool
        ensures { result ≡ (has nat_eq text self.now.seen || (in_body && has nat_eq text self.now.body_seen)) }
    {
        self.seen.has(text) || (in_body && self.body_seen.has(text))
    }
}
