//! What is known of the texts of a set, and what names mean by it: names of the own text, names that are given to each text, and names
//! that the interfaces of other texts export.

use crate::entry::{TypeEntry, ValueEntry};
use crate::outline::{Entries, Outline};
use rml_syntax::Long;
use rml_tables::Table;
use sqlite_items::Items;

/// What is known of the texts of a set before their names are looked at. Texts are numbered from 0 in their order.
#[derive(Drop)]
pub struct Known {
    pub texts: Items<Outline>,
    /// The first text of each module name, without the prelude's.
    pub modules: Table<u32, u32>,
    /// The text that the literal of a `with` names, if there is one.
    pub targets: Table<u32, u32>,
    /// The module name of the prelude.
    pub prelude_module: u32,
    /// What the interface of the prelude declares, which each text sees without a module.
    pub prelude: Entries,
    /// What is built in: types, relations, and the constructor `nil`.
    pub built: Entries,
}

impl Known {
    ghost use Rattle.std.specs.Prelude.{◌≡◌, nat_eq, slice_get};
    ghost use Rattle.std.specs.Option.{option_copied};
    ghost use Rattle.std.specs.Map.{lookup};
    ghost use Rattle.rml_outlines.specs.Lookups.{body_type, body_value, exported_type, exported_value, exporter, given_type, given_value, interface_type, interface_value, own_type, own_value, sees, type_of};

    /// What is known of a text; `None` where there is no text of this number.
    pub fn outline(&self, text: u32) -> Option<&Outline>
        ensures { option_copied result ≡ slice_get self.now.texts text }
    {
        self.texts.get(text as usize)
    }

    /// The text that the literal of a `with` names.
    pub fn target(&self, file: u32) -> Option<u32>
        ensures { result ≡ lookup (nat_eq file) self.now.targets }
    {
        self.targets.value(file)
    }

    /// The first text of a module name, which is not the prelude's.
    pub fn text_of_module(&self, module_name: u32) -> Option<u32>
        ensures { result ≡ lookup (nat_eq module_name) self.now.modules }
    {
        self.modules.value(module_name)
    }

    /// What a text declares a type's name as, in its interface first.
    #[tactic(auto, unfolding(crate::specs::Lookups::own_type))]
    pub fn own_type(&self, text: u32, name: u32) -> Option<TypeEntry>
        ensures { result ≡ own_type self.now text name }
    {
        match self.outline(text) {
            None => None,
            Some(outline) => outline.type_entry(name),
        }
    }

    /// What a text declares a value's name as, in its interface first.
    #[tactic(auto, unfolding(crate::specs::Lookups::own_value))]
    pub fn own_value(&self, text: u32, name: u32) -> Option<ValueEntry>
        ensures { result ≡ own_value self.now text name }
    {
        match self.outline(text) {
            None => None,
            Some(outline) => outline.value_entry(name),
        }
    }

    /// What the interface of a text declares a type's name as.
    #[tactic(auto, unfolding(crate::specs::Lookups::interface_type))]
    pub fn interface_type(&self, text: u32, name: u32) -> Option<TypeEntry>
        ensures { result ≡ interface_type self.now text name }
    {
        match self.outline(text) {
            None => None,
            Some(outline) => outline.interface.types.value(name),
        }
    }

    /// What the interface of a text declares a value's name as.
    #[tactic(auto, unfolding(crate::specs::Lookups::interface_value))]
    pub fn interface_value(&self, text: u32, name: u32) -> Option<ValueEntry>
        ensures { result ≡ interface_value self.now text name }
    {
        match self.outline(text) {
            None => None,
            Some(outline) => outline.interface.values.value(name),
        }
    }

    /// What the body of a text declares a type's name as.
    #[tactic(auto, unfolding(crate::specs::Lookups::body_type))]
    pub fn body_type(&self, text: u32, name: u32) -> Option<TypeEntry>
        ensures { result ≡ body_type self.now text name }
    {
        match self.outline(text) {
            None => None,
            Some(outline) => outline.body.types.value(name),
        }
    }

    /// What the body of a text declares a value's name as.
    #[tactic(auto, unfolding(crate::specs::Lookups::body_value))]
    pub fn body_value(&self, text: u32, name: u32) -> Option<ValueEntry>
        ensures { result ≡ body_value self.now text name }
    {
        match self.outline(text) {
            None => None,
            Some(outline) => outline.body.values.value(name),
        }
    }

    /// What a type's name means that is given to each text.
    #[tactic(auto, unfolding(crate::specs::Lookups::given_type))]
    pub fn given_type(&self, name: u32) -> Option<TypeEntry>
        ensures { result ≡ given_type self.now name }
    {
        match self.prelude.types.value(name) {
            Some(entry) => Some(entry),
            None => self.built.types.value(name),
        }
    }

    /// What a value's name means that is given to each text.
    #[tactic(auto, unfolding(crate::specs::Lookups::given_value))]
    pub fn given_value(&self, name: u32) -> Option<ValueEntry>
        ensures { result ≡ given_value self.now name }
    {
        match self.prelude.values.value(name) {
            Some(entry) => Some(entry),
            None => self.built.values.value(name),
        }
    }

    /// Whether a text sees another, in its interface or in its body.
    #[tactic(auto, unfolding(crate::specs::Lookups::sees))]
    pub fn sees(&self, own: u32, in_body: bool, text: u32) -> bool
        ensures { result ≡ sees self.now own in_body text }
    {
        match self.outline(own) {
            None => false,
            Some(outline) => outline.sees(in_body, text),
        }
    }

    /// The first text of a module name, where it is seen.
    #[tactic(auto, unfolding(crate::specs::Lookups::exporter))]
    pub fn exporter(&self, own: u32, in_body: bool, module_name: u32) -> Option<u32>
        ensures { result ≡ exporter self.now own in_body module_name }
    {
        match self.text_of_module(module_name) {
            None => None,
            Some(text) => {
                if self.sees(own, in_body, text) {
                    Some(text)
                } else {
                    None
                }
            }
        }
    }

    /// What a type's name means behind the name of a module.
    #[tactic(auto, unfolding(crate::specs::Lookups::exported_type))]
    pub fn exported_type(
        &self,
        own: u32,
        in_body: bool,
        module_name: u32,
        name: u32,
    ) -> Option<TypeEntry>
        ensures { result ≡ exported_type self.now own in_body module_name name }
    {
        match self.exporter(own, in_body, module_name) {
            None => None,
            Some(text) => self.interface_type(text, name),
        }
    }

    /// What a value's name means behind the name of a module.
    #[tactic(auto, unfolding(crate::specs::Lookups::exported_value))]
    pub fn exported_value(
        &self,
        own: u32,
        in_body: bool,
        module_name: u32,
        name: u32,
    ) -> Option<ValueEntry>
        ensures { result ≡ exported_value self.now own in_body module_name name }
    {
        match self.exporter(own, in_body, module_name) {
            None => None,
            Some(text) => self.interface_value(text, name),
        }
    }

    /// What a type's name means.
    #[tactic(auto, unfolding(crate::specs::Lookups::type_of))]
    pub fn type_of(&self, own: u32, in_body: bool, long: Long) -> Option<TypeEntry>
        ensures { result ≡ type_of self.now own in_body long }
    {
        if let Some(module) = long.module {
            return self.exported_type(own, in_body, module, long.name);
        }
        match self.own_type(own, long.name) {
            Some(entry) => Some(entry),
            None => self.given_type(long.name),
        }
    }
}
