//! The sentences of the table of faults, as tests of a scope: one or two for each row, in the order of the rows.

ghost use Rattle.std.specs.Prelude.{◌≡◌, None, not, nat_eq};
ghost use Rattle.rml_outlines.specs.Lookups.{is_there_and};
ghost use Rattle.rml_scopes.specs.Sentences.{defines_value, has_other_params, has_other_type, has_wrong_count, is_abstype, is_circular, is_constructor_entry, is_definition_of_type, is_definition_of_value, is_duplicate_module, is_duplicate_type, is_duplicate_value, is_not_defined_type, is_on_circle, is_rebound, is_relation, is_repeated, is_unknown, is_unknown_variable, lacks_definition, lacks_type, leads_back, names_no_text};

use crate::role::Role;
use crate::scope::{Scope, is_abbrev, is_val};
use crate::world::World;
use rml_outlines::{TypeEntry, TypeKind, ValueEntry};
use rml_syntax::Long;

fn is_abstype(kind: TypeKind) -> bool
    ensures { result ≡ is_abstype kind }
{
    matches!(kind, TypeKind::Abstype)
}

/// Whether the second, in a body, can define the first, in its interface.
#[tactic(auto, unfolding(crate::specs::Sentences::defines_value))]
fn defines_value(interface: ValueEntry, body: ValueEntry) -> bool
    ensures { result ≡ defines_value interface body }
{
    match interface {
        ValueEntry::Constructor(_) => false,
        ValueEntry::Val => is_val(body),
        ValueEntry::Relation => is_relation(body),
    }
}

fn is_relation(entry: ValueEntry) -> bool
    ensures { result ≡ is_relation entry }
{
    matches!(entry, ValueEntry::Relation)
}

fn is_constructor_entry(entry: ValueEntry) -> bool
    ensures { result ≡ is_constructor_entry entry }
{
    matches!(entry, ValueEntry::Constructor(_))
}

/// Whether there is a number, which is another one.
fn differs(declared: Option<usize>, count: usize) -> bool
    ensures { result ≡ is_there_and (λ n. not (nat_eq n count)) declared }
{
    match declared {
        None => false,
        Some(declared) => declared != count,
    }
}

impl Scope {
    /// Whether the body declares a type here that its interface leaves open, for the first time.
    #[tactic(auto, unfolding(crate::specs::Sentences::is_definition_of_type))]
    fn is_definition_of_type(&self, world: &World, name: u32) -> bool
        ensures { result ≡ is_definition_of_type world.now self.now name }
    {
        if !self.in_body || self.types.has(name) {
            return false;
        }
        match world.known.interface_type(self.text, name) {
            None => false,
            Some(interface) => is_abstype(interface.kind),
        }
    }

    /// Whether the body declares a value here that its interface declares alike, for the first time.
    #[tactic(auto, unfolding(crate::specs::Sentences::is_definition_of_value))]
    fn is_definition_of_value(&self, world: &World, entry: ValueEntry, name: u32) -> bool
        ensures { result ≡ is_definition_of_value world.now self.now entry name }
    {
        if !self.in_body || self.values.has(name) {
            return false;
        }
        match world.known.interface_value(self.text, name) {
            None => false,
            Some(interface) => defines_value(interface, entry),
        }
    }

    /// Whether an earlier text has the module name, or the prelude.
    #[tactic(auto, unfolding(crate::specs::Sentences::is_duplicate_module))]
    pub fn is_duplicate_module(&self, world: &World, name: u32) -> bool
        ensures { result ≡ is_duplicate_module world.now self.now name }
    {
        if name == world.known.prelude_module {
            return true;
        }
        match world.known.text_of_module(name) {
            None => false,
            Some(first) => first < self.text,
        }
    }

    /// Whether a text that the interface names leads back to this one.
    #[tactic(auto, unfolding(crate::specs::Sentences::leads_back))]
    fn leads_back(&self, world: &World, text: u32) -> bool
        ensures { result ≡ leads_back world.now self.now text }
    {
        match world.known.outline(self.text) {
            None => false,
            Some(own) => own.circles.has(text),
        }
    }

    /// Whether a `with` of the interface lies on a circle.
    #[tactic(auto, unfolding(crate::specs::Sentences::is_on_circle))]
    pub fn is_on_circle(&self, world: &World, file: u32) -> bool
        ensures { result ≡ is_on_circle world.now self.now file }
    {
        if self.in_body {
            return false;
        }
        match world.known.target(file) {
            None => false,
            Some(text) => self.leads_back(world, text),
        }
    }

    /// Whether a `type` that defines an abstype reaches itself.
    #[tactic(auto, unfolding(crate::specs::Sentences::is_circular))]
    pub fn is_circular(&self, world: &World, entry: TypeEntry, name: u32) -> bool
        ensures { result ≡ is_circular world.now self.now entry name }
    {
        if !is_abbrev(entry.kind) || !self.is_definition_of_type(world, name) {
            return false;
        }
        match world.facts.get(self.text as usize) {
            None => false,
            Some(facts) => facts.circular.has(name),
        }
    }

    /// Whether a type's name, or a variable among its parameters, stands twice.
    #[tactic(auto, unfolding(crate::specs::Sentences::is_duplicate_type))]
    pub fn is_duplicate_type(&self, world: &World, twice: bool, name: u32) -> bool
        ensures { result ≡ is_duplicate_type world.now self.now twice name }
    {
        twice
            || self.types.has(name)
            || (self.in_body
                && world.known.interface_type(self.text, name).is_some()
                && !self.is_definition_of_type(world, name))
    }

    /// Whether a value's name stands twice.
    #[tactic(auto, unfolding(crate::specs::Sentences::is_duplicate_value))]
    pub fn is_duplicate_value(&self, world: &World, entry: ValueEntry, name: u32) -> bool
        ensures { result ≡ is_duplicate_value world.now self.now entry name }
    {
        self.values.has(name)
            || (self.in_body
                && world.known.interface_value(self.text, name).is_some()
                && !self.is_definition_of_value(world, entry, name))
    }

    /// Whether a name means nothing that it may stand for.
    #[tactic(auto, unfolding(crate::specs::Sentences::is_unknown))]
    pub fn is_unknown(&self, world: &World, role: Role, long: Long) -> bool
        ensures { result ≡ is_unknown world.now self.now role long }
    {
        match role {
            Role::Head(relation) => long.name != relation,
            Role::Pattern => {
                long.module.is_some() && !self.meaning(&world.known, long).is_constructor()
            }
            Role::Variable => false,
            Role::Constructor(_) => !self.meaning(&world.known, long).is_constructor(),
            Role::Value => {
                self.meaning(&world.known, long).is_nothing()
                    || self.is_unusable_val(&world.known, long)
            }
            Role::Callee => {
                let meaning = self.meaning(&world.known, long);
                meaning.is_nothing() || meaning.is_constructor()
            }
            Role::TypeName(_) => {
                world.known.type_of(self.text, self.in_body, long).is_none()
                    || self.is_later_type(&world.known, long)
            }
        }
    }

    /// Whether a type variable is not among those that may stand here.
    #[tactic(auto, unfolding(crate::specs::Sentences::is_unknown_variable))]
    pub fn is_unknown_variable(&self, name: u32) -> bool
        ensures { result ≡ is_unknown_variable self.now name }
    {
        self.has_params && !self.params.has(name)
    }

    /// Whether a constructor or a type has another number of arguments than it is declared with.
    #[tactic(auto, unfolding(crate::specs::Sentences::has_wrong_count))]
    pub fn has_wrong_count(&self, world: &World, role: Role, long: Long) -> bool
        ensures { result ≡ has_wrong_count world.now self.now role long }
    {
        match role {
            Role::Pattern => differs(self.meaning(&world.known, long).arguments(), 0),
            Role::Value => differs(self.meaning(&world.known, long).arguments(), 0),
            Role::Constructor(count) => differs(
                self.meaning(&world.known, long).arguments(),
                count,
            ),
            Role::TypeName(count) => match world.known.type_of(self.text, self.in_body, long) {
                None => false,
                Some(entry) => entry.params != count,
            },
            _ => false,
        }
    }

    /// Whether a name binds a variable that this part has bound.
    #[tactic(auto, unfolding(crate::specs::Sentences::is_repeated))]
    pub fn is_repeated(&self, world: &World, role: Role, long: Long) -> bool
        ensures { result ≡ is_repeated world.now self.now role long }
    {
        self.binds(&world.known, role, long) && self.part.has(long.name)
    }

    /// Whether a name binds a variable that an earlier part has bound.
    #[tactic(auto, unfolding(crate::specs::Sentences::is_rebound))]
    pub fn is_rebound(&self, world: &World, role: Role, long: Long) -> bool
        ensures { result ≡ is_rebound world.now self.now role long }
    {
        self.binds(&world.known, role, long) && self.bound.has(long.name)
    }

    /// Whether the interface leaves a type open that the body does not define.
    #[tactic(auto, unfolding(crate::specs::Sentences::is_not_defined_type))]
    pub fn is_not_defined_type(&self, world: &World, entry: TypeEntry, name: u32) -> bool
        ensures { result ≡ is_not_defined_type world.now self.now entry name }
    {
        !self.in_body && is_abstype(entry.kind) && world.known.body_type(self.text, name).is_none()
    }

    /// Whether the interface declares a relation or a val that the body does not define.
    #[tactic(auto, unfolding(crate::specs::Sentences::lacks_definition))]
    pub fn lacks_definition(&self, world: &World, entry: ValueEntry, name: u32) -> bool
        ensures { result ≡ lacks_definition world.now self.now entry name }
    {
        if self.in_body || is_constructor_entry(entry) {
            return false;
        }
        match world.known.body_value(self.text, name) {
            None => true,
            Some(body) => !defines_value(entry, body),
        }
    }

    /// Whether a val of the body has a type in neither place.
    #[tactic(auto, unfolding(crate::specs::Sentences::lacks_type))]
    pub fn lacks_type(&self, world: &World, entry: ValueEntry, typed: bool, name: u32) -> bool
        ensures { result ≡ lacks_type world.now self.now entry typed name }
    {
        self.in_body
            && is_val(entry)
            && !typed
            && !self.values.has(name)
            && !self.is_definition_of_value(world, entry, name)
    }

    /// Whether a definition of an abstype has another number of parameters.
    #[tactic(auto, unfolding(crate::specs::Sentences::has_other_params))]
    pub fn has_other_params(&self, world: &World, entry: TypeEntry, name: u32) -> bool
        ensures { result ≡ has_other_params world.now self.now entry name }
    {
        if !self.is_definition_of_type(world, name) {
            return false;
        }
        match world.known.interface_type(self.text, name) {
            None => false,
            Some(interface) => interface.params != entry.params,
        }
    }

    /// Whether a relation or a val has another type in the body than in the interface.
    #[tactic(auto, unfolding(crate::specs::Sentences::has_other_type))]
    pub fn has_other_type(&self, world: &World, entry: ValueEntry, name: u32) -> bool
        ensures { result ≡ has_other_type world.now self.now entry name }
    {
        if !self.is_definition_of_value(world, entry, name) {
            return false;
        }
        match world.facts.get(self.text as usize) {
            None => false,
            Some(facts) => facts.different.has(name),
        }
    }
}

/// Whether a `with` names no text.
#[tactic(auto, unfolding(crate::specs::Sentences::names_no_text))]
pub fn names_no_text(world: &World, file: u32) -> bool
    ensures { result ≡ names_no_text world.now file }
{
    world.known.target(file).is_none()
}
