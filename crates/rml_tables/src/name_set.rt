//! Different names, seen as a list.

ghost use Rattle.std.specs.Prelude.{◌≡◌, [], length, not, take, IfOk, OnErr, OnOk};
ghost use Rattle.rml_tables.specs.Words.{AreDistinct, has, place_of, with_each, with_name};

use indexmap::IndexSet;
use rml_base::Memory;
use std::alloc::Global;
use std::hash::Hash;
use std::marker::Model;

/// Different names, in the order in which they came. Contracts see the list of them.
#[derive(Drop)]
pub struct NameSet<K: Eq + Hash> {
    names: IndexSet<K>,
}

impl<K: Eq + Hash> Model for NameSet<K> {
    ghost use Rattle.std.specs.Prelude.{List};

    ghost Value = { List K };

    ghost view = { λ s. s.names.keys };
}

impl<K: Copy + Drop + Eq + Hash> NameSet<K> {
    /// No names yet. It takes no memory, and all later memory from `alloc`.
    pub fn new(alloc: Global) -> NameSet<K>
        ensures { result ≡ [] }
    {
        NameSet {
            names: IndexSet::new(alloc),
        }
    }

    /// How many names there are.
    pub fn len(&self) -> usize
        ensures { result ≡ length self.now }
    {
        self.names.len()
    }

    /// The names, in the order in which they came.
    pub fn as_slice(&self) -> &[K]
        ensures { result.now ≡ self.now }
    {
        self.names.as_slice()
    }

    /// Whether the name is there.
    pub fn has(&self, name: K) -> bool
        ensures { result ≡ has K.eq name self.now }
    {
        self.names.contains(&name)
    }

    /// The place of a name, counted from 0; behind the last where it is not there.
    pub fn place(&self, name: K) -> usize
        ensures { result ≡ place_of K.eq name self.now }
    {
        match self.names.get_index_of(&name) {
            Some(at) => at,
            None => self.names.len(),
        }
    }

    /// Adds a name at the end where it is not there, and says whether it did. After an error nothing has changed.
    pub fn add(&mut self, name: K) -> Result<bool, Memory>
        ensures names { OnOk result (self.new ≡ with_name K.eq self.old name) }
        ensures added { IfOk result (λ added. added ≡ not (has K.eq name self.old)) }
        ensures err { OnErr result (self.new ≡ self.old) }
    {
        let added = self.names.insert(name)?;
        Ok(added)
    }

    /// Adds each of the other names. After an error nothing has changed.
    pub fn add_each(&mut self, more: &NameSet<K>) -> Result<(), Memory>
        ensures ok { OnOk result (self.new ≡ with_each K.eq self.old more.now) }
        ensures err { OnErr result (self.new ≡ self.old) }
    {
        let count = self.len();
        for name in more.names.as_slice() {
            if self.add(*name).is_err() {
                self.keep(count);
                return Err(Memory);
            }
        }
        Ok(())
    }

    /// Keeps the first names, so many, and drops the others.
    pub fn keep(&mut self, count: usize)
        ensures { self.new ≡ take count self.old }
    {
        self.names.truncate(count);
    }

    /// Tells a caller that no name stands twice. It does nothing.
    pub fn are_distinct(&self)
        ensures { AreDistinct K.eq self.now }
    {
        let _names = self.names.as_slice();
    }
}
