//! Names with what they stand for, seen as a list of pairs.

ghost use Rattle.std.specs.Prelude.{◌≡◌, [], length, not, is_some, slice_get, take, IfOk, OnErr, OnOk};
ghost use Rattle.std.specs.Map.{keys_of, lookup};
ghost use Rattle.rml_tables.specs.Words.{AreDistinct, place_of, with_first};

use indexmap::IndexMap;
use rml_base::Memory;
use std::alloc::Global;
use std::hash::Hash;
use std::marker::Model;

/// What names stand for, in the order of their first declarations. A name that is declared again keeps the first. Contracts see the
/// list of the pairs.
#[derive(Drop)]
pub struct Table<K: Eq + Hash, V> {
    entries: IndexMap<K, V>,
}

impl<K: Eq + Hash, V> Model for Table<K, V> {
    ghost use Rattle.std.specs.Prelude.{List};

    ghost Value = { List (K × V) };

    ghost view = { λ t. t.entries.entries };
}

impl<K: Copy + Drop + Eq + Hash, V: Copy + Drop> Table<K, V> {
    /// No declarations yet. It takes no memory, and all later memory from `alloc`.
    pub fn new(alloc: Global) -> Table<K, V>
        ensures { result ≡ [] }
    {
        Table {
            entries: IndexMap::new(alloc),
        }
    }

    /// How many names are declared.
    pub fn len(&self) -> usize
        ensures { result ≡ length self.now }
    {
        self.entries.len()
    }

    /// What a name stands for; `None` where it is not declared.
    pub fn value(&self, name: K) -> Option<V>
        ensures { result ≡ lookup (K.eq name) self.now }
    {
        self.entries.get(&name).copied()
    }

    /// The place of a name, counted from 0; behind the last where it is not declared.
    pub fn place(&self, name: K) -> usize
        ensures { result ≡ place_of K.eq name (keys_of self.now) }
    {
        match self.entries.get_index_of(&name) {
            Some(at) => at,
            None => self.entries.len(),
        }
    }

    /// The name at a place, with what it stands for; `None` behind the last.
    pub fn entry(&self, place: usize) -> Option<(K, V)>
        ensures { result ≡ slice_get self.now place }
    {
        match self.entries.get_index(place) {
            Some((name, value)) => Some((*name, *value)),
            None => None,
        }
    }

    /// Declares a name at the end where it is not declared, and says whether it did. After an error nothing has changed.
    pub fn declare(&mut self, name: K, value: V) -> Result<bool, Memory>
        ensures table { OnOk result (self.new ≡ with_first K.eq self.old name value) }
        ensures added { IfOk result (λ added. added ≡ not (is_some (lookup (K.eq name) self.old))) }
        ensures err { OnErr result (self.new ≡ self.old) }
    {
        if self.entries.contains_key(&name) {
            return Ok(false);
        }
        self.entries.insert(name, value)?;
        Ok(true)
    }

    /// Keeps the first declarations, so many, and drops the others.
    pub fn keep(&mut self, count: usize)
        ensures { self.new ≡ take count self.old }
    {
        self.entries.truncate(count);
    }

    /// Tells a caller that no name is declared twice. It does nothing.
    pub fn are_distinct(&self)
        ensures { AreDistinct K.eq (keys_of self.now) }
    {
        let _count = self.entries.len();
    }
}
