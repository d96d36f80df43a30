//! The built-ins by name.

ghost use Rattle.std.specs.Prelude.{◌≡◌, map};
ghost use Rattle.rml_builtin.specs.Names.{row_names, number_named};

use crate::row::{ROWS, name};
use indexmap::IndexSet;
use rml_base::Memory;
use std::alloc::Global;

/// The names of the built-ins, hashed once, so that a look-up costs one hash.
#[derive(Drop)]
pub struct BuiltIns {
    names: IndexSet<Vec<u8>>,
    ghost whole: { map (λ v. v.items) names.keys ≡ row_names },
}

impl BuiltIns {
    /// The names of all rows.
    pub fn new(alloc: Global) -> Result<BuiltIns, Memory> {
        let mut names = IndexSet::new(alloc);
        for row in ROWS {
            names.insert(name(row).as_bytes().to_vec(alloc)?)?;
        }
        Ok(BuiltIns { names })
    }

    /// The number of the built-in of a name, or None for a name that no built-in has.
    pub fn find(&self, name: &[u8]) -> Option<u16>
        ensures { result ≡ number_named name.now }
    {
        match self.names.get_index_of(name) {
            Some(number) => Some(number as u16),
            None => None,
        }
    }
}
