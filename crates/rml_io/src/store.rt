//! Named bytes in memory.

ghost use Rattle.std.specs.Prelude.{◌≡◌, OnOk, OnErr};
ghost use Rattle.std.specs.Option.{option_copied};
ghost use Rattle.std.specs.FinMap as fin_map;

use std::alloc::{AllocError, Global};
use std::collections::BTreeMap;
use std::marker::Model;

/// Bytes under names, seen as a map.
#[derive(Drop)]
pub(crate) struct Store {
    entries: BTreeMap<String, Vec<u8>>,
}

impl Model for Store {
    ghost use Rattle.std.specs.FinMap as fin_map;
    ghost use Rattle.std.specs.Coded.{coded_ℕ, coded_list};
    ghost use Rattle.rml_io.specs.Files.{Held};
    ghost use Rattle.rml_io.specs.Store.{held_in};

    ghost Value = { Held };

    ghost coded = { fin_map.code (coded_list coded_ℕ) (coded_list coded_ℕ) };

    ghost view = { λ s. held_in s.entries };
}

impl Store {
    pub(crate) fn new(alloc: Global) -> Store
        ensures { result ≡ fin_map.empty }
    {
        Store {
            entries: BTreeMap::new(alloc),
        }
    }

    #[tactic(auto, using(crate::proofs::Stores::storing))]
    pub(crate) fn insert(
        &mut self,
        alloc: Global,
        name: &str,
        bytes: &[u8],
    ) -> Result<(), AllocError>
        ensures ok { OnOk result (self.new ≡ fin_map.insert self.old name.now bytes.now) }
        ensures err { OnErr result (self.new ≡ self.old) }
    {
        let name = String::from_str(alloc, name)?;
        let bytes = Vec::from_slice(alloc, bytes)?;
        self.entries.insert(name, bytes)?;
        Ok(())
    }

    #[tactic(auto, using(crate::proofs::Stores::storing))]
    pub(crate) fn get(&self, name: &str) -> Option<&[u8]>
        ensures { option_copied result ≡ fin_map.get self.now name.now }
    {
        match self.entries.get(name) {
            Some(bytes) => Some(bytes.as_slice()),
            None => None,
        }
    }
}
