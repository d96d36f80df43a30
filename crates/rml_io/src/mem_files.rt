//! Files in memory, for tests: they tell all that they hold and were asked, and can be made to fail at any read.

ghost use Rattle.std.specs.Prelude.{◌≡◌, ◌^◌, ◌+◌, ◌<◌, ◌≤◌, ◌∷◌, [], ◌++◌, ℕ, Some, None, true, false, IsTrue, IfOk, IfSome, IsSomeAnd, OnOk, OnErr, IsErrOf, IsOkUnless, if◌then◌else◌, length, map, vec_len, string_bytes};
ghost use Rattle.std.specs.FinMap as fin_map;
ghost use Rattle.std.specs.FinSet as fin_set;
ghost use Rattle.rml_io.specs.Counts.{raised, Rose};
ghost use Rattle.rml_io.specs.Files.{Held, and_name, is_memory, is_failed};
ghost use Rattle.rml_io.specs.MemFiles.{no_files, fails_at, fails, bytes_taken};

use crate::errors::FileErr;
use crate::failing::FailingCalls;
use crate::files::{Files, count_fault};
use crate::store::Store;
use std::alloc::Global;
use std::marker::Model;

/// Files in memory. Contracts see what is held under each name, the names read so far, the numbers of the reads that
/// fail, and the counts.
#[derive(Drop)]
pub struct MemFiles {
    alloc: Global,
    store: Store,
    names: Vec<String>,
    failing: FailingCalls,
    faults: u64,
    calls: u64,
    taken: u64,
}

impl Model for MemFiles {
    ghost use Rattle.std.specs.Prelude.{map, string_bytes};
    ghost use Rattle.rml_io.specs.MemFiles.{FilesInMemory, files_code};

    ghost Value = { FilesInMemory };

    ghost coded = { files_code };

    ghost view = { λ f. record {
      held = f.store;
      asked = map string_bytes f.names.items;
      failing = f.failing;
      faults = f.faults;
      calls = f.calls;
      taken = f.taken;
    } };
}

impl MemFiles {
    /// Holds nothing, and lists no read.
    pub fn new(alloc: Global) -> MemFiles
        ensures { result ≡ no_files }
    {
        MemFiles {
            alloc,
            store: Store::new(alloc),
            names: Vec::new(alloc),
            failing: FailingCalls::new(alloc),
            faults: 0,
            calls: 0,
            taken: 0,
        }
    }

    /// Holds these bytes under the name, in place of any that were there.
    ///
    /// # Errors
    /// `Memory` alone, and then nothing has changed.
    pub fn add(&mut self, name: &str, bytes: &[u8]) -> Result<(), FileErr>
        ensures ok { OnOk result (self.new ≡ record self.old { held = fin_map.insert self.old.held name.now bytes.now }) }
        ensures err { OnErr result (self.new ≡ self.old) }
        ensures only { IsOkUnless result FileErr.Memory }
    {
        self.store.insert(self.alloc, name, bytes)?;
        Ok(())
    }

    /// Lets the read of this number fail, counted from 1.
    ///
    /// # Errors
    /// `Memory` alone, and then nothing has changed.
    pub fn fail_at(&mut self, call: u64) -> Result<(), FileErr>
        ensures ok { OnOk result (self.new ≡ record self.old { failing = fin_set.insert self.old.failing call }) }
        ensures err { OnErr result (self.new ≡ self.old) }
        ensures only { IsOkUnless result FileErr.Memory }
    {
        self.failing.insert(call)?;
        Ok(())
    }

    /// The names of the reads so far but those for which there was no memory, the first read first.
    pub fn asked(&self) -> &[String]
        ensures { map string_bytes result.now ≡ self.now.asked }
    {
        self.names.as_slice()
    }

    /// What the read of that number finds, before anything is counted.
    fn find(&self, alloc: Global, call: u64, name: &str, limit: usize) -> Result<Vec<u8>, FileErr>
        ensures failed { is_failed result ≡ fails_at self.now call name.now }
        ensures within { IfOk result (λ bytes. vec_len bytes ≤ limit) }
        ensures bytes { IfOk result (λ bytes. fin_map.get self.now.held name.now ≡ Some bytes.items) }
        ensures too_long { IsErrOf result FileErr.TooLong
            → IsSomeAnd (fin_map.get self.now.held name.now) (λ bytes. limit < length bytes) }
    {
        if self.failing.contains(call) {
            return Err(FileErr::Failed);
        }
        match self.store.get(name) {
            None => Err(FileErr::Failed),
            Some(bytes) if bytes.len() > limit => Err(FileErr::TooLong),
            Some(bytes) => Ok(Vec::from_slice(alloc, bytes)?),
        }
    }
}

impl Files for MemFiles {
    ghost seen = { λ f. record { held = Some f.held; asked = Some f.asked; faults = f.faults; calls = f.calls; taken = f.taken } };

    fn read(&mut self, alloc: Global, name: &str, limit: usize) -> Result<Vec<u8>, FileErr>
        // What stays, and what each read counts.
        ensures held { self.new.held ≡ self.old.held }
        ensures failing { self.new.failing ≡ self.old.failing }
        ensures calls { self.new.calls ≡ raised self.old.calls 1 }
        ensures asked { self.new.asked ≡
            (if is_memory result then self.old.asked else self.old.asked ++ name.now ∷ []) }
        // A fault is a listed read or a name that is not held, and nothing else.
        ensures faults { self.new.faults ≡
            (if fails self.old name.now then raised self.old.faults 1 else self.old.faults) }
        ensures later { (self.old.faults ≤ self.new.faults) × (self.old.calls ≤ self.new.calls) }
        ensures stops { (self.new.faults < 2 ^ 64) × (self.new.calls < 2 ^ 64) × (self.new.taken < 2 ^ 64) }
        ensures taken_by { self.new.taken ≡ raised self.old.taken (bytes_taken result limit) }
        ensures taken { (self.old.taken ≤ self.new.taken)
            × (self.new.taken ≤ raised self.old.taken (limit + 1)) }
        // What comes of the read.
        ensures failed { IsErrOf result FileErr.Failed → IsTrue (fails self.old name.now) }
        ensures answered { OnOk result (fails self.old name.now ≡ false) }
        ensures within { IfOk result (λ bytes. vec_len bytes ≤ limit) }
        ensures bytes { IfOk result (λ bytes. fin_map.get self.old.held name.now ≡ Some bytes.items) }
        ensures too_long { IsErrOf result FileErr.TooLong → (fails self.old name.now ≡ false)
            × IsSomeAnd (fin_map.get self.old.held name.now) (λ bytes. limit < length bytes) }
    {
        self.calls = self.calls.saturating_add(1);
        let answer = self.find(alloc, self.calls, name, limit);
        self.faults = count_fault(self.faults, &answer);
        let taken = count_taken(self.taken, &answer, limit);
        if let Err(FileErr::Memory) = &answer {
            return Err(FileErr::Memory);
        }
        self.names.push(String::from_str(self.alloc, name)?)?;
        self.taken = taken;
        answer
    }
}

/// The count of bytes after a read with this answer.
fn count_taken(taken: u64, answer: &Result<Vec<u8>, FileErr>, limit: usize) -> u64
    ensures { result ≡ raised taken (bytes_taken answer.now limit) }
{
    match answer {
        Ok(bytes) => taken.saturating_add(bytes.len() as u64),
        Err(FileErr::TooLong) => taken.saturating_add(limit as u64).saturating_add(1),
        Err(FileErr::Failed) => taken,
        Err(FileErr::Memory) => taken,
    }
}
