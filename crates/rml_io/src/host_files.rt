//! The host's files: the trusted edge. No clause can say what the host gives, so these few lines open a file and count, and
//! the reading itself is `read_to_limit`, which is generic over the reader.

ghost use Rattle.std.specs.Prelude.{◌≡◌, ◌+◌, ◌≤◌, None};
ghost use Rattle.rml_io.specs.Counts.{raised, Rose};
ghost use Rattle.rml_io.specs.HostFiles.{no_counts};

use crate::errors::FileErr;
use crate::files::{Files, count_fault};
use crate::limited::read_to_limit;
use std::alloc::Global;
use std::marker::Model;
use std::{fs, rt};

/// The files of a host. Contracts see the three counts alone: neither bytes nor names are told.
#[derive(Drop)]
pub struct HostFiles<R> {
    runtime: R,
    faults: u64,
    calls: u64,
    taken: u64,
}

impl<R> Model for HostFiles<R> {
    ghost use Rattle.rml_io.specs.HostFiles.{HostCounts};

    ghost Value = { HostCounts };

    ghost view = { λ f. record { faults = f.faults; calls = f.calls; taken = f.taken } };
}

impl<R: rt::Files> HostFiles<R> {
    /// Files are opened by this runtime.
    pub fn new(runtime: R) -> HostFiles<R>
        ensures { result ≡ no_counts }
    {
        HostFiles {
            runtime,
            faults: 0,
            calls: 0,
            taken: 0,
        }
    }
}

impl<R: rt::Files> Files for HostFiles<R> {
    ghost seen = { λ f. record { held = None; asked = None; faults = f.faults; calls = f.calls; taken = f.taken } };

    /// Each error of the host is `Failed`.
    fn read(&mut self, alloc: Global, name: &str, limit: usize) -> Result<Vec<u8>, FileErr> {
        self.calls = self.calls.saturating_add(1);
        let mut taken = self.taken;
        let answer = match fs::open(&self.runtime, name) {
            Ok(mut file) => read_to_limit(alloc, &mut file, limit, &mut taken),
            Err(_) => Err(FileErr::Failed),
        };
        self.taken = taken;
        self.faults = count_fault(self.faults, &answer);
        answer
    }
}
