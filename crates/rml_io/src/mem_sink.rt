//! A sink in memory, for tests: it tells all that was written, takes no more than its room, and can be made to fail at any
//! write.

ghost use Rattle.std.specs.Prelude.{◌≡◌, ◌<◌, ◌^◌, ◌+◌, ◌-◌, ◌≤◌, ◌++◌, ℕ, Some, IfOk, IsErr, IsTrue, ◌↔◌, ◌||◌, OnOk, OnErr, IsOkUnless, if◌then◌else◌, length, take};
ghost use Rattle.std.specs.FinSet as fin_set;
ghost use Rattle.rml_io.specs.Counts.{raised, Rose, HasCause};
ghost use Rattle.rml_io.specs.Sink.{and_bytes, TookFront};
ghost use Rattle.rml_io.specs.MemSink.{empty_sink, is_listed, fitting, is_full_for};

use crate::errors::{Failed, FileErr};
use crate::failing::FailingCalls;
use crate::sink::Sink;
use std::alloc::Global;
use std::marker::Model;

/// A sink in memory. Contracts see the bytes that were written, the room for all of them, the numbers of the writes that
/// fail, and the counts. All its room is taken when it is made, so no write takes memory.
#[derive(Drop)]
pub struct MemSink {
    text: Vec<u8>,
    capacity: usize,
    failing: FailingCalls,
    faults: u64,
    calls: u64,
}

impl Model for MemSink {
    ghost use Rattle.std.specs.Prelude.{◌≤◌, length, vec_capacity};
    ghost use Rattle.rml_io.specs.MemSink.{SinkInMemory, sink_code};

    ghost Value = { SinkInMemory };

    ghost coded = { sink_code };

    ghost view = { λ s. record {
      written = s.text.items;
      room = s.capacity;
      failing = s.failing;
      faults = s.faults;
      calls = s.calls;
    } };

    ghost invariant = { λ s. (length s.text.items ≤ s.capacity) × (s.capacity ≤ vec_capacity s.text) };
}

impl MemSink {
    /// Takes `room` bytes in all, and lists no write.
    ///
    /// # Errors
    /// `Memory` alone.
    pub fn with_room(alloc: Global, room: usize) -> Result<MemSink, FileErr>
        ensures ok { IfOk result (λ sink. sink ≡ empty_sink room) }
        ensures only { IsOkUnless result FileErr.Memory }
    {
        let text = Vec::with_capacity(alloc, room)?;
        Ok(MemSink {
            text,
            capacity: room,
            failing: FailingCalls::new(alloc),
            faults: 0,
            calls: 0,
        })
    }

    /// Lets the write of this number fail, counted from 1.
    ///
    /// # Errors
    /// `Memory` alone, and then nothing has changed.
    pub fn fail_at(&mut self, call: u64) -> Result<(), FileErr>
        ensures ok { OnOk result (self.new ≡ record self.old { failing = fin_set.insert self.old.failing call }) }
        ensures err { OnErr result (self.new ≡ self.old) }
        ensures only { IsOkUnless result FileErr.Memory }
    {
        self.failing.insert(call)?;
        Ok(())
    }

    /// All bytes that were written.
    pub fn bytes(&self) -> &[u8]
        ensures { result.now ≡ self.now.written }
    {
        self.text.as_slice()
    }
}

impl Sink for MemSink {
    ghost seen = { λ s. record { text = Some s.written; faults = s.faults } };

    /// Takes what fits the room that is left. A listed write fails, and takes nothing.
    fn write(&mut self, piece: &[u8]) -> Result<usize, Failed>
        ensures listed { IsErr result ↔ IsTrue (is_listed self.old) }
        ensures ok { IfOk result (λ count. count ≡ fitting self.old piece.now) }
        ensures written { self.new.written ≡ self.old.written
            ++ take (if is_listed self.old then 0 else fitting self.old piece.now) piece.now }
        // A fault is a listed write, or one for which there was no room at all.
        ensures faults { self.new.faults ≡ (if is_listed self.old || is_full_for self.old piece.now
            then raised self.old.faults 1 else self.old.faults) }
        ensures later { self.old.faults ≤ self.new.faults }
        ensures stops { self.new.faults < 2 ^ 64 }
        ensures calls { self.new.calls ≡ raised self.old.calls 1 }
        ensures room { self.new.room ≡ self.old.room }
        ensures failing { self.new.failing ≡ self.old.failing }
    {
        self.calls = self.calls.saturating_add(1);
        if self.failing.contains(self.calls) {
            self.faults = self.faults.saturating_add(1);
            return Err(Failed);
        }
        let count = piece.len().min(self.capacity - self.text.len());
        if count == 0 && !piece.is_empty() {
            self.faults = self.faults.saturating_add(1);
        }
        self.text.extend_from_slice(&piece[..count]).unwrap();
        Ok(count)
    }
}
