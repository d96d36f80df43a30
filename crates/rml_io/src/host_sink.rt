//! The host's streams: the trusted edge. What the host takes is told by no clause, so these few lines only keep a count, and
//! the writing itself is `write_piece`, which is generic over the writer.

ghost use Rattle.std.specs.Prelude.{◌≡◌, None};

use crate::errors::Failed;
use crate::piece::write_piece;
use crate::sink::Sink;
use std::io::Write;
use std::marker::Model;

/// A writer as a sink. Contracts see its count of faults alone.
#[derive(Drop)]
pub struct HostSink<W> {
    writer: W,
    faults: u64,
}

impl<W> Model for HostSink<W> {
    ghost use Rattle.std.specs.Prelude.{ℕ};

    ghost Value = { ℕ };

    ghost view = { λ s. s.faults };
}

impl<W: Write> HostSink<W> {
    /// Writes go to this writer.
    pub fn new(writer: W) -> HostSink<W>
        ensures { result ≡ 0 }
    {
        HostSink { writer, faults: 0 }
    }
}

impl<W: Write> Sink for HostSink<W> {
    ghost seen = { λ s. record { text = None; faults = s } };

    /// Each error of the writer is `Failed`.
    fn write(&mut self, piece: &[u8]) -> Result<usize, Failed> {
        write_piece(&mut self.writer, piece, &mut self.faults)
    }
}
