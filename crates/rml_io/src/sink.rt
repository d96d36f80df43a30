//! Where output goes.

ghost use Rattle.std.specs.Prelude.{◌≡◌, ◌^◌, ◌<◌, ◌≤◌, ℕ, List, Ok, IfOk, OnOk, OnErr, length, take};
ghost use Rattle.std.specs.declared.option.Option.{Option};
ghost use Rattle.rml_io.specs.Counts.{Rose, HasCause};
ghost use Rattle.rml_io.specs.Sink.{SinkSeen, and_bytes, TookFront};

use crate::errors::Failed;

/// What bytes are written to. A write by any implementation keeps the clauses of `write`, so code that is generic over
/// `Sink` can't make a fault up: none of its own steps raises the count of faults.
pub trait Sink {
    /// What is seen of the sink: all that was written, where that is told, and how often a write failed or took nothing.
    ghost seen: { Self → SinkSeen };

    /// Writes a front of the piece, and answers how many bytes it has.
    ///
    /// # Errors
    /// `Failed` where the sink refuses. It may have taken a front of the piece even then.
    fn write(&mut self, piece: &[u8]) -> Result<usize, Failed>
        ensures within { IfOk result (λ count. count ≤ length piece.now) }
        ensures ok { IfOk result (λ count. (seen self.new).text ≡ and_bytes (seen self.old).text (take count piece.now)) }
        ensures err { OnErr result (TookFront (seen self.old).text (seen self.new).text piece.now) }
        ensures cause { HasCause (seen self.old).faults (seen self.new).faults result }
        // The number stops at the last u64.
        ensures stops { (seen self.new).faults < 2 ^ 64 }
        ensures nothing { result ≡ Ok 0 → 0 < length piece.now → Rose (seen self.old).faults (seen self.new).faults };
}

/// Writes the piece to its end, write by write.
///
/// # Errors
/// `Failed` where a write fails or takes nothing. What was written by then is a front of the piece.
pub fn write_whole<S: Sink>(sink: &mut S, piece: &[u8]) -> Result<(), Failed>
    ensures ok { OnOk result ((S.seen sink.new).text ≡ and_bytes (S.seen sink.old).text piece.now) }
    ensures err { OnErr result (TookFront (S.seen sink.old).text (S.seen sink.new).text piece.now) }
    ensures cause { HasCause (S.seen sink.old).faults (S.seen sink.new).faults result }
{
    let mut rest = piece;
    while !rest.is_empty() {
        match sink.write(rest)? {
            0 => return Err(Failed),
            count => rest = &rest[count..],
        }
    }
    Ok(())
}
