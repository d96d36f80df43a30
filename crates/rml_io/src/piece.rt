//! One write to a std writer, by which the host's streams are written.

ghost use Rattle.std.specs.Prelude.{◌≡◌, ◌^◌, ◌≤◌, ◌<◌, IfOk, OnErr, if◌then◌else◌, length, take};
ghost use Rattle.std.specs.Io.KnownBytes.{Appends, Keeps};
ghost use Rattle.rml_io.specs.Counts.{raised, HasCause};
ghost use Rattle.rml_io.specs.Piece.{is_fault};

use crate::errors::Failed;
use std::io::Write;

/// Writes a front of the piece, answers how many bytes it has, and counts a write that failed or took nothing.
///
/// # Errors
/// `Failed` where the writer fails, and then it took nothing.
pub(crate) fn write_piece<W: Write>(
    writer: &mut W,
    piece: &[u8],
    faults: &mut u64,
) -> Result<usize, Failed>
    ensures within { IfOk result (λ count. count ≤ length piece.now) }
    // Of a writer that tells what it holds: it took what is answered, and nothing where it failed.
    ensures ok { IfOk result (λ count. Appends (W.contents writer.old) (W.contents writer.new) (take count piece.now)) }
    ensures err { OnErr result (Keeps (W.contents writer.old) (W.contents writer.new)) }
    ensures faults { faults.new ≡ (if is_fault piece.now result then raised faults.old 1 else faults.old) }
    ensures cause { HasCause faults.old faults.new result }
    ensures stops { faults.new < 2 ^ 64 }
{
    // Its range is known from here on.
    let _before = *faults;
    match writer.write(piece) {
        Ok(0) if !piece.is_empty() => {
            *faults = faults.saturating_add(1);
            Ok(0)
        }
        Ok(count) => Ok(count),
        Err(_) => {
            *faults = faults.saturating_add(1);
            Err(Failed)
        }
    }
}
