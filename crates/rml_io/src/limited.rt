//! Reads of a whole file that keep to a limit, over any reader.

ghost use Rattle.std.specs.Prelude.{◌≡◌, ◌+◌, ◌<◌, ◌≤◌, ◌++◌, ℕ, List, Ok, Err, true, false, IfOk, IfSome, OnOk, OnErr, IsErrOf, IsOkUnless, length, nat_lt, vec_len};
ghost use Rattle.std.specs.declared.option.Option.{Option};
ghost use Rattle.std.specs.Io.KnownBytes.{Consumes, IsAtEnd};
ghost use Rattle.rml_io.specs.Counts.{raised};
ghost use Rattle.rml_io.specs.Limited.{TookAtMost};

use crate::errors::FileErr;
use std::alloc::Global;
use std::io::Read;

/// Most bytes that one read asks for.
const CHUNK: usize = 8_192;

/// All that the reader has left, if that is at most `limit` bytes. It takes at most one byte more than the limit, keeps at
/// most `limit`, and adds what it takes to `taken`.
///
/// # Errors
/// `Failed` where the reader fails, `TooLong` where it has more than `limit` bytes, and `Memory` for want of memory alone.
pub(crate) fn read_to_limit<F: Read>(
    alloc: Global,
    file: &mut F,
    limit: usize,
    taken: &mut u64,
) -> Result<Vec<u8>, FileErr>
    ensures within { IfOk result (λ bytes. vec_len bytes ≤ limit) }
    ensures whole { IfOk result (λ bytes. IfSome (F.remaining file.old) (λ left. bytes.items ≡ left)) }
    ensures too_long { IsErrOf result FileErr.TooLong → IfSome (F.remaining file.old) (λ left. limit < length left) }
    ensures took { TookAtMost (F.remaining file.old) (F.remaining file.new) (limit + 1) taken.old taken.new }
    ensures taken_ok { IfOk result (λ bytes. taken.new ≡ raised taken.old (vec_len bytes)) }
    ensures taken_too_long { IsErrOf result FileErr.TooLong → taken.new ≡ raised taken.old (limit + 1) }
{
    // Its range is known from here on.
    let _before = *taken;
    let mut bytes = Vec::new(alloc);
    while read_chunk(file, &mut bytes, limit, taken)? {}
    Ok(bytes)
}

/// One read, whose bytes are added to `bytes`. It answers whether there may be more.
fn read_chunk<F: Read>(
    file: &mut F,
    bytes: &mut Vec<u8>,
    limit: usize,
    taken: &mut u64,
) -> Result<bool, FileErr>
    requires { vec_len bytes.old ≤ limit }
    ensures within { vec_len bytes.new ≤ limit }
    ensures more { result ≡ Ok true → vec_len bytes.old < vec_len bytes.new }
    ensures end { result ≡ Ok false → IsAtEnd (F.remaining file.new) }
    // Let `bytes` be what a reader gave since some start, and `taken` have counted it: so it is after this read.
    ensures bytes { OnOk result ((start : Option (List ℕ)) → Consumes start (F.remaining file.old) bytes.old.items
        → Consumes start (F.remaining file.new) bytes.new.items) }
    ensures too_long { IsErrOf result FileErr.TooLong → (start : Option (List ℕ)) →
        Consumes start (F.remaining file.old) bytes.old.items → IfSome start (λ all. limit < length all) }
    ensures took { (start : Option (List ℕ)) (count : ℕ) → Consumes start (F.remaining file.old) bytes.old.items
        → taken.old ≡ raised count (vec_len bytes.old)
        → TookAtMost start (F.remaining file.new) (limit + 1) count taken.new }
    ensures taken_ok { OnOk result ((count : ℕ) → taken.old ≡ raised count (vec_len bytes.old)
        → taken.new ≡ raised count (vec_len bytes.new)) }
    ensures taken_too_long { IsErrOf result FileErr.TooLong → (count : ℕ) → taken.old ≡ raised count (vec_len bytes.old)
        → taken.new ≡ raised count (limit + 1) }
{
    let mut chunk = [0u8; CHUNK];
    let room = limit - bytes.len();
    let most = room.clamp(1, CHUNK);
    let piece = &mut chunk[..most];
    let count = match file.read(piece) {
        Ok(count) => count,
        Err(_) => return Err(FileErr::Failed),
    };
    *taken = taken.saturating_add(count as u64);
    keep(bytes, &piece[..count], room)
}

/// Keeps what a read gave, where there is room for so many bytes. It answers whether there may be more: a read that gave
/// nothing was the last.
///
/// # Errors
/// `TooLong` where it is more than the room, and `Memory` for want of memory alone.
fn keep(bytes: &mut Vec<u8>, given: &[u8], room: usize) -> Result<bool, FileErr>
    ensures too_long { room < length given.now → result ≡ Err FileErr.TooLong }
    ensures within { length given.now ≤ room → IsOkUnless result FileErr.Memory }
    ensures ok { IfOk result (λ more. (length given.now ≤ room) × (more ≡ nat_lt 0 (length given.now)) × (bytes.new.items ≡ bytes.old.items ++ given.now)) }
    ensures err { OnErr result (bytes.new.items ≡ bytes.old.items) }
{
    if given.len() > room {
        return Err(FileErr::TooLong);
    }
    bytes.extend_from_slice(given)?;
    Ok(!given.is_empty())
}
