//! Where texts come from.

ghost use Rattle.std.specs.Prelude.{◌≡◌, ◌+◌, ◌^◌, ◌<◌, ◌≤◌, ℕ, List, Some, None, IfOk, IfSome, IsSomeAnd, IsErrOf, if◌then◌else◌, length, vec_len};
ghost use Rattle.std.specs.FinMap as map;
ghost use Rattle.rml_io.specs.Counts.{raised, Rose};
ghost use Rattle.rml_io.specs.Files.{FilesSeen, and_name, is_memory, is_failed};

use crate::errors::FileErr;
use std::alloc::Global;

/// Files that are read by their names. A read by any implementation keeps the clauses of `read`, so code that is generic
/// over `Files` can't make a fault up: none of its own steps raises the count of faults.
pub trait Files {
    /// What is seen of the files: what they hold, where that is told, the names read so far, and three counts.
    ghost seen: { Self → FilesSeen };

    /// The bytes of the file of that name, of which there are at most `limit`.
    ///
    /// # Errors
    /// `Failed` where the file can't be read, `TooLong` where it has more than `limit` bytes, and `Memory` for want of
    /// memory alone.
    fn read(&mut self, alloc: Global, name: &str, limit: usize) -> Result<Vec<u8>, FileErr>
        // What is held stays, and stays told or not told.
        ensures held { (seen self.new).held ≡ (seen self.old).held }
        // What each read counts.
        ensures calls { (seen self.new).calls ≡ raised (seen self.old).calls 1 }
        ensures asked { (seen self.new).asked ≡
            (if is_memory result then (seen self.old).asked else and_name (seen self.old).asked name.now) }
        ensures later { ((seen self.old).faults ≤ (seen self.new).faults) × ((seen self.old).calls ≤ (seen self.new).calls) }
        // The numbers stop at the last u64.
        ensures stops { ((seen self.new).faults < 2 ^ 64) × ((seen self.new).calls < 2 ^ 64) × ((seen self.new).taken < 2 ^ 64) }
        // It takes at most one byte more than the limit, and exactly so many where the file is too long.
        ensures taken { ((seen self.old).taken ≤ (seen self.new).taken)
            × ((seen self.new).taken ≤ raised (seen self.old).taken (limit + 1)) }
        ensures taken_ok { IfOk result (λ bytes. (seen self.new).taken ≡ raised (seen self.old).taken (vec_len bytes)) }
        ensures taken_too_long { IsErrOf result FileErr.TooLong
            → (seen self.new).taken ≡ raised (seen self.old).taken (limit + 1) }
        // What comes of the read.
        ensures within { IfOk result (λ bytes. vec_len bytes ≤ limit) }
        ensures bytes { IfSome (seen self.old).held (λ files.
            IfOk result (λ bytes. map.get files name.now ≡ Some bytes.items)) }
        ensures too_long { IfSome (seen self.old).held (λ files.
            IsErrOf result FileErr.TooLong → IsSomeAnd (map.get files name.now) (λ bytes. limit < length bytes)) }
        ensures failed { IsErrOf result FileErr.Failed → Rose (seen self.old).faults (seen self.new).faults }
        ensures not_held { IfSome (seen self.old).held (λ files.
            map.get files name.now ≡ None → Rose (seen self.old).faults (seen self.new).faults) };
}

/// The count of faults after a read with this answer.
pub(crate) fn count_fault(faults: u64, answer: &Result<Vec<u8>, FileErr>) -> u64
    ensures { result ≡ (if is_failed answer.now then raised faults 1 else faults) }
{
    match answer {
        Ok(_) => faults,
        Err(FileErr::Failed) => faults.saturating_add(1),
        Err(FileErr::TooLong) => faults,
        Err(FileErr::Memory) => faults,
    }
}
