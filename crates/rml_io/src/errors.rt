//! Why a read or a write gave no answer.

ghost use Rattle.std.specs.Prelude.{◌≡◌};
ghost use Rattle.rml_io.specs.declared.errors.FileErr.TheVariants.{Memory};

use std::alloc::{AllocError, AllocFailed};

/// A write that the sink refused.
#[derive(Clone, Copy, Debug, PartialEq, Eq)]
pub struct Failed;

/// Why a read gave no bytes. `Memory` comes for want of memory alone.
#[derive(Clone, Copy, Debug, PartialEq, Eq)]
pub enum FileErr {
    /// The file is not there, or it could not be read.
    Failed,
    /// The file has more bytes than the limit.
    TooLong,
    Memory,
}

impl From<AllocError> for FileErr {
    ghost from_gives = { λ _ e. e ≡ Memory };

    fn from(_: AllocError) -> FileErr {
        FileErr::Memory
    }
}

impl<T: Drop> From<AllocFailed<T>> for FileErr {
    ghost from_gives = { λ _ e. e ≡ Memory };

    fn from(_: AllocFailed<T>) -> FileErr {
        FileErr::Memory
    }
}
