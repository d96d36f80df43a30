//! Why making equations stops.

ghost use Rattle.std.specs.Prelude.{◌≡◌};
ghost use Rattle.rml_equations.specs.declared.stop.Stop.TheVariants as stop;
ghost use Rattle.rml_equations.specs.Stops.{stop_of};

use rml_base::Memory;
use rml_types::UnifyErr;
use std::alloc::{AllocError, AllocFailed};

/// Why a part has no equations.
#[derive(Clone, Copy, Debug, PartialEq, Eq)]
pub enum Stop {
    /// No types solve them with those before.
    Untyped,
    Memory,
}

impl From<Memory> for Stop {
    ghost from_gives = { λ _ e. e ≡ stop.Memory };

    fn from(_: Memory) -> Stop {
        Stop::Memory
    }
}

impl From<AllocError> for Stop {
    ghost from_gives = { λ _ e. e ≡ stop.Memory };

    fn from(_: AllocError) -> Stop {
        Stop::Memory
    }
}

impl<T: Drop> From<AllocFailed<T>> for Stop {
    ghost from_gives = { λ _ e. e ≡ stop.Memory };

    fn from(_: AllocFailed<T>) -> Stop {
        Stop::Memory
    }
}

impl From<UnifyErr> for Stop {
    ghost from_gives = { λ error stopped. stopped ≡ stop_of error };

    fn from(error: UnifyErr) -> Stop {
        match error {
            UnifyErr::Clash => Stop::Untyped,
            UnifyErr::Memory => Stop::Memory,
        }
    }
}
