//! Why a change of a state failed.

ghost use Rattle.std.specs.Prelude.{◌≡◌};
ghost use Rattle.m4_state.specs.declared.fault.StateFault.TheVariants.{OutOfMemory};

use std::alloc::AllocError;
use thiserror::Error;

/// A change of a state failed. The state is as it was.
#[derive(Clone, Copy, Debug, Error)]
pub enum StateFault {
    /// An allocation failed.
    #[error("S1 OutOfMemory")]
    OutOfMemory,
}

impl From<AllocError> for StateFault {
    ghost from_gives = { λ _ fault. fault ≡ OutOfMemory };

    fn from(_refused: AllocError) -> StateFault {
        StateFault::OutOfMemory
    }
}
