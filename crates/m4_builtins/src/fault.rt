//! Why a call fails.

ghost use Rattle.std.specs.Prelude.{◌≡◌};
ghost use Rattle.m4_builtins.specs.declared.fault.BuiltinFault.TheVariants.{OutOfMemory};

use m4_state::fault::StateFault;
use std::alloc::AllocError;
use thiserror::Error;

/// The fault of a call.
#[derive(Clone, Copy, Debug, Error)]
pub enum BuiltinFault {
    /// An allocation failed.
    #[error("B1 OutOfMemory")]
    OutOfMemory,
}

impl From<AllocError> for BuiltinFault {
    ghost from_gives = { λ _ fault. fault ≡ OutOfMemory };

    fn from(_refused: AllocError) -> BuiltinFault {
        BuiltinFault::OutOfMemory
    }
}

impl From<StateFault> for BuiltinFault {
    ghost from_gives = { λ _ fault. fault ≡ OutOfMemory };

    fn from(_refused: StateFault) -> BuiltinFault {
        BuiltinFault::OutOfMemory
    }
}
