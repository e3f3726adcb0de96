//! Why a frozen file was refused, and at which byte.
//!
//! While a file is read, a refusal counts the bytes from its place to the end of those read, so that
//! no step has to count the bytes before it. `FaultAt` (`specs/FaultAt.antt`) defines which fault a
//! file has. Manual: "Frozen file format".

ghost use Rattle.std.specs.Prelude.{◌≡◌, length};
ghost use Rattle.m4_frozen.specs.declared.fault.FrozenKind.TheVariants as kinds;
ghost use Rattle.m4_frozen.specs.declared.fault.ReadStop.TheVariants.{OutOfMemory};

use m4_state::device::DeviceFault;
use m4_state::fault::StateFault;
use std::alloc::AllocError;
use thiserror::Error;

/// The kinds of faults of a frozen file, and of failures to read it.
#[derive(Clone, Copy, Debug, PartialEq, Eq, Error)]
pub enum FrozenKind {
    /// There is no `V` where the version is expected.
    #[error("F1 NoVersion")]
    NoVersion,
    /// The version is above 1.
    #[error("F2 Newer")]
    Newer,
    /// The version is 0.
    #[error("F3 VersionZero")]
    VersionZero,
    /// There is a `V` after the version.
    #[error("F4 SecondVersion")]
    SecondVersion,
    /// The byte where a directive is expected is not the letter of one.
    #[error("F5 UnknownDirective")]
    UnknownDirective,
    /// There is no digit where a number is expected.
    #[error("F6 DigitExpected")]
    DigitExpected,
    /// A length needs more than 64 bits, or a diversion's number more than 32.
    #[error("F7 NumberTooLarge")]
    NumberTooLarge,
    /// There is no comma or no newline where one is expected.
    #[error("F8 SeparatorExpected")]
    SeparatorExpected,
    /// The file ends inside a directive.
    #[error("F9 PrematureEnd")]
    PrematureEnd,
    /// The reader failed before the bytes settled any other fault.
    #[error("F10 Read")]
    Read,
    /// An allocation failed.
    #[error("F11 OutOfMemory")]
    OutOfMemory,
}

/// The fault of a frozen file.
#[derive(Clone, Copy, Debug, PartialEq, Eq)]
pub struct FrozenFault {
    /// The kind of fault.
    pub kind: FrozenKind,
    /// The number of bytes before it; 0 if memory ran out.
    pub offset: u64,
}

impl From<AllocError> for FrozenFault {
    ghost use Rattle.m4_frozen.specs.declared.fault.FrozenKind.TheVariants as kinds;

    ghost from_gives = { λ _ fault. fault ≡ record { kind = kinds.OutOfMemory; offset = 0 } };

    fn from(_refused: AllocError) -> FrozenFault {
        no_memory()
    }
}

impl From<StateFault> for FrozenFault {
    ghost use Rattle.m4_frozen.specs.declared.fault.FrozenKind.TheVariants as kinds;

    ghost from_gives = { λ _ fault. fault ≡ record { kind = kinds.OutOfMemory; offset = 0 } };

    fn from(_refused: StateFault) -> FrozenFault {
        no_memory()
    }
}

/// Returns the fault for running out of memory. It has no place in the file.
pub(crate) fn no_memory() -> FrozenFault
    ensures { result ≡ record { kind = kinds.OutOfMemory; offset = 0 } }
{
    FrozenFault {
        kind: FrozenKind::OutOfMemory,
        offset: 0,
    }
}

/// A fault, and the number of bytes from its place to the end of the file.
#[derive(Clone, Copy)]
pub(crate) struct Refusal {
    pub(crate) kind: FrozenKind,
    pub(crate) bytes_left: usize,
}

/// Why no more directives can be read.
#[derive(Drop)]
pub(crate) enum ReadStop {
    OutOfMemory,
    Refused(Refusal),
}

impl From<AllocError> for ReadStop {
    ghost from_gives = { λ _ e. e ≡ OutOfMemory };

    fn from(_refused: AllocError) -> ReadStop {
        ReadStop::OutOfMemory
    }
}

impl From<StateFault> for ReadStop {
    ghost from_gives = { λ _ e. e ≡ OutOfMemory };

    fn from(_refused: StateFault) -> ReadStop {
        ReadStop::OutOfMemory
    }
}

impl From<Refusal> for ReadStop {
    ghost use Rattle.m4_frozen.specs.declared.fault.FrozenKind.TheVariants as kinds;
    ghost use Rattle.m4_frozen.specs.declared.fault.ReadStop.TheVariants as stops;

    ghost from_gives = { λ r e. e ≡ stops.Refused r };

    fn from(refusal: Refusal) -> ReadStop {
        ReadStop::Refused(refusal)
    }
}

/// Returns a refusal at the first of these bytes, which are the last of the file.
pub(crate) fn refused_at(kind: FrozenKind, rest: &[u8]) -> Refusal
    ensures { result ≡ record { kind = kind; bytes_left = length rest.now } }
{
    Refusal {
        kind,
        bytes_left: rest.len(),
    }
}

/// Why a text was not written completely.
#[derive(Clone, Copy, Debug, Error)]
pub enum WriteFault {
    /// The writer failed. It received a prefix of the text.
    #[error("G1 Write")]
    Write,
    /// An allocation failed before the first byte was written.
    #[error("G2 OutOfMemory")]
    OutOfMemory,
}

impl From<DeviceFault> for WriteFault {
    ghost use Rattle.m4_frozen.specs.declared.fault.WriteFault.TheVariants as faults;

    ghost from_gives = { λ _ fault. fault ≡ faults.Write };

    fn from(_fault: DeviceFault) -> WriteFault {
        WriteFault::Write
    }
}

impl From<StateFault> for WriteFault {
    ghost use Rattle.m4_frozen.specs.declared.fault.WriteFault.TheVariants as faults;

    ghost from_gives = { λ _ fault. fault ≡ faults.OutOfMemory };

    fn from(_refused: StateFault) -> WriteFault {
        WriteFault::OutOfMemory
    }
}
