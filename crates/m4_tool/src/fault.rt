//! Why a mode did not do its work, with the message and the status.

ghost use Rattle.std.specs.Prelude.{◌≡◌, ◌++◌, codes, decimal};
ghost use Rattle.m4_state.specs.Device.{Puts, count_after};
ghost use Rattle.m4_tool.specs.ModeFault.{fault_line, kind_text};
ghost use Rattle.m4_tool.specs.declared.fault.ModeFault.TheVariants as faults;

use crate::followed::{FAILED, Failure};
use itoa::Buffer;
use m4_engine::ending::Cause;
use m4_frozen::fault::{FrozenFault, FrozenKind, WriteFault};
use m4_state::device::{ByteSink, DeviceFault};
use m4_state::transfer::{write_all, write_pieces};

/// Why a mode did not do its work.
#[derive(Clone, Copy)]
pub(crate) enum ModeFault {
    /// The file is refused, or could not be read.
    Frozen(FrozenFault),
    /// Loading the file would issue text, which canonical text cannot contain.
    Issues,
    /// The output could not be written.
    Write,
    /// An allocation failed before the output was written.
    OutOfMemory,
}

impl From<FrozenFault> for ModeFault {
    ghost use Rattle.m4_tool.specs.declared.fault.ModeFault.TheVariants as faults;

    ghost from_gives = { λ frozen fault. fault ≡ faults.Frozen frozen };

    fn from(fault: FrozenFault) -> ModeFault {
        ModeFault::Frozen(fault)
    }
}

impl From<WriteFault> for ModeFault {
    ghost use Rattle.m4_tool.specs.ModeFault.{fault_of_write};

    ghost from_gives = { λ write fault. fault ≡ fault_of_write write };

    fn from(fault: WriteFault) -> ModeFault {
        match fault {
            WriteFault::Write => ModeFault::Write,
            WriteFault::OutOfMemory => ModeFault::OutOfMemory,
        }
    }
}

impl ModeFault {
    ghost use Rattle.m4_tool.specs.ModeFault.{status_of_fault};

    /// Returns the exit status: for a frozen file that of a run which starts from it, otherwise 1.
    pub(crate) fn status(self) -> u8
        ensures { result ≡ status_of_fault self }
    {
        match self {
            ModeFault::Frozen(fault) => Cause::Frozen(fault).status(false),
            _ => FAILED,
        }
    }

    /// Writes the line that reports the fault, of this file.
    pub(crate) fn put_report<M: ByteSink>(
        self,
        file: &[u8],
        messages: &mut M,
    ) -> Result<(), DeviceFault>
        ensures puts { Puts result (M.contents messages.old) (M.contents messages.new) (fault_line file.now self) }
        ensures counted { M.failures messages.new ≡ count_after result (M.failures messages.old) }
    {
        match self {
            ModeFault::Frozen(fault) => put_frozen_fault(fault, file, messages),
            ModeFault::Issues => put_line(file, b"K1 text would be issued at reload", messages),
            ModeFault::Write => write_all(messages, Failure::Write.line().as_bytes()),
            ModeFault::OutOfMemory => write_all(messages, Failure::OutOfMemory.line().as_bytes()),
        }
    }
}

/// Writes the line for the fault of a frozen file.
fn put_frozen_fault<M: ByteSink>(
    fault: FrozenFault,
    file: &[u8],
    messages: &mut M,
) -> Result<(), DeviceFault>
    ensures puts { Puts result (M.contents messages.old) (M.contents messages.new)
        (fault_line file.now (faults.Frozen fault)) }
    ensures counted { M.failures messages.new ≡ count_after result (M.failures messages.old) }
{
    let text = kind_text(fault.kind);
    match fault.kind {
        FrozenKind::Read | FrozenKind::OutOfMemory => put_line(file, text, messages),
        _ => put_line_at(file, text, fault.offset, messages),
    }
}

/// Writes the line for a fault of this file that has no place in it.
fn put_line<M: ByteSink>(file: &[u8], text: &[u8], messages: &mut M) -> Result<(), DeviceFault>
    ensures puts { Puts result (M.contents messages.old) (M.contents messages.new)
        (codes "m4: " ++ (file.now ++ (codes ": " ++ (text.now ++ codes "\n")))) }
    ensures counted { M.failures messages.new ≡ count_after result (M.failures messages.old) }
{
    write_pieces(messages, &[b"m4: ", file, b": ", text, b"\n"])
}

/// Writes the line for a fault of this file at this byte.
fn put_line_at<M: ByteSink>(
    file: &[u8],
    text: &[u8],
    offset: u64,
    messages: &mut M,
) -> Result<(), DeviceFault>
    ensures puts { Puts result (M.contents messages.old) (M.contents messages.new)
        (codes "m4: " ++ (file.now ++ (codes ": " ++ (text.now
        ++ ((codes " at byte " ++ decimal offset) ++ codes "\n"))))) }
    ensures counted { M.failures messages.new ≡ count_after result (M.failures messages.old) }
{
    let mut digits = Buffer::new();
    let digits = digits.format(offset).as_bytes();
    write_pieces(
        messages,
        &[b"m4: ", file, b": ", text, b" at byte ", digits, b"\n"],
    )
}

/// Returns the number and the name of a kind, as the kind displays them.
fn kind_text(kind: FrozenKind) -> &'static [u8]
    ensures { result.now ≡ kind_text kind }
{
    match kind {
        FrozenKind::NoVersion => b"F1 NoVersion",
        FrozenKind::Newer => b"F2 Newer",
        FrozenKind::VersionZero => b"F3 VersionZero",
        FrozenKind::SecondVersion => b"F4 SecondVersion",
        FrozenKind::UnknownDirective => b"F5 UnknownDirective",
        FrozenKind::DigitExpected => b"F6 DigitExpected",
        FrozenKind::NumberTooLarge => b"F7 NumberTooLarge",
        FrozenKind::SeparatorExpected => b"F8 SeparatorExpected",
        FrozenKind::PrematureEnd => b"F9 PrematureEnd",
        FrozenKind::Read => b"F10 Read",
        FrozenKind::OutOfMemory => b"F11 OutOfMemory",
    }
}
