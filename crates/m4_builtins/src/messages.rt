//! The messages about a call, one line each. The texts are those of `specs/Messages.antt`.

ghost use Rattle.std.specs.Prelude.{◌≡◌, ◌++◌, IfOk, OnOk, codes};
ghost use Rattle.m4_builtins.specs.Messages.{place_text, error, warning, dropped};
ghost use Rattle.m4_builtins.specs.Warned.{warned_of};

use crate::fault::BuiltinFault;
use crate::place::Place;
use itoa::Buffer;
use m4_state::builtin::Builtin;
use m4_state::bytes::Bytes;
use std::alloc::{AllocError, Global};

/// Returns the line that says why the run ends. Returns `OutOfMemory` if an allocation fails. Manual:
/// "Location within input".
pub fn error_message(alloc: Global, place: &Place, text: &[u8]) -> Result<Bytes, BuiltinFault>
    // exact steps: the complete line
    ensures { IfOk result (λ b. b ≡ error place.now text.now) }
{
    let mut line = Vec::new(alloc);
    push_head(&mut line, place, b": ERROR: ")?;
    line.extend_from_slice(text)?;
    line.extend_from_slice(b"\n")?;
    Ok(Bytes::from(line))
}

/// Returns the warning that a definition in a text was dropped. Returns `OutOfMemory` if an allocation
/// fails. Manual: "Location within input".
pub fn dropped_message(alloc: Global, place: &Place) -> Result<Bytes, BuiltinFault>
    // exact steps: the complete line
    ensures { IfOk result (λ b. b ≡ dropped place.now) }
{
    let mut line = Vec::new(alloc);
    push_warning_line(&mut line, place, Warning::Dropped)?;
    Ok(Bytes::from(line))
}

/// What a warning is about: a builtin of the table, or a name that the input or a frozen file has.
#[derive(Clone, Copy)]
pub(crate) enum Warning<'a> {
    /// A builtin was called with too few arguments.
    TooFew(Builtin),
    /// A builtin was called with more arguments than it reads.
    Excess(Builtin),
    /// An empty argument counts as 0.
    EmptyNumber(Builtin),
    /// An argument is no number.
    NotNumeric(Builtin),
    /// A builtin reads a name, and its argument was a definition.
    BadName(Builtin),
    /// There is no macro of this name.
    UnknownMacro(&'a [u8]),
    /// There is no builtin of this name.
    UnknownBuiltin(&'a [u8]),
    /// A frozen file asked for a builtin that this processor lacks.
    Unsupported(&'a [u8]),
    /// A definition in a text was dropped.
    Dropped,
    /// An expression divides by zero.
    DivideByZero,
    /// A text is no expression.
    BadExpression,
    /// An exit status is out of range.
    BadStatus,
    /// A radix or a width is out of range.
    OutOfRange,
}

/// Appends the line of a warning.
pub(crate) fn push_warning_line(
    messages: &mut Vec<u8>,
    place: &Place,
    about: Warning<'_>,
) -> Result<(), AllocError>
    // exact steps: the complete line
    ensures { OnOk result (messages.new.items ≡ messages.old.items ++ warned_of place.now about.entry) }
{
    let (before, name, after) = parts_of(about);
    push_head(messages, place, b": Warning: ")?;
    messages.extend_from_slice(before)?;
    messages.extend_from_slice(name)?;
    messages.extend_from_slice(after)?;
    messages.push(b'\n')?;
    Ok(())
}

/// Returns the text of a warning: a name, with what comes before and after it.
fn parts_of<'a>(about: Warning<'a>) -> (&'static [u8], &'a [u8], &'static [u8])
    ensures { (p : Place) → warning p (result.0.now ++ result.1.now ++ result.2.now) ≡ warned_of p about.entry }
{
    match about {
        Warning::TooFew(builtin) => (b"too few arguments to builtin `", builtin.name(), b"'"),
        Warning::Excess(builtin) => (
            b"excess arguments to builtin `",
            builtin.name(),
            b"' ignored",
        ),
        Warning::EmptyNumber(builtin) => (
            b"empty string treated as 0 in builtin `",
            builtin.name(),
            b"'",
        ),
        Warning::NotNumeric(builtin) => (
            b"non-numeric argument to builtin `",
            builtin.name(),
            b"'",
        ),
        Warning::BadName(builtin) => (
            b"invalid macro name ignored in builtin `",
            builtin.name(),
            b"'",
        ),
        Warning::UnknownMacro(name) => (b"undefined macro `", name, b"'"),
        Warning::UnknownBuiltin(name) => (b"undefined builtin `", name, b"'"),
        Warning::Unsupported(name) => (
            b"builtin `",
            name,
            b"' requested by frozen file is not supported",
        ),
        Warning::Dropped => (b"builtin dropped from text", b"", b""),
        Warning::DivideByZero => (b"divide by zero in eval", b"", b""),
        Warning::BadExpression => (b"bad expression in eval", b"", b""),
        Warning::BadStatus => (b"exit status out of range", b"", b""),
        Warning::OutOfRange => (b"radix or width out of range in eval", b"", b""),
    }
}

/// Appends the start of each message: the program, the place, and the kind of message.
fn push_head(line: &mut Vec<u8>, place: &Place, kind: &[u8]) -> Result<(), AllocError>
    ensures { OnOk result (line.new.items ≡ line.old.items ++ codes "m4" ++ place_text place.now ++ kind.now) }
{
    line.extend_from_slice(b"m4")?;
    push_place(line, place)?;
    line.extend_from_slice(kind)
}

/// Appends the file and the line, or nothing in wrapped text, whose line is 0.
fn push_place(line: &mut Vec<u8>, place: &Place) -> Result<(), AllocError>
    ensures { OnOk result (line.new.items ≡ line.old.items ++ place_text place.now) }
{
    if place.line == 0 {
        return Ok(());
    }
    let mut buffer = Buffer::new();
    line.push(b':')?;
    line.extend_from_slice(place.file.as_slice())?;
    line.push(b':')?;
    line.extend_from_slice(buffer.format(place.line).as_bytes())
}
