//! The modes: the canonical text of a frozen file, and the lines of the inspector.
//!
//! A mode reads its file completely. It writes all of its output, or none of it and a message with the
//! reason. If the output fails, a prefix may be written.

ghost use Rattle.std.specs.Prelude.{◌≡◌, ℕ, IfSome};
ghost use Rattle.m4_state.specs.Device.{Script};
ghost use Rattle.m4_engine.specs.Writers.{writes};
ghost use Rattle.m4_tool.specs.ModeFault.{status_of};
ghost use Rattle.m4_tool.specs.Modes.{CanonEnds, Holds, InspectEnds, IsOfDevice, ModeRuns, ReportsFault, reads};

use crate::fault::ModeFault;
use m4_frozen::inspector::list;
use m4_frozen::loading::Loaded;
use m4_frozen::reading::read_frozen;
use m4_frozen::writer::write_frozen;
use m4_state::device::{ByteSink, ByteSource};
use std::alloc::Global;
use std::mem::forget;

/// The modes of a command line.
#[derive(Clone, Copy)]
pub enum Mode {
    /// Prints the canonical text of a frozen file.
    Canon,
    /// Lists a frozen file.
    Inspect,
}

/// Writes the canonical text of the state in a frozen file, and returns the exit status.
pub fn canon<R: ByteSource, O: ByteSink, M: ByteSink>(
    alloc: Global,
    file: &[u8],
    reader: &mut R,
    out: &mut O,
    messages: &mut M,
) -> u8
    // exact writer: the canonical text of a file that is read and issues nothing, and status 0; otherwise
    // nothing, and the line and the status of the fault
    // safe and total: a fault of a device is returned only if that device failed in this call
    ensures { ModeRuns CanonEnds file.now (reads R.script R.failures reader.old reader.new)
        (writes O.contents O.failures out.old out.new) (writes M.contents M.failures messages.old messages.new) result }
{
    let end = canonicalise(alloc, reader, out);
    answer(end, file, messages)
}

/// Writes the lines that list the contents of a frozen file, and returns the exit status.
pub fn inspect<R: ByteSource, O: ByteSink, M: ByteSink>(
    alloc: Global,
    file: &[u8],
    reader: &mut R,
    out: &mut O,
    messages: &mut M,
) -> u8
    // exact writer: the lines of a file that is read, and status 0; otherwise nothing, and the line and the
    // status of the fault
    // safe and total: a fault of a device is returned only if that device failed in this call
    ensures { ModeRuns InspectEnds file.now (reads R.script R.failures reader.old reader.new)
        (writes O.contents O.failures out.old out.new) (writes M.contents M.failures messages.old messages.new) result }
{
    let end = list_file(alloc, reader, out);
    answer(end, file, messages)
}

/// Writes the canonical text of the reader's file.
fn canonicalise<R: ByteSource, O: ByteSink>(
    alloc: Global,
    reader: &mut R,
    out: &mut O,
) -> Result<(), ModeFault>
    ensures ends { IfSome (R.script reader.old) (λ script.
        CanonEnds result script (O.contents out.old) (O.contents out.new)) }
    ensures of_device { IsOfDevice result (R.failures reader.old) (R.failures reader.new)
        (O.failures out.old) (O.failures out.new) }
{
    let loaded = read_frozen(alloc, reader)?;
    let end = write_loaded(&loaded, out);
    // The program ends after this, so the strings are not freed one by one.
    forget(loaded);
    end
}

/// Writes the canonical text of a loaded file, if the file issues no text.
fn write_loaded<O: ByteSink>(loaded: &Loaded, out: &mut O) -> Result<(), ModeFault>
    ensures ends { (script : Script) → Holds script loaded.now
        → CanonEnds result script (O.contents out.old) (O.contents out.new) }
    ensures of_device { (reads : ℕ) → IsOfDevice result reads reads (O.failures out.old) (O.failures out.new) }
{
    if !loaded.issued.as_slice().is_empty() {
        return Err(ModeFault::Issues);
    }
    write_frozen(&loaded.state, out)?;
    Ok(())
}

/// Writes the lines that list the contents of the reader's file.
fn list_file<R: ByteSource, O: ByteSink>(
    alloc: Global,
    reader: &mut R,
    out: &mut O,
) -> Result<(), ModeFault>
    ensures ends { IfSome (R.script reader.old) (λ script.
        InspectEnds result script (O.contents out.old) (O.contents out.new)) }
    ensures of_device { IsOfDevice result (R.failures reader.old) (R.failures reader.new)
        (O.failures out.old) (O.failures out.new) }
{
    let loaded = read_frozen(alloc, reader)?;
    let listed = list(&loaded, out);
    // As in `canonicalise`.
    forget(loaded);
    Ok(listed?)
}

/// Returns the status of a mode that ended so, and writes the line of its fault.
fn answer<M: ByteSink>(end: Result<(), ModeFault>, file: &[u8], messages: &mut M) -> u8
    ensures status { result ≡ status_of end }
    ensures reports { ReportsFault end file.now (M.contents messages.old) (M.contents messages.new)
        (M.failures messages.old) (M.failures messages.new) }
{
    match end {
        Ok(()) => 0,
        Err(fault) => {
            let _put = fault.put_report(file, messages);
            fault.status()
        }
    }
}
