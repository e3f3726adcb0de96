//! The sources that a run reads. Manual: "Command line files".

ghost use Rattle.std.specs.Prelude.{◌≡◌};
ghost use Rattle.m4_state.specs.Device.{Puts, count_after};
ghost use Rattle.m4_engine.specs.File.{cannot_open};

use m4_state::bytes::Bytes;
use m4_state::device::{ByteSink, DeviceFault};
use m4_state::transfer::write_pieces;

/// A source of a run.
#[derive(Drop)]
pub enum Source<R> {
    /// A file that was opened, with its reader.
    Opened {
        /// The file's name.
        name: Bytes,
        /// Its reader.
        reader: R,
    },
    /// A file that could not be opened.
    Unopened {
        /// The file's name.
        name: Bytes,
    },
}

/// Writes the line for a file that could not be opened.
#[doc(hidden)]
pub fn put_unopened<M: ByteSink>(name: &[u8], messages: &mut M) -> Result<(), DeviceFault>
    ensures puts { Puts result (M.contents messages.old) (M.contents messages.new) (cannot_open name.now) }
    ensures counted { M.failures messages.new ≡ count_after result (M.failures messages.old) }
{
    write_pieces(messages, &[b"m4: cannot open `", name, b"'\n"])
}
