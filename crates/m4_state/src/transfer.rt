//! Writes complete texts to a writer.

ghost use Rattle.std.specs.Prelude.{◌≡◌};
ghost use Rattle.m4_state.specs.Device.{count_after, Puts, joined};

use crate::device::{ByteSink, DeviceFault};

/// Writes all of the bytes. If it fails, the bytes written are a prefix of them.
pub fn write_all<W: ByteSink>(writer: &mut W, bytes: &[u8]) -> Result<(), DeviceFault>
    ensures puts { Puts result (W.contents writer.old) (W.contents writer.new) bytes.now }
    ensures counted { W.failures writer.new ≡ count_after result (W.failures writer.old) }
{
    let mut rest = bytes;
    while !rest.is_empty() {
        let n = writer.put(rest)?;
        rest = rest.split_at(n).1;
    }
    Ok(())
}

/// Writes the pieces in order. If it fails, the bytes written are a prefix of them, joined.
pub fn write_pieces<W: ByteSink>(writer: &mut W, pieces: &[&[u8]]) -> Result<(), DeviceFault>
    ensures puts { Puts result (W.contents writer.old) (W.contents writer.new) (joined pieces.now) }
    ensures counted { W.failures writer.new ≡ count_after result (W.failures writer.old) }
{
    for piece in pieces {
        write_all(writer, piece)?;
    }
    Ok(())
}
