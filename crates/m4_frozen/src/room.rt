//! The room for a block of a file: the reader writes its bytes directly to where they stay.

ghost use Rattle.std.specs.Prelude.{◌≡◌, ◌+◌, ◌<◌, ◌≤◌, length, take, drop, Ok, IfOk, OnOk, OnErr};
ghost use Rattle.m4_frozen.specs.Blocks as blocks;
ghost use Rattle.m4_frozen.specs.declared.room.BlockRead.TheVariants as marks;
ghost use Rattle.m4_state.specs.Device.{after_bytes, count_after, IsAtEnd, IsAtFault};

use m4_state::device::{ByteSource, DeviceFault};
use std::alloc::AllocError;

/// How many bytes are requested from a reader at a time.
pub(crate) const BLOCK: usize = 16384;

/// How many bytes are set to zero at once: more would take an instruction that is slow to start.
const ZEROED: usize = 2048;

/// What the reader returns next, as far as is known.
#[derive(Clone, Copy)]
pub(crate) enum BlockRead {
    /// Perhaps more bytes.
    More,
    /// The end of the file.
    End,
    /// A failure.
    Failure,
}

/// Makes room after `end`, if there is none.
fn make_room(room: &mut Vec<u8>, end: usize) -> Result<(), AllocError>
    requires { end ≤ length room.old.items }
    ensures front { take end room.new.items ≡ take end room.old.items }
    ensures len { length room.old.items ≤ length room.new.items }
    ensures room { OnOk result (end < length room.new.items) }
{
    if end == room.len() {
        for _ in 0..BLOCK / ZEROED {
            room.resize(room.len() + ZEROED, 0)?;
        }
    }
    Ok(())
}

/// Reads bytes from a reader into the room after `end`.
fn take_after<R: ByteSource>(
    room: &mut Vec<u8>,
    end: usize,
    reader: &mut R,
) -> Result<usize, DeviceFault>
    requires { end < length room.old.items }
    ensures front { take end room.new.items ≡ take end room.old.items }
    ensures len { length room.new.items ≡ length room.old.items }
    ensures within { IfOk result (λ n. end + n ≤ length room.new.items) }
    ensures gives { IfOk result (λ n. R.script reader.old
        ≡ after_bytes (take n (drop end room.new.items)) (R.script reader.new)) }
    ensures end { result ≡ Ok 0 → IsAtEnd (R.script reader.new) }
    ensures falls { IfOk result (λ n. 0 < n → R.takes_left reader.new < R.takes_left reader.old) }
    ensures fault { OnErr result (IsAtFault (R.script reader.old)) }
    ensures unchanged { OnErr result (R.script reader.new ≡ R.script reader.old) }
    ensures counted { R.failures reader.new ≡ count_after result (R.failures reader.old) }
{
    reader.take(room.split_at_mut(end).1)
}

/// Reads bytes from a reader into the room after the first `used`, until at least `enough` are in use or no more come.
/// Returns how many are in use then.
pub(crate) fn fill_room<R: ByteSource>(
    room: &mut Vec<u8>,
    used: usize,
    enough: usize,
    reader: &mut R,
) -> Result<(BlockRead, usize), AllocError>
    requires { used ≤ length room.old.items }
    ensures takes { IfOk result (λ r. blocks.HasTaken (take used room.old.items) (take r.1 room.new.items)
        (R.script reader.old) (R.script reader.new)) }
    ensures within { IfOk result (λ r. r.1 ≤ length room.new.items) }
    ensures place { IfOk result (λ r. blocks.MatchesScript r.0 (R.script reader.new)) }
    ensures counted { IfOk result (λ r. R.failures reader.new ≡ blocks.failures_after r.0 (R.failures reader.old)) }
    ensures falls { IfOk result (λ r. r.0 ≡ marks.More → R.takes_left reader.new < R.takes_left reader.old) }
    ensures enough { IfOk result (λ r. r.0 ≡ marks.More → enough ≤ r.1) }
{
    let mut end = used;
    loop {
        make_room(room, end)?;
        match take_after(room, end, reader) {
            Ok(0) => return Ok((BlockRead::End, end)),
            Ok(n) => end += n,
            Err(DeviceFault) => return Ok((BlockRead::Failure, end)),
        }
        if end >= enough {
            return Ok((BlockRead::More, end));
        }
    }
}
