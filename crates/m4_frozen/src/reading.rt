//! Reads a frozen file from a device, block by block.

ghost use Rattle.std.specs.Prelude.{◌≡◌, ◌+◌, length, IfOk, IfErr, IfSome, OnOk, Err, List, true, false};
ghost use Rattle.m4_state.specs.Device.{one_more};
ghost use Rattle.m4_frozen.specs.Blocks as blocks;
ghost use Rattle.m4_frozen.specs.Directive.{Directive as Said};
ghost use Rattle.m4_frozen.specs.Blocks.{as_offset};
ghost use Rattle.m4_frozen.specs.Outcome.{IfFault, IsFaultOf, Loads};
ghost use Rattle.m4_frozen.specs.Spells.{Spells};
ghost use Rattle.m4_frozen.specs.declared.fault.FrozenKind.TheVariants as kinds;

use crate::account::Account;
use crate::fault::{FrozenFault, ReadStop, no_memory};
use crate::loading::{Loaded, Loading, Pause};
use crate::room::BlockRead;
use crate::window::Window;
use m4_state::device::ByteSource;
use std::alloc::Global;

/// Loads a frozen file: returns its state, and the text that it issues.
///
/// A directive is applied as soon as it was read completely, and its bytes are then dropped. Nothing of
/// a refused file is kept, and reading ends with the block that settles its fault. The time is
/// proportional to the bytes read. The memory is proportional to the strings kept and the longest
/// directive, whatever lengths are stated: long strings are parts of the blocks that were read, as long as these
/// have hardly more bytes than they.
/// Manual: "Frozen file format".
pub fn read_frozen<R: ByteSource>(alloc: Global, reader: &mut R) -> Result<Loaded, FrozenFault>
    // exact reader: the loaded state is what the bytes denote, and the reader ended after them
    ensures loaded { IfOk result (λ l. IfSome (R.script reader.old) (λ s.
        (s.fails ≡ false) × Loads s.bytes l)) }
    // exact reader: bytes that spell a file are loaded, unless memory runs out
    ensures accepts { IfFault result (λ _. IfSome (R.script reader.old) (λ s.
        (ds : List Said) → Spells ds s.bytes → s.fails ≡ true)) }

    // exact reader: otherwise the first fault, with its place; for a reader that failed, the fault that
    // its bytes settle, or else its failure, after the last byte
    ensures fault { IfFault result (λ f. IfSome (R.script reader.old) (λ s.
        IsFaultOf s.fails s.bytes f)) }
    ensures no_memory { IfErr result (λ f. f.kind ≡ kinds.OutOfMemory → f.offset ≡ 0) }

    // safe and total: a read fault is returned only if the reader failed in this call
    ensures read_fault { IfErr result (λ f. f.kind ≡ kinds.Read
        → R.failures reader.new ≡ one_more (R.failures reader.old)) }
    ensures unfailed { OnOk result (R.failures reader.new ≡ R.failures reader.old) }
{
    let mut window = Window::new(alloc);
    let mut loading = Loading::new(alloc)?;
    let mut account = Account::new();
    loop {
        let usual = account.block_len();
        let after = window.fill(alloc, usual, loading.shares_next(usual), reader)?;
        let pause = read_window(alloc, &mut loading, &mut account, &window)?;
        match after {
            BlockRead::More => window.keep_last(pause.left)?,
            BlockRead::End => return end(loading, pause, &window),
            BlockRead::Failure => return failed(&window),
        }
    }
}

/// Reads what is complete in a window. A returned fault stays, whatever follows.
fn read_window(
    alloc: Global,
    loading: &mut Loading,
    account: &mut Account,
    window: &Window,
) -> Result<Pause, FrozenFault>
    ensures { blocks.ReadsWindow window.now loading.old loading.new result }
{
    account.begin();
    match loading.advance(alloc, window.bytes(), account) {
        Ok(pause) => {
            account.end(window.len());
            Ok(pause)
        }
        Err(ReadStop::OutOfMemory) => Err(no_memory()),
        Err(ReadStop::Refused(refusal)) => Err(window.fault_of(refusal)),
    }
}

/// Returns the result after a failure of the reader.
fn failed(window: &Window) -> Result<Loaded, FrozenFault>
    ensures { result ≡ Err (record {
      kind = kinds.Read;
      offset = as_offset (window.now.dropped + length window.now.bytes);
    }) }
{
    Err(window.failure())
}

/// Returns the result at the end of the file.
fn end(loading: Loading, pause: Pause, window: &Window) -> Result<Loaded, FrozenFault>
    ensures { blocks.EndsAs window.now loading pause result }
{
    match pause.refusal {
        Some(refusal) => Err(window.fault_of(refusal)),
        None => Ok(loading.loaded()),
    }
}
