//! The builtins that set quotes and comment delimiters. Manual: "Changing the quote characters",
//! "Changing the comment delimiters".

ghost use Rattle.std.specs.Prelude.{◌≡◌, OnOk};
ghost use Rattle.m4_state.specs.State.{with_quotes};
ghost use Rattle.m4_builtins.specs.Delimiting as spec;

use crate::args::{Arg, text_at, text_of};
use crate::fault::BuiltinFault;
use m4_state::bytes::Bytes;
use m4_state::state::State;
use std::alloc::Global;

/// Sets the quotes, or the default ones if there is no argument. Manual: "Changing the quote
/// characters".
pub(crate) fn changequote(
    alloc: Global,
    list: &[Arg],
    state: &mut State,
) -> Result<(), BuiltinFault>
    ensures { OnOk result (state.new ≡ spec.changequote list.now state.old) }
{
    match list.split_first() {
        None => set_quotes(alloc, b"`", b"'", state),
        Some((first, rest)) => set_quotes(alloc, text_of(first), text_at(rest, 0), state),
    }
}

/// Sets the quotes to copies of these texts.
fn set_quotes(
    alloc: Global,
    begin: &[u8],
    end: &[u8],
    state: &mut State,
) -> Result<(), BuiltinFault>
    ensures { OnOk result (state.new ≡ with_quotes state.old begin.now end.now) }
{
    let begin = Bytes::from_slice(alloc, begin)?;
    let end = Bytes::from_slice(alloc, end)?;
    state.set_quotes(begin, end)?;
    Ok(())
}

/// Sets the comment delimiters; none if there is no argument. Manual: "Changing the comment
/// delimiters".
pub(crate) fn changecom(alloc: Global, list: &[Arg], state: &mut State) -> Result<(), BuiltinFault>
    ensures { OnOk result (state.new ≡ spec.changecom list.now state.old) }
{
    let begin = Bytes::from_slice(alloc, text_at(list, 0))?;
    let end = Bytes::from_slice(alloc, text_at(list, 1))?;
    state.set_comments(begin, end)?;
    Ok(())
}
