//! The builtins that write messages, and those that expand to the place of a call. Manual:
//! "Displaying macro definitions", "Printing error messages", "Printing current location".

ghost use Rattle.std.specs.Prelude.{◌≡◌, ◌++◌, IfOk, OnOk, option_copied};
ghost use Rattle.m4_builtins.specs.QuotesView.{pair_of};
ghost use Rattle.m4_builtins.specs.Acted.{nothing};
ghost use Rattle.m4_builtins.specs.Printing as spec;
ghost use Rattle.m4_builtins.specs.Args.{texts_of};
ghost use Rattle.m4_builtins.specs.Warned.{with_messages};

use crate::args::{Arg, text_of};
use crate::effect_buffer::EffectBuffer;
use crate::fault::BuiltinFault;
use crate::messages::Warning;
use crate::place::Place;
use crate::substitute::{push_joined, push_one_quoted};
use m4_state::bytes::Bytes;
use m4_state::definition::Def;
use m4_state::state::State;
use m4_state::text_buffer::TextBuffer;
use std::alloc::{AllocError, Global};

/// Shows the definitions of its arguments, or of all names if it has none, one line each in byte order of
/// the names. Warns of names without a definition before that. Manual: "Displaying macro
/// definitions".
pub(crate) fn dumpdef(
    effect: &mut EffectBuffer,
    list: &[Arg],
    place: &Place,
    state: &State,
) -> Result<(), BuiltinFault>
    requires { effect.old ≡ nothing }
    ensures { OnOk result (effect.new ≡ spec.dumpdef list.now place.now state.now) }
{
    let alloc = effect.alloc();
    // All memory for names is allocated before the first message is made.
    let mut names = names_shown(alloc, list, state)?;
    push_warnings(effect, names.as_slice(), place, state)?;
    names.sort_unstable_by(|a, b| a.as_slice().cmp(b.as_slice()));
    let mut lines = TextBuffer::new(alloc);
    push_lines(names.as_slice(), state, &mut lines)?;
    effect.add_messages(lines.take())?;
    Ok(())
}

/// Returns the requested names, or all.
fn names_shown(alloc: Global, list: &[Arg], state: &State) -> Result<Vec<Bytes>, BuiltinFault>
    ensures { IfOk result (λ names. names.items ≡ spec.names_shown list.now state.now) }
{
    match list {
        [] => Ok(state.names()?),
        [..] => Ok(copied_texts(alloc, list)?),
    }
}

/// Returns copies of the arguments' texts.
fn copied_texts(alloc: Global, list: &[Arg]) -> Result<Vec<Bytes>, AllocError>
    ensures { IfOk result (λ names. names.items ≡ texts_of list.now) }
{
    let mut names = Vec::with_capacity(alloc, list.len())?;
    for arg in list {
        names.push(Bytes::from_slice(alloc, text_of(arg))?)?;
    }
    Ok(names)
}

/// Appends the warnings on names without a definition.
fn push_warnings(
    effect: &mut EffectBuffer,
    names: &[Bytes],
    place: &Place,
    state: &State,
) -> Result<(), AllocError>
    ensures { OnOk result (effect.new ≡ with_messages effect.old (spec.warnings_on names.now place.now state.now)) }
{
    for name in names {
        let name = name.as_slice();
        push_warning(effect, name, state.top(name), place)?;
    }
    Ok(())
}

/// Appends the warning on a name, if it has no definition.
fn push_warning(
    effect: &mut EffectBuffer,
    name: &[u8],
    def: Option<&Def>,
    place: &Place,
) -> Result<(), AllocError>
    ensures { OnOk result (effect.new ≡ with_messages effect.old
        (spec.unknown_if place.now name.now (option_copied def.entry))) }
{
    if def.is_some() {
        return Ok(());
    }
    effect.add_warning(place, Warning::UnknownMacro(name))
}

/// Appends the lines of names that have a definition.
fn push_lines(names: &[Bytes], state: &State, messages: &mut TextBuffer) -> Result<(), AllocError>
    ensures { OnOk result (messages.new ≡ messages.old ++ spec.lines_of names.now state.now) }
{
    for name in names {
        let name = name.as_slice();
        push_line(name, state.top(name), state.quotes(), messages)?;
    }
    Ok(())
}

/// Appends the line of a name, if it has a definition.
fn push_line(
    name: &[u8],
    def: Option<&Def>,
    quotes: (&[u8], &[u8]),
    messages: &mut TextBuffer,
) -> Result<(), AllocError>
    ensures { OnOk result (messages.new
        ≡ messages.old ++ spec.line_shown (pair_of quotes.entry) name.now (option_copied def.entry)) }
{
    let Some(def) = def else {
        return Ok(());
    };
    messages.append(name)?;
    messages.append(b":\t")?;
    push_shown(def, quotes, messages)?;
    messages.push(b'\n')
}

/// Appends a definition as it is shown.
fn push_shown(
    def: &Def,
    quotes: (&[u8], &[u8]),
    messages: &mut TextBuffer,
) -> Result<(), AllocError>
    ensures { OnOk result (messages.new ≡ messages.old ++ spec.shown (pair_of quotes.entry) def.now) }
{
    match def {
        Def::Text(text) => push_one_quoted(messages, text.as_slice(), quotes),
        Def::Builtin(builtin) => push_bracketed(builtin.name(), messages),
        Def::Placeholder(name) => push_bracketed(name.as_slice(), messages),
    }
}

/// Appends a name between angle brackets.
fn push_bracketed(name: &[u8], messages: &mut TextBuffer) -> Result<(), AllocError>
    ensures { OnOk result (messages.new ≡ messages.old ++ spec.bracketed name.now) }
{
    messages.push(b'<')?;
    messages.append(name)?;
    messages.push(b'>')
}

/// Writes the arguments, joined by spaces, to the messages. Manual: "Printing error messages".
pub(crate) fn errprint(effect: &mut EffectBuffer, list: &[Arg]) -> Result<(), AllocError>
    requires { effect.old ≡ nothing }
    ensures { OnOk result (effect.new ≡ spec.errprint list.now) }
{
    let mut text = effect.buffer();
    push_joined(&mut text, list, b' ')?;
    effect.add_messages(text.take())
}

/// Expands to the name of the input between quotes; to an empty one in wrapped text, whose line is 0.
/// Manual: "Printing current location".
pub(crate) fn file(
    effect: &mut EffectBuffer,
    place: &Place,
    state: &State,
) -> Result<(), AllocError>
    requires { effect.old ≡ nothing }
    ensures { OnOk result (effect.new ≡ spec.file place.now state.now) }
{
    let name = if place.line == 0 {
        &[]
    } else {
        place.file.as_slice()
    };
    let mut text = effect.buffer();
    push_one_quoted(&mut text, name, state.quotes())?;
    effect.give(text);
    Ok(())
}

/// Expands to the line of the call; to 0 in wrapped text. Manual: "Printing current location".
pub(crate) fn line(effect: &mut EffectBuffer, place: &Place) -> Result<(), AllocError>
    requires { effect.old ≡ nothing }
    ensures { OnOk result (effect.new ≡ spec.line place.now) }
{
    effect.give_number(place.line)
}
