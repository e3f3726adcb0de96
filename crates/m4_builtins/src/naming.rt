//! The builtins that define names, delete their definitions and return them. Manual: "Defining a
//! macro", "Deleting a macro", "Temporarily redefining macros", "Renaming macros".

ghost use Rattle.std.specs.Prelude.{◌≡◌, ◌++◌, fold, flat_map, IfOk, IfSome, OnOk, Some, option_copied};
ghost use Rattle.std.specs.Prelude.{option_map};
ghost use Rattle.std.specs.List.{AllByRecursion};
ghost use Rattle.m4_state.specs.Definition.{IsDefinition};
ghost use Rattle.m4_state.specs.State.{popped, undefined};
ghost use Rattle.m4_builtins.specs.QuotesView.{pair_of};
ghost use Rattle.m4_builtins.specs.Acted.{nothing};
ghost use Rattle.m4_builtins.specs.Args.{IsArg, text_of_arg, quoted};
ghost use Rattle.m4_builtins.specs.NameRead.{ReadsName};
ghost use Rattle.m4_builtins.specs.Warned.{with_messages};
ghost use Rattle.m4_builtins.specs.Naming as spec;

use crate::args::{Arg, text_of};
use crate::effect_buffer::EffectBuffer;
use crate::fault::BuiltinFault;
use crate::messages::Warning;
use crate::place::Place;
use crate::substitute::push_one_quoted;
use m4_state::builtin::Builtin;
use m4_state::bytes::Bytes;
use m4_state::definition::Def;
use m4_state::state::State;
use m4_state::text_buffer::TextBuffer;
use std::alloc::AllocError;

/// Defines the first argument, a name, as the second one. Manual: "Defining a macro".
pub(crate) fn define(
    effect: &mut EffectBuffer,
    list: &[Arg],
    place: &Place,
    state: &mut State,
) -> Result<(), BuiltinFault>
    requires fresh { effect.old ≡ nothing }
    requires args { AllByRecursion IsArg list.now }
    ensures { OnOk result (spec.define list.now place.now state.old
        ≡ record { state = state.new; effect = effect.new }) }
{
    let Some((name, rest)) = name_in(effect, list, place, Builtin::Define)? else {
        return Ok(());
    };
    let def = definition_in(rest)?;
    state.define_borrowed(name.as_slice(), def)?;
    Ok(())
}

/// Pushes the second argument onto the definitions of the first one. Manual: "Temporarily redefining
/// macros".
pub(crate) fn pushdef(
    effect: &mut EffectBuffer,
    list: &[Arg],
    place: &Place,
    state: &mut State,
) -> Result<(), BuiltinFault>
    requires fresh { effect.old ≡ nothing }
    requires args { AllByRecursion IsArg list.now }
    ensures { OnOk result (spec.pushdef list.now place.now state.old
        ≡ record { state = state.new; effect = effect.new }) }
{
    let Some((name, rest)) = name_in(effect, list, place, Builtin::Pushdef)? else {
        return Ok(());
    };
    let def = definition_in(rest)?;
    state.push_borrowed(name.as_slice(), def)?;
    Ok(())
}

/// Returns the name that the first argument is, and the arguments after it. Returns `None` if there is no argument, or
/// if the first one is a definition, which is warned of.
pub(crate) fn name_in<'a>(
    effect: &mut EffectBuffer,
    list: &'a [Arg],
    place: &Place,
    builtin: Builtin,
) -> Result<Option<(&'a Bytes, &'a [Arg])>, AllocError>
    requires { effect.old ≡ nothing }
    ensures { IfOk result (λ read. ReadsName list.now place.now builtin
        (option_map (λ r. (r.0.now, r.1.now)) read) effect.new) }
{
    match list.split_first() {
        Some((Arg::Text(name), rest)) => Ok(Some((name, rest))),
        Some((Arg::Definition(_), _)) => {
            effect.add_warning(place, Warning::BadName(builtin))?;
            Ok(None)
        }
        None => Ok(None),
    }
}

/// Returns the first of these arguments as a definition, or the empty text if there is none.
fn definition_in(list: &[Arg]) -> Result<Def, AllocError>
    ensures { IfOk result (λ d. d ≡ spec.definition_in list.now) }
{
    match list.first() {
        Some(Arg::Text(text)) => Ok(Def::Text(text.share()?)),
        Some(Arg::Definition(def)) => def.share(),
        None => Ok(Def::Text(Bytes::empty())),
    }
}

/// Deletes all definitions of each argument. Manual: "Deleting a macro".
pub(crate) fn undefine(list: &[Arg], state: &mut State)
    ensures { state.new ≡ spec.for_each undefined list.now state.old }
{
    for arg in list {
        state.undefine(text_of(arg));
    }
}

/// Deletes the top definition of each argument. Manual: "Temporarily redefining macros".
pub(crate) fn popdef(list: &[Arg], state: &mut State)
    ensures { state.new ≡ spec.for_each popped list.now state.old }
{
    for arg in list {
        state.pop(text_of(arg));
    }
}

/// Expands to the definition of a name, or to the texts of several names. Manual: "Renaming macros".
pub(crate) fn defn(
    effect: &mut EffectBuffer,
    list: &[Arg],
    place: &Place,
    state: &State,
) -> Result<(), BuiltinFault>
    requires { effect.old ≡ nothing }
    ensures { OnOk result (effect.new ≡ spec.defn list.now place.now state.now) }
{
    match list {
        [] => Ok(()),
        [name] => {
            give_definition(effect, state.top(text_of(name)), state.quotes())?;
            Ok(())
        }
        [..] => {
            let mut texts = effect.buffer();
            push_texts(effect, list, place, state, &mut texts)?;
            effect.give(texts);
            Ok(())
        }
    }
}

/// Expands to a text between quotes, or to the builtin or placeholder itself; to an empty text if there is none.
fn give_definition(
    effect: &mut EffectBuffer,
    def: Option<&Def>,
    quotes: (&[u8], &[u8]),
) -> Result<(), AllocError>
    requires fresh { effect.old ≡ nothing }
    requires valid { IfSome (option_copied def) IsDefinition }
    ensures { OnOk result (effect.new
        ≡ record nothing { push = Some (spec.definition_given (pair_of quotes.entry) (option_copied def.entry)) }) }
{
    match def {
        None => effect.give_copy(&[])?,
        Some(Def::Text(defined)) => {
            let mut text = effect.buffer();
            push_one_quoted(&mut text, defined.as_slice(), quotes)?;
            effect.give(text);
        }
        Some(Def::Builtin(builtin)) => effect.give_definition(Def::Builtin(*builtin)),
        Some(Def::Placeholder(name)) => {
            effect.give_definition(Def::Placeholder(name.share()?));
        }
    }
    Ok(())
}

/// Appends the texts of names, each between quotes, and a warning on each builtin or placeholder.
fn push_texts(
    effect: &mut EffectBuffer,
    list: &[Arg],
    place: &Place,
    state: &State,
    texts: &mut TextBuffer,
) -> Result<(), BuiltinFault>
    ensures texts { OnOk result (texts.new
        ≡ texts.old ++ flat_map (spec.text_given state.now.quotes) (spec.tops_of state.now list.now)) }
    ensures warns { OnOk result (effect.new ≡ with_messages effect.old
        (flat_map (spec.left_out place.now) (spec.tops_of state.now list.now))) }
{
    for arg in list {
        let def = state.top(text_of(arg));
        push_text_of(effect, def, place, state.quotes(), texts)?;
    }
    Ok(())
}

/// Appends the text of a definition, or the warning that it is left out.
fn push_text_of(
    effect: &mut EffectBuffer,
    def: Option<&Def>,
    place: &Place,
    quotes: (&[u8], &[u8]),
    texts: &mut TextBuffer,
) -> Result<(), BuiltinFault>
    ensures texts { OnOk result (texts.new ≡ texts.old ++ spec.text_given (pair_of quotes.entry)
        (option_copied def.entry)) }
    ensures warns { OnOk result (effect.new ≡ with_messages effect.old
        (spec.left_out place.now (option_copied def.entry))) }
{
    match def {
        None => {}
        Some(Def::Text(defined)) => push_one_quoted(texts, defined.as_slice(), quotes)?,
        Some(Def::Builtin(_)) | Some(Def::Placeholder(_)) => {
            effect.add_warning(place, Warning::Dropped)?;
        }
    }
    Ok(())
}
