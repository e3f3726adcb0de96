//! Makes a call: a text expands, a builtin acts with its arguments, a placeholder only warns. Each
//! builtin has one line in [`row`], and its function in the module of its chapter.

ghost use Rattle.std.specs.Prelude.{◌≡◌, IfOk, IfSome, IfNone, OnOk, Some, [], length, nat_lt};
ghost use Rattle.std.specs.List.{AllByRecursion};
ghost use Rattle.m4_state.specs.Definition.{IsDefinition};
ghost use Rattle.m4_state.specs.Columns.{most_of};
ghost use Rattle.m4_state.specs.declared.definition.Def.TheVariants as defs;
ghost use Rattle.m4_input.specs.declared.pushed.Pushed.TheVariants as pushes;
ghost use Rattle.m4_builtins.specs.Acted.{IsPushed, nothing};
ghost use Rattle.m4_builtins.specs.Args.{IsArg};
ghost use Rattle.m4_builtins.specs.Act as spec;
ghost use Rattle.m4_builtins.specs.Steps.{LeadsTo, IsShorter, IsUnbounded};

use crate::args::{Arg, Args};
use crate::arithmetic::{decr, incr};
use crate::branching::{ifdef, ifelse, shift};
use crate::delimiting::{changecom, changequote};
use crate::diverting::{divert, divnum, undivert};
use crate::effect::Effect;
use crate::effect_buffer::EffectBuffer;
use crate::ending::{m4exit, m4wrap};
use crate::eval::eval;
use crate::fault::BuiltinFault;
use crate::indirect::{Step, builtin, indir, start};
use crate::messages::Warning;
use crate::naming::{define, defn, popdef, pushdef, undefine};
use crate::place::Place;
use crate::printing::{dumpdef, errprint, file, line};
use crate::texts::{index, len, substr};
use crate::translit::translit;
use m4_state::builtin::{Builtin, Row};
use m4_state::bytes::Bytes;
use m4_state::definition::Def;
use m4_state::state::State;
use std::alloc::{AllocError, Global};

/// Makes a call of a definition: changes the state, and returns the effect that the run still has to apply.
/// Returns `OutOfMemory` if an allocation fails, perhaps after the state changed. Manual: "Arguments to macros",
/// "Deleting whitespace in input", and the sections of the other builtins, which their functions name.
pub fn act(
    alloc: Global,
    def: &Def,
    args: &Args,
    place: &Place,
    state: &mut State,
) -> Result<Effect, BuiltinFault>
    requires definition { IsDefinition def.now }
    requires args { AllByRecursion IsArg args.now.list }
    // exact steps: the new state and the effect
    ensures acts { IfOk result (λ e. spec.act def.now args.now.name args.now.list place.now state.old
        ≡ record { state = state.new; effect = e }) }
    // exact steps: a definition that is pushed may be defined
    ensures valid { IfOk result (λ e. IsPushed e.push) }
{
    let mut effect = EffectBuffer::new(alloc);
    let list = args.list.as_slice();
    if let Some(text) = act_on(&mut effect, def, &args.name, list, place, state)? {
        effect.give_shared(text)?;
    }
    Ok(effect.into_effect())
}

/// Makes a call whose name and arguments are borrowed, as [`act`] does, and fills an effect that is clear. A text
/// without a dollar is its own expansion: it is returned, and is all that the call leaves to do.
#[doc(hidden)]
#[inline(always)]
pub fn act_on<'a>(
    effect: &mut EffectBuffer,
    def: &'a Def,
    name: &Bytes,
    list: &[Arg],
    place: &Place,
    state: &mut State,
) -> Result<Option<&'a Bytes>, BuiltinFault>
    requires fresh { effect.old ≡ nothing }
    requires definition { IsDefinition def.now }
    requires args { AllByRecursion IsArg list.now }
    // exact steps: the new state and the effect
    ensures acts { IfOk result (λ own. IfNone own (spec.act def.now name.now list.now place.now state.old
        ≡ record { state = state.new; effect = effect.new })) }
    ensures own { IfOk result (λ own. IfSome own (λ text. spec.act def.now name.now list.now place.now state.old
        ≡ record { state = state.new; effect = record effect.new { push = Some (pushes.Text text.now) } })) }
    ensures left { IfOk result (λ own. IfSome own (λ text. effect.new ≡ nothing)) }
{
    if let Def::Text(text) = def {
        if effect.give_expansion(text, name, list, state.quotes())? {
            return Ok(None);
        }
        return Ok(Some(text));
    }
    let mut step = start(effect, def, name, list, place, state)?;
    loop {
        match step {
            Step::Done => return Ok(None),
            Step::On(builtin, list) => step = act_builtin(effect, builtin, list, place, state)?,
        }
    }
}

/// Calls a builtin. With too few arguments it warns, and most builtins do nothing else. Arguments above
/// its maximum are ignored, with a warning before the builtin's own.
fn act_builtin<'a>(
    effect: &mut EffectBuffer,
    builtin: Builtin,
    list: &'a [Arg],
    place: &Place,
    state: &mut State,
) -> Result<Step<'a>, BuiltinFault>
    requires fresh { effect.old ≡ nothing }
    requires args { AllByRecursion IsArg list.now }
    ensures leads { IfOk result (λ step. LeadsTo (spec.act (defs.Builtin builtin) [] list.now place.now state.old)
        place.now state.new effect.new step) }
    ensures shorter { IfOk result (λ step. IsShorter (length list.now) step) }
{
    let Row { least, most, .. } = builtin.row();
    if list.len() < least {
        give_though_few(effect, builtin, list)?;
        effect.add_warning(place, Warning::TooFew(builtin))?;
        return Ok(Step::Done);
    }
    let step = row(effect, builtin, list, place, state)?;
    if !is_above(most, list.len()) {
        return Ok(step);
    }
    match step {
        Step::Done => {
            effect.add_warning_first(place, Warning::Excess(builtin))?;
            Ok(Step::Done)
        }
        Step::On(..) => Ok(step),
    }
}

/// Calls a builtin with enough arguments. If an argument is a definition and the builtin reads a text, it
/// counts as empty.
fn row<'a>(
    effect: &mut EffectBuffer,
    name: Builtin,
    list: &'a [Arg],
    place: &Place,
    state: &mut State,
) -> Result<Step<'a>, BuiltinFault>
    requires fresh { effect.old ≡ nothing }
    requires args { AllByRecursion IsArg list.now }
    ensures leads { IfOk result (λ step. LeadsTo (spec.row
        (spec.goes_on list.now place.now state.old) name list.now place.now state.old) place.now state.new effect.new
        step) }
    ensures shorter { IfOk result (λ step. IsShorter (length list.now) step) }
    ensures unbounded { IfOk result (λ step. IsUnbounded (most_of name) step) }
{
    match name {
        Builtin::Indir => return indir(effect, list, place, state),
        Builtin::IndirBuiltin => return builtin(effect, list, place, state),
        Builtin::Define => define(effect, list, place, state)?,
        Builtin::Undefine => undefine(list, state),
        Builtin::Pushdef => pushdef(effect, list, place, state)?,
        Builtin::Popdef => popdef(list, state),
        Builtin::Defn => defn(effect, list, place, state)?,
        Builtin::Ifdef => ifdef(effect, list, state)?,
        Builtin::Ifelse => ifelse(effect, list, place)?,
        Builtin::Shift => shift(effect, list, state)?,
        Builtin::Dumpdef => dumpdef(effect, list, place, state)?,
        Builtin::Dnl => effect.skip_line(),
        Builtin::Changequote => changequote(effect.alloc(), list, state)?,
        Builtin::Changecom => changecom(effect.alloc(), list, state)?,
        Builtin::Divert => divert(effect, list, place, state)?,
        Builtin::Undivert => undivert(effect, list, place, state)?,
        Builtin::Divnum => divnum(effect, state)?,
        Builtin::Len => len(effect, list)?,
        Builtin::Index => index(effect, list)?,
        Builtin::Substr => substr(effect, list, place)?,
        Builtin::Translit => translit(effect, list)?,
        Builtin::Incr => incr(effect, list, place)?,
        Builtin::Decr => decr(effect, list, place)?,
        Builtin::Eval => eval(effect, list, place)?,
        Builtin::Errprint => errprint(effect, list)?,
        Builtin::M4wrap => m4wrap(effect, list)?,
        Builtin::M4exit => m4exit(effect, list, place)?,
        Builtin::File => file(effect, place, state)?,
        Builtin::Line => line(effect, place)?,
    }
    Ok(Step::Done)
}

/// Expands as a call with missing arguments does: with one argument, `index` expands to 0, `substr` to all
/// of it, and `translit` to it unchanged.
fn give_though_few(
    effect: &mut EffectBuffer,
    builtin: Builtin,
    list: &[Arg],
) -> Result<(), AllocError>
    requires { effect.old ≡ nothing }
    ensures { OnOk result (effect.new ≡ record nothing { push = spec.given_though_few builtin list.now }) }
{
    let [arg] = list else {
        return Ok(());
    };
    match builtin {
        Builtin::Index => effect.give_copy(b"0"),
        Builtin::Substr | Builtin::Translit => effect.give_argument(Some(arg)),
        _ => Ok(()),
    }
}

/// Returns whether a definition is recognised only with parameters.
pub fn needs_list(def: &Def) -> bool
    ensures { result ≡ spec.needs_list def.now }
{
    match def {
        Def::Builtin(builtin) => builtin.needs_args(),
        Def::Text(_) | Def::Placeholder(_) => false,
    }
}

/// Returns whether a count is above the maximum.
fn is_above(most: Option<usize>, count: usize) -> bool
    ensures { result ≡ spec.is_above most count }
{
    match most {
        Some(most) => most < count,
        None => false,
    }
}
