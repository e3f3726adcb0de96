//! The builtins that call by a name given as an argument. Manual: "Indirect call of macros", "Indirect
//! call of builtins".
//!
//! The first argument of an indirect call may again name an indirect call, and so on through a list of any
//! length. So these builtins do not make the call themselves: they return a [`Step`], and
//! [`crate::act::act`] continues in a loop.

ghost use Rattle.std.specs.Prelude.{◌≡◌, ◌<◌, ℕ, IfOk, length};
ghost use Rattle.std.specs.List.{AllByRecursion};
ghost use Rattle.m4_builtins.specs.Act.{act, goes_on, nothing};
ghost use Rattle.m4_builtins.specs.Args.{IsArg};
ghost use Rattle.m4_builtins.specs.Indirect as spec;
ghost use Rattle.m4_builtins.specs.Steps.{LeadsTo, IsShorter};

use crate::args::Arg;
use crate::effect_buffer::EffectBuffer;
use crate::fault::BuiltinFault;
use crate::messages::Warning;
use crate::naming::name_in;
use crate::place::Place;
use m4_state::builtin::Builtin;
use m4_state::bytes::Bytes;
use m4_state::definition::Def;
use m4_state::state::State;

/// A call that is finished, or the call that continues it.
#[derive(Drop)]
pub(crate) enum Step<'a> {
    /// The call is finished, and its effect is complete.
    Done,
    /// The call continues as that of a builtin with these arguments.
    On(Builtin, &'a [Arg]),
}

/// Starts a call of a definition under a name: a text or a placeholder is finished, a builtin is not. Inlined, so that
/// a builtin's call moves no [`Step`].
#[inline(always)]
pub(crate) fn start<'a>(
    effect: &mut EffectBuffer,
    def: &Def,
    name: &Bytes,
    list: &'a [Arg],
    place: &Place,
    state: &State,
) -> Result<Step<'a>, BuiltinFault>
    requires fresh { effect.old ≡ nothing }
    requires args { AllByRecursion IsArg list.now }
    ensures leads { IfOk result (λ step. LeadsTo (act def.now name.now list.now place.now state.now) place.now state.now
        effect.new step) }
    ensures shorter { (n : ℕ) → length list.now < n → IfOk result (λ step. IsShorter n step) }
{
    match def {
        Def::Text(text) => {
            if !effect.give_expansion(text, name, list, state.quotes())? {
                effect.give_shared(text)?;
            }
            Ok(Step::Done)
        }
        Def::Builtin(builtin) => Ok(Step::On(*builtin, list)),
        Def::Placeholder(other) => {
            effect.add_warning(place, Warning::Unsupported(other.as_slice()))?;
            Ok(Step::Done)
        }
    }
}

/// Calls the macro that the first argument names. Manual: "Indirect call of macros".
pub(crate) fn indir<'a>(
    effect: &mut EffectBuffer,
    list: &'a [Arg],
    place: &Place,
    state: &State,
) -> Result<Step<'a>, BuiltinFault>
    requires fresh { effect.old ≡ nothing }
    requires args { AllByRecursion IsArg list.now }
    ensures leads { IfOk result (λ step. LeadsTo (spec.indir
        (goes_on list.now place.now state.now) list.now place.now state.now) place.now state.now effect.new step) }
    ensures shorter { IfOk result (λ step. IsShorter (length list.now) step) }
{
    let Some((name, rest)) = name_in(effect, list, place, Builtin::Indir)? else {
        return Ok(Step::Done);
    };
    let Some(def) = state.top(name.as_slice()) else {
        effect.add_warning(place, Warning::UnknownMacro(name.as_slice()))?;
        return Ok(Step::Done);
    };
    start(effect, def, name, rest, place, state)
}

/// Calls the builtin whose own name is the first argument. Manual: "Indirect call of builtins".
pub(crate) fn builtin<'a>(
    effect: &mut EffectBuffer,
    list: &'a [Arg],
    place: &Place,
    state: &State,
) -> Result<Step<'a>, BuiltinFault>
    requires fresh { effect.old ≡ nothing }
    requires args { AllByRecursion IsArg list.now }
    ensures leads { IfOk result (λ step. LeadsTo (spec.builtin
        (goes_on list.now place.now state.now) list.now place.now state.now) place.now state.now effect.new step) }
    ensures shorter { IfOk result (λ step. IsShorter (length list.now) step) }
{
    let Some((name, rest)) = name_in(effect, list, place, Builtin::IndirBuiltin)? else {
        return Ok(Step::Done);
    };
    let Some(builtin) = Builtin::by_name(name.as_slice()) else {
        effect.add_warning(place, Warning::UnknownBuiltin(name.as_slice()))?;
        return Ok(Step::Done);
    };
    Ok(Step::On(builtin, rest))
}
