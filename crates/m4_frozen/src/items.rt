//! The definitions and the diversions of a state, written one by one.

ghost use Rattle.std.specs.Prelude.{◌≡◌, pos, IfOk};
ghost use Rattle.std.specs.List.{flat_map};
ghost use Rattle.m4_state.specs.Device.{count_after, Puts};
ghost use Rattle.m4_frozen.specs.Freeze.{last_number};

use crate::gathered::Gathered;
use m4_state::definition::Def;
use m4_state::device::{ByteSink, DeviceFault};
use m4_state::state::State;

/// How a definition and a diversion are written.
pub(crate) trait Form {
    ghost use Rattle.std.specs.Prelude.{List, ℕ};
    ghost use Rattle.m4_state.specs.declared.definition.Def.{Def as Defined};
    ghost use Rattle.m4_state.specs.State.{NumberedText};

    /// The text of a definition of a name.
    ghost definition_text: { List ℕ → Defined → List ℕ };

    /// The text of a diversion.
    ghost diversion_text: { NumberedText → List ℕ };

    /// Writes a definition of a name. What is short is gathered.
    fn put_definition<W: ByteSink>(
        name: &[u8],
        definition: &Def,
        gathered: &mut Gathered,
        writer: &mut W,
    ) -> Result<(), DeviceFault>
        ensures puts { Puts result (W.contents writer.old) (W.contents writer.new)
            (definition_text name.now definition.now) }
        ensures counted { W.failures writer.new ≡ count_after result (W.failures writer.old) };

    /// Writes a diversion's number and its text, or the length of that.
    fn put_diversion<W: ByteSink>(
        number: i32,
        text: &[u8],
        writer: &mut W,
    ) -> Result<(), DeviceFault>
        ensures puts { Puts result (W.contents writer.old) (W.contents writer.new)
            (diversion_text (number, text.now)) }
        ensures counted { W.failures writer.new ≡ count_after result (W.failures writer.old) };
}

/// Writes the definitions of one name, the oldest first.
pub(crate) fn put_stack<F: Form, W: ByteSink>(
    name: &[u8],
    stack: &[Def],
    gathered: &mut Gathered,
    writer: &mut W,
) -> Result<(), DeviceFault>
    ensures puts { Puts result (W.contents writer.old) (W.contents writer.new)
        (flat_map (F.definition_text name.now) stack.now) }
    ensures counted { W.failures writer.new ≡ count_after result (W.failures writer.old) }
{
    for definition in stack {
        F::put_definition(name, definition, gathered, writer)?;
    }
    Ok(())
}

/// Writes the diversions that contain text, by rising number. Returns the last one's number, or 0.
pub(crate) fn put_texts<F: Form, W: ByteSink>(
    state: &State,
    writer: &mut W,
) -> Result<i32, DeviceFault>
    ensures puts { Puts result (W.contents writer.old) (W.contents writer.new)
        (flat_map F.diversion_text state.now.diversions) }
    ensures last { IfOk result (λ n. n ≡ last_number (pos 0) state.now.diversions) }
    ensures counted { W.failures writer.new ≡ count_after result (W.failures writer.old) }
{
    let mut last = 0;
    while let Some(number) = state.next_diversion(last) {
        F::put_diversion(number, state.diversion(number), writer)?;
        last = number;
    }
    Ok(last)
}
