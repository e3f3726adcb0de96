//! The ends of arguments: a comma ends one, and so does the parenthesis that closes the list.
//! Manual: "Macro arguments".

ghost use Rattle.std.specs.Prelude.{◌≡◌, ◌++◌, OnOk, OnErr};
ghost use Rattle.m4_builtins.specs.Messages.{dropped};
ghost use Rattle.m4_engine.specs.Engine.{ending_argument, IfHead, KeepsOutput};

use crate::machine::Machine;
use crate::turned::TurnFault;
use m4_builtins::messages::dropped_message;
use m4_builtins::place::Place;
use std::alloc::Global;

/// Appends the warning that an argument drops definitions. Not inlined, since hardly any does.
#[inline(never)]
fn add_dropped(messages: &mut Vec<u8>, alloc: Global, place: &Place) -> Result<(), TurnFault>
    ensures { OnOk result (messages.new.items ≡ messages.old.items ++ dropped place.now) }
{
    let message = dropped_message(alloc, place)?;
    messages.extend_from_slice(message.as_slice())?;
    Ok(())
}

impl Machine {
    /// Ends the current argument of the innermost call.
    #[inline(always)]
    pub(super) fn end_argument(&mut self) -> Result<(), TurnFault>
        requires { IfHead self.old.open_calls (λ c. c.parentheses ≡ 0) }
        ensures engine { OnOk result (self.new ≡ ending_argument self.old) }
        ensures kept { OnErr result (KeepsOutput self.old self.new) }
    {
        if self.depth == 0 {
            return Ok(());
        }
        let call = &mut self.stack[self.depth - 1];
        if call.end_argument()? {
            add_dropped(&mut self.messages, self.alloc, call.place())?;
        }
        Ok(())
    }
}
