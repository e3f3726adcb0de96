//! The end of the input, also inside a string, a comment or a list. Manual: "Quoting input tokens", "Comments in m4
//! input", "Macro arguments".

ghost use Rattle.std.specs.Prelude.{◌≡◌, Bool, List, ℕ, OnErr};
ghost use Rattle.m4_input.specs.Token.{Refused};
ghost use Rattle.m4_input.specs.Pending.{Pending};
ghost use Rattle.m4_engine.specs.Engine.{KeepsOutput, mode_of, here_of, outer_of};
ghost use Rattle.m4_engine.specs.Turns.{Moves, Makes, Extended, step};
ghost use Rattle.m4_engine.specs.Expand.{take_front, take_end};

use crate::machine::Machine;
use crate::turned::{TurnEnd, TurnFault, Turned};
use m4_builtins::messages::error_message;
use m4_builtins::place::Place;
use m4_input::front::Unended;
use m4_input::input::Input;

impl Machine {
    /// Ends the expansion at the end of the input. Inside a list it reports the error that the list has no end.
    pub(super) fn take_end(&mut self) -> Result<Turned, TurnFault>
        ensures makes { Makes result self.old self.new (λ t. (may : Bool) (p : Pending) (before : Extended)
            → Moves may self.new p t
            (λ z more o m. step (outer_of self.old.open_calls)
            (take_end (mode_of self.old.open_calls) (here_of o m self.old (before z more))))) }
        ensures kept { OnErr result (KeepsOutput self.old self.new) }
    {
        if self.depth == 0 {
            return Ok(Turned::Ends(TurnEnd::Done));
        }
        let place = self.stack[self.depth - 1].place();
        let message = error_message(self.alloc, place, b"end of input in argument list")?;
        self.add_message(message.as_slice())?;
        Ok(Turned::Ends(TurnEnd::EndInArguments))
    }

    /// Reports a string or a comment that has no end.
    pub(super) fn take_unended(
        &mut self,
        what: Unended,
        line: u64,
        input: &Input,
    ) -> Result<Turned, TurnFault>
        ensures makes { Makes result self.old self.new (λ t. (may : Bool) (p : Pending) (before : Extended)
            → ((z : List ℕ) (more : Bool) → (before z more).file ≡ input.now.pending.file)
            → Moves may self.new p t (λ z more o m. step (outer_of self.old.open_calls)
            (take_front (Refused what line) (here_of o m self.old (before z more))))) }
        ensures kept { OnErr result (KeepsOutput self.old self.new) }
    {
        let place = Place {
            file: input.share_name()?,
            line,
        };
        match what {
            Unended::InString => {
                self.add_error(&place, b"end of input in string")?;
                Ok(Turned::Ends(TurnEnd::EndInString))
            }
            Unended::InComment => {
                self.add_error(&place, b"end of input in comment")?;
                Ok(Turned::Ends(TurnEnd::EndInComment))
            }
        }
    }
}
