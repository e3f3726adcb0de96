//! The limits of calls, and of calls that are open, and the errors that report them. Manual: "Limits control".

ghost use Rattle.std.specs.Prelude.{◌≡◌, nat_lt, ◌++◌, OnOk, OnErr, true, codes};
ghost use Rattle.std.specs.Fmt.{decimal};
ghost use Rattle.m4_builtins.specs.Messages.{error};
ghost use Rattle.m4_engine.specs.Engine.{KeepsOutput, with_engine_message, with_one_call, allows_call};

use crate::call::OpenCall;
use crate::machine::Machine;
use crate::turned::TurnFault;
use itoa::Buffer;

impl Machine {
    /// Counts a call.
    pub(super) fn count(&mut self)
        requires { nat_lt self.old.calls self.old.limits.calls ≡ true }
        ensures { self.new ≡ with_one_call self.old }
    {
        self.calls += 1;
    }

    /// Returns whether the limits allow one more call.
    pub(super) fn allows_call(&self) -> bool
        ensures { result ≡ allows_call self.now }
    {
        let is_deep = self.most_nested > 0 && self.depth as u64 >= self.most_nested;
        self.calls < self.most_calls && !is_deep
    }

    /// Adds the error that a call exceeds a limit. `what` is the text after the number.
    pub(super) fn report_limit(
        &mut self,
        call: &OpenCall,
        limit: u64,
        what: &[u8],
    ) -> Result<(), TurnFault>
        ensures engine { OnOk result (self.new
            ≡ with_engine_message (error call.now.place (codes "more than " ++ decimal limit ++ what.now)) self.old) }
        ensures kept { OnErr result (KeepsOutput self.old self.new) }
    {
        let mut buffer = Buffer::new();
        let mut text = Vec::new(self.alloc);
        text.extend_from_slice(b"more than ")?;
        text.extend_from_slice(buffer.format(limit).as_bytes())?;
        text.extend_from_slice(what)?;
        self.add_error(call.place(), &text)
    }
}
