//! One turn of an expansion: acts on the token that a pass consumed.
//! Manual: "Macro invocation", "How m4 copies input to output".

ghost use Rattle.std.specs.Prelude.{◌≡◌, ◌≢◌, Bool, false, None, IfOk, OnErr};
ghost use Rattle.m4_input.specs.Input.{Held};
ghost use Rattle.m4_engine.specs.Engine.{IsReady, KeepsOutput, allows_call};
ghost use Rattle.m4_engine.specs.Lookahead.{IsCalled, IsNameTaken, IsRare, Recognises};
ghost use Rattle.m4_engine.specs.Passes.{IsSeen};
ghost use Rattle.m4_engine.specs.Turns.{Begins, IsTaken, Turns};

use crate::call::OpenCall;
use crate::lookahead::Lookahead;
use crate::machine::Machine;
use crate::machine::calls::push_text;
use crate::turned::{TurnEnd, TurnFault, Turned};
use m4_builtins::act::needs_list;
use m4_input::front::Unended;
use m4_input::input::Input;
use m4_state::definition::Def;

impl Machine {
    /// Makes one turn: acts on the token that a pass found and consumed. Does nothing if the bytes in hand don't decide
    /// which token it is. If it is a call, `next` is that call.
    #[inline(always)]
    pub fn turn(
        &mut self,
        lookahead: Lookahead,
        next: &mut OpenCall,
        input: &mut Input,
    ) -> Result<Turned, TurnFault>
        requires seen { (i : Held) × IsSeen lookahead next.old self.old i input.old }
        ensures turns { (i : Held) → IsSeen lookahead next.old self.old i input.old
            → Turns result self.old self.new i input.new }
        ensures kept { OnErr result (KeepsOutput self.old self.new) }
    {
        match self.begin_turn(lookahead, next, input)? {
            Some(turned) => Ok(turned),
            None => self.call(input),
        }
    }

    /// Makes one turn, but for the call whose arguments are complete with it, if there is one: then it returns `None`,
    /// and that call is the innermost.
    #[inline(always)]
    fn begin_turn(
        &mut self,
        lookahead: Lookahead,
        next: &mut OpenCall,
        input: &mut Input,
    ) -> Result<Option<Turned>, TurnFault>
        requires seen { (i : Held) × IsSeen lookahead next.old self.old i input.old }
        ensures begins { (i : Held) → IsSeen lookahead next.old self.old i input.old
            → IfOk result (λ o. Begins o self.old self.new i input.new) }
        ensures kept { OnErr result (KeepsOutput self.old self.new) }
    {
        match lookahead {
            Lookahead::ClosesList => {
                self.end_argument()?;
                Ok(None)
            }
            Lookahead::Call => self.begin_call(false, next, input),
            Lookahead::List => self.begin_call(true, next, input),
            Lookahead::Expansion => {
                if !self.allows_call() {
                    return Ok(Some(self.refuse_call(next, input)?));
                }
                self.count();
                let Def::Text(text) = next.definition() else {
                    unreachable!();
                };
                push_text(input, text)?;
                self.begin_argument();
                Ok(Some(Turned::GoesOn))
            }
            Lookahead::LineSkip => {
                if !self.allows_call() {
                    return Ok(Some(self.refuse_call(next, input)?));
                }
                self.count();
                self.begin_argument();
                Ok(Some(Turned::SkipsLine))
            }
            _ => Ok(Some(self.rare_turn(lookahead, next, input)?)),
        }
    }

    /// Makes one turn on a token that few turns find. Not inlined, so that the others are short.
    #[inline(never)]
    fn rare_turn(
        &mut self,
        lookahead: Lookahead,
        next: &mut OpenCall,
        input: &mut Input,
    ) -> Result<Turned, TurnFault>
        requires rare { IsRare lookahead }
        requires seen { (i : Held) × IsSeen lookahead next.old self.old i input.old }
        ensures turns { (i : Held) → IsSeen lookahead next.old self.old i input.old
            → Turns result self.old self.new i input.new }
        ensures kept { OnErr result (KeepsOutput self.old self.new) }
    {
        match lookahead {
            Lookahead::EndsArgument => {
                self.end_argument()?;
                Ok(Turned::GoesOn)
            }
            Lookahead::Undecided => Ok(Turned::NeedsMore),
            Lookahead::Definition => self.take_definition(input),
            Lookahead::End => self.take_end(),
            Lookahead::UnendedString => self.take_unended(Unended::InString, input.line(), input),
            Lookahead::UnendedComment => self.take_unended(Unended::InComment, input.line(), input),
            Lookahead::ClosesList
            | Lookahead::Expansion
            | Lookahead::LineSkip
            | Lookahead::Call
            | Lookahead::List => unreachable!(),
        }
    }

    /// Consumes the definition that comes first, and appends it to the innermost argument. Outside of calls it is
    /// dropped.
    #[inline(never)]
    fn take_definition(&mut self, input: &mut Input) -> Result<Turned, TurnFault>
        requires ready { IsReady input.old }
        requires first { input.old.pending.definition ≢ None }
        ensures turns { Turns result self.old self.new input.old input.new }
        ensures kept { OnErr result (KeepsOutput self.old self.new) }
    {
        let Some(definition) = input.take_definition() else {
            unreachable!();
        };
        if self.depth > 0 {
            let call = &mut self.stack[self.depth - 1];
            call.put_token(definition)?;
        }
        Ok(Turned::GoesOn)
    }

    /// Begins the call of a name, which was consumed with the parenthesis of its list, if one follows. Opens the call,
    /// if the limits allow it, and returns `None` if it has no list, so that it is complete. If the name is recognised
    /// only with a list and none follows, appends it as text.
    #[inline(always)]
    fn begin_call(
        &mut self,
        listed: bool,
        next: &mut OpenCall,
        input: &mut Input,
    ) -> Result<Option<Turned>, TurnFault>
        requires taken { IsTaken input.old }
        ensures begins { (i : Held) → IsNameTaken listed (IsCalled next.old self.old.state) self.old.state i input.old
            → IfOk result (λ o. Begins o self.old self.new i input.new) }
        ensures kept { OnErr result (KeepsOutput self.old self.new) }
    {
        if !listed && needs_list(next.definition()) {
            self.put_text(next.name().as_slice())?;
            return Ok(Some(Turned::GoesOn));
        }
        if !self.allows_call() {
            return Ok(Some(self.refuse_call(next, input)?));
        }
        self.count();
        self.open_list(next, input)?;
        if !listed {
            return Ok(None);
        }
        Ok(Some(Turned::GoesOn))
    }

    /// Reports the limit that a call exceeds, whose name was consumed. Sets the place of `next`, whatever call it is.
    #[inline(never)]
    fn refuse_call(&mut self, next: &mut OpenCall, input: &Input) -> Result<Turned, TurnFault>
        requires taken { IsTaken input.now }
        requires refused { allows_call self.old ≡ false }
        ensures turns { (i : Held) (listed : Bool)
            → IsNameTaken listed (Recognises listed self.old.state) self.old.state i input.now
            → Turns result self.old self.new i input.now }
        ensures kept { OnErr result (KeepsOutput self.old self.new) }
    {
        next.set_place(input)?;
        if self.calls >= self.most_calls {
            self.report_limit(next, self.most_calls, b" calls")?;
            return Ok(Turned::Ends(TurnEnd::ExpansionLimit));
        }
        self.count();
        self.report_limit(next, self.most_nested, b" nested calls")?;
        Ok(Turned::Ends(TurnEnd::NestingLimit))
    }
}
