//! A fast path for tokens that call nothing: many at once, outside of calls and in an argument list, without
//! an intermediate copy. Manual: "How m4 copies input to output", "Macro arguments".
//!
//! A pass consumes tokens of one text, the bytes at the start of the input. If they leave a token open and others in
//! hand come after them, the next pass has a longer text.

ghost use Rattle.std.specs.Prelude.{◌≡◌, [], IfOk, OnOk, OnErr};
ghost use Rattle.m4_engine.specs.Engine.{IsReady, KeepsOutput, put_in};
ghost use Rattle.m4_engine.specs.Passes.{PassesBy, PassesTo};

use super::OUTPUT_BLOCK;
use crate::call::OpenCall;
use crate::lookahead::Lookahead;
use crate::machine::Machine;
use crate::outside::{LeftOutside, Outside};
use crate::token_sink::pass_tokens;
use crate::turned::TurnFault;
use m4_input::input::Input;
use m4_state::append::append;

impl Machine {
    /// Consumes leading tokens that need no turn: outside of calls up to a block of plain text, and in a list the
    /// tokens that only extend the innermost call. The effect is that of as many turns. Then it consumes the next token
    /// and returns it, and `next` becomes its call; or it returns none if a block of output is full, which is to be
    /// flushed first. `copy` is a buffer for a token that spans several texts.
    #[inline(always)]
    pub fn pass_plain(
        &mut self,
        input: &mut Input,
        copy: &mut Vec<u8>,
        next: &mut OpenCall,
    ) -> Result<Option<Lookahead>, TurnFault>
        requires { IsReady input.old }
        ensures passes { IfOk result (λ o. PassesTo o next.new self.old self.new input.old input.new) }
        ensures kept { OnErr result (KeepsOutput self.old self.new) }
    {
        let mut looked = 0;
        'fronts: loop {
            let Some((text, others)) = input.front(looked, copy)? else {
                return Ok(Some(Lookahead::Definition));
            };
            let more = others | input.may_follow();
            let (len, token, lookahead) = self.pass_text(text, more, next)?;
            let left = text.len() - len;
            input.consume(len + token, token);
            let Some(found) = lookahead else {
                if self.output.len() >= OUTPUT_BLOCK {
                    return Ok(None);
                }
                looked = 0;
                continue 'fronts;
            };
            match found {
                Lookahead::Undecided => {
                    if !others {
                        return Ok(Some(found));
                    }
                    // To join few bytes to the next ones takes less time than to copy both.
                    let _joined = left > 0 && input.join();
                    looked = left;
                }
                _ => return Ok(Some(found)),
            }
        }
    }

    /// Passes the tokens at the start of a text: in a list it collects them into the innermost call. `more` is whether
    /// bytes may come after the text. Returns how many bytes were passed, how many of the token after them are to be
    /// consumed, and the lookahead for it, if it was looked at.
    #[inline(always)]
    fn pass_text(
        &mut self,
        text: &[u8],
        more: bool,
        next: &mut OpenCall,
    ) -> Result<(usize, usize, Option<Lookahead>), TurnFault>
        ensures passes { IfOk result (λ r. PassesBy r.0 r.1 r.2 next.new text.now more self.old self.new) }
        ensures kept { OnErr result (KeepsOutput self.old self.new) }
    {
        if self.depth == 0 {
            return self.pass_outside(text, more, next);
        }
        let call = &mut self.stack[self.depth - 1];
        let (len, (lookahead, token)) = pass_tokens(call, text, &self.state, next, more)?;
        Ok((len, token, Some(lookahead)))
    }

    /// Passes up to a block of tokens outside of calls, and the text of one after them if no block of output is full.
    /// Not inlined, so that the loop over plain tokens has all registers.
    #[inline(never)]
    fn pass_outside(
        &mut self,
        text: &[u8],
        more: bool,
        next: &mut OpenCall,
    ) -> Result<(usize, usize, Option<Lookahead>), TurnFault>
        requires outside { self.old.open_calls ≡ [] }
        ensures passes { IfOk result (λ r. PassesBy r.0 r.1 r.2 next.new text.now more self.old self.new) }
        ensures kept { OnErr result (KeepsOutput self.old self.new) }
    {
        let (len, left) = pass_tokens(&mut Outside, text, &self.state, next, more)?;
        let (passed, rest) = text.split_at(len);
        self.put_outside(passed)?;
        match left {
            LeftOutside::Other(lookahead, token) => Ok((len, token, Some(lookahead))),
            LeftOutside::Text { .. } if self.output.len() >= OUTPUT_BLOCK => Ok((len, 0, None)),
            LeftOutside::Text {
                begin,
                len: part,
                all,
            } => {
                self.put_text(rest.split_at(begin).1.split_at(part).0)?;
                Ok((len + all, 0, None))
            }
        }
    }

    /// Appends text where it goes outside of calls: to the output, to a diversion, or nowhere.
    #[inline(always)]
    pub(super) fn put_outside(&mut self, text: &[u8]) -> Result<(), TurnFault>
        ensures engine { OnOk result (self.new ≡ put_in [] text.now self.old) }
        ensures kept { OnErr result (KeepsOutput self.old self.new) }
    {
        if self.state.current() == 0 {
            append(&mut self.output, text)?;
        } else {
            self.state.append(text)?;
        }
        Ok(())
    }
}
