//! The builtin that replaces bytes by others. Manual: "Translating characters".
//!
//! The ranges of both lists are expanded, then a table gives the replacement of each byte, and then the
//! text is read once.

ghost use Rattle.std.specs.Prelude.{◌≡◌, ◌++◌, ◌<◌, ◌-◌, ◌+◌, ℕ, None, Some, IfOk, OnOk, get_or};
ghost use Rattle.m4_builtins.specs.Acted.{nothing};
ghost use Rattle.m4_builtins.specs.ByteTable.{Replaces};
ghost use Rattle.m4_builtins.specs.Translit as spec;

use crate::args::{Arg, text_at};
use crate::effect_buffer::EffectBuffer;
use m4_state::text_buffer::TextBuffer;
use std::alloc::{AllocError, Global};

/// How many bytes there are.
const BYTES: usize = 256;

/// The replacement of each byte, by its number; none if it is deleted.
type Changes = [Option<u8>; BYTES];

/// Expands to the first argument with the bytes of the second one replaced by those of the third. Takes
/// time in proportion to the text and to the expanded ranges. Manual: "Translating
/// characters".
pub(crate) fn translit(effect: &mut EffectBuffer, list: &[Arg]) -> Result<(), AllocError>
    requires { effect.old ≡ nothing }
    ensures { OnOk result (effect.new ≡ spec.translit list.now) }
{
    let alloc = effect.alloc();
    let from = ranges(alloc, text_at(list, 1))?;
    let to = ranges(alloc, text_at(list, 2))?;
    let mut out = effect.buffer();
    translate_onto(&mut out, text_at(list, 0), from.as_slice(), to.as_slice())?;
    effect.give(out);
    Ok(())
}

/// Returns a text with its ranges expanded. Most come to at most 256 bytes, which take one request for memory.
fn ranges(alloc: Global, text: &[u8]) -> Result<Vec<u8>, AllocError>
    ensures { IfOk result (λ v. v.items ≡ spec.ranges text.now) }
{
    let mut out = Vec::with_capacity(alloc, text.len().max(BYTES))?;
    let mut before = None;
    let mut rest = text;
    while let [byte, others @ ..] = rest {
        match (before, others) {
            (Some(from), [to, after @ ..]) if *byte == b'-' => {
                push_run(&mut out, from, *to)?;
                before = Some(*to);
                rest = after;
            }
            _ => {
                out.push(*byte)?;
                before = Some(*byte);
                rest = others;
            }
        }
    }
    Ok(out)
}

/// Appends the bytes from one to another, without the first.
fn push_run(out: &mut Vec<u8>, from: u8, to: u8) -> Result<(), AllocError>
    ensures { OnOk result (out.new.items ≡ out.old.items ++ spec.bytes_between from to) }
{
    let mut byte = from;
    while byte < to {
        byte += 1;
        out.push(byte)?;
    }
    while byte > to {
        byte -= 1;
        out.push(byte)?;
    }
    Ok(())
}

/// Returns the replacement of each byte, if some are replaced by others. Enters the last ones first, so
/// that of two places of one byte the first counts.
fn changes_of(from: &[u8], to: &[u8]) -> Changes
    ensures { Replaces result from.now to.now }
{
    let mut changes = no_changes();
    let mut k = from.len();
    while k > 0 {
        k -= 1;
        changes[usize::from(from[k])] = to.get(k).copied();
    }
    changes
}

/// Returns the table in which each byte stays as it is.
fn no_changes() -> Changes
    ensures { (b : ℕ) → b < 256 → get_or result b None ≡ Some b }
{
    let mut changes = [None; BYTES];
    for byte in 0..BYTES {
        changes[byte] = Some(byte as u8);
    }
    changes
}

/// Appends a text with the bytes of one text replaced by those of another.
fn translate_onto(
    out: &mut TextBuffer,
    text: &[u8],
    from: &[u8],
    to: &[u8],
) -> Result<(), AllocError>
    ensures { OnOk result (out.new ≡ out.old ++ spec.translated text.now from.now to.now) }
{
    let changes = changes_of(from, to);
    for byte in text {
        if let Some(new) = changes[usize::from(*byte)] {
            out.push(new)?;
        }
    }
    Ok(())
}
