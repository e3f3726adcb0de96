//! Texts by their numbers, as diversions store them.

ghost use Rattle.std.specs.Prelude.{◌≡◌, ◌≢◌, ◌<◌, ◌++◌, ◌^◌, [], length, false, None, IsTrue, IfOk, OnOk, OnErr};
ghost use Rattle.std.specs.Prelude.{option_map};
ghost use Rattle.std.specs.Ordering.{int_cmp, int_eq};
ghost use Rattle.std.specs.FinMap.{find, put, is_sorted};
ghost use Rattle.m4_state.specs.State.{diverted_text, without_text};
ghost use Rattle.m4_state.specs.DiversionEntries.{texts_of};

use std::alloc::{AllocError, Global};
use std::collections::BTreeMap;

/// How many bytes a page of memory has. A page that is never written takes no time and no memory, so that further room
/// after a text of a page costs nothing.
const PAGE: usize = 4096;

/// How much room a text begins with, at most, unless it is longer itself. A reader gives half as much at a
/// time, so that a text of two pieces fits.
const BEGINNING_ROOM: usize = 65536;

/// Adds to the text of a number. Allocations come first, so if one fails nothing changes.
pub fn append_in(
    alloc: Global,
    texts: &mut BTreeMap<i32, Vec<u8>>,
    number: i32,
    text: &[u8],
) -> Result<(), AllocError>
    requires { IsTrue (is_sorted int_cmp (texts_of texts.old.entries)) }
    ensures ok { OnOk result (texts_of texts.new.entries
        ≡ put int_cmp number (diverted_text (texts_of texts.old.entries) number ++ text.now)
        (texts_of texts.old.entries)) }
    ensures err { OnErr result (texts_of texts.new.entries ≡ texts_of texts.old.entries) }
    ensures sized { OnOk result (length (diverted_text (texts_of texts.old.entries) number ++ text.now) < 2 ^ 64) }
{
    // For the proof alone: a length has 64 bits.
    let _len = text.len();
    match texts.get_mut(&number) {
        Some(held) => {
            held.extend_from_slice(text)?;
            // For the proof alone: a length has 64 bits.
            let _held = held.len();
        }
        None => {
            let held = begun_with(alloc, text)?;
            texts.insert(number, held)?;
        }
    }
    Ok(())
}

/// Copies the first piece of a text. After one of a page or more further pieces may come: three times as many bytes
/// have room after it, up to `BEGINNING_ROOM`, so that they are added without a copy of the first.
fn begun_with(alloc: Global, text: &[u8]) -> Result<Vec<u8>, AllocError>
    ensures items { IfOk result (λ held. held.items ≡ text.now) }
{
    let len = text.len();
    let room = if len < PAGE || len > BEGINNING_ROOM {
        len
    } else {
        (4 * len).min(BEGINNING_ROOM)
    };
    let mut held = Vec::with_capacity(alloc, room)?;
    held.extend_from_slice(text)?;
    Ok(held)
}

/// Removes the text of a number, and returns it, if there is one. Allocates nothing.
pub fn take_in(texts: &mut BTreeMap<i32, Vec<u8>>, number: i32) -> Option<Vec<u8>>
    requires { IsTrue (is_sorted int_cmp (texts_of texts.old.entries)) }
    ensures text { option_map (λ text. text.items) result ≡ find int_cmp number (texts_of texts.old.entries) }
    ensures rest { texts_of texts.new.entries ≡ without_text (texts_of texts.old.entries) number }
{
    texts.remove(&number)
}

/// Moves the text of one number to the end of another's. Room for it is allocated first, so if that fails nothing
/// changes.
pub fn move_in(
    alloc: Global,
    texts: &mut BTreeMap<i32, Vec<u8>>,
    from: i32,
    to: i32,
) -> Result<(), AllocError>
    requires sorted { IsTrue (is_sorted int_cmp (texts_of texts.old.entries)) }
    requires apart { int_eq from to ≡ false }
    requires some { diverted_text (texts_of texts.old.entries) from ≢ [] }
    ensures ok { OnOk result (texts_of texts.new.entries
        ≡ put int_cmp to
        (diverted_text (texts_of texts.old.entries) to ++ diverted_text (texts_of texts.old.entries) from)
        (without_text (texts_of texts.old.entries) from)) }
    ensures err { OnErr result (texts_of texts.new.entries ≡ texts_of texts.old.entries) }
    ensures sized { OnOk result (length (diverted_text (texts_of texts.old.entries) to
        ++ diverted_text (texts_of texts.old.entries) from) < 2 ^ 64) }
{
    if !texts.contains_key(&to) {
        return place_in(alloc, texts, from, to);
    }
    let mut text = Vec::new(alloc);
    swap_in(texts, from, &mut text);
    match append_in(alloc, texts, to, &text) {
        Ok(()) => {
            let _empty = take_in(texts, from);
            Ok(())
        }
        Err(AllocError) => {
            swap_in(texts, from, &mut text);
            Err(AllocError)
        }
    }
}

/// Swaps the text of a number that has an entry with another one.
fn swap_in(texts: &mut BTreeMap<i32, Vec<u8>>, number: i32, text: &mut Vec<u8>)
    requires sorted { IsTrue (is_sorted int_cmp (texts_of texts.old.entries)) }
    requires there { find int_cmp number (texts_of texts.old.entries) ≢ None }
    ensures text { text.new.items ≡ diverted_text (texts_of texts.old.entries) number }
    ensures texts { texts_of texts.new.entries ≡ put int_cmp number text.old.items (texts_of texts.old.entries) }
{
    if let Some(held) = texts.get_mut(&number) {
        std::mem::swap(held, text);
    }
}

/// Moves the text of one number to another that has none, with no copy. Its place is allocated first, so if that fails
/// nothing changes.
fn place_in(
    alloc: Global,
    texts: &mut BTreeMap<i32, Vec<u8>>,
    from: i32,
    to: i32,
) -> Result<(), AllocError>
    requires sorted { IsTrue (is_sorted int_cmp (texts_of texts.old.entries)) }
    requires apart { int_eq from to ≡ false }
    requires some { diverted_text (texts_of texts.old.entries) from ≢ [] }
    ensures ok { OnOk result (texts_of texts.new.entries
        ≡ put int_cmp to (diverted_text (texts_of texts.old.entries) from)
        (without_text (texts_of texts.old.entries) from)) }
    ensures err { OnErr result (texts_of texts.new.entries ≡ texts_of texts.old.entries) }
    ensures sized { OnOk result (length (diverted_text (texts_of texts.old.entries) from) < 2 ^ 64) }
{
    let place = Vec::new(alloc);
    texts.insert(to, place)?;
    match take_in(texts, from) {
        Some(text) => {
            // For the proof alone: a length has 64 bits.
            let _len = text.len();
            texts.insert(to, text)?;
        }
        None => {}
    }
    Ok(())
}
