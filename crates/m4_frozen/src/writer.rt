//! Writes the canonical text of a state, directive by directive: a short one is gathered first, and of a longer one all
//! before its text.
//!
//! Memory can run out only while the names are sorted, before the first byte is written. If a write
//! fails, the bytes written are a prefix of the text. Manual: "Frozen file format".

ghost use Rattle.std.specs.Prelude.{◌≡◌, ◌++◌, ℤ, pos, IfOk, OnOk, OnErr, [], Err, decimal};
ghost use Rattle.m4_state.specs.Device.{with_bytes, one_more, count_after, HasBegun, Puts};
ghost use Rattle.m4_state.specs.State.{IsSized};
ghost use Rattle.m4_frozen.specs.Directive as directives;
ghost use Rattle.m4_frozen.specs.Freeze as texts;
ghost use Rattle.m4_frozen.specs.WriterSteps as steps;

use crate::fault::WriteFault;
use crate::gathered::{Full, Gathered, gather_length};
use crate::items::{Form, put_stack, put_texts};
use itoa::Buffer;
use m4_state::definition::Def;
use m4_state::device::{ByteSink, DeviceFault};
use m4_state::named::NamedStack;
use m4_state::state::State;
use m4_state::transfer::{write_all, write_pieces};

/// The first two lines: a comment, and the version.
const HEADER: &[u8] = b"# m4 frozen state\nV1\n";

/// The last line.
const END_LINE: &[u8] = b"# End of frozen state file\n";

/// How many names are looked at together before they are written.
const AHEAD: usize = 32;

/// Writes the canonical text of a state. Manual: "Frozen file format".
pub fn write_frozen<W: ByteSink>(state: &State, writer: &mut W) -> Result<(), WriteFault>
    // exact writer: the canonical text, and nothing else
    ensures written { OnOk result (W.contents writer.new
        ≡ with_bytes (W.contents writer.old) (texts.freeze state.now)) }
    // exact writer: a write fault leaves a prefix of it
    ensures begun { result ≡ Err WriteFault.Write
        → HasBegun (W.contents writer.old) (W.contents writer.new) (texts.freeze state.now) }
    // exact writer: memory can run out only before the first byte
    ensures no_memory { result ≡ Err WriteFault.OutOfMemory
        → W.contents writer.new ≡ W.contents writer.old }
    // exact writer: the state is sized, so that its text loads as that state
    ensures sized { IsSized state.now }

    // safe and total: a write fault is returned only if the writer failed in this call
    ensures write_fault { result ≡ Err WriteFault.Write
        → W.failures writer.new ≡ one_more (W.failures writer.old) }
    ensures unfailed { OnOk result (W.failures writer.new ≡ W.failures writer.old) }
    ensures unasked { result ≡ Err WriteFault.OutOfMemory
        → W.failures writer.new ≡ W.failures writer.old }
{
    let pairs = state.definitions()?;
    put_frozen(state, &pairs, writer)?;
    Ok(())
}

/// Writes the header, the directives and the end line.
fn put_frozen<W: ByteSink>(
    state: &State,
    pairs: &[NamedStack],
    writer: &mut W,
) -> Result<(), DeviceFault>
    ensures puts { Puts result (W.contents writer.old) (W.contents writer.new) (steps.frozen_text state.now pairs.now) }
    ensures counted { W.failures writer.new ≡ count_after result (W.failures writer.old) }
{
    write_all(writer, HEADER)?;
    put_directives(state, pairs, writer)?;
    write_all(writer, END_LINE)
}

/// Writes the delimiters, the definitions and the diversions.
fn put_directives<W: ByteSink>(
    state: &State,
    pairs: &[NamedStack],
    writer: &mut W,
) -> Result<(), DeviceFault>
    ensures puts { Puts result (W.contents writer.old) (W.contents writer.new)
        (steps.directives_text state.now pairs.now) }
    ensures counted { W.failures writer.new ≡ count_after result (W.failures writer.old) }
{
    put_settings(state, writer)?;
    put_names(pairs, writer)?;
    put_diversions(state, writer)
}

/// Writes each pair of delimiters that is not the default.
fn put_settings<W: ByteSink>(state: &State, writer: &mut W) -> Result<(), DeviceFault>
    ensures puts { Puts result (W.contents writer.old) (W.contents writer.new) (steps.settings_text state.now) }
    ensures counted { W.failures writer.new ≡ count_after result (W.failures writer.old) }
{
    put_delimiters(b'Q', state.quotes(), (b"`", b"'"), writer)?;
    put_delimiters(b'C', state.comments(), (b"#", b"\n"), writer)
}

/// Writes the diversions that contain text, and the number of the current one.
fn put_diversions<W: ByteSink>(state: &State, writer: &mut W) -> Result<(), DeviceFault>
    ensures puts { Puts result (W.contents writer.old) (W.contents writer.new) (steps.diverted_text state.now) }
    ensures counted { W.failures writer.new ≡ count_after result (W.failures writer.old) }
{
    let last = put_texts::<Frozen, W>(state, writer)?;
    put_current(state.current(), last, writer)
}

/// Writes a pair of delimiters, unless it is the default.
fn put_delimiters<W: ByteSink>(
    letter: u8,
    pair: (&[u8], &[u8]),
    default: (&[u8], &[u8]),
    writer: &mut W,
) -> Result<(), DeviceFault>
    ensures puts { Puts result (W.contents writer.old) (W.contents writer.new)
        (steps.delimiters_text letter
        (record { begin = default.entry.0.now; end = default.entry.1.now })
        (record { begin = pair.entry.0.now; end = pair.entry.1.now })) }
    ensures counted { W.failures writer.new ≡ count_after result (W.failures writer.old) }
{
    let (begin, end) = pair;
    let (default_begin, default_end) = default;
    if begin == default_begin && end == default_end {
        return Ok(());
    }
    put_gathered(letter, begin, end, &mut Gathered::new(), writer)
}

/// Writes the definitions of the names, in their order.
fn put_names<W: ByteSink>(pairs: &[NamedStack], writer: &mut W) -> Result<(), DeviceFault>
    ensures puts { Puts result (W.contents writer.old) (W.contents writer.new) (steps.names_text pairs.now) }
    ensures counted { W.failures writer.new ≡ count_after result (W.failures writer.old) }
{
    let mut gathered = Gathered::new();
    let mut seen = 0;
    for (i, pair) in pairs.iter().enumerate() {
        if i % AHEAD == 0 {
            look_at(pairs.split_at(i).1, &mut seen);
        }
        put_stack::<Frozen, W>(pair.name(), pair.stack(), &mut gathered, writer)?;
    }
    Ok(())
}

/// Looks at the first names and at their first texts before they are written. In their order they are far
/// apart in memory: here the processor waits for many of them at once, and not for one after the other.
/// Nothing depends on what was `seen`. It is stored so that the compiler keeps the looks.
#[inline(never)]
fn look_at(pairs: &[NamedStack], seen: &mut u8) {
    let (pairs, _rest) = pairs.split_at(AHEAD.min(pairs.len()));
    for pair in pairs {
        *seen ^= first_byte(pair.name()) ^ first_byte_of_text(pair.stack());
    }
}

/// Returns the first byte, or 0.
fn first_byte(bytes: &[u8]) -> u8 {
    match bytes {
        [first, ..] => *first,
        [] => 0,
    }
}

/// Returns the first byte of the oldest definition, if that is a text, or 0.
fn first_byte_of_text(stack: &[Def]) -> u8 {
    match stack.first() {
        Some(Def::Text(text)) => first_byte(text.as_slice()),
        _ => 0,
    }
}

/// The form of a frozen file: a directive for each.
struct Frozen;

impl Form for Frozen {
    ghost definition_text = { λ name d. texts.spelling (texts.definition name d) };

    ghost diversion_text = { λ d. texts.spelling (steps.diversion d) };

    fn put_definition<W: ByteSink>(
        name: &[u8],
        definition: &Def,
        gathered: &mut Gathered,
        writer: &mut W,
    ) -> Result<(), DeviceFault> {
        match definition {
            Def::Text(text) => put_gathered(b'T', name, text.as_slice(), gathered, writer),
            Def::Builtin(builtin) => put_gathered(b'F', name, builtin.name(), gathered, writer),
            Def::Placeholder(builtin) => {
                put_gathered(b'F', name, builtin.as_slice(), gathered, writer)
            }
        }
    }

    fn put_diversion<W: ByteSink>(
        number: i32,
        text: &[u8],
        writer: &mut W,
    ) -> Result<(), DeviceFault> {
        let mut digits = Buffer::new();
        let digits = digits.format(number).as_bytes();
        let mut length = Buffer::new();
        let length = length.format(text.len()).as_bytes();
        write_pieces(writer, &[b"D", digits, b",", length, b"\n", text, b"\n"])
    }
}

/// Writes the current number, unless the last diversion has set it.
fn put_current<W: ByteSink>(current: i32, last: i32, writer: &mut W) -> Result<(), DeviceFault>
    ensures puts { Puts result (W.contents writer.old) (W.contents writer.new) (steps.current_text current last) }
    ensures counted { W.failures writer.new ≡ count_after result (W.failures writer.old) }
{
    if current == last {
        return Ok(());
    }
    Frozen::put_diversion(current, &[], writer)
}

/// Writes a letter, two lengths and two strings. What fits is gathered, and put as one piece.
fn put_gathered<W: ByteSink>(
    letter: u8,
    first: &[u8],
    second: &[u8],
    gathered: &mut Gathered,
    writer: &mut W,
) -> Result<(), DeviceFault>
    ensures puts { Puts result (W.contents writer.old) (W.contents writer.new)
        (texts.two_strings letter first.now second.now) }
    ensures counted { W.failures writer.new ≡ count_after result (W.failures writer.old) }
{
    gathered.clear();
    match gather_head(gathered, letter, first, second) {
        Ok(()) => put_second(gathered, second, writer),
        Err(_full) => put_long(letter, first, second, writer),
    }
}

/// Writes what was gathered, the second string and a newline: as one piece if there is room for all, else in three.
fn put_second<W: ByteSink>(
    gathered: &mut Gathered,
    second: &[u8],
    writer: &mut W,
) -> Result<(), DeviceFault>
    ensures puts { Puts result (W.contents writer.old) (W.contents writer.new)
        (steps.with_second gathered.old second.now) }
    ensures counted { W.failures writer.new ≡ count_after result (W.failures writer.old) }
{
    match gather_second(gathered, second) {
        Ok(()) => write_all(writer, gathered.as_slice()),
        Err(_full) => put_apart(gathered.as_slice(), second, writer),
    }
}

/// Writes what comes before the second string, that string and a newline, each by itself.
#[inline(never)]
fn put_apart<W: ByteSink>(head: &[u8], second: &[u8], writer: &mut W) -> Result<(), DeviceFault>
    ensures puts { Puts result (W.contents writer.old) (W.contents writer.new)
        (steps.with_second head.now second.now) }
    ensures counted { W.failures writer.new ≡ count_after result (W.failures writer.old) }
{
    write_all(writer, head)?;
    write_all(writer, second)?;
    write_all(writer, b"\n")
}

/// Writes a letter, two lengths and two strings in pieces.
#[inline(never)]
fn put_long<W: ByteSink>(
    letter: u8,
    first: &[u8],
    second: &[u8],
    writer: &mut W,
) -> Result<(), DeviceFault>
    ensures puts { Puts result (W.contents writer.old) (W.contents writer.new)
        (texts.two_strings letter first.now second.now) }
    ensures counted { W.failures writer.new ≡ count_after result (W.failures writer.old) }
{
    let mut first_length = Buffer::new();
    let first_length = first_length.format(first.len()).as_bytes();
    let mut second_length = Buffer::new();
    let second_length = second_length.format(second.len()).as_bytes();
    write_pieces(
        writer,
        &[
            &[letter],
            first_length,
            b",",
            second_length,
            b"\n",
            first,
            second,
            b"\n",
        ],
    )
}

/// Gathers a letter, two lengths and the first string, if there is room for them.
fn gather_head(gathered: &mut Gathered, letter: u8, first: &[u8], second: &[u8]) -> Result<(), Full>
    requires { gathered.old ≡ [] }
    ensures { OnOk result (gathered.new ≡ steps.head_text letter first.now second.now) }
{
    gathered.push(letter);
    gather_length(gathered, first.len())?;
    gathered.add(b",")?;
    gather_length(gathered, second.len())?;
    gathered.add(b"\n")?;
    gathered.add(first)
}

/// Gathers the second string and a newline, if there is room for both.
fn gather_second(gathered: &mut Gathered, second: &[u8]) -> Result<(), Full>
    ensures ok { OnOk result (gathered.new ≡ steps.with_second gathered.old second.now) }
    ensures err { OnErr result (gathered.new ≡ gathered.old) }
{
    if second.len() >= gathered.left() {
        return Err(Full);
    }
    gathered.add(second)?;
    gathered.push(b'\n');
    Ok(())
}
