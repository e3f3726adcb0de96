//! The inspector's lines: the contents of a frozen file, for people to read.
//!
//! A short line is gathered, and any other is written part by part, so no more of the listing is buffered. Memory can
//! run out only while the names are sorted, before the first byte is written.

ghost use Rattle.std.specs.Prelude.{◌≡◌, ◌<◌, OnOk, Err, []};
ghost use Rattle.std.specs.List.{flat_map, list_all};
ghost use Rattle.m4_state.specs.Device.{with_bytes, one_more, count_after, HasBegun, Puts};
ghost use Rattle.m4_frozen.specs.InspectorSteps as steps;
ghost use Rattle.m4_frozen.specs.Listing as lines;

use crate::fault::WriteFault;
use crate::gathered::{Full, Gathered, gather_length};
use crate::items::{Form, put_stack, put_texts};
use crate::loading::Loaded;
use itoa::Buffer;
use m4_state::definition::Def;
use m4_state::device::{ByteSink, DeviceFault};
use m4_state::named::NamedStack;
use m4_state::state::State;
use m4_state::transfer::{write_all, write_pieces};

/// Writes a line for each item of a frozen file: the delimiters, the definitions, the diversions,
/// the current number, the length of the issued text.
pub fn list<W: ByteSink>(loaded: &Loaded, writer: &mut W) -> Result<(), WriteFault>
    // exact writer: the lines, and nothing else
    ensures written { OnOk result (W.contents writer.new
        ≡ with_bytes (W.contents writer.old) (lines.listing loaded.now)) }
    // exact writer: a write fault leaves a prefix of them
    ensures begun { result ≡ Err WriteFault.Write
        → HasBegun (W.contents writer.old) (W.contents writer.new) (lines.listing loaded.now) }
    // exact writer: memory can run out only before the first byte
    ensures no_memory { result ≡ Err WriteFault.OutOfMemory
        → W.contents writer.new ≡ W.contents writer.old }

    // safe and total: a write fault is returned only if the writer failed in this call
    ensures write_fault { result ≡ Err WriteFault.Write
        → W.failures writer.new ≡ one_more (W.failures writer.old) }
    ensures unfailed { OnOk result (W.failures writer.new ≡ W.failures writer.old) }
    ensures unasked { result ≡ Err WriteFault.OutOfMemory
        → W.failures writer.new ≡ W.failures writer.old }
{
    let pairs = loaded.state.definitions()?;
    put_listing(loaded, &pairs, writer)?;
    Ok(())
}

/// Writes the delimiters, the definitions and the diversions.
fn put_listing<W: ByteSink>(
    loaded: &Loaded,
    pairs: &[NamedStack],
    writer: &mut W,
) -> Result<(), DeviceFault>
    ensures puts { Puts result (W.contents writer.old) (W.contents writer.new)
        (steps.listing_text loaded.now pairs.now) }
    ensures counted { W.failures writer.new ≡ count_after result (W.failures writer.old) }
{
    put_settings(&loaded.state, writer)?;
    put_names(pairs, writer)?;
    put_diverted(loaded, writer)
}

/// Writes both pairs of delimiters.
fn put_settings<W: ByteSink>(state: &State, writer: &mut W) -> Result<(), DeviceFault>
    ensures puts { Puts result (W.contents writer.old) (W.contents writer.new) (steps.settings_lines state.now) }
    ensures counted { W.failures writer.new ≡ count_after result (W.failures writer.old) }
{
    let (begin, end) = state.quotes();
    put_delimiters(b"quotes ", begin, end, writer)?;
    let (begin, end) = state.comments();
    put_delimiters(b"comments ", begin, end, writer)
}

/// Writes the begin and the end of a pair of delimiters, or that the pair is disabled.
fn put_delimiters<W: ByteSink>(
    word: &[u8],
    begin: &[u8],
    end: &[u8],
    writer: &mut W,
) -> Result<(), DeviceFault>
    ensures puts { Puts result (W.contents writer.old) (W.contents writer.new)
        (steps.begin_end_line word.now begin.now end.now) }
    ensures counted { W.failures writer.new ≡ count_after result (W.failures writer.old) }
{
    if begin.is_empty() {
        return write_pieces(writer, &[word, b"none\n"]);
    }
    put_two_words(word, begin, end, writer)
}

/// Writes the definitions of the names, in their order.
fn put_names<W: ByteSink>(pairs: &[NamedStack], writer: &mut W) -> Result<(), DeviceFault>
    ensures puts { Puts result (W.contents writer.old) (W.contents writer.new) (steps.names_lines pairs.now) }
    ensures counted { W.failures writer.new ≡ count_after result (W.failures writer.old) }
{
    let mut gathered = Gathered::new();
    for pair in pairs {
        put_stack::<Listed, W>(pair.name(), pair.stack(), &mut gathered, writer)?;
    }
    Ok(())
}

/// The form of the listing: a line for each.
struct Listed;

impl Form for Listed {
    ghost definition_text = { lines.definition_line };

    ghost diversion_text = { lines.diversion_line };

    fn put_definition<W: ByteSink>(
        name: &[u8],
        definition: &Def,
        gathered: &mut Gathered,
        writer: &mut W,
    ) -> Result<(), DeviceFault> {
        match definition {
            Def::Text(text) => put_counted(name, text.as_slice(), gathered, writer),
            Def::Builtin(builtin) => put_two_words(b"builtin ", name, builtin.name(), writer),
            Def::Placeholder(builtin) => {
                put_two_words(b"placeholder ", name, builtin.as_slice(), writer)
            }
        }
    }

    fn put_diversion<W: ByteSink>(
        number: i32,
        text: &[u8],
        writer: &mut W,
    ) -> Result<(), DeviceFault> {
        let mut digits = Buffer::new();
        let digits = digits.format(number).as_bytes();
        let mut length = Buffer::new();
        let length = length.format(text.len()).as_bytes();
        write_pieces(writer, &[b"diversion ", digits, b" ", length, b"\n"])
    }
}

/// Writes a name and the length of its text. Most are gathered, and put as one piece.
fn put_counted<W: ByteSink>(
    name: &[u8],
    text: &[u8],
    gathered: &mut Gathered,
    writer: &mut W,
) -> Result<(), DeviceFault>
    ensures puts { Puts result (W.contents writer.old) (W.contents writer.new)
        (steps.counted_line name.now text.now) }
    ensures counted { W.failures writer.new ≡ count_after result (W.failures writer.old) }
{
    gathered.clear();
    match gather_counted(gathered, name, text) {
        Ok(()) => write_all(writer, gathered.as_slice()),
        Err(_not) => put_shown_counted(name, text, writer),
    }
}

/// Gathers the same, if the name is shown as it is and there is room.
fn gather_counted(gathered: &mut Gathered, name: &[u8], text: &[u8]) -> Result<(), Full>
    requires { gathered.old ≡ [] }
    ensures { OnOk result (gathered.new ≡ steps.counted_line name.now text.now) }
{
    if name.is_empty() || !are_plain(name) {
        return Err(Full);
    }
    gathered.add(b"text ")?;
    gathered.add(name)?;
    gathered.add(b" ")?;
    gather_length(gathered, text.len())?;
    gathered.add(b"\n")
}

/// Writes the same part by part, for any name.
#[inline(never)]
fn put_shown_counted<W: ByteSink>(
    name: &[u8],
    text: &[u8],
    writer: &mut W,
) -> Result<(), DeviceFault>
    ensures puts { Puts result (W.contents writer.old) (W.contents writer.new)
        (steps.counted_line name.now text.now) }
    ensures counted { W.failures writer.new ≡ count_after result (W.failures writer.old) }
{
    put_word(b"text ", name, writer)?;
    put_length(text, writer)
}

/// Writes the length of a text, and ends the line.
fn put_length<W: ByteSink>(text: &[u8], writer: &mut W) -> Result<(), DeviceFault>
    ensures puts { Puts result (W.contents writer.old) (W.contents writer.new) (steps.length_end text.now) }
    ensures counted { W.failures writer.new ≡ count_after result (W.failures writer.old) }
{
    let mut length = Buffer::new();
    let length = length.format(text.len()).as_bytes();
    write_pieces(writer, &[b" ", length, b"\n"])
}

/// Writes the diversions that contain text, the current number, and the length of the issued text.
fn put_diverted<W: ByteSink>(loaded: &Loaded, writer: &mut W) -> Result<(), DeviceFault>
    ensures puts { Puts result (W.contents writer.old) (W.contents writer.new) (steps.diverted_lines loaded.now) }
    ensures counted { W.failures writer.new ≡ count_after result (W.failures writer.old) }
{
    put_texts::<Listed, W>(&loaded.state, writer)?;
    put_current(&loaded.state, writer)?;
    put_issued(loaded.issued.as_slice(), writer)
}

/// Writes the current number.
fn put_current<W: ByteSink>(state: &State, writer: &mut W) -> Result<(), DeviceFault>
    ensures puts { Puts result (W.contents writer.old) (W.contents writer.new) (steps.current_line state.now.current) }
    ensures counted { W.failures writer.new ≡ count_after result (W.failures writer.old) }
{
    let mut digits = Buffer::new();
    let digits = digits.format(state.current()).as_bytes();
    write_pieces(writer, &[b"current ", digits, b"\n"])
}

/// Writes the length of the issued text, if there is any.
fn put_issued<W: ByteSink>(issued: &[u8], writer: &mut W) -> Result<(), DeviceFault>
    ensures puts { Puts result (W.contents writer.old) (W.contents writer.new) (lines.issued_line issued.now) }
    ensures counted { W.failures writer.new ≡ count_after result (W.failures writer.old) }
{
    if issued.is_empty() {
        return Ok(());
    }
    let mut length = Buffer::new();
    let length = length.format(issued.len()).as_bytes();
    write_pieces(writer, &[b"issued ", length, b"\n"])
}

/// Writes a word and two strings.
fn put_two_words<W: ByteSink>(
    word: &[u8],
    first: &[u8],
    second: &[u8],
    writer: &mut W,
) -> Result<(), DeviceFault>
    ensures puts { Puts result (W.contents writer.old) (W.contents writer.new)
        (steps.two_words_line word.now first.now second.now) }
    ensures counted { W.failures writer.new ≡ count_after result (W.failures writer.old) }
{
    put_word(word, first, writer)?;
    put_word(b" ", second, writer)?;
    write_all(writer, b"\n")
}

/// Writes a word and a string; every byte of the string is visible.
fn put_word<W: ByteSink>(word: &[u8], bytes: &[u8], writer: &mut W) -> Result<(), DeviceFault>
    ensures puts { Puts result (W.contents writer.old) (W.contents writer.new) (steps.word_line word.now bytes.now) }
    ensures counted { W.failures writer.new ≡ count_after result (W.failures writer.old) }
{
    write_all(writer, word)?;
    if bytes.is_empty() {
        return write_all(writer, b"\\.");
    }
    put_shown(bytes, writer)
}

/// Writes each byte as it is, or as a backslash and two hexadecimal digits. Most names are written
/// as they are, in one call.
fn put_shown<W: ByteSink>(bytes: &[u8], writer: &mut W) -> Result<(), DeviceFault>
    ensures puts { Puts result (W.contents writer.old) (W.contents writer.new) (flat_map lines.show_byte bytes.now) }
    ensures counted { W.failures writer.new ≡ count_after result (W.failures writer.old) }
{
    if are_plain(bytes) {
        return write_all(writer, bytes);
    }
    put_each(bytes, writer)
}

/// Writes the same, byte by byte.
fn put_each<W: ByteSink>(bytes: &[u8], writer: &mut W) -> Result<(), DeviceFault>
    ensures puts { Puts result (W.contents writer.old) (W.contents writer.new) (flat_map lines.show_byte bytes.now) }
    ensures counted { W.failures writer.new ≡ count_after result (W.failures writer.old) }
{
    for byte in bytes {
        put_byte(*byte, writer)?;
    }
    Ok(())
}

/// Returns whether every byte is shown as it is.
fn are_plain(bytes: &[u8]) -> bool
    ensures { result ≡ list_all lines.is_plain bytes.now }
{
    bytes.iter().all(|&byte| is_plain(byte))
}

/// Returns whether a byte is shown as it is.
fn is_plain(byte: u8) -> bool
    ensures { result ≡ lines.is_plain byte }
{
    byte >= 33 && byte <= 126 && byte != b'\\'
}

/// Writes one byte as it is, or as a backslash and two hexadecimal digits.
fn put_byte<W: ByteSink>(byte: u8, writer: &mut W) -> Result<(), DeviceFault>
    ensures puts { Puts result (W.contents writer.old) (W.contents writer.new) (lines.show_byte byte) }
    ensures counted { W.failures writer.new ≡ count_after result (W.failures writer.old) }
{
    if is_plain(byte) {
        return write_all(writer, &[byte]);
    }
    write_all(writer, &[b'\\', hex_digit(byte / 16), hex_digit(byte % 16)])
}

/// Returns the character of a digit below 16, in lower case.
fn hex_digit(digit: u8) -> u8
    requires { digit < 16 }
    ensures { result ≡ lines.hex_digit digit }
{
    if digit < 10 {
        b'0' + digit
    } else {
        b'a' - 10 + digit
    }
}
