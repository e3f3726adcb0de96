//! Input in blocks: what is in hand after each question to the reader, and what the bytes in hand decide.
//! Manual: "How m4 copies input to output".

ghost use Rattle.std.specs.Prelude.{◌≡◌, None, OnOk};

use super::steps::{ANGLES, Row, STARS, ask, describe_bytes, describe_count, in_hand, tried};
use crate::report::Report;
use crate::shows::shows;
use m4_input::input::Input;
use m4_state::bytes::Bytes;
use m4_state::memory::MemSource;
use std::alloc::{AllocError, Global};

static IN_HAND: [Row; 7] = input_rows! {
    PLAIN:
    "a block is in hand, and then the end", "abc", [Hand, More, Hand, More, Hand, More, Hand, Taken] =>
        "[]\nmore\n[ab]\nmore\n[abc]\nend\n[abc]\ntaken 3\n", blocks: &[2];
    "an empty file", "", [Look, More, Look] => "needs more\nend\nend\n";
    "a word may go on at the end of the bytes in hand", "abc d", [More, Look, More, Look, Hand] =>
        "more\nneeds more\nmore\nname abc\n[abc d]\n", blocks: &[3];
    "a word ends with the file", "abc", [More, Look, More, Look] => "more\nneeds more\nend\nname abc\n";
    "a byte is decided at once", "+a", [More, Look, Taken] => "more\nbyte +\ntaken 1\n", blocks: &[1];
    "pushed text joins the bytes of a later block", "b c", [Push("a"), Look, More, Look, Decide, Taken] =>
        "needs more\nmore\nneeds more\nname ab\ntaken 2\n", blocks: &[1];
    "a name is read up to the byte after it", "foo bar", [Next, Taken, Next, Taken] =>
        "name foo\ntaken 4\nbyte  \ntaken 4\n", blocks: &[1];
};

static CUT: [Row; 5] = input_rows! {
    PLAIN:
    "a begin-quote that is cut", "<x", [More, Look, More, Look] =>
        "more\nneeds more\nmore\nbyte <\n", quotes: ANGLES, blocks: &[1];
    "a begin of comments that is cut", "(*a*)", [More, Look, More, Look, Decide, Taken] =>
        "more\nneeds more\nmore\nneeds more\ncomment (*a*)\ntaken 5\n", comments: STARS, blocks: &[1];
    "an end-quote that is cut", "<<a>>b", [More, Look, More, Look] =>
        "more\nneeds more\nmore\nstring a of 5\n", quotes: ANGLES, blocks: &[4];
    "a string without an end", "\n`a", [More, Skip, Look, More, Look] =>
        "more\nall of the line\nneeds more\nend\nstring without an end\n";
    "a token over several blocks", "`a `b' c'd", [Decide, Taken] => "string a `b' c of 9\ntaken 9\n", blocks: &[1];
};

static LISTS: [Row; 4] = input_rows! {
    PLAIN:
    "no list follows at the end of the file", "f", [Next, SeesParen] => "name f\nno list\n", blocks: &[1];
    "a parenthesis that begins a comment", "f(*", [Next, SeesParen] =>
        "name f\nno list\n", comments: STARS, blocks: &[2];
    "a parenthesis in hand decides that a list follows", "f(x", [Next, SeesParen, Taken] =>
        "name f\nlist\ntaken 2\n", blocks: &[1];
    "a parenthesis that may begin a comment needs the byte after it", "f(x y", [Next, SeesParen, Taken] =>
        "name f\nlist\ntaken 3\n", comments: STARS, blocks: &[1];
};

static LINES: [Row; 6] = input_rows! {
    PLAIN:
    "a line is skipped over blocks, and none of it is kept",
        "foo bar\nbaz", [More, Skip, Hand, More, Skip, Hand, More, Skip, Hand, Line] =>
        "more\npart of the line\n[]\nmore\npart of the line\n[]\nmore\nall of the line\n[b]\nline 2\n",
        blocks: &[3];
    "a last line ends with the file", "ab", [More, Skip, More, Skip, Line, Look] =>
        "more\npart of the line\nend\nall of the line\nline 1\nend\n";
    "a line is read up to the block with its newline",
        "foo\nbar\nbaz", [SkipLine, Taken, Hand, Line, Next, Taken] =>
        "skipped\ntaken 4\n[]\nline 2\nname bar\ntaken 8\n", blocks: &[2];
    "a reader fails within a line, which was skipped", "ab", [SkipLine, Hand, Next, Line] =>
        "read fault\n[]\nread fault\nline 1\n", blocks: &[1], fails: true;
    "a reader that fails after two bytes", "ab", [More, More, More, Hand, More, Look, Taken] =>
        "more\nmore\nread fault\n[ab]\nread fault\nread fault\ntaken 2\n", blocks: &[1], fails: true;
    "a reader fails within a token, which stays in hand", "ab", [Next, Hand, Next, SeesParen, SkipLine, Taken] =>
        "read fault\n[ab]\nread fault\nread fault\nread fault\ntaken 2\n", blocks: &[1], fails: true;
};

// Tokens whose blocks are asked for until they are decided.
static TOKENS: [Row; 9] = input_rows! {
    PLAIN:
    "a string is asked for to its end", "`a `b' c'd", [More, Token, Taken, Look] =>
        "more\nasked\ntaken 9\nstring a `b' c of 9\n", blocks: &[1];
    "a string with nested quotes of two bytes", "<<a<<b>>>>c", [More, Token, Token, Taken, Look] =>
        "more\nasked\nasked\ntaken 10\nstring a<<b>> of 10\n", quotes: ANGLES, blocks: &[1];
    "a comment is asked for to its end", "#ab\nc", [More, Token, Taken, Look] =>
        "more\nasked\ntaken 4\ncomment #ab\n\n", blocks: &[1];
    "a comment whose end is cut", "(**a*)b", [More, Token, Taken, Look] =>
        "more\nasked\ntaken 6\ncomment (**a*)\n", comments: STARS, blocks: &[2];
    "a name is asked for up to the byte after it", "abc d", [More, Token, Taken, Look] =>
        "more\nasked\ntaken 4\nname abc\n", blocks: &[1];
    "no more than a block is asked for where the first token is decided, or nothing is in hand",
        "+abc", [Token, Taken, Token, Taken] => "asked\ntaken 1\nasked\ntaken 2\n", blocks: &[1];
    "a string that the file does not end", "`ab", [More, Token, Hand, Look] =>
        "more\nasked\n[`ab]\nstring without an end\n", blocks: &[1];
    "a reader fails within a string, which stays in hand", "`ab", [More, Token, Hand, Token] =>
        "more\nread fault\n[`ab]\nread fault\n", blocks: &[1], fails: true;
    "pushed text begins a name that goes on in the file", "cd e", [Push("ab"), Token, Taken, Look] =>
        "asked\ntaken 3\nname abcd\n", blocks: &[1];
};

// Texts whose first token takes all of them but the last byte.
static LONG: [Row; 4] = input_rows! {
    BLOCKED:
    "a string", "`a `b\nc' d'+", [Decide] => "string a `b\nc' d of 11\n";
    "a comment", "# a `b c\n+", [Decide] => "comment # a `b c\n\n";
    "a name", "abc_123+", [Decide] => "name abc_123\n";
    "a byte", "+", [Decide] => "byte +\n";
};

#[test]
fn blocks_and_what_they_decide(rt: HostRuntime) {
    tried(&rt, rt.alloc(), &IN_HAND);
    tried(&rt, rt.alloc(), &CUT);
    tried(&rt, rt.alloc(), &LISTS);
}

#[test]
fn lines_faults_and_tokens_over_blocks(rt: HostRuntime) {
    tried(&rt, rt.alloc(), &LINES);
    tried(&rt, rt.alloc(), &TOKENS);
    tried(&rt, rt.alloc(), &LONG);
}

// Returns a text of 300,000 bytes.
fn long_text(alloc: Global) -> Result<Vec<u8>, AllocError> {
    let mut text = Vec::new(alloc);
    for _ in 0..30_000 {
        text.extend_from_slice(b"abcdefghi\n")?;
    }
    Ok(text)
}

// Takes all bytes in hand but seven.
fn take_but_seven(alloc: Global, input: &mut Input) -> Result<(), AllocError>
    ensures { OnOk result (input.new.pending.definition ≡ None) }
{
    let len = in_hand(alloc, input)?.len().saturating_sub(7);
    input.consume(len, 0);
    Ok(())
}

// Returns whether these bytes are in hand.
fn is_hand(alloc: Global, input: &Input, bytes: Option<&[u8]>) -> bool {
    match (in_hand(alloc, input), bytes) {
        (Ok(hand), Some(bytes)) => hand.as_slice() == bytes,
        _ => false,
    }
}

// Reads a block, and takes all but seven bytes. Returns whether it came, and just the bytes of the text from this
// place on were in hand.
fn is_right(
    alloc: Global,
    text: &[u8],
    input: &mut Input,
    reader: &mut MemSource<'_>,
    at: usize,
) -> bool {
    let came = ask(input, reader, None).is_ok();
    let held = is_hand(alloc, input, text.get(at..reader.taken()));
    let left = take_but_seven(alloc, input).is_ok();
    came & held & left
}

// Reads a text in blocks, and keeps seven bytes at each. Counts the blocks after which other bytes are in
// hand than these seven and the block.
fn count_wrong(alloc: Global, text: &[u8], input: &mut Input) -> usize {
    let mut reader = MemSource::new(text, 10_000, false);
    let mut wrong = 0usize;
    let mut at = 0usize;
    for _ in 0..70 {
        if !is_right(alloc, text, input, &mut reader, at) {
            wrong = wrong.saturating_add(1);
        }
        at = reader.taken().saturating_sub(7);
    }
    wrong
}

// Adds the wrong blocks of a text, the line, and the bytes in hand.
fn walk(alloc: Global, text: &[u8], name: Bytes, report: &mut Report) {
    let mut input = Input::file(alloc, name);
    describe_count(b"wrong ", count_wrong(alloc, text, &mut input), report);
    describe_count(b"line ", input.line() as usize, report);
    describe_bytes(in_hand(alloc, &input), report);
}

// Reports a long text.
fn walked(alloc: Global) -> Result<Vec<u8>, AllocError> {
    let text = long_text(alloc)?;
    let name = Bytes::from_slice(alloc, b"a.m4")?;
    let mut report = Report::new(alloc);
    walk(alloc, &text, name, &mut report);
    report.text()
}

// 70 blocks of 4,096 bytes are 286,720; seven of them are left, and a newline is the 286,720th
#[test]
fn long_file_in_blocks(rt: HostRuntime) {
    shows(
        &rt,
        "a long file in blocks",
        b"wrong 0\nline 28672\n[defghi\n]\n",
        walked(rt.alloc()),
    );
}
