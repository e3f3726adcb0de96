//! The calls of each crate where a request for memory is refused: what they leave is as it was before.
//!
//! What a call is given is made first; where that is refused, the call is passed over, and so it is where what it left
//! could not be compared. `tests/program/refused_growths` refuses each request in turn, and reads how many calls were
//! refused.

ghost use Rattle.std.specs.Prelude.{IfSome};
ghost use Rattle.m4_state.specs.Definition.{IsDefinition};

use crate::builtins::text_call_of;
use m4_builtins::act::act;
use m4_builtins::effect::Effect;
use m4_builtins::fault::BuiltinFault;
use m4_builtins::place::Place;
use m4_builtins::substitute::substitute;
use m4_frozen::fault::{FrozenFault, FrozenKind, WriteFault};
use m4_frozen::inspector::list;
use m4_frozen::reading::read_frozen;
use m4_frozen::writer::write_frozen;
use m4_input::delims::Delims;
use m4_input::fault::InputFault;
use m4_input::input::Input;
use m4_input::pushed::Pushed;
use m4_input::token::Token;
use m4_state::builtin::Builtin;
use m4_state::bytes::Bytes;
use m4_state::definition::Def;
use m4_state::fault::StateFault;
use m4_state::memory::{MemSink, MemSource};
use m4_state::state::State;
use std::alloc::{AllocError, Global};
use std::process::Abort;

// A name and texts that are too long to be held in place.
const NAME: &str = "a_name_of_more_than_thirty_letters";

const LONG_NAME: &[u8] = b"a_name_of_more_than_thirty_letters ";

const JOINED: &[u8] = b"a_name_of_more_than_thirty_lettersfile";

const FIRST: &str = "the text of its first definition, of more than thirty bytes";

const SECOND: &str = "the text of its second definition, of more than thirty bytes";

const OTHER: &str = "another_name_of_more_than_thirty_letters";

const FILE: &str = "a_file_of_more_than_thirty_letters.m4";

const WARNING: &[u8] = b"m4:a_file_of_more_than_thirty_letters.m4:1: Warning: ";

const REST: &[u8] = b"text of its first definition, of more than thirty bytes";

// A state with something in each of its parts: delimiters that are too long to be held in place; a name with two
// definitions, and a builtin; and two diversions.
const PREPARED: &[u8] = b"V1\nQ59,60\nthe text of its first definition, of more than thirty bytes\
    the text of its second definition, of more than thirty bytes\n\
    C59,60\nthe text of its first definition, of more than thirty bytes\
    the text of its second definition, of more than thirty bytes\n\
    T34,59\na_name_of_more_than_thirty_letters\
    the text of its first definition, of more than thirty bytes\n\
    T34,60\na_name_of_more_than_thirty_letters\
    the text of its second definition, of more than thirty bytes\n\
    F3,5\ncutshift\nD1,59\nthe text of its first definition, of more than thirty bytes\n\
    D3,60\nthe text of its second definition, of more than thirty bytes\n";

// A state with a name, and with text in a diversion that is not the current one.
const NAMED: &[u8] = b"V1\nT34,59\na_name_of_more_than_thirty_letters\
    the text of its first definition, of more than thirty bytes\n\
    D1,59\nthe text of its first definition, of more than thirty bytes\nD0,0\n\n";

const FROZEN: &[u8] = b"V1\nT2,3\nabcde\nD2,4\ntwo\n\n";

const CANONICAL: &[u8] =
    b"# m4 frozen state\nV1\nT2,3\nabcde\nD2,4\ntwo\n\n# End of frozen state file\n";

const LISTED: &[u8] = b"quotes ` '\ncomments # \\0a\ntext ab 3\ndiversion 2 4\ncurrent 2\n";

/// Whether a call was refused and left what was there, or was done and left its result. None if what it is given could
/// not be made.
type Outcome = Option<Left>;

/// What a call left.
#[derive(Clone, Copy)]
enum Left {
    /// What was there: the call was refused.
    Before,
    /// Its result.
    After,
    /// Anything else.
    Wrong,
}

/// Returns what a call left, by whether it was refused and by whether each is there.
fn judged(refused: bool, before: bool, after: bool) -> Left {
    match (refused, before, after) {
        (true, true, false) => Left::Before,
        (false, false, true) => Left::After,
        _ => Left::Wrong,
    }
}

/// Ends the test if a call left anything else. Returns how many calls were refused: one or none.
fn judge(rt: &impl Abort, name: &str, outcome: Outcome) -> u32 {
    match outcome {
        Some(Left::Before) => 1,
        Some(Left::Wrong) => panic!(rt; "{name}: neither what was there nor the result"),
        Some(Left::After) | None => 0,
    }
}

/// Judges each call, and prints how many were refused.
fn count(rt: &(impl Abort + Print), outcomes: &[(&str, Outcome)]) {
    let mut refused = 0u32;
    for &(name, outcome) in outcomes {
        refused = refused.saturating_add(judge(rt, name, outcome));
    }
    let _printed = println!(rt; "{refused} broke off");
}

// Makes a definition that is a text.
fn text_of(alloc: Global, text: &[u8]) -> Option<Def>
    ensures { IfSome result IsDefinition }
{
    match Bytes::from_slice(alloc, text) {
        Ok(bytes) => Some(Def::Text(bytes)),
        Err(AllocError) => None,
    }
}

// Loads the state of a frozen file.
fn state_of(alloc: Global, file: &[u8]) -> Option<State> {
    let mut reader = MemSource::new(file, 4096, false);
    let (state, _issued) = read_frozen(alloc, &mut reader).ok()?.into_parts();
    Some(state)
}

// Returns the state with something in each of its parts, where this number is current.
fn prepared(alloc: Global, current: i32) -> Option<State> {
    let mut state = state_of(alloc, PREPARED)?;
    state.divert(current);
    Some(state)
}

// Sets quotes or comment delimiters that are too long to be held in place, in this order or the other one. Returns
// whether that is refused; none if they could not be made.
fn set_long(alloc: Global, state: &mut State, quotes: bool, turned: bool) -> Option<bool> {
    let (begin, end) = long_pair(turned);
    let begin = Bytes::from_slice(alloc, begin).ok()?;
    let end = Bytes::from_slice(alloc, end).ok()?;
    Some(if quotes {
        state.set_quotes(begin, end).is_err()
    } else {
        state.set_comments(begin, end).is_err()
    })
}

fn long_pair(turned: bool) -> (&'static [u8], &'static [u8]) {
    if turned {
        (SECOND.as_bytes(), FIRST.as_bytes())
    } else {
        (FIRST.as_bytes(), SECOND.as_bytes())
    }
}

// Returns whether two states have one record: one canonical text, which has all of it. None if it could not be written.
fn are_same(alloc: Global, one: &State, other: &State) -> Option<bool> {
    let (mut text, mut wanted) = (writer(alloc)?, writer(alloc)?);
    write_frozen(one, &mut text).ok()?;
    write_frozen(other, &mut wanted).ok()?;
    Some(text.written() == wanted.written())
}

// Returns a writer with enough room for each text.
fn writer(alloc: Global) -> Option<MemSink> {
    MemSink::new(alloc, 4096, 7).ok()
}

// A call that changes a state.
#[derive(Clone, Copy)]
enum Change {
    // Defines a name that has no definition.
    Define,
    // Pushes a third definition.
    Push,
    // Undiverts text into another diversion, or to the output.
    Undivert,
    Issue,
    // Adds text to a diversion that has none.
    Append,
    Quotes,
    Comments,
}

// Makes a call, and returns whether it is refused; none if what it is given could not be made.
fn make(alloc: Global, state: &mut State, change: Change) -> Option<bool> {
    match change {
        Change::Define => {
            let name = Bytes::from_slice(alloc, OTHER.as_bytes()).ok()?;
            let text = text_of(alloc, FIRST.as_bytes())?;
            Some(state.define(name, text).is_err())
        }
        Change::Push => {
            let name = Bytes::from_slice(alloc, NAME.as_bytes()).ok()?;
            let text = text_of(alloc, FIRST.as_bytes())?;
            Some(state.push(name, text).is_err())
        }
        Change::Undivert => Some(state.undivert(1).is_err()),
        Change::Issue => match state.undivert(1) {
            Ok(Some(text)) => Some(text.as_slice() != FIRST.as_bytes()),
            Ok(None) => None,
            Err(_) => Some(true),
        },
        Change::Append => Some(state.append(FIRST.as_bytes()).is_err()),
        Change::Quotes => set_long(alloc, state, true, true),
        Change::Comments => set_long(alloc, state, false, true),
    }
}

// Returns whether a state has what a call was to leave.
fn is_made(state: &State, change: Change) -> bool {
    match change {
        Change::Define => are_texts(state.stack(OTHER.as_bytes()), &[FIRST.as_bytes()]),
        Change::Push => are_texts(
            state.stack(NAME.as_bytes()),
            &[FIRST.as_bytes(), SECOND.as_bytes(), FIRST.as_bytes()],
        ),
        Change::Undivert => state.diversion(1).is_empty() && state.diversion(2) == FIRST.as_bytes(),
        Change::Issue => state.diversion(1).is_empty() && state.diversion(2).is_empty(),
        Change::Append => state.diversion(2) == FIRST.as_bytes(),
        Change::Quotes => state.quotes() == long_pair(true),
        Change::Comments => state.comments() == long_pair(true),
    }
}

// Returns whether these definitions are these texts.
fn are_texts(definitions: &[Def], texts: &[&[u8]]) -> bool {
    let mut equal = definitions.len() == texts.len();
    for (one, text) in definitions.iter().zip(texts.iter()) {
        equal = equal && matches!(one, Def::Text(found) if found.as_slice() == *text);
    }
    equal
}

// Makes a call on a state where this number is current. A refusal leaves the whole record.
fn changed(alloc: Global, change: Change, current: i32) -> Outcome {
    let mut state = prepared(alloc, current)?;
    let twin = prepared(alloc, current)?;
    let refused = make(alloc, &mut state, change)?;
    let same = are_same(alloc, &state, &twin)?;
    Some(judged(refused, same, is_made(&state, change)))
}

// Lists the names. A refusal changes no state, and leaves no list.
fn named(alloc: Global) -> Outcome {
    let (state, twin) = (prepared(alloc, 0)?, prepared(alloc, 0)?);
    let names = state.names();
    let stays = are_same(alloc, &state, &twin)?;
    match names {
        Ok(found) => match found.as_slice() {
            [first, second] => {
                let names = (first.as_slice(), second.as_slice());
                let found = names == (NAME.as_bytes(), b"cut".as_slice());
                Some(judged(false, false, stays && found))
            }
            _ => Some(Left::Wrong),
        },
        Err(_) => Some(judged(true, stays, false)),
    }
}

// Makes the fresh state, with prefixes.
fn fresh(alloc: Global) -> Outcome {
    match State::fresh(alloc, true) {
        Ok(state) => {
            let found = state.stack(b"m4_define").len() == 1 && state.stack(b"define").is_empty();
            Some(judged(false, false, found && state.current() == 0))
        }
        Err(StateFault::OutOfMemory) => Some(Left::Before),
    }
}

// Judges bytes that a call returned. What it was given has to stay.
fn made(answer: Result<Bytes, AllocError>, stays: bool, wanted: &[u8]) -> Outcome {
    Some(match answer {
        Ok(bytes) => judged(false, false, stays && bytes.as_slice() == wanted),
        Err(AllocError) => judged(true, stays, false),
    })
}

// Makes bytes of a buffer.
fn kept(alloc: Global) -> Outcome {
    let buffer = Vec::from_slice(alloc, FIRST.as_bytes()).ok()?;
    made(Bytes::from_vec(buffer), true, FIRST.as_bytes())
}

// Shares bytes, or a part of them.
fn shared(alloc: Global, part: bool) -> Outcome {
    let bytes = Bytes::from_slice(alloc, FIRST.as_bytes()).ok()?;
    let (answer, wanted) = if part {
        (part_of(&bytes), REST)
    } else {
        (bytes.share(), FIRST.as_bytes())
    };
    made(answer, bytes.as_slice() == FIRST.as_bytes(), wanted)
}

// Returns all but the first four bytes, or nothing if there are not so many.
fn part_of(bytes: &Bytes) -> Result<Bytes, AllocError> {
    let len = bytes.as_slice().len();
    if len < 4 {
        return Ok(Bytes::empty());
    }
    bytes.part(4, len - 4)
}

#[test]
fn bytes_stay(rt: HostRuntime) {
    let alloc = rt.alloc();
    let copied = Bytes::from_slice(alloc, FIRST.as_bytes());
    count(
        &rt,
        &[
            ("from_slice", made(copied, true, FIRST.as_bytes())),
            ("from_vec", kept(alloc)),
            ("share", shared(alloc, false)),
            ("part", shared(alloc, true)),
        ],
    );
}

#[test]
fn states_stay(rt: HostRuntime) {
    let alloc = rt.alloc();
    count(
        &rt,
        &[
            ("define", changed(alloc, Change::Define, 0)),
            ("push", changed(alloc, Change::Push, 0)),
            ("undivert", changed(alloc, Change::Undivert, 2)),
            ("undivert to the output", changed(alloc, Change::Issue, 0)),
            ("append", changed(alloc, Change::Append, 2)),
            ("set_quotes", changed(alloc, Change::Quotes, 0)),
            ("set_comments", changed(alloc, Change::Comments, 0)),
            ("names", named(alloc)),
            ("fresh", fresh(alloc)),
        ],
    );
}

// Loads a frozen file. A refusal has no place.
fn loaded(alloc: Global) -> Outcome {
    let mut reader = MemSource::new(FROZEN, 4096, false);
    match read_frozen(alloc, &mut reader) {
        Ok(_) => Some(Left::After),
        Err(
            FrozenFault {
                kind: FrozenKind::OutOfMemory,
                offset: 0,
            },
        ) => Some(Left::Before),
        Err(_) => Some(Left::Wrong),
    }
}

// Returns what a writer has after a text was to be written.
fn written(answer: Result<(), WriteFault>, writer: &MemSink, text: &[u8]) -> Left {
    let none = writer.written().is_empty();
    match answer {
        Ok(()) => judged(false, none, writer.written() == text),
        Err(WriteFault::OutOfMemory) => judged(true, none, false),
        Err(WriteFault::Write) => Left::Wrong,
    }
}

// Writes the canonical text of a state, or what a frozen file contains.
fn put(alloc: Global, lists: bool) -> Outcome {
    let mut reader = MemSource::new(FROZEN, 4096, false);
    let loaded = read_frozen(alloc, &mut reader).ok()?;
    let mut writer = writer(alloc)?;
    if lists {
        let answer = list(&loaded, &mut writer);
        return Some(written(answer, &writer, LISTED));
    }
    let (state, _issued) = loaded.into_parts();
    let answer = write_frozen(&state, &mut writer);
    Some(written(answer, &writer, CANONICAL))
}

#[test]
fn frozen_texts_do_not_begin(rt: HostRuntime) {
    let alloc = rt.alloc();
    count(
        &rt,
        &[
            ("read_frozen", loaded(alloc)),
            ("write_frozen", put(alloc, false)),
            ("list", put(alloc, true)),
        ],
    );
}

// Pushes a text in front of a file. If that is refused, the file's first token is the next one.
fn put_in_front(alloc: Global) -> Outcome {
    let state = State::empty(alloc).ok()?;
    let mut input = Input::file(alloc, Bytes::from_slice(alloc, b"a.m4").ok()?);
    let mut reader = MemSource::new(b"file ", 4096, false);
    let text = Bytes::from_slice(alloc, NAME.as_bytes()).ok()?;
    let refused = input.push_front(Pushed::Text(text)).is_err();
    let wanted: &[u8] = if refused { b"file" } else { JOINED };
    let found = match input.next(&mut reader, &Delims::of(&state)).ok()? {
        Token::Name(found) => found.as_slice() == wanted,
        _ => false,
    };
    Some(judged(refused, refused && found, !refused && found))
}

// Returns whether a call failed by want of memory.
fn is_refused<T: Drop>(answer: Result<T, InputFault>) -> bool {
    matches!(answer, Err(InputFault::OutOfMemory))
}

// Returns whether each call that can fail does so by want of memory.
fn has_stopped(input: &mut Input, reader: &mut MemSource<'_>, delims: &Delims<'_>) -> bool {
    let next = is_refused(input.next(reader, delims));
    let listed = is_refused(input.sees_paren(reader, delims));
    let skipped = is_refused(input.skip_line(reader));
    let _no_definition = input.take_definition();
    let pushed = is_refused(input.push_front(Pushed::Text(Bytes::empty())));
    next && listed && skipped && pushed
}

// A call that reads a file.
#[derive(Clone, Copy)]
enum Reading {
    Next,
    SkipLine,
    SeesParen,
}

// Makes a call that reads a block. Returns whether it finds a long name, skips the line before a list, or finds a list.
fn is_found(
    input: &mut Input,
    reader: &mut MemSource<'_>,
    delims: &Delims<'_>,
    call: Reading,
) -> Result<bool, InputFault> {
    match call {
        Reading::Next => match input.next(reader, delims) {
            Ok(Token::Name(found)) => Ok(found.as_slice() == NAME.as_bytes()),
            Ok(_) => Ok(false),
            Err(fault) => Err(fault),
        },
        Reading::SkipLine => {
            input.skip_line(reader)?;
            input.sees_paren(reader, delims)
        }
        Reading::SeesParen => input.sees_paren(reader, delims),
    }
}

// Makes a call on a file. If it is refused, each later call is.
fn reads(alloc: Global, call: Reading, file: &[u8]) -> Outcome {
    let state = State::empty(alloc).ok()?;
    let delims = Delims::of(&state);
    let mut input = Input::file(alloc, Bytes::from_slice(alloc, b"a.m4").ok()?);
    let mut reader = MemSource::new(file, 4096, false);
    Some(match is_found(&mut input, &mut reader, &delims, call) {
        Ok(found) => judged(false, false, found),
        Err(InputFault::OutOfMemory) => {
            judged(true, has_stopped(&mut input, &mut reader, &delims), false)
        }
        Err(_) => Left::Wrong,
    })
}

#[test]
fn inputs_stay_or_stop(rt: HostRuntime) {
    let alloc = rt.alloc();
    count(
        &rt,
        &[
            ("push_front", put_in_front(alloc)),
            ("next", reads(alloc, Reading::Next, LONG_NAME)),
            ("skip_line", reads(alloc, Reading::SkipLine, b"line\n(")),
            ("sees_paren", reads(alloc, Reading::SeesParen, b"(")),
        ],
    );
}

// What a call of a builtin leaves.
#[derive(Clone, Copy)]
enum Leaves {
    // A text that is pushed, the output, or a text that is saved.
    Pushes(&'static str),
    Outputs(&'static str),
    Saves(&'static str),
    // Messages, or the text of one warning.
    Prints(&'static str),
    Warns(&'static str),
    // The newest definition of the name.
    Top(&'static str),
    // The first text and the second one as quotes, or as comment delimiters.
    Quotes,
    Comments,
}

// A builtin, its arguments, and what its call leaves, among others.
type Called = (&'static str, &'static [&'static str], Leaves);

static DEFINING: [Called; 10] = rows! {
    "define", &[NAME, SECOND] => Leaves::Top(SECOND);
    "pushdef", &[NAME, SECOND] => Leaves::Top(SECOND);
    "undefine", &[] => Leaves::Warns("too few arguments to builtin `undefine'");
    "popdef", &[] => Leaves::Warns("too few arguments to builtin `popdef'");
    "defn", &[NAME] => Leaves::Pushes("`the text of its first definition, of more than thirty bytes'");
    "indir", &[NAME] => Leaves::Pushes(FIRST);
    "builtin", &["shift", "a", FIRST] =>
        Leaves::Pushes("`the text of its first definition, of more than thirty bytes'");
    "ifdef", &[NAME, SECOND] => Leaves::Pushes(SECOND);
    "ifelse", &["a", "a", SECOND] => Leaves::Pushes(SECOND);
    "shift", &["a", SECOND] => Leaves::Pushes("`the text of its second definition, of more than thirty bytes'");
};

static DIVERTING: [Called; 10] = rows! {
    "dumpdef", &[NAME] =>
        Leaves::Prints("a_name_of_more_than_thirty_letters:\t\
                        `the text of its first definition, of more than thirty bytes'\n");
    "dnl", &[""] => Leaves::Warns("excess arguments to builtin `dnl' ignored");
    "divert", &["x"] => Leaves::Warns("non-numeric argument to builtin `divert'");
    "undivert", &["1"] => Leaves::Outputs(FIRST);
    "divnum", &[""] => Leaves::Warns("excess arguments to builtin `divnum' ignored");
    "changequote", &[FIRST, SECOND] => Leaves::Quotes;
    "changecom", &[FIRST, SECOND] => Leaves::Comments;
    "len", &[FIRST, ""] => Leaves::Warns("excess arguments to builtin `len' ignored");
    "index", &[FIRST] => Leaves::Warns("too few arguments to builtin `index'");
    "substr", &[FIRST, "4"] => Leaves::Pushes("text of its first definition, of more than thirty bytes");
};

static PRINTING: [Called; 9] = rows! {
    "translit", &[FIRST, "t", "T"] => Leaves::Pushes("The TexT of iTs firsT definiTion, of more Than ThirTy byTes");
    "incr", &["x"] => Leaves::Warns("non-numeric argument to builtin `incr'");
    "decr", &["x"] => Leaves::Warns("non-numeric argument to builtin `decr'");
    "eval", &["1", "2", "40"] => Leaves::Pushes("0000000000000000000000000000000000000001");
    "errprint", &[FIRST, "x"] => Leaves::Prints("the text of its first definition, of more than thirty bytes x");
    "m4wrap", &[FIRST, "x"] => Leaves::Saves("the text of its first definition, of more than thirty bytes x");
    "m4exit", &["300"] => Leaves::Warns("exit status out of range");
    "__file__", &[] => Leaves::Pushes("`a_file_of_more_than_thirty_letters.m4'");
    "__line__", &[""] => Leaves::Warns("excess arguments to builtin `__line__' ignored");
};

// Returns whether a message is the warning with this text, in line 1 of the file.
fn is_warning(message: &[u8], text: &[u8]) -> bool {
    match message.strip_prefix(WARNING) {
        Some(rest) => match rest.strip_suffix(b"\n") {
            Some(found) => found == text,
            None => false,
        },
        None => false,
    }
}

// Returns whether a call left this.
fn is_left(effect: &Effect, state: &State, leaves: Leaves) -> bool {
    match leaves {
        Leaves::Pushes(text) => match &effect.push {
            Some(Pushed::Text(found)) => found.as_slice() == text.as_bytes(),
            _ => false,
        },
        Leaves::Outputs(text) => effect.output.as_slice() == text.as_bytes(),
        Leaves::Saves(text) => match &effect.wrap {
            Some(found) => found.as_slice() == text.as_bytes(),
            None => false,
        },
        Leaves::Prints(text) => effect.messages.as_slice() == text.as_bytes(),
        Leaves::Warns(text) => is_warning(effect.messages.as_slice(), text.as_bytes()),
        Leaves::Top(text) => match state.top(NAME.as_bytes()) {
            Some(Def::Text(found)) => found.as_slice() == text.as_bytes(),
            _ => false,
        },
        Leaves::Quotes => state.quotes() == long_pair(false),
        Leaves::Comments => state.comments() == long_pair(false),
    }
}

// Calls a builtin. A refusal is the call's one fault.
fn acted(alloc: Global, (name, texts, leaves): Called) -> Outcome {
    let definition = Def::Builtin(Builtin::by_name(name.as_bytes())?);
    let mut state = state_of(alloc, NAMED)?;
    let args = text_call_of(alloc, "f", texts).ok()?;
    let place = Place {
        file: Bytes::from_slice(alloc, FILE.as_bytes()).ok()?,
        line: 1,
    };
    match act(alloc, &definition, &args, &place, &mut state) {
        Ok(effect) => Some(judged(false, false, is_left(&effect, &state, leaves))),
        Err(BuiltinFault::OutOfMemory) => Some(Left::Before),
    }
}

// Calls the builtin of each row.
fn act_rows(rt: &(impl Abort + Alloc<A = Global> + Print), rows: &[Called]) {
    let mut refused = 0u32;
    for row in rows {
        refused = refused.saturating_add(judge(rt, row.0, acted(rt.alloc(), *row)));
    }
    let _printed = println!(rt; "{refused} broke off");
}

#[test]
fn builtins_that_define_have_one_fault(rt: HostRuntime) {
    act_rows(&rt, &DEFINING);
}

#[test]
fn builtins_that_divert_have_one_fault(rt: HostRuntime) {
    act_rows(&rt, &DIVERTING);
}

#[test]
fn builtins_that_print_have_one_fault(rt: HostRuntime) {
    act_rows(&rt, &PRINTING);
}

// Substitutes an argument in a text.
fn substituted(alloc: Global) -> Outcome {
    let args = text_call_of(alloc, "f", &[FIRST, SECOND]).ok()?;
    match substitute(alloc, b"$2", &args, (b"`", b"'")) {
        Ok(text) => Some(judged(false, false, text.as_slice() == SECOND.as_bytes())),
        Err(BuiltinFault::OutOfMemory) => Some(Left::Before),
    }
}

#[test]
fn substitution_has_one_fault(rt: HostRuntime) {
    count(&rt, &[("substitute", substituted(rt.alloc()))]);
}
