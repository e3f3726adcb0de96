//! Sessions call by call: their results and their outputs.

use self::Call::{Failing, File, Finish, Freeze, Missing, Status};
use super::given::{BLOCKS, ROOM, Writers, options};
use super::shows::agrees_by;
use m4_engine::session::Session;
use m4_engine::stop::Stop;
use m4_state::bytes::Bytes;
use m4_state::memory::{MemSink, MemSource};
use part_tests::report::Report;
use std::alloc::{AllocError, Global};
use std::process::Abort;

// A call of a session.
#[derive(Clone, Copy)]
enum Call {
    // Reads the file a.m4 with this text.
    File(&'static str),
    // The same, with a reader that fails after it.
    Failing(&'static str),
    // Reports a file that isn't opened.
    Missing(&'static str),
    // Finishes the run.
    Finish,
    // Finishes the run and freezes it.
    Freeze,
    // Reports the status, and whether text is saved.
    Status,
}

// The frozen file that a session starts from, the room for output, its calls, and the expected report: a result
// a line, and then output, messages and the frozen text.
struct Row {
    name: &'static str,
    start: Option<&'static str>,
    room: usize,
    calls: &'static [Call],
    report: &'static str,
}

// A session from the fresh state without calls.
const FRESH: Row = Row {
    name: "",
    start: None,
    room: 1024,
    calls: &[],
    report: "",
};

// Expands to sessions: of each its name, its calls and the report, and then each other field that it has.
macro_rules! sessions {
    ($($name:literal, [$($call:expr),*] => $report:literal $(, $field:ident: $value:expr)*;)*) => {
        [$(Row {
            name: $name,
            calls: &[$($call),*],
            report: $report,
            $($field: $value,)*
            ..FRESH
        }),*]
    };
}

static STARTED: [Row; 9] = sessions! {
    "two files and the end", [File("define(`hi',`Hello $1.')dnl\n"), File("hi(`you')\n"), Finish, Status] =>
        "Ok(())\nOk(())\nOk(())\n(0, false)\nHello you.\n||";
    "no name and no call spans two files",
        [File("define(`f',`<$#>')dnl\nf"), File("(1)\n"), Finish, Status] =>
        "Ok(())\nOk(())\nOk(())\n(0, false)\n<0>(1)\n||";
    "a file that isn't opened; nothing is done after the end",
        [Missing("nofile"), File("z\n"), Finish, Status, Finish] =>
        "Ok(())\nOk(())\nOk(())\n(1, false)\nErr(Finished)\nz\n|m4: cannot open `nofile'\n|";
    "a reader that fails", [Failing("ab "), Status, Missing("c")] =>
        "Err(Ended(Read))\n(1, false)\nErr(Finished)\nab ||";
    "a writer that fails", [File("one two\n"), Status] => "Err(Ended(Write))\n(1, false)\none t||", room: 5;
    "a string without an end", [File("`abc"), Status, File("x\n")] =>
        "Err(Ended(EndInString))\n(1, false)\nErr(Finished)\n|m4:a.m4:1: ERROR: end of input in string\n|";
    "text is saved until the end, and then none is left",
        [File("m4wrap(`m4wrap(`c')b')a\n"), Status, File("d\n"), Finish, Status, Finish] =>
        "Ok(())\n(0, true)\nOk(())\nOk(())\n(0, false)\nErr(Finished)\na\nd\nbc||";
    "a macro ends the run", [File("x m4exit(`3')y\n"), Status, File("z\n"), Finish] =>
        "Err(Ended(Exited(3)))\n(3, false)\nErr(Finished)\nErr(Finished)\nx ||";
    "a macro within saved text ends the run with code 0, after a file that isn't opened",
        [Missing("nofile"), File("divert(1)m4wrap(`divert(0)w m4exit v')d\n"), Finish, Status, Missing("c")] =>
        "Ok(())\nOk(())\nErr(Ended(Exited(0)))\n(1, false)\nErr(Finished)\nw |m4: cannot open `nofile'\n|";
};

static RELOADED: [Row; 6] = sessions! {
    "a frozen file, whose text is written first, and a state that is frozen",
        [Status, File("a\n"), Freeze, Status, Freeze, File("a\n")] =>
        "(0, false)\nOk(())\nOk(())\n(0, false)\nErr(Finished)\nErr(Finished)\nhi\nb\n||\
         # m4 frozen state\nV1\nT1,1\nab\n# End of frozen state file\n",
        start: Some("V1\nD0,3\nhi\n\nT1,1\nab\n");
    "diversions of a frozen file, which are issued at the end", [File("x\n"), Finish, Freeze] =>
        "Ok(())\nOk(())\nErr(Finished)\nx\none\ntwo\n||",
        start: Some("V1\nD2,4\ntwo\n\nD1,4\none\n\nD0,0\n\n");
    "text is saved, and read before the state is frozen",
        [File("m4wrap(`w')x\n"), Status, Missing("nofile"), Freeze, Status] =>
        "Ok(())\n(0, true)\nOk(())\nOk(())\n(1, false)\nx\nw|m4: cannot open `nofile'\n|\
         # m4 frozen state\nV1\nF6,6\nm4wrapm4wrap\n# End of frozen state file\n",
        start: Some("V1\nF6,6\nm4wrapm4wrap\n");
    "saved text that breaks off: nothing is frozen", [File("m4wrap(`w # a')x\n"), Freeze, Status] =>
        "Ok(())\nErr(Ended(EndInComment))\n(1, false)\nx\nw |m4: ERROR: end of input in comment\n|",
        start: Some("V1\nF6,6\nm4wrapm4wrap\n");
    "a frozen file that is refused", [Status] =>
        "Err(Ended(Frozen(FrozenFault { kind: UnknownDirective, offset: 3 })))\n||", start: Some("V1\nX");
    "no room for the text of a frozen file", [Status] => "Err(Ended(Write))\nhi||",
        start: Some("V1\nD0,3\nhi\n\n"), room: 2;
};

// Makes a call with readers that return this many bytes at a time, and adds its result.
fn make(
    session: &mut Session,
    call: Call,
    block: usize,
    writers: &mut Writers,
    report: &mut Report,
    name: Bytes,
) {
    let Writers {
        output: out,
        messages,
        frozen_text,
    } = writers;
    let answer = match call {
        File(text) | Failing(text) => {
            let fails = matches!(call, Failing(_));
            let mut reader = MemSource::new(text.as_bytes(), block.max(1), fails);
            session.file(name, &mut reader, out, messages)
        }
        Missing(name) => session.missing(name.as_bytes(), messages),
        Finish => session.finish(out, messages),
        Freeze => session.freeze(out, messages, frozen_text),
        Status => {
            report.print(&(session.status(), session.wrapped()));
            return report.add(b"\n");
        }
    };
    report.print(&answer);
    report.add(b"\n");
}

// Starts a session with a fresh state, or from a frozen file.
fn started(
    alloc: Global,
    start: Option<&str>,
    block: usize,
    out: &mut MemSink,
) -> Result<Session, Stop> {
    match start {
        None => Session::fresh(alloc, options((1000, 1024))),
        Some(text) => {
            let mut frozen = MemSource::new(text.as_bytes(), block.max(1), false);
            Session::reload(alloc, options((1000, 1024)), &mut frozen, out)
        }
    }
}

// Adds the results of a row's calls, or that of its start if it is refused.
fn add_calls(
    alloc: Global,
    row: &Row,
    block: usize,
    writers: &mut Writers,
    report: &mut Report,
) -> Result<(), AllocError> {
    match started(alloc, row.start, block, &mut writers.output) {
        Ok(mut session) => {
            for call in row.calls {
                let name = Bytes::from_slice(alloc, b"a.m4")?;
                make(&mut session, *call, block, writers, report, name);
            }
        }
        Err(stop) => {
            report.add(b"Err(");
            report.print(&stop);
            report.add(b")\n");
        }
    }
    Ok(())
}

// Reports a row.
fn seen(alloc: Global, row: &Row, block: usize) -> Result<Vec<u8>, AllocError> {
    let mut report = Report::new(alloc);
    let mut writers = Writers::new(alloc, (row.room, ROOM, ROOM), block)?;
    add_calls(alloc, row, block, &mut writers, &mut report)?;
    report.pair(writers.output.written(), b"|");
    report.pair(writers.messages.written(), b"|");
    report.add(writers.frozen_text.written());
    report.text()
}

// Compares the results of each row, at each size of a block.
fn compare(rt: &(impl Abort + Alloc<A = Global>), rows: &[Row]) {
    for row in rows {
        for block in BLOCKS {
            let want = Vec::from_slice(rt.alloc(), row.report.as_bytes());
            agrees_by(rt, row.name, block, want, seen(rt.alloc(), row, block));
        }
    }
}

#[test]
fn calls_and_their_answers(rt: HostRuntime) {
    compare(&rt, &STARTED);
    compare(&rt, &RELOADED);
}
