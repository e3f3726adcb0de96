//! A table of command lines and their meaning. The kinds of refusal are those of Rust's clap.

use crate::runs::shows::shows;
use m4_engine::options::Options;
use m4_tool::line::{Line, LineFault, read_line};
use part_tests::report::Report;
use std::alloc::{AllocError, Global};
use std::process::Abort;

// A line, its words with a space between them, and the result.
type Meaning = [&'static str; 2];

// Expands to lines: of each its words after the name of the program, and the result.
macro_rules! meanings {
    ($([$($word:literal),*] => $meaning:literal;)*) => { [$([concat!("m4r" $(, " ", $word)*), $meaning]),*] };
}

// The result is a mode with its file, or a refusal.
static MODES: [Meaning; 22] = meanings! {
    ["--canon=state.m4f"] => "canon state.m4f";
    ["--inspect=state.m4f"] => "inspect state.m4f";
    ["--canon", "state.m4f"] => "canon state.m4f";
    ["--canon=-"] => "canon -";
    ["--inspect=-"] => "inspect -";
    ["--canon", "-"] => "canon -";
    ["--canon="] => "canon ";
    ["--canon=--inspect=b"] => "canon --inspect=b";
    ["--canon=a", "--inspect=b"] => "a mode not alone";
    ["--inspect=b", "--canon=a"] => "a mode not alone";
    ["--canon=a", "b"] => "a mode not alone";
    ["--canon", "a", "b"] => "a mode not alone";
    ["--inspect=a", "-"] => "a mode not alone";
    ["--canon=a", "-L2"] => "a mode not alone";
    ["--expansions=9", "--inspect=a"] => "a mode not alone";
    ["--nope"] => "refused: UnknownArgument";
    ["--canon=a", "--inspect=b", "-X"] => "refused: UnknownArgument";
    ["--canon=a", "--canon=a"] => "refused: ArgumentConflict";
    ["--canon"] => "refused: InvalidValue";
    ["--help"] => "refused: DisplayHelp";
    ["--canon=a", "--help"] => "refused: DisplayHelp";
    ["-h"] => "refused: UnknownArgument";
};

// The same for lines with a frozen file: the file to freeze to, the file to start from, and the files.
static FROZEN: [Meaning; 20] = meanings! {
    ["-F", "s", "a.m4"] => "from None to Some(\"s\"), run [\"a.m4\"]";
    ["-Fs", "a.m4"] => "from None to Some(\"s\"), run [\"a.m4\"]";
    ["a.m4", "-F", "s"] => "from None to Some(\"s\"), run [\"a.m4\"]";
    ["--freeze-state=s"] => "from None to Some(\"s\"), run []";
    ["--freeze-state", "s"] => "from None to Some(\"s\"), run []";
    ["-F", "-"] => "from None to Some(\"-\"), run []";
    ["-F-"] => "from None to Some(\"-\"), run []";
    ["--freeze-state="] => "from None to Some(\"\"), run []";
    ["-R", "s", "b.m4"] => "from Some(\"s\") to None, run [\"b.m4\"]";
    ["--reload-state=s"] => "from Some(\"s\") to None, run []";
    ["-R", "-", "-"] => "from Some(\"-\") to None, run [\"-\"]";
    ["-R", "s", "-F", "s"] => "from Some(\"s\") to Some(\"s\"), run []";
    ["-F", "t", "a", "-R", "s"] => "from Some(\"s\") to Some(\"t\"), run [\"a\"]";
    ["-F", "s", "--canon=a"] => "a mode not alone";
    ["--inspect=a", "-R", "s"] => "a mode not alone";
    ["-F", "s", "-F", "s"] => "refused: ArgumentConflict";
    ["-R", "s", "--reload-state=t"] => "refused: ArgumentConflict";
    ["-F"] => "refused: InvalidValue";
    ["a.m4", "-R"] => "refused: InvalidValue";
    ["-f", "s"] => "refused: UnknownArgument";
};

// The same for lines with no mode: a run with its limits, of open calls and of all calls, and its files.
static RUNS: [Meaning; 24] = meanings! {
    [] => "run 1024 4294967295 []";
    ["a.m4"] => "run 1024 4294967295 [\"a.m4\"]";
    ["-"] => "run 1024 4294967295 [\"-\"]";
    ["b.m4", "-", "a.m4", "b.m4"] => "run 1024 4294967295 [\"b.m4\", \"-\", \"a.m4\", \"b.m4\"]";
    ["--", "-L", "2"] => "run 1024 4294967295 [\"-L\", \"2\"]";
    ["-L", "0"] => "run 0 4294967295 []";
    ["-L2"] => "run 2 4294967295 []";
    ["--nesting-limit=3"] => "run 3 4294967295 []";
    ["--nesting-limit", "3"] => "run 3 4294967295 []";
    ["-L", "4294967295"] => "run 4294967295 4294967295 []";
    ["a", "-L", "7", "b"] => "run 7 4294967295 [\"a\", \"b\"]";
    ["--expansions=1"] => "run 1024 1 []";
    ["--expansions=4294967295"] => "run 1024 4294967295 []";
    ["--expansions=100", "-L5", "a"] => "run 5 100 [\"a\"]";
    ["--expansions=0"] => "refused: ValueValidation";
    ["--expansions=4294967296"] => "refused: ValueValidation";
    ["-L", "4294967296"] => "refused: ValueValidation";
    ["-L", "18446744073709551616"] => "refused: ValueValidation";
    ["-L", "two"] => "refused: ValueValidation";
    ["-L="] => "refused: ValueValidation";
    ["-L"] => "refused: InvalidValue";
    ["-L", "1", "-L", "1"] => "refused: ArgumentConflict";
    ["-L1", "--nesting-limit=1"] => "refused: ArgumentConflict";
    ["--expansions=1", "--expansions=1"] => "refused: ArgumentConflict";
};

// Adds the result for a line, as the tables write it.
fn add_answer(line: &Result<Line, LineFault>, report: &mut Report) {
    match line {
        Ok(line) => add_asked(line, report),
        Err(LineFault::ModeNotAlone) => report.add(b"a mode not alone"),
        Err(LineFault::OutOfMemory) => report.add(b"out of memory"),
        Err(LineFault::Parse(error)) => {
            report.add(b"refused: ");
            report.print(&error.kind());
        }
    }
}

// Adds a mode and its file.
fn add_mode(mode: &[u8], file: &String, report: &mut Report) {
    report.add(mode);
    report.add(file.as_str().as_bytes());
}

// Adds the limits of a run, and the files that it reads.
fn add_run(line: &Line, report: &mut Report) {
    report.add(b"run ");
    report.print(&line.options.nesting);
    report.add(b" ");
    report.print(&line.options.calls);
    report.add(b" ");
    report.print(&line.files);
}

// Adds the frozen files of a run, and the files that it reads.
fn add_frozen(line: &Line, report: &mut Report) {
    report.add(b"from ");
    report.print(&line.reload);
    report.add(b" to ");
    report.print(&line.freeze);
    report.add(b", run ");
    report.print(&line.files);
}

// Adds the content of a line: a mode with its file, a run with frozen files, or a run.
fn add_asked(line: &Line, report: &mut Report) {
    let Options {
        calls,
        nesting,
        freeze,
        prefix,
    } = line.options;
    let is_usual = nesting == 1024 && calls == 4294967295;
    let is_plain = is_usual && line.files.is_empty() && !freeze;
    match (&line.canon, &line.inspect, &line.reload, &line.freeze) {
        _ if prefix || freeze != line.freeze.is_some() => report.print(line),
        (Some(file), None, None, None) if is_plain => add_mode(b"canon ", file, report),
        (None, Some(file), None, None) if is_plain => add_mode(b"inspect ", file, report),
        (None, None, None, None) => add_run(line, report),
        (None, None, _, _) if is_usual => add_frozen(line, report),
        _ => report.print(line),
    }
}

// Returns the words of a line.
fn words_of(alloc: Global, line: &str) -> Result<Vec<&str>, AllocError> {
    let mut words = Vec::new(alloc);
    for word in line.split(' ') {
        words.push(word)?;
    }
    Ok(words)
}

// Reports a line.
fn answer_of(alloc: Global, line: &str) -> Result<Vec<u8>, AllocError> {
    let words = words_of(alloc, line)?;
    let mut report = Report::new(alloc);
    add_answer(&read_line(alloc, &words), &mut report);
    report.text()
}

// Compares the result for each line with its row.
fn check(rt: &(impl Abort + Alloc<A = Global>), rows: &[Meaning]) {
    for [line, want] in rows {
        shows(rt, line, want.as_bytes(), answer_of(rt.alloc(), line));
    }
}

#[test]
fn each_line_is_read(rt: HostRuntime) {
    check(&rt, &MODES);
    check(&rt, &FROZEN);
    check(&rt, &RUNS);
}
