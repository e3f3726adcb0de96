//! The command line: a mode and its file, or the files to read, the frozen files, and the limits.
//!
//! `clap` reads the words. It also writes the help and the message about an unknown word, or about a
//! limit out of its range. Only one rule about two words is checked here: a mode is given alone.
//! Contracts see the words by `known_words` (specs/CommandLine.antt).
//! Manual: "Invoking m4".
ghost use Rattle.std.specs.Prelude.{◌≡◌, ◌≢◌, ◌≤◌, ◌<◌, ◌^◌, IfErr, IfOk, codes, false, true, is_some, map, option_map};
ghost use Rattle.std.specs.Prelude.{string_bytes};
ghost use Rattle.clap.specs.Walk.{texts};
ghost use Rattle.clap.specs.Words.{app_of, first_of, found_of, new_app, one_of, rows_of, rule_of};
ghost use Rattle.m4_tool.specs.CommandLine.{AreInRange, HoldsFound, IsLimit, IsModeNotAlone, IsRefusal, Says};
ghost use Rattle.m4_tool.specs.CommandLine.{ModeIsAlone};
ghost use Rattle.m4_tool.specs.CommandLine.{asks, file_word, files_in, has_files, has_options, help_word, is_given};
ghost use Rattle.m4_tool.specs.CommandLine.{known_words, limit_word, mode_has_others, path_word, rows_by};
ghost use Rattle.m4_tool.specs.CommandLine.{with_frozen, with_limits, with_modes, with_prefix, without_short_help};
ghost use Rattle.m4_tool.specs.LineSteps.{HasRowsOf, IsNoRefusal, ClassifiesError};

use clap::builder::ValueParser;
use clap::error::ErrorKind;
use clap::{Arg, ArgAction, ArgMatches, Command, Error};
use m4_engine::options::Options;
use std::alloc::{AllocError, Global};

const ABOUT: &str = "Expands macros in the language of GNU M4. A library is frozen once, and each
page starts from it:

  m4r -F macros.m4f macros.m4             freezes the library
  m4r -R macros.m4f page.m4 > page.html   expands a page from it

Together they write what `m4r macros.m4 page.m4` writes, if the first ends
with status 0 and `m4wrap` has saved no text in it.";

const USAGE: &str = "m4r [-F FILE] [-R FILE] [-L N] [--expansions=N] [-P] [FILE...]
       m4r --canon=FILE
       m4r --inspect=FILE";

const AFTER_HELP: &str =
    "The files are read in this order. `-` there, or no FILE, is standard input;
the FILE of an option may be a file called `-`. Output goes to standard output,
messages to standard error. Use --canon or --inspect without any other option
or file. The FILE of an option is a frozen state file, of m4r or of GNU m4.
That of -F is created when its first byte is written, so that -R and -F may
name one file.

Not in m4r: the builtins include, sinclude, syscmd, esyscmd, sysval, regexp,
patsubst, format, maketemp, mkstemp, traceon, traceoff, debugmode, debugfile,
changeword and __program__, which are ordinary words, and options like -D, -I,
-s and --version. The man page, m4r(1), says what to do.

Exit status:
   0  success
   1  an unknown option, a file that cannot be opened, unfinished input, a
      limit that was exceeded, a damaged frozen file, a read or write error,
      or no memory left
  63  a frozen file of a newer format
   N  a macro ended the run by `m4exit`, with this code

Examples:
  m4r macros.m4 page.m4 > page.html        expands a page with a library
  m4r --inspect=macros.m4f                 lists what a frozen library has
  m4r --canon=macros.m4f > canonical.m4f   writes its canonical text, for cmp";

/// The limit of open calls, unless the line gives one.
const USUAL_NESTING: u32 = 1024;

/// The limit of all calls, unless the line gives one.
const USUAL_CALLS: u32 = u32::MAX;

/// The content of a command line: one mode with its file, or a run over files.
#[derive(Debug, Drop)]
pub struct Line {
    /// The limits of the run, whether it freezes, and whether its builtins have prefixes.
    pub options: Options,
    /// The file to which the run freezes its state.
    pub freeze: Option<String>,
    /// The frozen file from which the run starts.
    pub reload: Option<String>,
    /// The file whose lines `--inspect` prints.
    pub inspect: Option<String>,
    /// The file whose canonical text `--canon` prints.
    pub canon: Option<String>,
    /// The files to read, in order; none means standard input.
    pub files: Vec<String>,
}

/// Why a command line is refused.
#[derive(Drop)]
pub enum LineFault {
    /// A mode is given together with another mode, a limit, a prefix or a file.
    ModeNotAlone,
    /// `clap` refuses the line, or prints help for it. The error contains the text to print.
    Parse(Error),
    /// An allocation failed.
    OutOfMemory,
}

impl From<AllocError> for LineFault {
    ghost use Rattle.m4_tool.specs.declared.line.LineFault.TheVariants.{OutOfMemory};

    ghost from_gives = { λ _ fault. fault ≡ OutOfMemory };

    fn from(_error: AllocError) -> LineFault {
        LineFault::OutOfMemory
    }
}

/// Reads the words of a command line. The first word is the program's name.
///
/// The time and the memory are proportional to the words. Tests show the text that `clap` makes for a
/// line that it refuses.
pub fn read_line(alloc: Global, words: &[&str]) -> Result<Line, LineFault>
    // exact command line: an accepted line contains what its words state, with limits in their ranges
    // and a mode only alone.
    ensures says { IfOk result (Says (texts words.now)) }
    ensures in_range { IfOk result AreInRange }
    ensures alone { IfOk result ModeIsAlone }
    // exact command line: nor with another mode, a limit or the option for prefixes among the words
    ensures no_others { IfOk result (λ _. mode_has_others (rows_by (texts words.now)) ≡ false) }

    // exact command line: if clap accepts the words, only a mode that is not alone is refused; otherwise
    // clap refuses them.
    ensures not_alone { result ≡ Err LineFault.ModeNotAlone → IsModeNotAlone (texts words.now) }
    ensures refused { IfErr result (IsRefusal (texts words.now)) }
{
    let matches = matches_of_words(alloc, words)?;
    line_of_matches(alloc, &matches)
}

/// Returns the matches that `clap` finds for the words.
fn matches_of_words<'a>(alloc: Global, words: &'a [&'a str]) -> Result<ArgMatches<'a>, LineFault>
    ensures found { IfOk result (HasRowsOf (texts words.now)) }
    ensures refused { IfErr result (IsRefusal (texts words.now)) }
    ensures by_clap { result ≢ Err LineFault.ModeNotAlone }
{
    let command = known_command(alloc)?;
    match command.try_get_matches_from(words) {
        Ok(matches) => Ok(matches),
        Err(error) => Err(fault_of_parse(error)),
    }
}

/// Returns the line of the matches, unless a mode is not alone.
fn line_of_matches(alloc: Global, matches: &ArgMatches<'_>) -> Result<Line, LineFault>
    ensures says { IfOk result (HoldsFound (rows_of (found_of matches.now))) }
    ensures in_range { IfOk result AreInRange }

    ensures alone { IfOk result (λ _. mode_has_others (rows_of (found_of matches.now)) ≡ false) }
    ensures not_alone { result ≡ Err LineFault.ModeNotAlone
        → mode_has_others (rows_of (found_of matches.now)) ≡ true }
    ensures no_refusal { IfErr result IsNoRefusal }
{
    if mode_has_others(matches) {
        return Err(LineFault::ModeNotAlone);
    }
    let freeze = file_of(alloc, matches, "freeze-state")?;
    let reload = file_of(alloc, matches, "reload-state")?;
    let inspect = file_of(alloc, matches, "inspect")?;
    let canon = file_of(alloc, matches, "canon")?;
    let files = files_of(alloc, matches)?;
    let options = options_of(matches, freeze.is_some());
    Ok(Line {
        options,
        freeze,
        reload,
        inspect,
        canon,
        files,
    })
}

/// Returns whether a mode is given together with another mode, a limit, a prefix or a file.
fn mode_has_others(matches: &ArgMatches<'_>) -> bool
    ensures { result ≡ mode_has_others (rows_of (found_of matches.now)) }
{
    let canon = is_given(matches, "canon");
    let inspect = is_given(matches, "inspect");
    (canon && inspect) || ((canon || inspect) && (has_options(matches) || has_files(matches)))
}

/// Returns whether a limit or the option for prefixes is given.
fn has_options(matches: &ArgMatches<'_>) -> bool
    ensures { result ≡ has_options (rows_of (found_of matches.now)) }
{
    is_given(matches, "nesting-limit")
        || is_given(matches, "expansions")
        || asks(matches, "prefix-builtins")
}

/// Returns whether a frozen file or a file to read is given.
fn has_files(matches: &ArgMatches<'_>) -> bool
    ensures { result ≡ has_files (rows_of (found_of matches.now)) }
{
    is_given(matches, "freeze-state")
        || is_given(matches, "reload-state")
        || is_given(matches, "files")
}

/// Returns whether a word of this name is given.
fn is_given(matches: &ArgMatches<'_>, name: &str) -> bool
    ensures { result ≡ is_given name.now (rows_of (found_of matches.now)) }
{
    matches.contains_id(name)
}

/// Returns whether an option without a value is given. Its text is `true` then.
fn asks(matches: &ArgMatches<'_>, name: &str) -> bool
    ensures { result ≡ asks name.now (rows_of (found_of matches.now)) }
{
    match matches.get_str(name) {
        Some(text) => text == "true",
        None => false,
    }
}

/// Returns the options of the line, for a run that freezes or does not.
fn options_of(matches: &ArgMatches<'_>, freeze: bool) -> Options
    ensures nesting { IsLimit 0 1024 (one_of (codes "nesting-limit") (rows_of (found_of matches.now))) result.nesting }
    ensures calls { IsLimit 1 4294967295 (one_of (codes "expansions") (rows_of (found_of matches.now))) result.calls }
    ensures same { result.freeze ≡ freeze }
    ensures prefix { result.prefix ≡ asks (codes "prefix-builtins") (rows_of (found_of matches.now)) }
    ensures most { result.nesting < 2 ^ 32 }
    ensures in_range { (1 ≤ result.calls) × (result.calls < 2 ^ 32) }
{
    Options {
        calls: limit(matches, "expansions", 1, USUAL_CALLS),
        nesting: limit(matches, "nesting-limit", 0, USUAL_NESTING),
        freeze,
        prefix: asks(matches, "prefix-builtins"),
    }
}

/// Returns the number that the line gives for a limit, or the usual one. `clap` has already refused a
/// number out of the range.
fn limit(matches: &ArgMatches<'_>, name: &str, least: u32, usual: u32) -> u64
    requires { least ≤ usual }
    ensures says { IsLimit least usual (one_of name.now (rows_of (found_of matches.now))) result }
    ensures in_range { (least ≤ result) × (result < 2 ^ 32) }
{
    match matches.get_one::<u32>(name) {
        Some(given) if given >= least => u64::from(given),
        _ => u64::from(usual),
    }
}

/// Returns the file of an option, if the line has it.
fn file_of(
    alloc: Global,
    matches: &ArgMatches<'_>,
    name: &str,
) -> Result<Option<String>, AllocError>
    ensures { IfOk result (λ file. option_map string_bytes file
        ≡ first_of name.now (rows_of (found_of matches.now))) }
{
    match matches.get_str(name) {
        Some(file) => Ok(Some(String::from_str(alloc, file)?)),
        None => Ok(None),
    }
}

/// Returns the files to read.
fn files_of(alloc: Global, matches: &ArgMatches<'_>) -> Result<Vec<String>, AllocError>
    ensures { IfOk result (λ files. map string_bytes files.items
        ≡ files_in (rows_of (found_of matches.now))) }
{
    match matches.get_strs("files") {
        Some(files) => copies(alloc, files),
        None => Ok(Vec::new(alloc)),
    }
}

/// Returns copies of the texts, which the line owns.
fn copies(alloc: Global, files: &[&str]) -> Result<Vec<String>, AllocError>
    ensures { IfOk result (λ same. map string_bytes same.items ≡ texts files.now) }
{
    let mut same = Vec::with_capacity(alloc, files.len())?;
    for file in files {
        same.push(String::from_str(alloc, file)?)?;
    }
    Ok(same)
}

/// Returns the words that the program knows, for `clap`.
fn known_command<'a>(alloc: Global) -> Result<Command<'a>, AllocError>
    ensures { IfOk result (λ command. app_of command ≡ known_words) }
{
    let command = with_modes(alloc, bare_command(alloc))?;
    let command = with_frozen(alloc, command)?;
    let command = with_limits(alloc, command)?;
    let command = with_prefix(alloc, command)?;
    let command = command.arg(files(alloc))?;
    command.arg(help(alloc))
}

/// Adds the modes to the command.
fn with_modes<'a>(alloc: Global, command: Command<'a>) -> Result<Command<'a>, AllocError>
    ensures { IfOk result (λ more. app_of more ≡ with_modes (app_of command.entry)) }
{
    let command = command.arg(path_option(
        alloc,
        "canon",
        "Prints the canonical text of the state in FILE",
    ))?;
    command.arg(path_option(
        alloc,
        "inspect",
        "Lists the contents of FILE, one line for each thing",
    ))
}

/// Adds the frozen files of a run to the command.
fn with_frozen<'a>(alloc: Global, command: Command<'a>) -> Result<Command<'a>, AllocError>
    ensures { IfOk result (λ more. app_of more ≡ with_frozen (app_of command.entry)) }
{
    let freeze = path_option(
        alloc,
        "freeze-state",
        "Writes the end state to FILE; prints no diversions",
    )
    .short('F');
    let command = command.arg(freeze)?;
    let reload = path_option(alloc, "reload-state", "Starts from the state in FILE").short('R');
    command.arg(reload)
}

/// Adds the limits to the command.
fn with_limits<'a>(alloc: Global, command: Command<'a>) -> Result<Command<'a>, AllocError>
    ensures { IfOk result (λ more. app_of more ≡ with_limits (app_of command.entry)) }
{
    let nesting = limit_option(
        alloc,
        "nesting-limit",
        0,
        "At most N nested calls; 0 is no limit [default: 1024]",
    )
    .short('L');
    let command = command.arg(nesting)?;
    command.arg(limit_option(
        alloc,
        "expansions",
        1,
        "At most N calls in all [default: 4294967295]",
    ))
}

/// Adds the option for prefixes to the command.
fn with_prefix<'a>(alloc: Global, command: Command<'a>) -> Result<Command<'a>, AllocError>
    ensures { IfOk result (λ more. app_of more ≡ with_prefix (app_of command.entry)) }
{
    let prefix = Arg::new(alloc, "prefix-builtins")
        .long("prefix-builtins")
        .short('P')
        .action(ArgAction::SetTrue)
        .help("Prefixes builtins with `m4_`; no effect with -R");
    command.arg(prefix)
}

/// Returns the program with its texts, before its words are added.
fn bare_command<'a>(alloc: Global) -> Command<'a>
    ensures { app_of result ≡ without_short_help (new_app (codes "m4r")) }
{
    Command::new(alloc, "m4r")
        .about(ABOUT)
        .override_usage(USAGE)
        .after_help(AFTER_HELP)
        .disable_help_flag(true)
}

/// Returns an option with a file.
fn path_option<'a>(alloc: Global, name: &'a str, help: &'a str) -> Arg<'a>
    ensures rule { rule_of result ≡ path_word name.now }
    ensures local { result.global ≡ false }
{
    Arg::new(alloc, name)
        .long(name)
        .action(ArgAction::Set)
        .value_name("FILE")
        .help(help)
}

/// Returns the option of a limit, whose number is `least` or greater.
fn limit_option<'a>(alloc: Global, name: &'a str, least: u32, help: &'a str) -> Arg<'a>
    ensures rule { rule_of result ≡ limit_word name.now least }
    ensures local { result.global ≡ false }
{
    let numbers = ValueParser::unsigned(u64::from(least), u64::from(u32::MAX));
    Arg::new(alloc, name)
        .long(name)
        .action(ArgAction::Set)
        .value_name("N")
        .help(help)
        .value_parser(numbers)
}

/// Returns the argument for the files to read: all words that are not options.
fn files<'a>(alloc: Global) -> Arg<'a>
    ensures rule { rule_of result ≡ file_word }
    ensures local { result.global ≡ false }
{
    Arg::new(alloc, "files")
        .action(ArgAction::Append)
        .value_name("FILE")
        .help("An input file; `-` is standard input")
}

/// Returns the option for the help, which has no short name.
fn help<'a>(alloc: Global) -> Arg<'a>
    ensures rule { rule_of result ≡ help_word }
    ensures local { result.global ≡ false }
{
    Arg::new(alloc, "help")
        .long("help")
        .action(ArgAction::Help)
        .help("Prints this help")
}

/// Returns the fault for an error of `clap`: either memory ran out, or the line is refused.
fn fault_of_parse(error: Error) -> LineFault
    ensures { ClassifiesError error result }
{
    if error.kind() == ErrorKind::OutOfMemory {
        LineFault::OutOfMemory
    } else {
        LineFault::Parse(error)
    }
}
