//! Facts about the definitions only: no code runs here.
//!
//! Each function's contract is a law of `specs/Laws.antt`. Manual: "Frozen file format".

ghost use Rattle.m4_frozen.specs.Laws.{OneReading, OneAnswer, OneAnswerOfFailed, TiesReaderSteps, FreezeLoads};
ghost use Rattle.m4_frozen.specs.Laws.{CanonAgain, RefreezeOlder, UnfinishedRefused};

/// The same bytes spell only one list of directives.
pub fn one_reading()
    ensures { OneReading }
{}

/// Any bytes are spelled by exactly one list of directives and have no fault, or have exactly one fault.
pub fn one_answer()
    ensures { OneAnswer }
{}

/// If a reader fails after some bytes, there is exactly one fault for them.
pub fn one_answer_of_failed()
    ensures { OneAnswerOfFailed }
{}

/// The reader's own steps return what the grammar and the table of faults define.
pub fn reader_steps_tied()
    ensures { TiesReaderSteps }
{}

/// The canonical text of a state loads as that state, issues nothing, and has no other reading.
/// Manual: "Fast loading of frozen state".
pub fn freeze_loads()
    // canonical round trip: text, directives and state determine each other
    ensures { FreezeLoads }
{}

/// A canonical text that is loaded and frozen again is the same byte for byte.
pub fn canon_again()
    // canonical round trip: freezing what was loaded gives the same bytes
    ensures { CanonAgain }
{}

/// Bytes that begin with the mark of a file that was not finished are refused at once. Manual: "Frozen file format".
pub fn unfinished_refused()
    // unfinished files: no directives spell such bytes, and their one fault is F1 at 0
    ensures { UnfinishedRefused }
{}

/// Two states have the same canonical text if they differ only in this: one has a builtin where the
/// other has a placeholder of its name. A processor that gains a builtin refreezes older files byte for
/// byte. Manual: "Frozen file format".
pub fn refreeze_older()
    // canonical round trip: a placeholder is written like the builtin of its name
    ensures { RefreezeOlder }
{}
