//! Laws of the definitions: no code runs here.
//!
//! The contract of each function is a law of `specs/Laws.antt`.

ghost use Rattle.m4_engine.specs.Laws.{Chain, ExpansionRules, ExpandRules, LargerCalls, LargerNesting, MomentsLead};
ghost use Rattle.m4_engine.specs.Laws.{OneStart, OneState, RunEnds, SameDenotation, SettledBegins, Split, SplitStates};
ghost use Rattle.m4_engine.specs.Laws.{TwoRuns, WrapsRules};

/// An expansion with nested calls is the result of its turns: no bound on them is ever reached.
pub fn expansion_rules<S, F, D>()
    ensures { ExpansionRules S F D }
{}

/// The expansion of an input is the result of its turns.
pub fn expand_rules()
    ensures { ExpandRules }
{}

/// From each moment that the turns of an expansion lead to, the expansion has the same result as from its start.
pub fn moments_lead()
    // in order: each moment of an expansion leads to its result
    ensures { MomentsLead }
{}

/// A run after its saved texts is the result of its next round and of the later ones: no bound on rounds is
/// ever reached. Manual: "Saving text until end of input".
pub fn wraps_rules()
    ensures { WrapsRules }
{}

/// The output that a prefix of an input settles is a prefix of the run's output, whatever follows; so are the
/// messages. If the prefix decides how the run ends, the run ends so and writes nothing more.
pub fn settled_begins()
    // one pass: for any bytes that follow, and any later sources
    ensures { SettledBegins }
{}

/// A run starts from the fresh state, or from the state that the directives of its frozen file denote. Otherwise the
/// frozen file is refused. Manual: "Fast loading of frozen state".
pub fn one_state()
    ensures { OneState }
{}

/// A run starts from the fresh state, from the state that the directives of its frozen file denote, or with
/// that file's fault. Manual: "Fast loading of frozen state".
pub fn one_start()
    ensures { OneStart }
{}

/// Two frozen files whose directives denote the same state and the same issued text give the same run.
pub fn same_denotation()
    // same denotation: the complete result
    ensures { SameDenotation }
{}

/// If a freezing run carries, it and a run from the state that it froze equal one run over the sources of
/// both.
pub fn split_states()
    // split: through the state itself
    ensures { SplitStates }
{}

/// A run that does not end by a limit is the same under a larger limit; for nesting, 0 is the largest.
pub fn larger_limits()
    // limits: of calls
    ensures calls { LargerCalls }
    // limits: of nesting
    ensures nesting { LargerNesting }
{}

/// If a freezing run carries, from any start, it and a run that reloads its frozen text equal one run over
/// the sources of both: output, messages, ending, status, frozen text and calls.
/// Manual: "Fast loading of frozen state".
pub fn split()
    // split: through the frozen text
    ensures { Split }
{}

/// A chain of any number of runs, each from the text that the run before it froze, equals one run over all
/// their sources: outputs and messages joined, the ending, the status and the frozen text of the last run, and
/// the sum of the calls. Manual: "Fast loading of frozen state".
pub fn chain()
    // chains: any number of runs
    // limits: the calls of a joint run are the sum of those of its parts
    ensures { Chain }
{}

/// If one call of [`run`](crate::run::run) freezes and carries, and another starts from what it froze, both
/// together write what one call over all their sources would write, and end as it would. This follows from
/// the contract of `run`. Manual: "Fast loading of frozen state".
pub fn two_runs()
    // split: for two calls of `run`
    ensures { TwoRuns }
{}

/// Each run ends by a cause: it never needs more input, and no bound on its turns or rounds is reached.
pub fn run_ends()
    ensures { RunEnds }
{}
