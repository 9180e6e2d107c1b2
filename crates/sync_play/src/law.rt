//! Laws of the definitions of a text. Each function says one of them, and does nothing.
ghost use Rattle.sync_play.specs.Law.{OutputsAreRuns, RunsAreOutputs, FaultsAreRefusals, RefusalsAreFaults, EndsInItsLine};
ghost use Rattle.sync_play.specs.WalkOutput.{WalksAreOutputs};
ghost use Rattle.sync_play.specs.Calls.{TextsNameCalls, TextsReadCallsBack};

use text_lines::integer::TextInteger;

/// The walk of a text is what is played of it: its output is what the events of the walk's steps print, and its fault is the walk's.
#[tactic(auto, using(crate::proofs::WalksAreOutputs::walks_print))]
pub fn walks_are_outputs<T: TextInteger>()
    ensures { WalksAreOutputs T.arithmetic T.numerals }
{}

/// A text has this output where it is what the events of a run of all the text's inputs print, and then the last line, and
/// nowhere else.
pub fn outputs_are_runs()
    ensures outputs { OutputsAreRuns }
    ensures runs { RunsAreOutputs }
{}

/// A text has this fault where the lines before the fault's line form a run, and that line asks something that is refused with
/// this word, and nowhere else.
pub fn faults_are_refusals()
    ensures faults { FaultsAreRefusals }
    ensures refusals { RefusalsAreFaults }
{}

/// A `run` ends in its own line, and borrows no end from a later one: a run of all the text's inputs whose `run` is cut short, and
/// whose later `go` makes two steps, is none of the text.
#[tactic(auto, using(crate::proofs::OwnLine::ends_in_its_line))]
pub fn a_run_ends_in_its_line()
    ensures { EndsInItsLine }
{}

/// Each call that an object has is found by its name among the calls of a text; and the words of a call, its name and what is printed of
/// its values, ask of a party to begin that call.
pub fn calls_are_read_back()
    ensures named { TextsNameCalls }
    ensures read { TextsReadCallsBack }
{}
