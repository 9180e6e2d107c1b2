//! A law of what is played. Its function says it, and does nothing.
ghost use Rattle.own_play.specs.Law.{WalksAreRuns};

/// What is played of a lock is a run of its table, up to each step, so that what is proved of all its runs holds of it; and the words and holds are
/// then those of the run.
#[tactic(auto, using(crate::proofs::RunLaws::walks_run))]
pub fn walks_are_runs()
    ensures { WalksAreRuns }
{}
