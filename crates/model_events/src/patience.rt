//! How a waiting call tries again: by itself at first, then as its wait closure answers.
ghost use Rattle.std.specs.Prelude.{◌≡◌};
ghost use Rattle.model_events.specs.Rows.{refused, answered};

use crate::event::Answer;
use crate::row::After;
use crate::{SPIN_REPETITIONS, WaitAction};

/// How often a waiting call has spun, and whether it keeps on asking: it does until its wait closure has answered `Abort`.
#[derive(Clone, Copy, PartialEq, Eq)]
pub struct Patience {
    pub spins: u64,
    pub keep: bool,
}

impl Patience {
    /// That of a call that has just begun.
    pub const FRESH: Patience = Patience {
        spins: 0,
        keep: true,
    };

    /// How a call goes on where it was refused and saw this value: it spins, asks its wait closure, or gives up.
    #[inline(always)]
    pub fn refused<T>(&self, seen: u64) -> After<T, Patience>
        ensures { result ≡ refused self.now seen }
    {
        if !self.keep {
            After::Ends(Answer::Interrupted)
        } else if self.spins < SPIN_REPETITIONS {
            After::At(Patience {
                spins: self.spins + 1,
                keep: self.keep,
            })
        } else {
            After::Waits(*self, seen)
        }
    }

    /// The same after the wait closure has answered.
    #[inline(always)]
    pub fn answered(&self, action: WaitAction) -> Patience
        ensures { result ≡ answered self.now action }
    {
        Patience {
            spins: self.spins,
            keep: self.keep && action == WaitAction::Continue,
        }
    }
}
