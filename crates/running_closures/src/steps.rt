//! The steps of the event count, in their order, whatever makes them.
ghost use Rattle.running_closures.specs.Steps.{HasSlept, HasWoken};

use model_events::event::Wake;
use running_passes::low_half;

/// One that may be asleep, in the high half of the word.
pub(crate) const ONE: u64 = 1 << 32;

/// A step of a sleep.
#[derive(Clone, Copy, Drop)]
pub enum SleepStep {
    /// Counts itself in, and takes the epoch, which is the low half of the word as it was.
    Comes,
    /// Looks at the watched word.
    Looks,
    /// Counts itself out, if the epoch is still this one.
    Turns { epoch: u32 },
    /// Sleeps, if the epoch is still this one.
    Parks { epoch: u32 },
}

/// A step of a wake.
#[derive(Clone, Copy, Drop)]
pub enum WakeStep {
    /// Reads the word.
    Reads,
    /// Counts one out, or all, and moves the epoch on, unless nobody is counted.
    CountsOut(Wake),
    /// Has the system wake one, or all.
    Asks(Wake),
}

/// The steps of one sleep until the watched word is no longer `seen`. Each answers the word that it is at, as it was. Gives back what made them.
#[inline(always)]
pub fn sleep_by<S: FnMut(SleepStep) -> u64>(seen: u64, step: S) -> S
    requires may { S.IsAlwaysCallable step }
    ensures slept { HasSlept S.FnMut seen step result }
{
    let mut made = step;
    let epoch = low_half(made(SleepStep::Comes));
    if made(SleepStep::Looks) == seen {
        made(SleepStep::Parks { epoch });
    } else {
        made(SleepStep::Turns { epoch });
    }
    made
}

/// The steps of one wake. Each answers the word, as it was. Gives back what made them.
#[inline(always)]
pub fn wake_by<S: FnMut(WakeStep) -> u64>(wake: Wake, step: S) -> S
    requires may { S.IsAlwaysCallable step }
    ensures woken { HasWoken S.FnMut wake step result }
{
    let mut made = step;
    if made(WakeStep::Reads) >= ONE && made(WakeStep::CountsOut(wake)) >= ONE {
        made(WakeStep::Asks(wake));
    }
    made
}
