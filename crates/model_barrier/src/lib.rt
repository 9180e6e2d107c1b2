//! The barrier: its word has the number of rounds that were opened, modulo 2^32, in its upper half, and in its lower half how
//! many have arrived in the round that is not full.
#![tactic(auto)]

ghost use Rattle.std.specs.Prelude.{◌≡◌, ◌≤◌, ◌<◌, ◌+◌, ◌^◌, Option, ℕ, List};
ghost use Rattle.model_events.specs.declared.event.Event.{Event as AnEvent};
ghost use Rattle.model_events.specs.Arithmetic.{Arithmetic};
ghost use Rattle.model_events.specs.Runs.{IsPast};
ghost use Rattle.model_barrier.specs.Rounds.{epoch_of, count_of, opened};
ghost use Rattle.model_barrier.specs.Table.{barrier_begins, barrier_intent, barrier_after, look, joined, stay, barrier_table};
ghost use Rattle.model_barrier.specs.Law.{KeepsBarrier};

use model_events::WaitAction;
use model_events::event::{Answer, Call, Wake, Word};
use model_events::patience::Patience;
use model_events::row::{After, Intent};

/// The word after an arrival, where fewer than so many have arrived; `None` where there is no place for one more, as at a
/// barrier of 0. The arrival that fills the round opens the next one.
#[inline(always)]
pub fn arrived(word: u64, number_of_waiters: u32) -> Option<u64>
    ensures full { number_of_waiters ≤ count_of word → result ≡ None }
    ensures joins { count_of word + 1 < number_of_waiters → result ≡ Some (word + 1) }
    ensures opens { count_of word + 1 ≡ number_of_waiters → result ≡ Some (opened word) }
{
    let count = count_of(word) + 1;
    let all = u64::from(number_of_waiters);
    if count == all {
        Some(opened(word))
    } else if count < all {
        Some(word + 1)
    } else {
        None
    }
}

/// The word when the next round opens: the next epoch, and nobody has arrived.
#[inline(always)]
pub fn opened(word: u64) -> u64
    ensures { result ≡ opened word }
{
    (epoch_of(word) + 1) % (1 << 32) * (1 << 32)
}

/// How many rounds were opened, modulo 2^32.
#[inline(always)]
pub fn epoch_of(word: u64) -> u64
    ensures { result ≡ epoch_of word }
{
    word >> 32
}

/// How many have arrived in the round that is not full.
#[inline(always)]
pub fn count_of(word: u64) -> u64
    ensures { result ≡ count_of word }
{
    word % (1 << 32)
}

/// Where a party is in its call at a barrier; each place is named for its next step.
#[derive(Clone, Copy, PartialEq, Eq)]
pub enum BarrierPlace {
    /// The load of a call that has not arrived.
    Look {
        number_of_waiters: u32,
    },
    /// The exchange that arrives, from the value seen.
    Arrive {
        number_of_waiters: u32,
        seen: u64,
        to: u64,
    },
    /// The wake of the arrival that filled its round.
    Wake,
    /// The load of a call that has arrived, and stays while it sees the epoch of its arrival.
    Stay {
        epoch: u64,
        spins: u64,
    },
}

impl BarrierPlace {
    /// Where a call begins at a barrier of so many, if a barrier has it.
    #[inline(always)]
    pub fn begin<T>(call: &Call<T>, number_of_waiters: u32) -> Option<BarrierPlace>
        ensures { result ≡ barrier_begins number_of_waiters call.now }
    {
        match call {
            Call::Wait => Some(BarrierPlace::Look { number_of_waiters }),
            _ => None,
        }
    }

    /// What the step is to do, at a barrier with this word.
    #[inline(always)]
    pub fn intent<T>(&self, word: Word) -> Intent<T>
        ensures { result ≡ barrier_intent word self.now }
    {
        match self {
            BarrierPlace::Look { .. } | BarrierPlace::Stay { .. } => Intent::Load(word),
            BarrierPlace::Arrive { seen, to, .. } => Intent::Exchange {
                word,
                from: *seen,
                to: *to,
            },
            BarrierPlace::Wake => Intent::Wake(Wake::All),
        }
    }

    /// How the call goes on, by what the step told.
    #[inline(always)]
    pub fn after<T>(&self, told: Option<u64>) -> After<T, BarrierPlace>
        ensures { result ≡ barrier_after self.now told }
    {
        let found = told.unwrap_or(0);
        match self {
            BarrierPlace::Look { number_of_waiters } => look(*number_of_waiters, found),
            BarrierPlace::Arrive {
                number_of_waiters,
                seen,
                ..
            } => {
                if found == *seen {
                    joined(*number_of_waiters, *seen)
                } else {
                    look(*number_of_waiters, found)
                }
            }
            BarrierPlace::Wake => After::Ends(Answer::Ok),
            BarrierPlace::Stay { epoch, spins } => stay(*epoch, *spins, found),
        }
    }

    /// Where the call goes on once its wait closure has answered: where it was, since both answers mean the same.
    #[inline(always)]
    pub fn answered(&self, _action: WaitAction) -> BarrierPlace
        ensures { result ≡ self.now }
    {
        *self
    }
}

/// After a look a call is refused where there is no place for it, and else arrives.
#[inline(always)]
fn look<T>(number_of_waiters: u32, seen: u64) -> After<T, BarrierPlace>
    ensures { result ≡ look number_of_waiters seen }
{
    match arrived(seen, number_of_waiters) {
        Some(to) => After::At(BarrierPlace::Arrive {
            number_of_waiters,
            seen,
            to,
        }),
        None => After::Ends(Answer::Full),
    }
}

/// After its arrival a call wakes all where it filled its round, and else stays.
#[inline(always)]
fn joined<T>(number_of_waiters: u32, seen: u64) -> After<T, BarrierPlace>
    ensures { result ≡ joined number_of_waiters seen }
{
    if count_of(seen) + 1 == u64::from(number_of_waiters) {
        After::At(BarrierPlace::Wake)
    } else {
        After::At(BarrierPlace::Stay {
            epoch: epoch_of(seen),
            spins: 0,
        })
    }
}

/// A call that has arrived spins or asks where it sees the epoch of its arrival, and has else passed.
#[inline(always)]
fn stay<T>(epoch: u64, spins: u64, seen: u64) -> After<T, BarrierPlace>
    ensures { result ≡ stay epoch spins seen }
{
    if epoch_of(seen) != epoch {
        return After::Ends(Answer::Ok);
    }
    let patience = Patience { spins, keep: true };
    patience
        .refused(seen)
        .within(|patience| BarrierPlace::Stay {
            epoch,
            spins: patience.spins,
        })
}

/// What holds at every prefix of every run of a barrier, of any number of parties. It says so of the definitions alone, and
/// does nothing.
pub fn at_every_prefix<T>()
    ensures { (z : Arithmetic T) (n parties : ℕ) (past : List (AnEvent T)) → n < 2 ^ 32 →
        IsPast z (barrier_table n) parties past → KeepsBarrier n past }
{}
