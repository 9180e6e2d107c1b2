//! What is tested of each lock, whichever way it is locked: that a party tries, waits, gives up, and is let in after that.

use super::nothing;
use iceoryx2_pal_concurrency_sync::{WaitAction, WaitWord};
use std::sync::Wait;
use std::thread;
use std::thread::Threads;
use test_signal::{Gathering, Meeting, Notes};

/// A party at a lock, with a part of its pass, and the one way in which it locks.
pub(super) trait Party {
    /// Tries to lock. What `act` gave if that succeeded; then it has unlocked too. Its wake closures are gathered.
    fn try_to<T, F: FnOnce() -> T>(&mut self, wakes: &Gathering, act: F) -> Option<T>
        requires may { F.IsAlwaysCallable act };

    /// Locks with this wait closure, likewise.
    fn wait_to<T, R: Wait, W: Fn(&WaitWord, &u64) -> WaitAction, F: FnOnce() -> T>(
        &mut self,
        rt: &R,
        wait: W,
        wakes: &Gathering,
        act: F,
    ) -> Option<T>
        requires may { W.IsAlwaysCallable wait × F.IsAlwaysCallable act };
}

/// Which lock of a reader-writer lock is asked for.
#[derive(Clone, Copy)]
pub(super) enum Kind {
    Read,
    Write,
}

/// How many calls there were of a wait closure, and what its word held and it was told at the first.
pub(super) type Noted = (u64, u64, u64);

/// Whether a try is refused now.
pub(super) fn is_refused<P: Party>(party: &mut P) -> bool {
    let tried = party.try_to(&Gathering::new(), nothing);
    tried.is_none()
}

/// A call that waits, and whose wait closure answers `Abort` at once: whether it was interrupted, and what the closure noted. Its closures
/// are gathered, that one too.
pub(super) fn wait_and_abort<P: Party, R: Wait>(
    rt: &R,
    party: &mut P,
    gathering: &Gathering,
) -> (bool, Noted) {
    let notes = Notes::new();
    let waited = party.wait_to(
        rt,
        |word, seen| {
            notes.note(word.load(), *seen);
            gathering.wait(*seen);
            WaitAction::Abort
        },
        gathering,
        nothing,
    );
    (waited.is_none(), notes.noted())
}

/// While `holder` has the lock: whether a try of `other` is refused, and what it does that waits and gives up. Then whether it is refused
/// afterwards.
pub(super) fn refused_beside<P: Party, Q: Party, R: Wait>(
    rt: &R,
    holder: &mut P,
    other: &mut Q,
) -> Option<(bool, (bool, Noted), bool)> {
    let beside = holder.try_to(&Gathering::new(), || {
        let tried = is_refused(other);
        (tried, wait_and_abort(rt, other, &Gathering::new()))
    });
    let (tried, waited) = beside?;
    Some((tried, waited, is_refused(other)))
}

/// What the wake closures are told of a lock that is let go.
pub(super) fn woken<P: Party>(party: &mut P) -> Option<(u64, u64)> {
    let wakes = Gathering::new();
    let tried = party.try_to(&wakes, nothing);
    tried.is_some().then_some(wakes.gathered())
}

/// Holds the lock until the other thread asks, or its call is over. Whether that came.
pub(super) fn hold_until_asked<P: Party>(
    party: &mut P,
    wakes: &Gathering,
    meeting: &Meeting,
) -> bool {
    let was_asked = party.try_to(wakes, || meeting.meet() && meeting.meet());
    was_asked == Some(true) && meeting.meet()
}

/// Waits once the other thread has the lock. The wait closure answers so once that has unlocked; without an answer it answers `Abort` at
/// once, and the other holds the lock until the call is over. Whether the call succeeded, and what the closure noted.
pub(super) fn wait_for_unlock<P: Party, R: Wait>(
    rt: &R,
    party: &mut P,
    meeting: &Meeting,
    answer: Option<WaitAction>,
) -> (bool, Noted) {
    let notes = Notes::new();
    let is_locked = meeting.meet();
    let waited = party.wait_to(
        rt,
        |word, seen| {
            notes.note(word.load(), *seen);
            match answer {
                Some(action) if meeting.meet() && meeting.meet() => action,
                _ => WaitAction::Abort,
            }
        },
        &Gathering::new(),
        nothing,
    );
    let is_over = answer.is_some() || meeting.meet() && meeting.meet();
    (is_locked && is_over && waited.is_some(), notes.noted())
}

/// One thread holds the lock, and another waits for it with a closure that answers so: whether the holder let go when it was to, whether
/// the other came in, and what the closure noted. So both calls are under way at once; and the other looks once more, whatever its closure
/// answers once it is free.
pub(super) fn let_in_beside<P: Party + Send, Q: Party + Send, R: Threads + Wait + Sync>(
    rt: &R,
    holder: &mut P,
    other: &mut Q,
    answer: Option<WaitAction>,
) -> (bool, (bool, Noted)) {
    let meeting = Meeting::of(2);
    thread::join(
        rt,
        || hold_until_asked(holder, &Gathering::new(), &meeting),
        || wait_for_unlock(rt, other, &meeting, answer),
    )
}
