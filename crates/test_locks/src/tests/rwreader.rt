//! The running reader-preferring lock.
ghost use Rattle.std.specs.Prelude.{◌≡◌, ◌+◌, false};
ghost use Rattle.running_passes.specs.Passes.{IsSamePass, sights_of};
ghost use Rattle.running_rw_reader.specs.RwReaderShown.{IsRwReaderPass, IsAlone, HasStayed, HasUnlocked};
ghost use Rattle.running_rw_hold.specs.RwShown.{pass_of, borrow_of};

use super::party::{self, Kind, Noted, Party};
use super::{give_up, nothing};
use iceoryx2_pal_concurrency_sync::strategy::rwlock::{
    RwHold, RwLockReaderPreference, RwReaderPass,
};
use iceoryx2_pal_concurrency_sync::{
    WaitAction, WaitResult, WaitWord, wake_nobody, yield_and_go_on,
};
use std::sync::Wait;
use std::test::Fail;
use std::thread;
use std::thread::Threads;
use test_signal::{Gathering, Meeting};

/// Locks for reading and unlocks, with closures that yield and answer `Continue`: that is never interrupted.
fn read_and_unlock<R: Wait>(rt: &R, lock: &RwLockReaderPreference, pass: &mut RwReaderPass)
    requires own { IsRwReaderPass lock.now pass.old }
    ensures stayed { HasStayed pass.old pass.new }
{
    let locked = RwLockReaderPreference::read_lock(pass, lock, rt, yield_and_go_on);
    match locked {
        WaitResult::Success(hold) => {
            lock.unlock(hold, wake_nobody);
        }
        WaitResult::Interrupted => unreachable!(),
    }
}

/// Locks for writing and unlocks, in the same way.
fn write_and_unlock<R: Wait>(rt: &R, lock: &RwLockReaderPreference, pass: &mut RwReaderPass)
    requires own { IsRwReaderPass lock.now pass.old }
    ensures stayed { HasStayed pass.old pass.new }
{
    let locked = RwLockReaderPreference::write_lock(pass, lock, rt, yield_and_go_on);
    match locked {
        WaitResult::Success(hold) => {
            lock.unlock(hold, wake_nobody);
        }
        WaitResult::Interrupted => unreachable!(),
    }
}

/// Locks and unlocks a hundred times, each time for reading and then for writing.
fn lock_and_unlock_often<R: Wait>(
    rt: &R,
    lock: &RwLockReaderPreference,
    mut pass: RwReaderPass,
) -> RwReaderPass
    requires own { IsRwReaderPass lock.now pass }
    ensures stayed { HasStayed pass result }
{
    for _ in 0..100u64 {
        read_and_unlock(rt, lock, &mut pass);
        write_and_unlock(rt, lock, &mut pass);
    }
    pass
}

/// Two threads read and write in turn. After the join the word is 0.
#[tactic(auto, using(running_rw_hold::proofs::RwJoins::nobody_joins))]
fn lock_in_two_threads<R: Threads + Wait + Sync>(
    rt: &R,
    lock: RwLockReaderPreference,
    pass: RwReaderPass,
) -> u64
    requires own { IsRwReaderPass lock pass }
    requires alone { IsAlone pass }
    ensures { result ≡ 0 }
{
    let Ok((one, two)) = pass.split(&lock) else {
        unreachable!()
    };
    let shared = &lock;
    let (one, two) = thread::join(
        rt,
        || -> RwReaderPass
            requires { IsRwReaderPass shared.now one }
            ensures { HasStayed one result }
        { lock_and_unlock_often(rt, shared, one) },
        || -> RwReaderPass
            requires { IsRwReaderPass shared.now two }
            ensures { HasStayed two result }
        { lock_and_unlock_often(rt, shared, two) },
    );
    let Ok(pass) = RwReaderPass::join(one, two, &lock) else {
        unreachable!()
    };
    lock.close(pass)
}

#[test]
fn two_threads_read_and_write_in_turn(rt: HostRuntime) -> Result<(), Fail> {
    let (lock, pass) = RwLockReaderPreference::new(rt.alloc())?;
    assert_eq!(rt; lock_in_two_threads(&rt, lock, pass), 0);
    Ok(())
}

/// A party at a lock, which reads or writes.
#[derive(Drop)]
struct ReaderLockParty<'l> {
    lock: &'l RwLockReaderPreference,
    pass: RwReaderPass,
    kind: Kind,
    ghost own: { IsRwReaderPass lock.now pass },
}

impl<'l> ReaderLockParty<'l> {
    /// It, and a party of this kind, each with a part of the pass.
    fn and(self, other: Kind) -> (ReaderLockParty<'l>, ReaderLockParty<'l>) {
        let ReaderLockParty { lock, pass, kind } = self;
        let Ok((one, two)) = pass.split(lock) else {
            unreachable!()
        };
        (party_of(lock, one, kind), party_of(lock, two, other))
    }
}

impl Party for ReaderLockParty<'_> {
    fn try_to<T, F: FnOnce() -> T>(&mut self, wakes: &Gathering, act: F) -> Option<T> {
        try_to(self.lock, &mut self.pass, self.kind, wakes, act)
    }

    fn wait_to<T, R: Wait, W: Fn(&WaitWord, &u64) -> WaitAction, F: FnOnce() -> T>(
        &mut self,
        rt: &R,
        wait: W,
        wakes: &Gathering,
        act: F,
    ) -> Option<T> {
        wait_to(rt, self.lock, &mut self.pass, self.kind, wait, wakes, act)
    }
}

/// Unlocks. The wake closures are gathered.
fn unlock_gathered<'p>(
    hold: RwHold<'p, RwReaderPass>,
    lock: &RwLockReaderPreference,
    wakes: &Gathering,
) -> &'p mut RwReaderPass
    requires own { IsRwReaderPass lock.now (pass_of hold) }
    ensures same_borrow { result.ghost_name ≡ borrow_of hold.entry }
    ensures released { HasUnlocked hold.entry result.now }
{
    lock.unlock(hold, |word| wakes.wake_one(word.load()))
}

/// Tries to lock, acts while it has the hold, and unlocks: a party's `try_to`.
fn try_to<T, F: FnOnce() -> T>(
    lock: &RwLockReaderPreference,
    pass: &mut RwReaderPass,
    kind: Kind,
    wakes: &Gathering,
    act: F,
) -> Option<T>
    requires own { IsRwReaderPass lock.now pass.old }
    requires may { F.IsAlwaysCallable act }
    ensures stayed { HasStayed pass.old pass.new }
{
    match kind {
        Kind::Read => {
            match RwLockReaderPreference::try_read_lock(pass, lock) {
                WaitResult::Success(hold) => {
                    let acted = act();
                    unlock_gathered(hold, lock, wakes);
                    Some(acted)
                }
                WaitResult::Interrupted => None,
            }
        }
        Kind::Write => {
            match RwLockReaderPreference::try_write_lock(pass, lock) {
                WaitResult::Success(hold) => {
                    let acted = act();
                    unlock_gathered(hold, lock, wakes);
                    Some(acted)
                }
                WaitResult::Interrupted => None,
            }
        }
    }
}

/// The same by `read_lock` and `write_lock`.
fn wait_to<T, R: Wait, W: Fn(&WaitWord, &u64) -> WaitAction, F: FnOnce() -> T>(
    rt: &R,
    lock: &RwLockReaderPreference,
    pass: &mut RwReaderPass,
    kind: Kind,
    wait: W,
    wakes: &Gathering,
    act: F,
) -> Option<T>
    requires own { IsRwReaderPass lock.now pass.old }
    requires may { W.IsAlwaysCallable wait × F.IsAlwaysCallable act }
    ensures stayed { HasStayed pass.old pass.new }
{
    match kind {
        Kind::Read => {
            match RwLockReaderPreference::read_lock(pass, lock, rt, wait) {
                WaitResult::Success(hold) => {
                    let acted = act();
                    unlock_gathered(hold, lock, wakes);
                    Some(acted)
                }
                WaitResult::Interrupted => None,
            }
        }
        Kind::Write => {
            match RwLockReaderPreference::write_lock(pass, lock, rt, wait) {
                WaitResult::Success(hold) => {
                    let acted = act();
                    unlock_gathered(hold, lock, wakes);
                    Some(acted)
                }
                WaitResult::Interrupted => None,
            }
        }
    }
}

/// A party at this lock with this pass.
fn party_of(lock: &RwLockReaderPreference, pass: RwReaderPass, kind: Kind) -> ReaderLockParty<'_>
    requires own { IsRwReaderPass lock.now pass }
{
    ReaderLockParty { lock, pass, kind }
}

/// Who meets, and what the other is told there: a reader beside a reader enters, and nobody else beside anybody.
#[test]
fn only_readers_enter_together(rt: HostRuntime) -> Result<(), Fail> {
    let let_in = (false, (false, (0, 0, 0)), false);
    for (held, asked, answers) in [
        (Kind::Read, Kind::Read, let_in),
        (Kind::Read, Kind::Write, (true, (true, (1, 1, 1)), false)),
        (
            Kind::Write,
            Kind::Read,
            (true, (true, (1, u64::MAX, u64::MAX)), false),
        ),
        (
            Kind::Write,
            Kind::Write,
            (true, (true, (1, u64::MAX, u64::MAX)), false),
        ),
    ] {
        let (lock, pass) = RwLockReaderPreference::new(rt.alloc())?;
        let (mut holder, mut other) = party_of(&lock, pass, held).and(asked);
        let seen = party::refused_beside(&rt, &mut holder, &mut other);
        assert_eq!(rt; seen, Some(answers));
    }
    Ok(())
}

/// While two read: what a third is told that waits to write, and whether it is refused to read. Then whether it is refused to write after
/// one has left, and after both have.
fn beside_two_readers<R: Wait>(
    rt: &R,
    one: &mut ReaderLockParty<'_>,
    two: &mut ReaderLockParty<'_>,
    three: &mut ReaderLockParty<'_>,
) -> Option<(Option<((bool, Noted), bool)>, bool, bool)> {
    let wakes = Gathering::new();
    let (beside_both, beside_one) = one.try_to(&wakes, || {
        let beside_both = two.try_to(&wakes, || {
            let waited = party::wait_and_abort(rt, three, &wakes);
            three.kind = Kind::Read;
            (waited, party::is_refused(three))
        });
        three.kind = Kind::Write;
        (beside_both, party::is_refused(three))
    })?;
    Some((beside_both, beside_one, party::is_refused(three)))
}

#[test]
fn a_writer_enters_after_both_readers_left(rt: HostRuntime) -> Result<(), Fail> {
    let (lock, pass) = RwLockReaderPreference::new(rt.alloc())?;
    let (mut one, others) = party_of(&lock, pass, Kind::Read).and(Kind::Read);
    let (mut two, mut three) = others.and(Kind::Write);
    let answers = beside_two_readers(&rt, &mut one, &mut two, &mut three);
    assert_eq!(rt;
        answers,
        Some((Some(((true, (1, 2, 2)), false)), true, false))
    );
    Ok(())
}

/// Locks for writing, with a closure that never answers `Continue`: a call that gives up has then looked 10002 times.
fn write_or_abort_at_once<R: Wait>(
    rt: &R,
    lock: &RwLockReaderPreference,
    pass: &mut RwReaderPass,
) -> bool
    requires { IsRwReaderPass lock.now pass.old }
    ensures same { IsSamePass pass.old pass.new }
    ensures looked { result ≡ false → (sights_of pass.new).count ≡ (sights_of pass.old).count + 10002 }
{
    let locked = RwLockReaderPreference::write_lock(pass, lock, rt, give_up);
    match locked {
        WaitResult::Success(hold) => {
            lock.unlock(hold, wake_nobody);
            true
        }
        WaitResult::Interrupted => false,
    }
}

/// The same with one half of the pass while the other reads, and after.
fn abort_at_once_beside_a_reader<R: Wait>(
    rt: &R,
    lock: &RwLockReaderPreference,
    pass: RwReaderPass,
) -> Option<(bool, bool)>
    requires { IsRwReaderPass lock.now pass }
{
    let Ok((mut one, mut two)) = pass.split(lock) else {
        unreachable!()
    };
    match RwLockReaderPreference::try_read_lock(&mut one, lock) {
        WaitResult::Success(hold) => {
            let beside = write_or_abort_at_once(rt, lock, &mut two);
            lock.unlock(hold, wake_nobody);
            Some((beside, write_or_abort_at_once(rt, lock, &mut two)))
        }
        WaitResult::Interrupted => None,
    }
}

#[test]
fn gives_up_writing_after_10002_looks(rt: HostRuntime) -> Result<(), Fail> {
    let (lock, pass) = RwLockReaderPreference::new(rt.alloc())?;
    let answers = abort_at_once_beside_a_reader(&rt, &lock, pass);
    assert_eq!(rt; answers, Some((false, true)));
    Ok(())
}

/// Asked for with a closure that would give up, a free lock is granted. Each unlock wakes once, after its write, and leaves 0.
#[test]
fn a_free_lock_is_granted_unasked(rt: HostRuntime) -> Result<(), Fail> {
    let (lock, pass) = RwLockReaderPreference::new(rt.alloc())?;
    let (mut reader, mut writer) = party_of(&lock, pass, Kind::Read).and(Kind::Write);
    let wakes = Gathering::new();
    let read = party::wait_and_abort(&rt, &mut reader, &wakes);
    let written = party::wait_and_abort(&rt, &mut writer, &wakes);
    let unasked = (false, (0, 0, 0));
    assert_eq!(rt;
        (read, written, wakes.gathered()),
        (unasked, unasked, (22, 0))
    );
    Ok(())
}

/// The first of two readers to leave wakes too, and leaves the word at 1.
#[test]
fn a_reader_that_is_not_the_last_wakes(rt: HostRuntime) -> Result<(), Fail> {
    let (lock, pass) = RwLockReaderPreference::new(rt.alloc())?;
    let (mut first, mut second) = party_of(&lock, pass, Kind::Read).and(Kind::Read);
    let woken = first.try_to(&Gathering::new(), || party::woken(&mut second));
    assert_eq!(rt; woken, Some(Some((2, 1))));
    Ok(())
}

#[test]
fn two_calls_meet_and_success_after_abort(rt: HostRuntime) -> Result<(), Fail> {
    for (kind, action) in [
        (Kind::Read, WaitAction::Abort),
        (Kind::Write, WaitAction::Abort),
        (Kind::Read, WaitAction::Continue),
        (Kind::Write, WaitAction::Continue),
    ] {
        let (lock, pass) = RwLockReaderPreference::new(rt.alloc())?;
        let (mut holder, mut other) = party_of(&lock, pass, Kind::Write).and(kind);
        let met_and_noted = party::let_in_beside(&rt, &mut holder, &mut other, Some(action));
        assert_eq!(rt; met_and_noted, (true, (true, (1, u64::MAX, u64::MAX))));
    }
    Ok(())
}

/// Two readers, of which the second leaves once the writer asks, and the first when the writer's call is over. Whether that came.
fn leave_one_by_one(
    first: &mut ReaderLockParty<'_>,
    second: &mut ReaderLockParty<'_>,
    meeting: &Meeting,
) -> Option<bool> {
    let wakes = Gathering::new();
    first.try_to(&wakes, || {
        party::hold_until_asked(second, &wakes, meeting) && meeting.meet()
    })
}

/// What the closure of a `write_lock` that gives up is told at all of its calls. It goes on from the first, once a reader has left.
fn write_until_told_one<R: Wait>(
    rt: &R,
    writer: &mut ReaderLockParty<'_>,
    meeting: &Meeting,
) -> Option<(u64, u64)> {
    let gathering = Gathering::new();
    let are_reading = meeting.meet();
    let waited = writer.wait_to(
        rt,
        |_, seen| {
            gathering.wait(*seen);
            if *seen == 2 && meeting.meet() && meeting.meet() {
                WaitAction::Continue
            } else {
                WaitAction::Abort
            }
        },
        &Gathering::new(),
        nothing,
    );
    let is_over = meeting.meet();
    (waited.is_none() && are_reading && is_over).then_some(gathering.gathered())
}

/// Of two readers one leaves while the writer waits: its closure is told 2, and then 1.
#[test]
fn a_waiting_writer_is_told_what_refused_it_last(rt: HostRuntime) -> Result<(), Fail> {
    let (lock, pass) = RwLockReaderPreference::new(rt.alloc())?;
    let (mut first, others) = party_of(&lock, pass, Kind::Read).and(Kind::Read);
    let (mut second, mut writer) = others.and(Kind::Write);
    let meeting = Meeting::of(2);
    let left_and_told = thread::join(
        &rt,
        || leave_one_by_one(&mut first, &mut second, &meeting),
        || write_until_told_one(&rt, &mut writer, &meeting),
    );
    assert_eq!(rt; left_and_told, (Some(true), Some((11, 21))));
    Ok(())
}
