//! The running writer-preferring lock.
ghost use Rattle.std.specs.Prelude.{◌≡◌};
ghost use Rattle.running_rw_writer.specs.RwWriterShown.{IsRwWriterPass, IsAlone, HasStayed, HasUnlocked};
ghost use Rattle.running_rw_hold.specs.RwShown.{pass_of, borrow_of};

use super::party::{self, Kind, Noted, Party};
use super::{give_up, nothing};
use iceoryx2_pal_concurrency_sync::strategy::rwlock::{
    RwHold, RwLockWriterPreference, RwWriterPass,
};
use iceoryx2_pal_concurrency_sync::{
    WaitAction, WaitResult, WaitWord, in_threads, wake_nobody, yield_and_go_on,
};
use std::sync::Wait;
use std::sync::atomic::{AtomicU64, Ordering};
use std::test::Fail;
use std::thread;
use std::thread::Threads;
use test_signal::{Gathering, Meeting};

/// Locks for reading and unlocks, with a closure that yields and answers `Continue`: that is never interrupted.
fn read_and_unlock<R: Wait>(rt: &R, lock: &RwLockWriterPreference, pass: &mut RwWriterPass)
    requires own { IsRwWriterPass lock.now pass.old }
    ensures stayed { HasStayed pass.old pass.new }
{
    let locked = RwLockWriterPreference::read_lock(pass, lock, rt, yield_and_go_on);
    match locked {
        WaitResult::Success(hold) => {
            lock.unlock(hold, wake_nobody, wake_nobody);
        }
        WaitResult::Interrupted => unreachable!(),
    }
}

/// Locks for writing and unlocks if it was granted, with a closure whose every third answer is `Abort`.
fn write_and_unlock<R: Wait>(
    rt: &R,
    lock: &RwLockWriterPreference,
    pass: &mut RwWriterPass,
    asked: &AtomicU64,
)
    requires own { IsRwWriterPass lock.now pass.old }
    ensures stayed { HasStayed pass.old pass.new }
{
    let locked = RwLockWriterPreference::write_lock(
        pass,
        lock,
        rt,
        |_, _| {
            thread::yield_now();
            if asked.fetch_add(1, Ordering::SeqCst) % 3 == 2 {
                WaitAction::Abort
            } else {
                WaitAction::Continue
            }
        },
        wake_nobody,
        wake_nobody,
    );
    match locked {
        WaitResult::Success(hold) => {
            lock.unlock(hold, wake_nobody, wake_nobody);
        }
        WaitResult::Interrupted => (),
    }
}

/// Locks and unlocks two hundred times for reading.
fn read_often<R: Wait>(
    rt: &R,
    lock: &RwLockWriterPreference,
    mut pass: RwWriterPass,
) -> RwWriterPass
    requires own { IsRwWriterPass lock.now pass }
    ensures stayed { HasStayed pass result }
{
    for _ in 0..200u64 {
        read_and_unlock(rt, lock, &mut pass);
    }
    pass
}

/// Locks two hundred times for writing, and unlocks as often as that was granted.
fn write_often<R: Wait>(
    rt: &R,
    lock: &RwLockWriterPreference,
    mut pass: RwWriterPass,
) -> RwWriterPass
    requires own { IsRwWriterPass lock.now pass }
    ensures stayed { HasStayed pass result }
{
    let asked = AtomicU64::new(0);
    for _ in 0..200u64 {
        write_and_unlock(rt, lock, &mut pass, &asked);
    }
    pass
}

/// Reads or writes so, whichever its turn is.
fn read_or_write_often<R: Wait>(
    rt: &R,
    lock: &RwLockWriterPreference,
    pass: RwWriterPass,
    turns: &AtomicU64,
) -> RwWriterPass
    requires own { IsRwWriterPass lock.now pass }
    ensures stayed { HasStayed pass result }
{
    if turns.fetch_add(1, Ordering::SeqCst) % 2 == 0 {
        read_often(rt, lock, pass)
    } else {
        write_often(rt, lock, pass)
    }
}

/// The word that is left after four threads read and four write, each two hundred times: no hold, and no mark.
fn storm<R: Threads + Wait + Sync>(rt: &R, lock: RwLockWriterPreference, pass: RwWriterPass) -> u64
    requires own { IsRwWriterPass lock pass }
    requires alone { IsAlone pass }
    ensures { result ≡ 0 }
{
    let (shared, turns) = (&lock, AtomicU64::new(0));
    let pass = in_threads(
        rt,
        shared,
        pass,
        8,
        &|pass| { read_or_write_often(rt, shared, pass, &turns) },
    );
    lock.close(pass)
}

#[test]
fn a_storm_leaves_no_mark(rt: HostRuntime) -> Result<(), Fail> {
    let (lock, pass) = RwLockWriterPreference::new(rt.alloc())?;
    assert_eq!(rt; storm(&rt, lock, pass), 0);
    Ok(())
}

/// A party at a lock, which reads or writes.
#[derive(Drop)]
struct WriterLockParty<'l> {
    lock: &'l RwLockWriterPreference,
    pass: RwWriterPass,
    kind: Kind,
    ghost own: { IsRwWriterPass lock.now pass },
}

impl<'l> WriterLockParty<'l> {
    /// It, and a party of this kind, each with a part of the pass.
    fn and(self, other: Kind) -> (WriterLockParty<'l>, WriterLockParty<'l>) {
        let WriterLockParty { lock, pass, kind } = self;
        let Ok((one, two)) = pass.split(lock) else {
            unreachable!()
        };
        (party_of(lock, one, kind), party_of(lock, two, other))
    }
}

impl Party for WriterLockParty<'_> {
    fn try_to<T, F: FnOnce() -> T>(&mut self, wakes: &Gathering, act: F) -> Option<T> {
        try_to(self.lock, &mut self.pass, self.kind, wakes, act)
    }

    fn wait_to<T, R: Wait, W: Fn(&WaitWord, &u64) -> WaitAction, F: FnOnce() -> T>(
        &mut self,
        rt: &R,
        wait: W,
        wakes: &Gathering,
        act: F,
    ) -> Option<T> {
        wait_to(rt, self.lock, &mut self.pass, self.kind, wait, wakes, act)
    }
}

/// Unlocks. The wake closures are gathered.
fn unlock_gathered<'p>(
    hold: RwHold<'p, RwWriterPass>,
    lock: &RwLockWriterPreference,
    wakes: &Gathering,
) -> &'p mut RwWriterPass
    requires own { IsRwWriterPass lock.now (pass_of hold) }
    ensures same_borrow { result.ghost_name ≡ borrow_of hold.entry }
    ensures released { HasUnlocked hold.entry result.now }
{
    lock.unlock(
        hold,
        |counter| wakes.wake_one(counter.load()),
        |word| wakes.wake_all(word.load()),
    )
}

/// Tries to lock, acts while it has the hold, and unlocks: a party's `try_to`.
fn try_to<T, F: FnOnce() -> T>(
    lock: &RwLockWriterPreference,
    pass: &mut RwWriterPass,
    kind: Kind,
    wakes: &Gathering,
    act: F,
) -> Option<T>
    requires own { IsRwWriterPass lock.now pass.old }
    requires may { F.IsAlwaysCallable act }
    ensures stayed { HasStayed pass.old pass.new }
{
    match kind {
        Kind::Read => {
            match RwLockWriterPreference::try_read_lock(pass, lock) {
                WaitResult::Success(hold) => {
                    let acted = act();
                    unlock_gathered(hold, lock, wakes);
                    Some(acted)
                }
                WaitResult::Interrupted => None,
            }
        }
        Kind::Write => {
            match RwLockWriterPreference::try_write_lock(pass, lock) {
                WaitResult::Success(hold) => {
                    let acted = act();
                    unlock_gathered(hold, lock, wakes);
                    Some(acted)
                }
                WaitResult::Interrupted => None,
            }
        }
    }
}

/// The same by `read_lock` and `write_lock`.
fn wait_to<T, R: Wait, W: Fn(&WaitWord, &u64) -> WaitAction, F: FnOnce() -> T>(
    rt: &R,
    lock: &RwLockWriterPreference,
    pass: &mut RwWriterPass,
    kind: Kind,
    wait: W,
    wakes: &Gathering,
    act: F,
) -> Option<T>
    requires own { IsRwWriterPass lock.now pass.old }
    requires may { W.IsAlwaysCallable wait × F.IsAlwaysCallable act }
    ensures stayed { HasStayed pass.old pass.new }
{
    let wake_one = |counter: &WaitWord| wakes.wake_one(counter.load());
    let wake_all = |word: &WaitWord| wakes.wake_all(word.load());
    match kind {
        Kind::Read => {
            match RwLockWriterPreference::read_lock(pass, lock, rt, wait) {
                WaitResult::Success(hold) => {
                    let acted = act();
                    unlock_gathered(hold, lock, wakes);
                    Some(acted)
                }
                WaitResult::Interrupted => None,
            }
        }
        Kind::Write => {
            let locked = RwLockWriterPreference::write_lock(
                pass, lock, rt, wait, wake_one, wake_all,
            );
            match locked {
                WaitResult::Success(hold) => {
                    let acted = act();
                    unlock_gathered(hold, lock, wakes);
                    Some(acted)
                }
                WaitResult::Interrupted => None,
            }
        }
    }
}

/// A party at this lock with this pass.
fn party_of(lock: &RwLockWriterPreference, pass: RwWriterPass, kind: Kind) -> WriterLockParty<'_>
    requires own { IsRwWriterPass lock.now pass }
{
    WriterLockParty { lock, pass, kind }
}

/// Who meets, and what the other is told there: a reader beside a reader enters, and nobody else beside anybody. A writer is told the
/// count, and not the word.
#[test]
fn only_readers_enter_together(rt: HostRuntime) -> Result<(), Fail> {
    let let_in = (false, (false, (0, 0, 0)), false);
    for (held, asked, answers) in [
        (Kind::Read, Kind::Read, let_in),
        (Kind::Read, Kind::Write, (true, (true, (1, 0, 0)), false)),
        (
            Kind::Write,
            Kind::Read,
            (true, (true, (1, u64::MAX, u64::MAX)), false),
        ),
        (Kind::Write, Kind::Write, (true, (true, (1, 0, 0)), false)),
    ] {
        let (lock, pass) = RwLockWriterPreference::new(rt.alloc())?;
        let (mut holder, mut other) = party_of(&lock, pass, held).and(asked);
        let seen = party::refused_beside(&rt, &mut holder, &mut other);
        assert_eq!(rt; seen, Some(answers));
    }
    Ok(())
}

/// While one has the lock: what a writer is told that gives up, and whether its pass is then refused to read. Its closures are gathered.
fn give_up_beside<R: Wait>(
    rt: &R,
    holder: &mut WriterLockParty<'_>,
    writer: &mut WriterLockParty<'_>,
    closures: &Gathering,
) -> Option<((bool, Noted), bool)> {
    holder.try_to(&Gathering::new(), || {
        let waited = party::wait_and_abort(rt, writer, closures);
        writer.kind = Kind::Read;
        let refused = party::is_refused(writer);
        writer.kind = Kind::Write;
        (waited, refused)
    })
}

/// A writer beside a reader asks, and gives up: it takes its mark away, wakes one and then all. So a reader enters, and a writer once the
/// first has left. A writer that waits is told the count: the first 0, and one that comes after one has given up and another has left 2.
#[test]
fn abort_wakes_and_counts(rt: HostRuntime) -> Result<(), Fail> {
    let (lock, pass) = RwLockWriterPreference::new(rt.alloc())?;
    let (mut reader, mut writer) = party_of(&lock, pass, Kind::Read).and(Kind::Write);
    for (told, called) in [(0, (123, 12)), (2, (123, 232))] {
        let closures = Gathering::new();
        let answers = give_up_beside(&rt, &mut reader, &mut writer, &closures);
        let gave_up = ((true, (1, told, told)), false);
        assert_eq!(rt; (answers, closures.gathered()), (Some(gave_up), called));
        assert!(rt; !party::is_refused(&mut writer));
    }
    Ok(())
}

/// A writer that gives up beside a writer sets no mark, and so wakes nobody.
#[test]
fn abort_beside_a_writer_wakes_nobody(rt: HostRuntime) -> Result<(), Fail> {
    let (lock, pass) = RwLockWriterPreference::new(rt.alloc())?;
    let (mut holder, mut writer) = party_of(&lock, pass, Kind::Write).and(Kind::Write);
    let closures = Gathering::new();
    let answers = give_up_beside(&rt, &mut holder, &mut writer, &closures);
    assert_eq!(rt;
        (answers, closures.gathered()),
        (Some(((true, (1, 0, 0)), true)), (1, 0))
    );
    Ok(())
}

/// Whether a writer gives up while a reader is in, which then leaves.
fn gives_up_beside_a_reader<R: Wait>(
    rt: &R,
    lock: &RwLockWriterPreference,
    reader: &mut RwWriterPass,
    writer: &mut RwWriterPass,
) -> bool
    requires own { IsRwWriterPass lock.now reader.old × IsRwWriterPass lock.now writer.old }
    ensures stayed { HasStayed reader.old reader.new × HasStayed writer.old writer.new }
{
    match RwLockWriterPreference::try_read_lock(reader, lock) {
        WaitResult::Success(hold) => {
            let wakes = Gathering::new();
            let wrote = wait_to(rt, lock, writer, Kind::Write, give_up, &wakes, nothing);
            lock.unlock(hold, wake_nobody, wake_nobody);
            wrote.is_none()
        }
        WaitResult::Interrupted => false,
    }
}

/// Whether it gives up so, and the word that is left of the lock then.
#[tactic(auto, using(running_rw_hold::proofs::RwJoins::nobody_joins))]
fn give_up_and_close<R: Wait>(
    rt: &R,
    lock: RwLockWriterPreference,
    pass: RwWriterPass,
) -> (bool, u64)
    requires own { IsRwWriterPass lock pass }
    requires alone { IsAlone pass }
    ensures free { result.1 ≡ 0 }
{
    let Ok((mut one, mut two)) = pass.split(&lock) else {
        unreachable!()
    };
    let gave_up = gives_up_beside_a_reader(rt, &lock, &mut one, &mut two);
    let Ok(pass) = RwWriterPass::join(one, two, &lock) else {
        unreachable!()
    };
    (gave_up, lock.close(pass))
}

#[test]
fn a_writer_that_gave_up_leaves_no_mark(rt: HostRuntime) -> Result<(), Fail> {
    let (lock, pass) = RwLockWriterPreference::new(rt.alloc())?;
    assert_eq!(rt; give_up_and_close(&rt, lock, pass), (true, 0));
    Ok(())
}

/// Asked for with a closure that would give up, a free lock is granted. A reader wakes nobody where no mark is set. A writer wakes one, and
/// then all, after its store of 0 and its count.
#[test]
fn a_free_lock_is_granted_unasked(rt: HostRuntime) -> Result<(), Fail> {
    let (lock, pass) = RwLockWriterPreference::new(rt.alloc())?;
    let (mut reader, mut writer) = party_of(&lock, pass, Kind::Read).and(Kind::Write);
    let (by_reader, by_writer) = (Gathering::new(), Gathering::new());
    let read = party::wait_and_abort(&rt, &mut reader, &by_reader);
    let written = party::wait_and_abort(&rt, &mut writer, &by_writer);
    let unasked = (false, (0, 0, 0));
    assert_eq!(rt; (read, written), (unasked, unasked));
    let woken = (by_reader.gathered(), by_writer.gathered());
    assert_eq!(rt; woken, ((0, 0), (23, 10)));
    Ok(())
}

#[test]
fn two_calls_meet_and_success_after_abort(rt: HostRuntime) -> Result<(), Fail> {
    for (kind, action, told) in [
        (Kind::Read, WaitAction::Abort, u64::MAX),
        (Kind::Write, WaitAction::Abort, 0),
        (Kind::Read, WaitAction::Continue, u64::MAX),
        (Kind::Write, WaitAction::Continue, 0),
    ] {
        let (lock, pass) = RwLockWriterPreference::new(rt.alloc())?;
        let (mut holder, mut other) = party_of(&lock, pass, Kind::Write).and(kind);
        let met_and_noted = party::let_in_beside(&rt, &mut holder, &mut other, Some(action));
        assert_eq!(rt; met_and_noted, (true, (true, (1, told, told))));
    }
    Ok(())
}

/// Reads until a writer waits in the other thread, and unlocks. Whether a reader that came then was refused, and whether the writer came.
fn read_until_asked(
    reader: &mut WriterLockParty<'_>,
    late: &mut WriterLockParty<'_>,
    wakes: &Gathering,
    meeting: &Meeting,
) -> Option<(bool, bool)> {
    let (was_asked, refused) = reader.try_to(wakes, || {
        let was_asked = meeting.meet() && meeting.meet();
        (was_asked, party::is_refused(late))
    })?;
    Some((refused, was_asked && meeting.meet()))
}

/// While a writer waits, a reader that comes is refused. The last reader that leaves counts and wakes one, and the writer enters at the
/// mark, whatever its closure answers.
#[test]
fn the_last_reader_wakes_the_writer(rt: HostRuntime) -> Result<(), Fail> {
    for action in [WaitAction::Abort, WaitAction::Continue] {
        let (lock, pass) = RwLockWriterPreference::new(rt.alloc())?;
        let (mut reader, others) = party_of(&lock, pass, Kind::Read).and(Kind::Write);
        let (mut writer, mut late) = others.and(Kind::Read);
        let wakes = Gathering::new();
        let meeting = Meeting::of(2);
        let refused_and_noted = thread::join(
            &rt,
            || read_until_asked(&mut reader, &mut late, &wakes, &meeting),
            || party::wait_for_unlock(&rt, &mut writer, &meeting, Some(action)),
        );
        assert_eq!(rt;
            (refused_and_noted, wakes.gathered()),
            ((Some((true, true)), (true, (1, 0, 0))), (2, 1))
        );
    }
    Ok(())
}
