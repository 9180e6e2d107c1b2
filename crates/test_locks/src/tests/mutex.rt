//! The running mutex.
ghost use Rattle.std.specs.Prelude.{◌≡◌, ◌+◌, false, IfOk};
ghost use Rattle.running_passes.specs.Passes.{sights_of};
ghost use Rattle.running_mutex.specs.MutexShown.{IsMutexPass, IsAlone, HasStayed, HasUnlocked, grants_of, pass_of, borrow_of};

use super::party::{self, Party};
use super::{give_up, nothing};
use iceoryx2_pal_concurrency_sync::strategy::mutex::{Mutex, MutexHold, MutexPass};
use iceoryx2_pal_concurrency_sync::{
    WaitAction, WaitResult, WaitWord, in_threads, wake_nobody, yield_and_go_on,
};
use std::alloc::{AllocError, Global};
use std::sync::Wait;
use std::test::Fail;
use std::thread::Threads;
use test_signal::Gathering;

/// A new mutex, and two parts of its pass.
fn in_two_parts(alloc: Global) -> Result<(Mutex, MutexPass, MutexPass), AllocError>
    ensures own { IfOk result (λ made. IsMutexPass made.0 made.1 × IsMutexPass made.0 made.2) }
{
    let (mutex, pass) = Mutex::new(alloc)?;
    match pass.split(&mutex) {
        Ok((one, two)) => Ok((mutex, one, two)),
        Err(_) => unreachable!(),
    }
}

/// Locks and unlocks, with a wait closure that always goes on: that is never interrupted.
fn lock_and_unlock<R: Wait>(rt: &R, mutex: &Mutex, pass: &mut MutexPass)
    requires own { IsMutexPass mutex.now pass.old }
    ensures stayed { HasStayed pass.old pass.new }
{
    match Mutex::lock(pass, mutex, rt, yield_and_go_on) {
        WaitResult::Success(hold) => {
            mutex.unlock(hold, wake_nobody);
        }
        WaitResult::Interrupted => unreachable!(),
    }
}

fn lock_and_unlock_often<R: Wait>(rt: &R, mutex: &Mutex, mut pass: MutexPass) -> MutexPass
    requires own { IsMutexPass mutex.now pass }
    ensures stayed { HasStayed pass result }
{
    for _ in 0..100u64 {
        lock_and_unlock(rt, mutex, &mut pass);
    }
    pass
}

/// Two threads lock and unlock in turn. After the join the whole pass is granted.
fn lock_in_two_threads<R: Threads + Wait + Sync>(
    rt: &R,
    mutex: &Mutex,
    pass: MutexPass,
) -> MutexPass
    requires own { IsMutexPass mutex.now pass }
    requires alone { IsAlone pass }
    ensures own { IsMutexPass mutex.now result }
    ensures alone { IsAlone result }
{
    let mut pass = in_threads(
        rt,
        mutex,
        pass,
        2,
        &|pass| { lock_and_unlock_often(rt, mutex, pass) },
    );
    match Mutex::try_lock(&mut pass, mutex) {
        WaitResult::Success(hold) => {
            mutex.unlock(hold, wake_nobody);
        }
        WaitResult::Interrupted => unreachable!(),
    }
    pass
}

#[test]
fn two_threads_lock_in_turn(rt: HostRuntime) -> Result<(), Fail> {
    let (mutex, pass) = Mutex::new(rt.alloc())?;
    lock_in_two_threads(&rt, &mutex, pass);
    Ok(())
}

/// A party at a mutex.
#[derive(Drop)]
struct MutexParty<'m> {
    mutex: &'m Mutex,
    pass: MutexPass,
    ghost own: { IsMutexPass mutex.now pass },
}

impl<'m> MutexParty<'m> {
    /// Two parties, each with a part of the pass.
    fn parts(self) -> (MutexParty<'m>, MutexParty<'m>) {
        let MutexParty { mutex, pass } = self;
        let Ok((one, two)) = pass.split(mutex) else {
            unreachable!()
        };
        (party_of(mutex, one), party_of(mutex, two))
    }
}

impl Party for MutexParty<'_> {
    fn try_to<T, F: FnOnce() -> T>(&mut self, wakes: &Gathering, act: F) -> Option<T> {
        try_to(self.mutex, &mut self.pass, wakes, act)
    }

    fn wait_to<T, R: Wait, W: Fn(&WaitWord, &u64) -> WaitAction, F: FnOnce() -> T>(
        &mut self,
        rt: &R,
        wait: W,
        wakes: &Gathering,
        act: F,
    ) -> Option<T> {
        wait_to(rt, self.mutex, &mut self.pass, wait, wakes, act)
    }
}

/// Unlocks. The wake closure is gathered.
fn unlock_gathered<'p>(hold: MutexHold<'p>, mutex: &Mutex, wakes: &Gathering) -> &'p mut MutexPass
    requires own { IsMutexPass mutex.now (pass_of hold) }
    ensures same_borrow { result.ghost_name ≡ borrow_of hold.entry }
    ensures released { HasUnlocked (pass_of hold.entry) result.now }
{
    mutex.unlock(hold, |word| wakes.wake_one(word.load()))
}

/// Tries to lock, acts while it has the hold, and unlocks: a party's `try_to`.
fn try_to<T, F: FnOnce() -> T>(
    mutex: &Mutex,
    pass: &mut MutexPass,
    wakes: &Gathering,
    act: F,
) -> Option<T>
    requires own { IsMutexPass mutex.now pass.old }
    requires may { F.IsAlwaysCallable act }
    ensures stayed { HasStayed pass.old pass.new }
{
    match Mutex::try_lock(pass, mutex) {
        WaitResult::Success(hold) => {
            let acted = act();
            unlock_gathered(hold, mutex, wakes);
            Some(acted)
        }
        WaitResult::Interrupted => None,
    }
}

/// The same by `lock`.
fn wait_to<T, R: Wait, W: Fn(&WaitWord, &u64) -> WaitAction, F: FnOnce() -> T>(
    rt: &R,
    mutex: &Mutex,
    pass: &mut MutexPass,
    wait: W,
    wakes: &Gathering,
    act: F,
) -> Option<T>
    requires own { IsMutexPass mutex.now pass.old }
    requires may { W.IsAlwaysCallable wait × F.IsAlwaysCallable act }
    ensures stayed { HasStayed pass.old pass.new }
{
    match Mutex::lock(pass, mutex, rt, wait) {
        WaitResult::Success(hold) => {
            let acted = act();
            unlock_gathered(hold, mutex, wakes);
            Some(acted)
        }
        WaitResult::Interrupted => None,
    }
}

/// A party at this mutex with this pass.
fn party_of(mutex: &Mutex, pass: MutexPass) -> MutexParty<'_>
    requires own { IsMutexPass mutex.now pass }
{
    MutexParty { mutex, pass }
}

#[test]
fn one_holder_at_a_time(rt: HostRuntime) -> Result<(), Fail> {
    let (mutex, pass) = Mutex::new(rt.alloc())?;
    let (mut holder, mut other) = party_of(&mutex, pass).parts();
    let answers = party::refused_beside(&rt, &mut holder, &mut other);
    assert_eq!(rt; answers, Some((true, (true, (1, 1, 1)), false)));
    Ok(())
}

#[test]
fn a_free_mutex_is_granted_unasked(rt: HostRuntime) -> Result<(), Fail> {
    let (mutex, pass) = Mutex::new(rt.alloc())?;
    let mut alone = party_of(&mutex, pass);
    let wakes = Gathering::new();
    let waited = party::wait_and_abort(&rt, &mut alone, &wakes);
    assert_eq!(rt; (waited, wakes.gathered()), ((false, (0, 0, 0)), (2, 0)));
    Ok(())
}

/// Locks where the mutex is free, with a closure that never answers `Continue`: a call that gives up has then looked 10002 times.
fn lock_or_abort_at_once<R: Wait>(rt: &R, mutex: &Mutex, pass: &mut MutexPass) -> bool
    requires { IsMutexPass mutex.now pass.old }
    ensures stayed { HasStayed pass.old pass.new }
    ensures looked { result ≡ false → (sights_of pass.new).count ≡ (sights_of pass.old).count + 10002 }
{
    let answer = mutex.with_lock(rt, pass, give_up, wake_nobody, nothing);
    match answer {
        WaitResult::Success(()) => true,
        WaitResult::Interrupted => false,
    }
}

/// The same while `one` has the hold.
fn abort_at_once_while_held<R: Wait>(
    rt: &R,
    mutex: &Mutex,
    one: &mut MutexPass,
    two: &mut MutexPass,
) -> Option<bool>
    requires { IsMutexPass mutex.now one.old × IsMutexPass mutex.now two.old }
{
    match Mutex::try_lock(one, mutex) {
        WaitResult::Success(hold) => {
            let locked = lock_or_abort_at_once(rt, mutex, two);
            mutex.unlock(hold, wake_nobody);
            Some(locked)
        }
        WaitResult::Interrupted => None,
    }
}

#[test]
fn gives_up_after_10002_looks(rt: HostRuntime) -> Result<(), Fail> {
    let (mutex, mut one, mut two) = in_two_parts(rt.alloc())?;
    let free = lock_or_abort_at_once(&rt, &mutex, &mut one);
    let held = abort_at_once_while_held(&rt, &mutex, &mut one, &mut two);
    assert_eq!(rt; (free, held), (true, Some(false)));
    Ok(())
}

/// A call that went on after `Abort` would ask again, and lock the mutex once the other thread lets it go.
#[test]
fn an_abort_is_obeyed(rt: HostRuntime) -> Result<(), Fail> {
    let (mutex, pass) = Mutex::new(rt.alloc())?;
    let (mut holder, mut other) = party_of(&mutex, pass).parts();
    let over_and_noted = party::let_in_beside(&rt, &mut holder, &mut other, None);
    assert_eq!(rt; over_and_noted, (true, (false, (1, 1, 1))));
    Ok(())
}

#[test]
fn unlock_wakes_once_after_its_store(rt: HostRuntime) -> Result<(), Fail> {
    let (mutex, pass) = Mutex::new(rt.alloc())?;
    let mut alone = party_of(&mutex, pass);
    assert_eq!(rt; party::woken(&mut alone), Some((2, 0)));
    Ok(())
}

#[test]
fn two_calls_meet_and_success_after_abort(rt: HostRuntime) -> Result<(), Fail> {
    for action in [WaitAction::Abort, WaitAction::Continue] {
        let (mutex, pass) = Mutex::new(rt.alloc())?;
        let (mut holder, mut other) = party_of(&mutex, pass).parts();
        let met_and_noted = party::let_in_beside(&rt, &mut holder, &mut other, Some(action));
        assert_eq!(rt; met_and_noted, (true, (true, (1, 1, 1))));
    }
    Ok(())
}

/// Parts a pass of which nothing is known but that it is whole, in three, and joins them again: that one is granted.
fn part_and_join(mutex: &Mutex, pass: MutexPass) -> MutexPass
    requires own { IsMutexPass mutex.now pass }
    requires alone { IsAlone pass }
    ensures own { IsMutexPass mutex.now result }
    ensures alone { IsAlone result }
{
    let Ok((one, other)) = pass.split(mutex) else {
        unreachable!()
    };
    let Ok((two, three)) = other.split(mutex) else {
        unreachable!()
    };
    let Ok(other) = MutexPass::join(two, three, mutex) else {
        unreachable!()
    };
    let Ok(mut pass) = MutexPass::join(one, other, mutex) else {
        unreachable!()
    };
    match Mutex::try_lock(&mut pass, mutex) {
        WaitResult::Success(hold) => {
            mutex.unlock(hold, wake_nobody);
        }
        WaitResult::Interrupted => unreachable!(),
    }
    pass
}

#[test]
fn parts_are_the_whole_again(rt: HostRuntime) -> Result<(), Fail> {
    let (mutex, pass) = Mutex::new(rt.alloc())?;
    let pass = part_and_join(&mutex, pass);
    let mut whole = party_of(&mutex, pass);
    assert!(rt; !party::is_refused(&mut whole));
    Ok(())
}

/// Parts a pass of which nothing is known but that it is whole, in four, and joins them from left to right: the whole is there again.
fn part_in_four_and_join(mutex: &Mutex, pass: MutexPass) -> MutexPass
    requires own { IsMutexPass mutex.now pass }
    requires alone { IsAlone pass }
    ensures own { IsMutexPass mutex.now result }
    ensures alone { IsAlone result }
{
    let Ok((left, right)) = pass.split(mutex) else {
        unreachable!()
    };
    let Ok((one, two)) = left.split(mutex) else {
        unreachable!()
    };
    let Ok((three, four)) = right.split(mutex) else {
        unreachable!()
    };
    let Ok(pass) = MutexPass::join(one, two, mutex) else {
        unreachable!()
    };
    let Ok(pass) = MutexPass::join(pass, three, mutex) else {
        unreachable!()
    };
    let Ok(pass) = MutexPass::join(pass, four, mutex) else {
        unreachable!()
    };
    pass
}

#[test]
fn four_parts_are_the_whole_from_left_to_right(rt: HostRuntime) -> Result<(), Fail> {
    let (mutex, pass) = Mutex::new(rt.alloc())?;
    let pass = part_in_four_and_join(&mutex, pass);
    let mut whole = party_of(&mutex, pass);
    assert!(rt; !party::is_refused(&mut whole));
    Ok(())
}

/// A struct that owns a mutex and its pass, and how often it was entered.
#[derive(Drop)]
struct Counted {
    mutex: Mutex,
    pass: MutexPass,
    entered: u64,
    ghost own: { IsMutexPass mutex pass },
    ghost alone: { IsAlone pass },
}

impl Counted {
    /// What stood before.
    fn enter<R: Wait>(&mut self, rt: &R) -> u64
        ensures before { result ≡ self.old.entered }
        ensures grants { grants_of self.new.pass ≡ grants_of self.old.pass + 1 }
    {
        let entered = self.entered;
        let answer = self.mutex.with_lock(
            rt,
            &mut self.pass,
            yield_and_go_on,
            wake_nobody,
            move || entered,
        );
        self.entered = entered.wrapping_add(1);
        match answer {
            WaitResult::Success(before) => before,
            WaitResult::Interrupted => unreachable!(),
        }
    }
}

#[test]
fn locks_within_a_method(rt: HostRuntime) -> Result<(), Fail> {
    let (mutex, pass) = Mutex::new(rt.alloc())?;
    let mut counted = Counted {
        mutex,
        pass,
        entered: 0,
    };
    let first = counted.enter(&rt);
    assert_eq!(rt; (first, counted.enter(&rt)), (0, 1));
    Ok(())
}

#[test]
fn acts_while_the_mutex_is_locked(rt: HostRuntime) -> Result<(), Fail> {
    let (mutex, mut one, two) = in_two_parts(rt.alloc())?;
    let mut other = party_of(&mutex, two);
    let act = || party::is_refused(&mut other);
    let inside = mutex.with_lock(&rt, &mut one, yield_and_go_on, wake_nobody, act);
    assert_eq!(rt; matches!(inside, WaitResult::Success(true)), true);
    Ok(())
}
