//! The running condition variable.
ghost use Rattle.std.specs.Prelude.{◌≡◌, false, IfOk};
ghost use Rattle.running_passes.specs.Passes.{IsSamePass};
ghost use Rattle.running_mutex.specs.MutexShown.{IsMutexPass, HasStayed as HasLockedAtMost, pass_of, borrow_of};
ghost use Rattle.running_condvar.specs.CondShown.{IsCondPass, HasStayed};

use super::{give_up, mutex_in_two_parts};
use iceoryx2_pal_concurrency_sync::strategy::condition_variable::{
    CondPass, CondResult, ConditionVariable, Woken,
};
use iceoryx2_pal_concurrency_sync::strategy::mutex::{Mutex, MutexHold, MutexPass};
use iceoryx2_pal_concurrency_sync::{
    WaitAction, WaitResult, WaitWord, wake_nobody, yield_and_go_on,
};
use std::alloc::{AllocError, Global};
use std::sync::Wait;
use std::sync::atomic::{AtomicBool, Ordering};
use std::test::Fail;
use std::thread;
use std::thread::Threads;
use test_signal::{Gathering, Meeting};

/// A new condition variable, and two parts of its pass.
pub(super) fn in_two_parts(
    alloc: Global,
) -> Result<(ConditionVariable, CondPass, CondPass), AllocError>
    ensures own { IfOk result (λ made. IsCondPass made.0 made.1 × IsCondPass made.0 made.2) }
{
    let (cond, pass) = ConditionVariable::new(alloc)?;
    match pass.split(&cond) {
        Ok((one, two)) => Ok((cond, one, two)),
        Err(_) => unreachable!(),
    }
}

/// Notifies one and then all. What their closures saw of the permits.
fn notify_gathered(cond: &ConditionVariable, pass: &mut CondPass) -> (u64, u64)
    requires own { IsCondPass cond.now pass.old }
    ensures stayed { HasStayed pass.old pass.new }
{
    let gathering = Gathering::new();
    cond.notify_one(pass, |word| gathering.wake_one(word.load()));
    cond.notify_all(pass, |word| gathering.wake_all(word.load()));
    gathering.gathered()
}

/// Locks, waits with these closures, and unlocks. Whether the wait took a permit, where it has the mutex.
fn wait_to<
    R: Wait,
    K: Fn(&WaitWord),
    W: Fn(&WaitWord, &u64) -> WaitAction,
    M: Fn(&WaitWord, &u64) -> WaitAction,
>(
    rt: &R,
    cond: &ConditionVariable,
    pass: &mut CondPass,
    mutex: &Mutex,
    mtx_pass: &mut MutexPass,
    mtx_wake_one: K,
    wait: W,
    mtx_wait: M,
) -> Option<bool>
    requires own { IsCondPass cond.now pass.old × IsMutexPass mutex.now mtx_pass.old }
    requires may { K.IsAlwaysCallable mtx_wake_one × W.IsAlwaysCallable wait × M.IsAlwaysCallable mtx_wait }
{
    let WaitResult::Success(hold) = Mutex::try_lock(mtx_pass, mutex) else {
        return None;
    };
    let answer = ConditionVariable::wait(hold, cond, rt, pass, mutex, mtx_wake_one, wait, mtx_wait);
    match answer {
        CondResult::Success(hold) => {
            mutex.unlock(hold, wake_nobody);
            Some(true)
        }
        CondResult::Interrupted(Some(hold)) => {
            mutex.unlock(hold, wake_nobody);
            Some(false)
        }
        CondResult::Interrupted(None) => None,
    }
}

/// The same by `wait_held`.
pub(super) fn wait_once<
    R: Wait,
    K: Fn(&WaitWord),
    W: Fn(&WaitWord, &u64) -> WaitAction,
    M: Fn(&WaitWord, &u64) -> WaitAction,
>(
    rt: &R,
    cond: &ConditionVariable,
    pass: &mut CondPass,
    mutex: &Mutex,
    mtx_pass: &mut MutexPass,
    mtx_wake_one: K,
    wait: W,
    mtx_wait: M,
) -> Option<bool>
    requires own { IsCondPass cond.now pass.old × IsMutexPass mutex.now mtx_pass.old }
    requires may { K.IsAlwaysCallable mtx_wake_one × W.IsAlwaysCallable wait × M.IsAlwaysCallable mtx_wait }
    ensures stayed { HasStayed pass.old pass.new }
    ensures same { IsSamePass mtx_pass.old mtx_pass.new }
{
    let WaitResult::Success(hold) = Mutex::try_lock(mtx_pass, mutex) else {
        return None;
    };
    let answer = ConditionVariable::wait_held(
        hold,
        cond,
        rt,
        pass,
        mutex,
        mtx_wake_one,
        wait,
        mtx_wait,
    );
    match answer {
        WaitResult::Success(Woken::Signalled(hold)) => {
            mutex.unlock(hold, wake_nobody);
            Some(true)
        }
        WaitResult::Success(Woken::Unsignalled(hold)) => {
            mutex.unlock(hold, wake_nobody);
            Some(false)
        }
        WaitResult::Interrupted => None,
    }
}

/// Where a wait lets the other thread go on, and waits for it.
#[derive(Clone, Copy)]
enum HeldUp {
    Nowhere,
    InWake,
    /// In each wait closure: that of the wait answers so then, and that of the mutex `Abort`.
    InWaits(WaitAction),
}

/// Waits so, by `wait` or by `wait_held`; a wait closure that is not held up answers `Abort`. What it came to, and its closures with what
/// each word held and they were told, that of the mutex as one that acts.
fn wait_gathered<R: Wait>(
    rt: &R,
    cond: &ConditionVariable,
    pass: &mut CondPass,
    mutex: &Mutex,
    mtx_pass: &mut MutexPass,
    meeting: &Meeting,
    held_up: HeldUp,
    is_plain: bool,
) -> (Option<bool>, (u64, u64))
    requires own { IsCondPass cond.now pass.old × IsMutexPass mutex.now mtx_pass.old }
    ensures stayed { is_plain ≡ false → HasStayed pass.old pass.new }
    ensures same { is_plain ≡ false → IsSamePass mtx_pass.old mtx_pass.new }
{
    let gathering = Gathering::new();
    let wake = |word: &WaitWord| {
        gathering.wake_one(word.load());
        if let HeldUp::InWake = held_up {
            let _ = meeting.meet() && meeting.meet();
        }
    };
    let wait = |word: &WaitWord, seen: &u64| {
        gathering.wait(word.load());
        gathering.wait(*seen);
        match held_up {
            HeldUp::InWaits(action) if meeting.meet() && meeting.meet() => action,
            _ => WaitAction::Abort,
        }
    };
    let mtx_wait = |word: &WaitWord, seen: &u64| {
        gathering.act(word.load());
        gathering.act(*seen);
        if let HeldUp::InWaits(_) = held_up {
            let _ = meeting.meet() && meeting.meet();
        }
        WaitAction::Abort
    };
    let took = if is_plain {
        wait_to(rt, cond, pass, mutex, mtx_pass, wake, wait, mtx_wait)
    } else {
        wait_once(rt, cond, pass, mutex, mtx_pass, wake, wait, mtx_wait)
    };
    (took, gathering.gathered())
}

/// Whether the mutex is free.
fn is_free(mutex: &Mutex, pass: &mut MutexPass) -> bool
    requires own { IsMutexPass mutex.now pass.old }
{
    match Mutex::try_lock(pass, mutex) {
        WaitResult::Success(hold) => {
            mutex.unlock(hold, wake_nobody);
            true
        }
        WaitResult::Interrupted => false,
    }
}

/// It wakes after its unlock, and then asks, told that there is no permit.
#[test]
fn a_notify_before_the_wait_is_lost(rt: HostRuntime) -> Result<(), Fail> {
    let (mutex, mut one, mut other) = mutex_in_two_parts(rt.alloc())?;
    let (cond, mut pass) = ConditionVariable::new(rt.alloc())?;
    let notified = notify_gathered(&cond, &mut pass);
    let waited = wait_gathered(
        &rt,
        &cond,
        &mut pass,
        &mutex,
        &mut one,
        &Meeting::of(1),
        HeldUp::Nowhere,
        true,
    );
    let free_after = is_free(&mutex, &mut other);
    assert_eq!(rt;
        (notified, waited, free_after),
        ((23, 0), (Some(false), (211, 0)), true)
    );
    Ok(())
}

/// Waits, with closures that yield and answer `Continue`, until the turn is this party's: that is never interrupted.
fn until_turn<'p, R: Wait>(
    hold: MutexHold<'p>,
    rt: &R,
    cond: &ConditionVariable,
    pass: &mut CondPass,
    mutex: &Mutex,
    turn: &AtomicBool,
    own: bool,
) -> MutexHold<'p>
    requires own { IsCondPass cond.now pass.old × IsMutexPass mutex.now (pass_of hold) }
    ensures same_borrow { borrow_of result ≡ borrow_of hold.entry }
    ensures held { HasLockedAtMost (pass_of hold.entry) (pass_of result) }
    ensures stayed { HasStayed pass.old pass.new }
{
    let mut held = hold;
    for _ in rt.forever() {
        if turn.load(Ordering::SeqCst) == own {
            return held;
        }
        let answer = ConditionVariable::wait(
            held,
            cond,
            rt,
            pass,
            mutex,
            wake_nobody,
            yield_and_go_on,
            yield_and_go_on,
        );
        match answer {
            CondResult::Success(again) => held = again,
            CondResult::Interrupted(_) => unreachable!(),
        }
    }
    mutex.unlock(held, wake_nobody);
    unreachable!()
}

/// Waits until the turn is this party's, and hands it to the other. Each party waits at a condition variable of its own: at one for
/// both, the party that notified could take the permit itself, and leave the other asleep.
fn hand_on<R: Wait>(
    rt: &R,
    mine: &ConditionVariable,
    my_pass: &mut CondPass,
    theirs: &ConditionVariable,
    their_pass: &mut CondPass,
    mutex: &Mutex,
    mtx_pass: &mut MutexPass,
    turn: &AtomicBool,
    own: bool,
)
    requires own { IsCondPass mine.now my_pass.old × IsCondPass theirs.now their_pass.old × IsMutexPass mutex.now mtx_pass.old }
    ensures held { HasLockedAtMost mtx_pass.old mtx_pass.new }
    ensures stayed { HasStayed my_pass.old my_pass.new × HasStayed their_pass.old their_pass.new }
{
    let locked = Mutex::lock(mtx_pass, mutex, rt, yield_and_go_on);
    match locked {
        WaitResult::Success(hold) => {
            let hold = until_turn(hold, rt, mine, my_pass, mutex, turn, own);
            turn.store(!own, Ordering::SeqCst);
            theirs.notify_one(their_pass, wake_nobody);
            mutex.unlock(hold, wake_nobody);
        }
        WaitResult::Interrupted => unreachable!(),
    }
}

/// What one party of two has: the right to wait for its turn, to notify the other, and to lock.
#[derive(Drop)]
struct Side {
    waiting: CondPass,
    notifying: CondPass,
    locking: MutexPass,
}

/// Takes the turn so often.
fn hand_on_often<R: Wait>(
    rt: &R,
    mine: &ConditionVariable,
    theirs: &ConditionVariable,
    mutex: &Mutex,
    mut side: Side,
    turn: &AtomicBool,
    own: bool,
)
    requires own { IsCondPass mine.now side.waiting × IsCondPass theirs.now side.notifying × IsMutexPass mutex.now side.locking }
{
    for _ in 0..200u64 {
        hand_on(
            rt,
            mine,
            &mut side.waiting,
            theirs,
            &mut side.notifying,
            mutex,
            &mut side.locking,
            turn,
            own,
        );
    }
}

#[test]
fn two_threads_hand_a_turn_to_each_other(rt: HostRuntime) -> Result<(), Fail> {
    let (mutex, locking_one, locking_two) = mutex_in_two_parts(rt.alloc())?;
    let (first, waiting_one, notifying_two) = in_two_parts(rt.alloc())?;
    let (second, waiting_two, notifying_one) = in_two_parts(rt.alloc())?;
    let one = Side {
        waiting: waiting_one,
        notifying: notifying_one,
        locking: locking_one,
    };
    let two = Side {
        waiting: waiting_two,
        notifying: notifying_two,
        locking: locking_two,
    };
    let turn = AtomicBool::new(false);
    thread::join(
        &rt,
        ||
            requires { IsCondPass first one.waiting × IsCondPass second one.notifying × IsMutexPass mutex one.locking }
        { hand_on_often(&rt, &first, &second, &mutex, one, &turn, false) },
        ||
            requires { IsCondPass second two.waiting × IsCondPass first two.notifying × IsMutexPass mutex two.locking }
        { hand_on_often(&rt, &second, &first, &mutex, two, &turn, true) },
    );
    assert!(rt; !turn.load(Ordering::SeqCst));
    Ok(())
}

/// Waits, held up so, and then again, with closures that answer `Abort` at once. What both came to, the first with its closures.
fn wait_twice<R: Wait>(
    rt: &R,
    cond: &ConditionVariable,
    pass: &mut CondPass,
    mutex: &Mutex,
    mtx_pass: &mut MutexPass,
    meeting: &Meeting,
    action: WaitAction,
) -> ((Option<bool>, (u64, u64)), Option<bool>)
    requires own { IsCondPass cond.now pass.old × IsMutexPass mutex.now mtx_pass.old }
{
    let held_up = HeldUp::InWaits(action);
    let first = wait_gathered(rt, cond, pass, mutex, mtx_pass, meeting, held_up, false);
    if first.0.is_none() {
        let _ = meeting.meet() && meeting.meet();
    }
    let second = wait_once(rt, cond, pass, mutex, mtx_pass, |_| (), give_up, give_up);
    (first, second)
}

/// Notifies all and one once the other thread sleeps. What the closures saw of the permits, if that came and the mutex was free.
fn notify_the_sleeper(
    cond: &ConditionVariable,
    pass: &mut CondPass,
    mutex: &Mutex,
    mtx_pass: &mut MutexPass,
    meeting: &Meeting,
) -> Option<(u64, u64)>
    requires own { IsCondPass cond.now pass.old × IsMutexPass mutex.now mtx_pass.old }
{
    let was_asked = meeting.meet();
    let was_free = is_free(mutex, mtx_pass);
    let gathered = notify_gathered(cond, pass);
    (was_asked && was_free && meeting.meet()).then_some(gathered)
}

/// One thread waits twice, with a closure that answers so, and another notifies it. What that saw, and whether each wait took a permit.
fn notify_while_it_sleeps<R: Threads + Wait + Sync>(
    rt: &R,
    alloc: Global,
    action: WaitAction,
) -> Result<
    (
        Option<(u64, u64)>,
        ((Option<bool>, (u64, u64)), Option<bool>),
    ),
    AllocError,
> {
    let (mutex, mut mtx_one, mut mtx_two) = mutex_in_two_parts(alloc)?;
    let (cond, mut one, mut two) = in_two_parts(alloc)?;
    let meeting = Meeting::of(2);
    Ok(thread::join(
        rt,
        || notify_the_sleeper(&cond, &mut one, &mutex, &mut mtx_one, &meeting),
        || wait_twice(rt, &cond, &mut two, &mutex, &mut mtx_two, &meeting, action),
    ))
}

/// The waiter is counted while it sleeps, so both notifies give a permit, and wake then: it takes one whatever its closure answers, and the
/// other stays for its next wait.
#[test]
fn a_sleeper_is_counted_and_the_mutex_is_free(rt: HostRuntime) -> Result<(), Fail> {
    for action in [WaitAction::Abort, WaitAction::Continue] {
        assert_eq!(rt;
            notify_while_it_sleeps(&rt, rt.alloc(), action)?,
            (Some((23, 12)), ((Some(true), (211, 0)), Some(true)))
        );
    }
    Ok(())
}

/// Notifies as soon as the other thread has unlocked. Whether that came.
fn notify_the_unlocker(cond: &ConditionVariable, pass: &mut CondPass, meeting: &Meeting) -> bool
    requires own { IsCondPass cond.now pass.old }
{
    let was_unlocked = meeting.meet();
    cond.notify_one(pass, wake_nobody);
    was_unlocked && meeting.meet()
}

/// A notify by whoever has the mutex next is not lost: the waiter was counted before it unlocked. So it takes a permit, although its
/// closure answers `Abort`.
#[test]
fn a_waiter_is_counted_before_it_unlocks(rt: HostRuntime) -> Result<(), Fail> {
    let (mutex, mut mtx_pass) = Mutex::new(rt.alloc())?;
    let (cond, mut one, mut two) = in_two_parts(rt.alloc())?;
    let meeting = Meeting::of(2);
    let unlocked_and_took = thread::join(
        &rt,
        || notify_the_unlocker(&cond, &mut one, &meeting),
        || {
            wait_gathered(
                &rt,
                &cond,
                &mut two,
                &mutex,
                &mut mtx_pass,
                &meeting,
                HeldUp::InWake,
                false,
            )
        },
    );
    assert_eq!(rt; unlocked_and_took, (true, (Some(true), (2, 0))));
    Ok(())
}

/// Locks the mutex once the other thread sleeps, notifies once that one locks, and holds the mutex until its wait is over. Whether all of it
/// came.
fn lock_out_the_sleeper(
    cond: &ConditionVariable,
    pass: &mut CondPass,
    mutex: &Mutex,
    mtx_pass: &mut MutexPass,
    meeting: &Meeting,
) -> bool
    requires own { IsCondPass cond.now pass.old × IsMutexPass mutex.now mtx_pass.old }
{
    let was_asked = meeting.meet();
    match Mutex::try_lock(mtx_pass, mutex) {
        WaitResult::Success(hold) => {
            let was_locking = was_asked && meeting.meet() && meeting.meet();
            cond.notify_one(pass, wake_nobody);
            let was_over = was_locking && meeting.meet() && meeting.meet();
            mutex.unlock(hold, wake_nobody);
            was_over && meeting.meet()
        }
        WaitResult::Interrupted => false,
    }
}

/// It is counted no more once it locks, so the notify that comes then gives no permit, and its next wait takes none.
#[test]
fn gives_up_without_the_mutex(rt: HostRuntime) -> Result<(), Fail> {
    let (mutex, mut mtx_one, mut mtx_two) = mutex_in_two_parts(rt.alloc())?;
    let (cond, mut one, mut two) = in_two_parts(rt.alloc())?;
    let meeting = Meeting::of(2);
    let over_and_asked = thread::join(
        &rt,
        || lock_out_the_sleeper(&cond, &mut one, &mutex, &mut mtx_one, &meeting),
        || {
            wait_twice(
                &rt,
                &cond,
                &mut two,
                &mutex,
                &mut mtx_two,
                &meeting,
                WaitAction::Abort,
            )
        },
    );
    assert_eq!(rt; over_and_asked, (true, ((None, (21144, 11)), Some(false))));
    Ok(())
}

/// Locks the mutex once the other thread sleeps, notifies it, and unlocks once that one locks. Whether all of it came.
fn free_the_mutex(
    cond: &ConditionVariable,
    pass: &mut CondPass,
    mutex: &Mutex,
    mtx_pass: &mut MutexPass,
    meeting: &Meeting,
) -> bool
    requires own { IsCondPass cond.now pass.old × IsMutexPass mutex.now mtx_pass.old }
{
    let was_asked = meeting.meet();
    match Mutex::try_lock(mtx_pass, mutex) {
        WaitResult::Success(hold) => {
            cond.notify_one(pass, wake_nobody);
            let was_locking = was_asked && meeting.meet() && meeting.meet();
            mutex.unlock(hold, wake_nobody);
            was_locking && meeting.meet()
        }
        WaitResult::Interrupted => false,
    }
}

/// Both closures answer `Abort`, and after each the wait looks once more: it takes the permit, and then the mutex.
#[test]
fn success_after_both_aborts(rt: HostRuntime) -> Result<(), Fail> {
    let (mutex, mut mtx_one, mut mtx_two) = mutex_in_two_parts(rt.alloc())?;
    let (cond, mut one, mut two) = in_two_parts(rt.alloc())?;
    let meeting = Meeting::of(2);
    let freed_and_gathered = thread::join(
        &rt,
        || free_the_mutex(&cond, &mut one, &mutex, &mut mtx_one, &meeting),
        || {
            wait_gathered(
                &rt,
                &cond,
                &mut two,
                &mutex,
                &mut mtx_two,
                &meeting,
                HeldUp::InWaits(WaitAction::Abort),
                true,
            )
        },
    );
    assert_eq!(rt; freed_and_gathered, (true, (Some(true), (21144, 11))));
    Ok(())
}
