//! A bounded buffer under a mutex, with two condition variables: where is waited for a place, and where for an item.
ghost use Rattle.std.specs.Prelude.{◌≡◌, IfOk};
ghost use Rattle.running_mutex.specs.MutexShown.{IsMutexPass, HasStayed as HasLockedAtMost, pass_of, borrow_of};
ghost use Rattle.running_condvar.specs.CondShown.{IsCondPass, HasStayed as HasWaitedAtMost};

use circular_buffer::HeapCircularBuffer;
use iceoryx2_pal_concurrency_sync::strategy::condition_variable::{
    CondPass, ConditionVariable, Woken,
};
use iceoryx2_pal_concurrency_sync::strategy::mutex::{Mutex, MutexHold, MutexPass};
use iceoryx2_pal_concurrency_sync::{WaitResult, wake_nobody, yield_and_go_on};
use std::alloc::{AllocError, Global};
use std::sync::Wait;
use std::test::Fail;
use std::{sync, thread};

/// A buffer: its items, oldest first, the mutex that is held round each move, and where is waited for a place and for an item.
#[derive(Drop)]
struct Buffer {
    items: sync::Mutex<HeapCircularBuffer<u64>>,
    mutex: Mutex,
    not_full: ConditionVariable,
    not_empty: ConditionVariable,
}

impl Buffer {
    /// An empty buffer with so many places, and the pass of each part.
    fn new(
        alloc: Global,
        places: usize,
    ) -> Result<(Buffer, MutexPass, CondPass, CondPass), AllocError>
        ensures own { IfOk result (λ made. IsMutexPass made.0.mutex made.1 × IsCondPass made.0.not_full made.2 × IsCondPass made.0.not_empty made.3) }
    {
        let items = sync::Mutex::new(HeapCircularBuffer::with_capacity(alloc, places)?);
        let (mutex, locks) = Mutex::new(alloc)?;
        let (not_full, for_places) = ConditionVariable::new(alloc)?;
        let (not_empty, for_items) = ConditionVariable::new(alloc)?;
        let buffer = Buffer {
            items,
            mutex,
            not_full,
            not_empty,
        };
        Ok((buffer, locks, for_places, for_items))
    }

    /// Makes the move if it can be made now. The item that was put or taken.
    fn make<R: Wait>(&self, rt: &R, what: Move) -> Option<u64> {
        let mut items = self.items.lock(rt);
        match what {
            Move::Put(item) => items.try_push_back(item).is_ok().then_some(item),
            Move::Take => items.pop_front(),
        }
    }
}

/// What a party does to a buffer.
#[derive(Clone, Copy)]
enum Move {
    Put(u64),
    Take,
}

/// Makes the move as soon as it can be made, and leaves the item that was put or taken. After each wait the buffer is looked at anew,
/// since another party may have been there first.
fn make<'p, R: Wait>(
    hold: MutexHold<'p>,
    rt: &R,
    buffer: &Buffer,
    can: &ConditionVariable,
    waits: &mut CondPass,
    what: Move,
    item: &mut u64,
) -> MutexHold<'p>
    requires own { IsMutexPass buffer.now.mutex (pass_of hold) × IsCondPass can.now waits.old }
    ensures same_borrow { borrow_of result ≡ borrow_of hold.entry }
    ensures locked { HasLockedAtMost (pass_of hold.entry) (pass_of result) }
    ensures waited { HasWaitedAtMost waits.old waits.new }
{
    let mut held = hold;
    for _ in rt.forever() {
        if let Some(made) = buffer.make(rt, what) {
            *item = made;
            return held;
        }
        let answer = ConditionVariable::wait_held(
            held,
            can,
            rt,
            waits,
            &buffer.mutex,
            wake_nobody,
            yield_and_go_on,
            yield_and_go_on,
        );
        match answer {
            WaitResult::Success(Woken::Signalled(again)) => held = again,
            WaitResult::Success(Woken::Unsignalled(_)) | WaitResult::Interrupted => unreachable!(),
        }
    }
    buffer.mutex.unlock(held, wake_nobody);
    unreachable!()
}

/// Locks the buffer, makes the move, tells those that wait for it, and unlocks. The item that was put or taken.
fn lock_and_make<R: Wait>(
    rt: &R,
    buffer: &Buffer,
    locks: &mut MutexPass,
    can: &ConditionVariable,
    waits: &mut CondPass,
    others_can: &ConditionVariable,
    notifies: &mut CondPass,
    what: Move,
) -> u64
    requires own { IsMutexPass buffer.now.mutex locks.old × IsCondPass can.now waits.old × IsCondPass others_can.now notifies.old }
    ensures locked { HasLockedAtMost locks.old locks.new }
    ensures waited { HasWaitedAtMost waits.old waits.new }
    ensures notified { HasWaitedAtMost notifies.old notifies.new }
{
    let mut item = 0;
    let locked = Mutex::lock(locks, &buffer.mutex, rt, yield_and_go_on);
    match locked {
        WaitResult::Success(hold) => {
            let hold = make(hold, rt, buffer, can, waits, what, &mut item);
            others_can.notify_one(notifies, wake_nobody);
            buffer.mutex.unlock(hold, wake_nobody);
        }
        WaitResult::Interrupted => unreachable!(),
    }
    item
}

/// What one party has of a buffer: the right to hold its mutex, to wait until it can move, and to tell the others that they can.
#[derive(Drop)]
struct Party<'b> {
    buffer: &'b Buffer,
    can: &'b ConditionVariable,
    others_can: &'b ConditionVariable,
    locks: MutexPass,
    waits: CondPass,
    notifies: CondPass,
    ghost own: { IsMutexPass buffer.now.mutex locks × IsCondPass can.now waits × IsCondPass others_can.now notifies },
}

impl Party<'_> {
    /// Makes the move once it can be made, and tells the others. The item that was put or taken.
    fn make<R: Wait>(&mut self, rt: &R, what: Move) -> u64 {
        lock_and_make(
            rt,
            self.buffer,
            &mut self.locks,
            self.can,
            &mut self.waits,
            self.others_can,
            &mut self.notifies,
            what,
        )
    }
}

/// Puts the numbers from 0 on, or takes so many. Whether what was put or taken were these numbers in order.
fn make_often<R: Wait>(rt: &R, mut party: Party, puts: bool, times: u64) -> bool {
    let mut in_order = true;
    for number in 0..times {
        let what = if puts { Move::Put(number) } else { Move::Take };
        in_order &= party.make(rt, what) == number;
    }
    in_order
}

/// The producer and the consumer of a buffer, each with a half of each pass.
fn parties(
    buffer: &Buffer,
    locks: MutexPass,
    for_places: CondPass,
    for_items: CondPass,
) -> (Party<'_>, Party<'_>)
    requires own { IsMutexPass buffer.now.mutex locks × IsCondPass buffer.now.not_full for_places × IsCondPass buffer.now.not_empty for_items }
{
    let Ok((locks, other_locks)) = locks.split(&buffer.mutex) else {
        unreachable!()
    };
    let Ok((waits_for_places, tells_of_places)) = for_places.split(&buffer.not_full) else {
        unreachable!()
    };
    let Ok((waits_for_items, tells_of_items)) = for_items.split(&buffer.not_empty) else {
        unreachable!()
    };
    let producer = Party {
        buffer,
        can: &buffer.not_full,
        others_can: &buffer.not_empty,
        locks,
        waits: waits_for_places,
        notifies: tells_of_items,
    };
    let consumer = Party {
        buffer,
        can: &buffer.not_empty,
        others_can: &buffer.not_full,
        locks: other_locks,
        waits: waits_for_items,
        notifies: tells_of_places,
    };
    (producer, consumer)
}

/// A producer and a consumer pass 1000 items through a buffer of 3 places, in order.
#[test]
fn a_buffer_over_condition_variables(rt: HostRuntime) -> Result<(), Fail> {
    let (buffer, locks, for_places, for_items) = Buffer::new(rt.alloc(), 3)?;
    let (producer, consumer) = parties(&buffer, locks, for_places, for_items);
    let in_order = thread::join(
        &rt,
        || make_often(&rt, producer, true, 1000),
        || make_often(&rt, consumer, false, 1000),
    );
    assert_eq!(rt; in_order, (true, true));
    Ok(())
}
