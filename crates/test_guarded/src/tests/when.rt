//! A bounded buffer, whole; and a call that gives up.
ghost use Rattle.std.specs.Prelude.{IfOk};
ghost use Rattle.running_condvar.specs.CondShown.{IsCondPass};
ghost use Rattle.running_guarded.specs.GuardedShown.{IsGuardedPass};

use super::order::{GAVE_UP, wait_alone};
use super::party::{Party, Shared, change_to};
use super::wake_nobody_at_value;
use circular_buffer::HeapCircularBuffer;
use running_closures::{wake_nobody, yield_and_go_on};
use running_condvar::{CondPass, ConditionVariable};
use running_guarded::{Guarded, GuardedPass};
use running_passes::WaitResult;
use std::alloc::{AllocError, Global};
use std::sync::Wait;
use std::sync::atomic::{AtomicU64, Ordering};
use std::test::Fail;
use std::thread;
use std::thread::Threads;

/// A bounded buffer of numbers. Who puts waits for room, and who takes waits for a number, each at a condition variable of its own.
#[derive(Drop)]
struct Buffer {
    numbers: Guarded<HeapCircularBuffer<u64>>,
    room: ConditionVariable,
    some: ConditionVariable,
}

impl Buffer {
    /// A buffer with room for so many, and the pass of each part.
    fn new(
        alloc: Global,
        room: usize,
    ) -> Result<(Buffer, GuardedPass, CondPass, CondPass), AllocError>
        ensures own { IfOk result (λ made. IsGuardedPass made.0.numbers made.1 × IsCondPass made.0.room made.2 × IsCondPass made.0.some made.3) }
    {
        let ring = HeapCircularBuffer::with_capacity(alloc, room)?;
        let (numbers, pass) = match Guarded::new(alloc, ring) {
            Ok(made) => made,
            Err((error, _)) => return Err(error),
        };
        let (room, room_pass) = ConditionVariable::new(alloc)?;
        let (some, some_pass) = ConditionVariable::new(alloc)?;
        let buffer = Buffer {
            numbers,
            room,
            some,
        };
        Ok((buffer, pass, room_pass, some_pass))
    }
}

/// One that puts into the buffer, or takes out of it.
#[derive(Drop)]
struct User<'b> {
    buffer: &'b Buffer,
    numbers: GuardedPass,
    room: CondPass,
    some: CondPass,
    ghost own: { IsGuardedPass buffer.now.numbers numbers × IsCondPass buffer.now.room room × IsCondPass buffer.now.some some },
}

impl User<'_> {
    /// Puts the number, once there is room.
    fn put<R: Wait>(&mut self, rt: &R, number: u64) {
        let buffer = self.buffer;
        let put = buffer.numbers.when(
            rt,
            &mut self.numbers,
            |_| (),
            &buffer.room,
            &mut self.room,
            yield_and_go_on,
            |numbers| numbers.try_push_back(number).ok(),
        );
        match put {
            WaitResult::Success(()) => buffer.some.notify_one(&mut self.some, wake_nobody),
            WaitResult::Interrupted => unreachable!(),
        }
    }

    /// Takes the oldest number, once there is one.
    fn take<R: Wait>(&mut self, rt: &R) -> u64 {
        let buffer = self.buffer;
        let taken = buffer.numbers.when(
            rt,
            &mut self.numbers,
            |_| (),
            &buffer.some,
            &mut self.some,
            yield_and_go_on,
            |numbers| numbers.pop_front(),
        );
        match taken {
            WaitResult::Success(number) => {
                buffer.room.notify_one(&mut self.room, wake_nobody);
                number
            }
            WaitResult::Interrupted => unreachable!(),
        }
    }
}

/// Two users of the buffer, with parts of these passes.
fn two_users(
    buffer: &Buffer,
    numbers: GuardedPass,
    room: CondPass,
    some: CondPass,
) -> (User<'_>, User<'_>)
    requires own { IsGuardedPass buffer.now.numbers numbers × IsCondPass buffer.now.room room × IsCondPass buffer.now.some some }
{
    let Ok((numbers, other_numbers)) = numbers.split(&buffer.numbers) else {
        unreachable!()
    };
    let Ok((room, other_room)) = room.split(&buffer.room) else {
        unreachable!()
    };
    let Ok((some, other_some)) = some.split(&buffer.some) else {
        unreachable!()
    };
    let other = User {
        buffer,
        numbers: other_numbers,
        room: other_room,
        some: other_some,
    };
    let user = User {
        buffer,
        numbers,
        room,
        some,
    };
    (user, other)
}

const NUMBERS: u64 = 500;

fn put_all<R: Wait>(rt: &R, mut user: User<'_>) {
    for number in 0..NUMBERS {
        user.put(rt, number);
    }
}

/// Whether they came in their order.
fn take_all<R: Wait>(rt: &R, mut user: User<'_>) -> bool {
    for number in 0..NUMBERS {
        if user.take(rt) != number {
            return false;
        }
    }
    true
}

/// Far more numbers than the buffer has room for.
#[test]
fn a_bounded_buffer_keeps_its_order(rt: HostRuntime) -> Result<(), Fail> {
    let (buffer, numbers, room, some) = Buffer::new(rt.alloc(), 4)?;
    let (one, two) = two_users(&buffer, numbers, room, some);
    let ((), in_order) = thread::join(&rt, || put_all(&rt, one), || take_all(&rt, two));
    assert!(rt; in_order);
    Ok(())
}

/// And so does the next.
#[test]
fn a_call_that_cannot_act_gives_up(rt: HostRuntime) -> Result<(), Fail> {
    assert_eq!(rt; wait_alone(&rt, rt.alloc(), 8, 8)?, [GAVE_UP, GAVE_UP]);
    Ok(())
}

/// Waits until the number is this, and answers it.
fn wait_for<R: Wait>(rt: &R, party: &mut Party<'_>, wanted: u64) -> WaitResult<u64> {
    let shared = party.shared;
    shared.number.when(
        rt,
        &mut party.number,
        wake_nobody_at_value,
        &shared.changed,
        &mut party.changed,
        yield_and_go_on,
        |number| (*number == wanted).then_some(wanted),
    )
}

/// Changes the number to 1 and then to 2: what it was before each, and how often the closure that wakes all was called.
fn change_twice<R: Wait>(rt: &R, mut party: Party<'_>) -> (u64, u64, u64) {
    let woken = AtomicU64::new(0);
    let first = change_to(rt, &mut party, &woken, 1);
    let second = change_to(rt, &mut party, &woken, 2);
    (first, second, woken.load(Ordering::SeqCst))
}

/// Two threads wait for 2, with parts of this party's passes.
fn wait_by_two<R: Threads + Wait + Sync>(
    rt: &R,
    party: Party<'_>,
) -> (WaitResult<u64>, WaitResult<u64>) {
    let Party {
        shared,
        number,
        changed,
    } = party;
    let (mut one, mut two) = shared.two_parties(number, changed);
    thread::join(
        rt,
        || wait_for(rt, &mut one, 2),
        || wait_for(rt, &mut two, 2),
    )
}

/// Two threads wait for the second of two changes. Each may be woken by the first, and take the permit that was for the other.
#[test]
fn a_change_is_seen_by_all_that_wait(rt: HostRuntime) -> Result<(), Fail> {
    let (shared, pass, changed) = Shared::new(rt.alloc(), 0)?;
    let (one, two) = shared.two_parties(pass, changed);
    let seen_and_told = thread::join(&rt, || wait_by_two(&rt, one), || change_twice(&rt, two));
    assert_eq!(rt;
        seen_and_told,
        ((WaitResult::Success(2), WaitResult::Success(2)), (0, 1, 2))
    );
    Ok(())
}
