//! The lines of the table. A file of this folder has those of one primitive, and of what it is compared with.
//!
//! A new line is an `Operation` there, which has its objects, and a function that hands it to `successes`; and here a variant,
//! its place in `LINES`, its name and its call. The name is said once more in the tests.
ghost use Rattle.std.specs.Prelude.{◌≤◌};

mod atomic;
mod barrier;
mod condvar;
mod guarded;
mod lazy_lock;
mod mutex;
mod once;
mod queue;
mod rwreader;
mod rwvalue;
mod rwwriter;
mod semaphore;
mod spin_lock;

use iceoryx2_pal_concurrency_sync::WaitAction;
use std::alloc::{AllocError, Global};
use std::sync::Wait;

/// How many operations of a line a round makes.
pub const OPERATIONS: u32 = 100_000;

/// What is measured.
#[derive(Clone, Copy)]
pub enum Line {
    BareExchangeStore,
    StdMutexLockUnlock,
    MutexLockUnlock,
    MutexTryLockUnlock,
    MutexNewDrop,
    BareLoadExchangeSubtract,
    StdRwLockReadUnlock,
    StdRwLockWriteUnlock,
    RwReaderReadUnlock,
    RwReaderWriteUnlock,
    BareLoadExchangeSubtractTest,
    BareLoadExchangeStoreAdd,
    RwWriterReadUnlock,
    RwWriterWriteUnlock,
    RwValueReadUnlock,
    RwValueWriteUnlock,
    SemaphoreTryWaitPost,
    SemaphoreValue,
    BareLoadExchange,
    StdBarrierOfOne,
    BarrierOfOne,
    StdOnceLockGet,
    OnceAfter,
    BareSwaps,
    BareExchangeAddStore,
    StdMutexAddUnlock,
    SpinLockUnlock,
    GuardedAddUnlock,
    LazyForce,
    BareLoadExchangeLoadsSubtract,
    AtomicLoad,
    AtomicWideLoad,
    BareExchangeStores,
    AtomicStore,
    BareExchangeLoadsStores,
    AtomicFetchAdd,
    AtomicWideFetchAdd,
    AtomicCompareExchange,
    BareLoadAdd,
    StdCondvarNotifyOne,
    CondvarNotifyOne,
    ChannelSendReceive,
    JobQueuePutTake,
}

/// Every line, in the order of the table.
pub const LINES: [Line; 43] = [
    Line::BareExchangeStore,
    Line::StdMutexLockUnlock,
    Line::MutexLockUnlock,
    Line::MutexTryLockUnlock,
    Line::MutexNewDrop,
    Line::BareLoadExchangeSubtract,
    Line::StdRwLockReadUnlock,
    Line::StdRwLockWriteUnlock,
    Line::RwReaderReadUnlock,
    Line::RwReaderWriteUnlock,
    Line::BareLoadExchangeSubtractTest,
    Line::BareLoadExchangeStoreAdd,
    Line::RwWriterReadUnlock,
    Line::RwWriterWriteUnlock,
    Line::RwValueReadUnlock,
    Line::RwValueWriteUnlock,
    Line::SemaphoreTryWaitPost,
    Line::SemaphoreValue,
    Line::BareLoadExchange,
    Line::StdBarrierOfOne,
    Line::BarrierOfOne,
    Line::StdOnceLockGet,
    Line::OnceAfter,
    Line::BareSwaps,
    Line::BareExchangeAddStore,
    Line::StdMutexAddUnlock,
    Line::SpinLockUnlock,
    Line::GuardedAddUnlock,
    Line::LazyForce,
    Line::BareLoadExchangeLoadsSubtract,
    Line::AtomicLoad,
    Line::AtomicWideLoad,
    Line::BareExchangeStores,
    Line::AtomicStore,
    Line::BareExchangeLoadsStores,
    Line::AtomicFetchAdd,
    Line::AtomicWideFetchAdd,
    Line::AtomicCompareExchange,
    Line::BareLoadAdd,
    Line::StdCondvarNotifyOne,
    Line::CondvarNotifyOne,
    Line::ChannelSendReceive,
    Line::JobQueuePutTake,
];

impl Line {
    /// What the table calls it.
    pub fn name(self) -> &'static str {
        match self {
            Line::BareExchangeStore => "bare exchange store",
            Line::StdMutexLockUnlock => "std mutex lock unlock",
            Line::MutexLockUnlock => "mutex lock unlock",
            Line::MutexTryLockUnlock => "mutex try_lock unlock",
            Line::MutexNewDrop => "mutex new drop",
            Line::BareLoadExchangeSubtract => "bare load exchange subtract",
            Line::StdRwLockReadUnlock => "std rwlock read unlock",
            Line::StdRwLockWriteUnlock => "std rwlock write unlock",
            Line::RwReaderReadUnlock => "rwlock reader read unlock",
            Line::RwReaderWriteUnlock => "rwlock reader write unlock",
            Line::BareLoadExchangeSubtractTest => "bare load exchange subtract test",
            Line::BareLoadExchangeStoreAdd => "bare load exchange store add",
            Line::RwWriterReadUnlock => "rwlock writer read unlock",
            Line::RwWriterWriteUnlock => "rwlock writer write unlock",
            Line::RwValueReadUnlock => "rwvalue read unlock",
            Line::RwValueWriteUnlock => "rwvalue write unlock",
            Line::SemaphoreTryWaitPost => "semaphore try_wait post",
            Line::SemaphoreValue => "semaphore value",
            Line::BareLoadExchange => "bare load exchange",
            Line::StdBarrierOfOne => "std barrier of one",
            Line::BarrierOfOne => "barrier of one",
            Line::StdOnceLockGet => "std once_lock get",
            Line::OnceAfter => "once after",
            Line::BareSwaps => "bare swaps",
            Line::BareExchangeAddStore => "bare exchange add store",
            Line::StdMutexAddUnlock => "std mutex add unlock",
            Line::SpinLockUnlock => "spin lock unlock",
            Line::GuardedAddUnlock => "guarded add unlock",
            Line::LazyForce => "lazy force",
            Line::BareLoadExchangeLoadsSubtract => "bare load exchange loads subtract",
            Line::AtomicLoad => "atomic u64 load",
            Line::AtomicWideLoad => "atomic u128 load",
            Line::BareExchangeStores => "bare exchange stores",
            Line::AtomicStore => "atomic u64 store",
            Line::BareExchangeLoadsStores => "bare exchange loads stores",
            Line::AtomicFetchAdd => "atomic u64 fetch_add",
            Line::AtomicWideFetchAdd => "atomic u128 fetch_add",
            Line::AtomicCompareExchange => "atomic u64 compare_exchange",
            Line::BareLoadAdd => "bare load add",
            Line::StdCondvarNotifyOne => "std condvar notify_one",
            Line::CondvarNotifyOne => "condvar notify_one",
            Line::ChannelSendReceive => "crossbeam_channel send receive",
            Line::JobQueuePutTake => "job_queue put take",
        }
    }

    /// Makes `OPERATIONS` operations, and counts those that succeeded: in one thread these are all. What the operations do,
    /// and how long they take, has no contract: they are only safe.
    pub fn run(self, rt: &impl Wait, alloc: Global) -> Result<u32, AllocError> {
        match self {
            Line::BareExchangeStore => Ok(mutex::bare_exchange_store()),
            Line::StdMutexLockUnlock => Ok(mutex::std_mutex_lock_unlock(rt)),
            Line::MutexLockUnlock => mutex::lock_unlock(rt, alloc),
            Line::MutexTryLockUnlock => mutex::try_lock_unlock(alloc),
            Line::MutexNewDrop => Ok(mutex::new_drop(alloc)),
            Line::BareLoadExchangeSubtract => Ok(rwreader::bare_load_exchange_subtract()),
            Line::StdRwLockReadUnlock => Ok(rwreader::std_rwlock_read_unlock(rt)),
            Line::StdRwLockWriteUnlock => Ok(rwreader::std_rwlock_write_unlock(rt)),
            Line::RwReaderReadUnlock => rwreader::read_unlock(rt, alloc),
            Line::RwReaderWriteUnlock => rwreader::write_unlock(rt, alloc),
            Line::BareLoadExchangeSubtractTest => Ok(rwwriter::bare_load_exchange_subtract_test()),
            Line::BareLoadExchangeStoreAdd => Ok(rwwriter::bare_load_exchange_store_add()),
            Line::RwWriterReadUnlock => rwwriter::read_unlock(rt, alloc),
            Line::RwWriterWriteUnlock => rwwriter::write_unlock(rt, alloc),
            Line::RwValueReadUnlock => rwvalue::read_unlock(rt, alloc),
            Line::RwValueWriteUnlock => rwvalue::write_unlock(rt, alloc),
            Line::SemaphoreTryWaitPost => semaphore::try_wait_post(rt, alloc),
            Line::SemaphoreValue => semaphore::value(alloc),
            Line::BareLoadExchange => Ok(barrier::bare_load_exchange()),
            Line::StdBarrierOfOne => Ok(barrier::std_barrier_of_one(rt)),
            Line::BarrierOfOne => barrier::of_one(rt, alloc),
            Line::StdOnceLockGet => Ok(once::std_once_lock_get()),
            Line::OnceAfter => once::after(rt, alloc),
            Line::BareSwaps => Ok(spin_lock::bare_swaps()),
            Line::BareExchangeAddStore => Ok(guarded::bare_exchange_add_store()),
            Line::StdMutexAddUnlock => Ok(guarded::std_mutex_add_unlock(rt)),
            Line::SpinLockUnlock => spin_lock::lock_unlock(rt, alloc),
            Line::GuardedAddUnlock => guarded::add_unlock(rt, alloc),
            Line::LazyForce => lazy_lock::force(rt, alloc),
            Line::BareLoadExchangeLoadsSubtract => Ok(atomic::bare_load_exchange_loads_subtract()),
            Line::AtomicLoad => atomic::load(rt, alloc),
            Line::AtomicWideLoad => atomic::load_wide(rt, alloc),
            Line::BareExchangeStores => Ok(atomic::bare_exchange_stores()),
            Line::AtomicStore => atomic::store(rt, alloc),
            Line::BareExchangeLoadsStores => Ok(atomic::bare_exchange_loads_stores()),
            Line::AtomicFetchAdd => atomic::fetch_add(rt, alloc),
            Line::AtomicWideFetchAdd => atomic::fetch_add_wide(rt, alloc),
            Line::AtomicCompareExchange => atomic::compare_exchange(rt, alloc),
            Line::BareLoadAdd => Ok(condvar::bare_load_add()),
            Line::StdCondvarNotifyOne => Ok(condvar::std_condvar_notify_one()),
            Line::CondvarNotifyOne => condvar::notify_one(alloc),
            Line::ChannelSendReceive => queue::channel_send_receive(rt, alloc),
            Line::JobQueuePutTake => queue::put_take(rt, alloc),
        }
    }
}

/// One operation that is measured, with the objects that it works on.
trait Operation {
    /// Makes it once, and tells whether it succeeded.
    fn once(&mut self) -> bool;
}

/// A wait closure that does nothing.
#[inline(always)]
fn go_on<W>(_word: &W, _seen: &u64) -> WaitAction {
    WaitAction::Continue
}

/// The measured loop: makes the operation again and again, and counts how often it succeeded.
///
/// It is built anew for each operation, which is inlined into it. It is a function of its own, so that the compiler does not
/// see there that nobody else has the operation's objects. An object that the operation makes itself may be optimised away,
/// unless a function with `#[inline(never)]` borrows it and its answer is used: the library's `black_box` hides nothing.
#[inline(never)]
fn successes<O: Operation>(operation: &mut O) -> u32
    ensures { result ≤ OPERATIONS }
{
    let mut count = 0;
    for _ in 0..OPERATIONS {
        if operation.once() {
            count += 1;
        }
    }
    count
}
