//! The lines of the condition variable, and what they are compared with.
ghost use Rattle.running_condvar.specs.CondShown.{IsCondPass};

use crate::lines::{Operation, successes};
use iceoryx2_pal_concurrency_sync::strategy::condition_variable::{CondPass, ConditionVariable};
use iceoryx2_pal_concurrency_sync::wake_nobody;
use std::alloc::{AllocError, Global};
use std::sync::Condvar;
use std::sync::atomic::{AtomicU64, Ordering};

/// Notifies one where nobody waits, with a closure that does nothing.
pub fn notify_one(alloc: Global) -> Result<u32, AllocError> {
    let (condvar, pass) = ConditionVariable::new(alloc)?;
    Ok(successes(&mut NotifyOne { condvar, pass }))
}

#[derive(Drop)]
struct NotifyOne {
    condvar: ConditionVariable,
    pass: CondPass,
    ghost own: { IsCondPass condvar pass },
}

impl Operation for NotifyOne {
    #[inline(always)]
    fn once(&mut self) -> bool {
        self.condvar.notify_one(&mut self.pass, wake_nobody);
        true
    }
}

/// Looks at a bare word, and adds the lesser of 1 and what it saw to another: the least that a notify of one can do.
pub fn bare_load_add() -> u32 {
    successes(&mut BareNotify {
        counter: AtomicU64::new(0),
        word: AtomicU64::new(0),
    })
}

#[derive(Drop)]
struct BareNotify {
    counter: AtomicU64,
    word: AtomicU64,
}

impl Operation for BareNotify {
    #[inline(always)]
    fn once(&mut self) -> bool {
        let seen = self.counter.load(Ordering::SeqCst);
        self.word.fetch_add(seen.min(1), Ordering::SeqCst);
        seen == 0
    }
}

/// Notifies a condition variable of std at which nobody waits.
pub fn std_condvar_notify_one() -> u32 {
    successes(&mut StdCondvar {
        condvar: Condvar::new(),
    })
}

#[derive(Drop)]
struct StdCondvar {
    condvar: Condvar,
}

impl Operation for StdCondvar {
    #[inline(always)]
    fn once(&mut self) -> bool {
        self.condvar.notify_one();
        true
    }
}
