//! `pthread_mutex_t`: what a thread has of it is a `Thread`, which owns its pass and counts how often it has the mutex locked.
ghost use Rattle.std.specs.Prelude.{◌≡◌, ◌<◌, ◌+◌, ◌-◌, ◌^◌, true, false, Ok, Err, IfOk, IfErr};
ghost use Rattle.running_model.specs.Passes.{parties_of};
ghost use Rattle.running_mutex.specs.MutexParties.{HasMutex};
ghost use Rattle.running_mutex.specs.MutexShown.{holds_of};
ghost use Rattle.sleeping_mutex.specs.HandleShown.{IsSleepingPass};

use crate::errno::Errno;
use running_mutex::MutexPass;
use sleeping_mutex::{Handle, SleepingMutex};
use std::alloc::{AllocError, Global};
use std::sync::Wait;
use std::thread;
use std::time::{Clock, Instant};

/// What becomes of a thread that locks what it has locked.
#[derive(Clone, Copy, Debug, PartialEq, Eq)]
pub enum Kind {
    /// It waits for ever.
    Normal,
    /// It has it once more, and is to unlock it as often.
    Recursive,
    /// It is told.
    ErrorCheck,
}

/// The mutex, which threads share.
#[derive(Drop)]
pub struct Mutex {
    mutex: SleepingMutex,
    kind: Kind,
}

/// What one thread has of it. A thread that ends while it has the mutex leaves it locked, as that of POSIX does.
#[derive(Drop)]
pub struct Thread<'m> {
    of: &'m Mutex,
    pass: MutexPass,
    depth: u64,
    ghost own: { IsSleepingPass of.now.mutex pass },
    ghost on: { 0 < depth → holds_of pass ≡ 1 },
    ghost has: { 0 < depth → HasMutex (parties_of pass) },
}

impl Mutex {
    ghost use Rattle.demo_posix.specs.Posix.{IsPassOf, kind_in, kind_of, depth_of};

    /// `pthread_mutex_init`: a mutex that is free, and its pass.
    pub fn new(alloc: Global, kind: Kind) -> Result<(Mutex, MutexPass), AllocError>
        ensures first { IfOk result (λ made. IsPassOf made.0 made.1) }
        ensures kind { IfOk result (λ made. kind_in made.0 ≡ kind) }
    {
        let (mutex, pass) = SleepingMutex::new(alloc)?;
        Ok((Mutex { mutex, kind }, pass))
    }

    /// What the thread has that has this pass.
    pub fn thread(&self, pass: MutexPass) -> Thread<'_>
        requires own { IsPassOf self.now pass }
        ensures kind { kind_of result ≡ kind_in self.now }
        ensures out { depth_of result ≡ 0 }
    {
        Thread {
            of: self,
            pass,
            depth: 0,
        }
    }
}

impl<'m> Thread<'m> {
    ghost use Rattle.demo_posix.specs.declared.errno.Errno.TheVariants as errors;
    ghost use Rattle.demo_posix.specs.declared.mutex.Kind.TheVariants as kinds;
    ghost use Rattle.demo_posix.specs.Posix.{kind_of, depth_of};

    /// What one thread more has.
    pub fn split(self) -> (Thread<'m>, Thread<'m>) {
        let Thread { of, pass, .. } = self;
        let (one, other) = of.mutex.handle(pass).split();
        (of.thread(one.into_pass()), of.thread(other.into_pass()))
    }

    /// `pthread_mutex_lock`.
    pub fn lock<R: Wait>(&mut self, rt: &R) -> Result<(), Errno>
        ensures locked { IfOk result (λ _. depth_of self.new ≡ depth_of self.old + 1) }
        ensures refused { IfErr result (λ _. 0 < depth_of self.old) }
        ensures kept { IfErr result (λ _. depth_of self.new ≡ depth_of self.old) }
        ensures deadlock { kind_of self.old ≡ kinds.ErrorCheck → 0 < depth_of self.old → result ≡ Err errors.Deadlock }
        ensures again { kind_of self.old ≡ kinds.Recursive → IfErr result (λ error. (error ≡ errors.Again) × (depth_of self.old ≡ 2 ^ 64 - 1)) }
    {
        if self.depth > 0 {
            return match self.of.kind {
                Kind::Normal => never(rt),
                Kind::Recursive => self.lock_once_more(),
                Kind::ErrorCheck => Err(Errno::Deadlock),
            };
        }
        self.of.mutex.enter(rt, &mut self.pass);
        self.depth = 1;
        Ok(())
    }

    /// `pthread_mutex_trylock`.
    pub fn try_lock(&mut self) -> Result<(), Errno>
        ensures locked { IfOk result (λ _. depth_of self.new ≡ depth_of self.old + 1) }
        ensures kept { IfErr result (λ _. depth_of self.new ≡ depth_of self.old) }
        ensures busy { depth_of self.old ≡ 0 → IfErr result (λ error. error ≡ errors.Busy) }
        ensures own { 0 < depth_of self.old → kind_of self.old ≡ kinds.Normal → result ≡ Err errors.Busy }
        ensures own_too { 0 < depth_of self.old → kind_of self.old ≡ kinds.ErrorCheck → result ≡ Err errors.Busy }
        ensures again { kind_of self.old ≡ kinds.Recursive → 0 < depth_of self.old → IfErr result (λ error. (error ≡ errors.Again) × (depth_of self.old ≡ 2 ^ 64 - 1)) }
    {
        if self.depth > 0 {
            return match self.of.kind {
                Kind::Recursive => self.lock_once_more(),
                Kind::Normal | Kind::ErrorCheck => Err(Errno::Busy),
            };
        }
        if !self.of.mutex.try_enter(&mut self.pass) {
            return Err(Errno::Busy);
        }
        self.depth = 1;
        Ok(())
    }

    /// `pthread_mutex_timedlock`. `None` is no deadline.
    pub fn timed_lock<R: Wait + Clock>(
        &mut self,
        rt: &R,
        deadline: Option<Instant>,
    ) -> Result<(), Errno>
        ensures locked { IfOk result (λ _. depth_of self.new ≡ depth_of self.old + 1) }
        ensures kept { IfErr result (λ _. depth_of self.new ≡ depth_of self.old) }
        ensures timed_out { depth_of self.old ≡ 0 → IfErr result (λ error. error ≡ errors.TimedOut) }
        ensures own { 0 < depth_of self.old → kind_of self.old ≡ kinds.Normal → result ≡ Err errors.TimedOut }
        ensures deadlock { kind_of self.old ≡ kinds.ErrorCheck → 0 < depth_of self.old → result ≡ Err errors.Deadlock }
        ensures again { kind_of self.old ≡ kinds.Recursive → 0 < depth_of self.old → IfErr result (λ error. (error ≡ errors.Again) × (depth_of self.old ≡ 2 ^ 64 - 1)) }
    {
        if self.depth > 0 {
            return match self.of.kind {
                Kind::Normal => {
                    wait_out(rt, deadline);
                    Err(Errno::TimedOut)
                }
                Kind::Recursive => self.lock_once_more(),
                Kind::ErrorCheck => Err(Errno::Deadlock),
            };
        }
        if !self.of.mutex.enter_until(rt, &mut self.pass, deadline) {
            return Err(Errno::TimedOut);
        }
        self.depth = 1;
        Ok(())
    }

    /// `pthread_mutex_unlock`.
    pub fn unlock(&mut self) -> Result<(), Errno>
        ensures unlocked { IfOk result (λ _. depth_of self.new + 1 ≡ depth_of self.old) }
        ensures not_owned { IfErr result (λ error. (error ≡ errors.NotPermitted) × (depth_of self.old ≡ 0) × (depth_of self.new ≡ 0)) }
    {
        if self.depth == 0 {
            return Err(Errno::NotPermitted);
        }
        self.depth -= 1;
        if self.depth == 0 {
            self.of.mutex.leave(&mut self.pass);
        }
        Ok(())
    }

    /// Lets the mutex go whole, for a wait, and tells how often it was locked.
    pub fn let_go(&mut self) -> Result<u64, Errno>
        ensures depth { IfOk result (λ depth. (depth ≡ depth_of self.old) × 0 < depth) }
        ensures out { depth_of self.new ≡ 0 }
        ensures not_owned { IfErr result (λ error. (error ≡ errors.NotPermitted) × (depth_of self.old ≡ 0)) }
    {
        if self.depth == 0 {
            return Err(Errno::NotPermitted);
        }
        let depth = self.depth;
        self.depth = 0;
        self.of.mutex.leave(&mut self.pass);
        Ok(depth)
    }

    /// Has it again, locked so often.
    pub fn take_back<R: Wait>(&mut self, rt: &R, depth: u64)
        ensures depth { depth_of self.new ≡ depth }
    {
        self.depth = 0;
        self.of.mutex.enter(rt, &mut self.pass);
        self.depth = depth;
    }

    fn lock_once_more(&mut self) -> Result<(), Errno>
        requires on { 0 < depth_of self.old }
        ensures locked { IfOk result (λ _. depth_of self.new ≡ depth_of self.old + 1) }
        ensures kept { IfErr result (λ error. (error ≡ errors.Again) × (depth_of self.new ≡ depth_of self.old) × (depth_of self.old ≡ 2 ^ 64 - 1)) }
    {
        match self.depth.checked_add(1) {
            Some(deeper) => {
                self.depth = deeper;
                Ok(())
            }
            None => Err(Errno::Again),
        }
    }
}

/// Waits for ever.
fn never<R: Wait>(rt: &R) -> Result<(), Errno>
    ensures never { true ≡ false }
{
    for _ in rt.forever() {
        thread::yield_now();
    }
    unreachable!()
}

/// Waits until the deadline.
fn wait_out<R: Wait + Clock>(rt: &R, deadline: Option<Instant>) {
    for _ in rt.forever() {
        thread::yield_now();
        if has_passed(rt, deadline) {
            return;
        }
    }
}

fn has_passed<R: Wait + Clock>(rt: &R, deadline: Option<Instant>) -> bool {
    match (deadline, Instant::now(rt)) {
        (Some(deadline), Ok(now)) => now >= deadline,
        _ => false,
    }
}
