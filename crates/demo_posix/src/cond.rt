//! `pthread_cond_t`.
ghost use Rattle.std.specs.Prelude.{◌≡◌, ◌<◌, Err, IfOk, IfErr};
ghost use Rattle.demo_posix.specs.declared.errno.Errno.TheVariants as errors;
ghost use Rattle.demo_posix.specs.declared.mutex.Kind.TheVariants as kinds;
ghost use Rattle.demo_posix.specs.Posix.{kind_of, depth_of};

use crate::errno::Errno;
use crate::mutex::Thread;
use model_events::WaitAction;
use sleeping_monitor::Changes;
use std::sync::Wait;
use std::time::{Clock, Instant};

/// What threads wait at to be told. Who waits has read the count of what was told under its mutex, and sleeps while it is that.
#[derive(Drop)]
pub struct Cond {
    told: Changes,
}

impl Cond {
    /// `pthread_cond_init`.
    pub const fn new() -> Cond {
        Cond {
            told: Changes::new(),
        }
    }

    /// `pthread_cond_wait`: lets the mutex go, however often it is locked, waits to be told, and has it again. It may also return for no
    /// reason, so it is called in a loop.
    pub fn wait<R: Wait>(&self, rt: &R, thread: &mut Thread<'_>) -> Result<(), Errno>
        ensures kept { depth_of thread.new ≡ depth_of thread.old }
        ensures not_owned { IfErr result (λ error. (error ≡ errors.NotPermitted) × (depth_of thread.old ≡ 0)) }
        ensures owned { IfOk result (λ _. 0 < depth_of thread.old) }
    {
        let seen = self.told.seen();
        let depth = thread.let_go()?;
        self.told.sleep(rt, seen);
        thread.take_back(rt, depth);
        Ok(())
    }

    /// `pthread_cond_timedwait`. It has the mutex again where it answers `TimedOut`, too.
    pub fn timed_wait<R: Wait + Clock>(
        &self,
        rt: &R,
        thread: &mut Thread<'_>,
        deadline: Option<Instant>,
    ) -> Result<(), Errno>
        ensures kept { depth_of thread.new ≡ depth_of thread.old }
        ensures not_owned { result ≡ Err errors.NotPermitted → depth_of thread.old ≡ 0 }
        ensures owned { 0 < depth_of thread.old → IfErr result (λ error. error ≡ errors.TimedOut) }
    {
        let seen = self.told.seen();
        let depth = thread.let_go()?;
        let ended = self.told.sleep_until(rt, seen, deadline);
        thread.take_back(rt, depth);
        match ended {
            WaitAction::Continue => Ok(()),
            WaitAction::Abort => Err(Errno::TimedOut),
        }
    }

    /// `pthread_cond_signal`: wakes at least one of those that wait. It wakes all, since a wake of one might go to a thread that came after.
    pub fn signal(&self) {
        self.told.tell();
    }

    /// `pthread_cond_broadcast`.
    pub fn broadcast(&self) {
        self.told.tell();
    }
}
