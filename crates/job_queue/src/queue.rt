//! The queue that threads share.
ghost use Rattle.std.specs.Prelude.{◌≡◌, ℕ, min, IfOk, IfErr};
ghost use Rattle.running_passes.specs.Answers.{MayAnswer, MayAnswerAbort};
ghost use Rattle.running_model.specs.Asked.{HasWokenOf};
ghost use Rattle.running_model.specs.Shown.{object_shown, index_shown};
ghost use Rattle.running_guarded.specs.GuardedWord as locks;
ghost use Rattle.running_semaphore.specs.SemaphoreShown.{IsEmpty};
ghost use Rattle.running_condvar.specs.CondShown.{HasNotified, IsPermitsWord as IsOneOfPermits};
ghost use Rattle.running_guarded.specs.GuardedShown.{IsGuardedPass, HasStayed as HasStayedAtState, HasLockedOnce, view, id_of};
ghost use Rattle.running_guarded.specs.GuardedSteps.{Acts, PlaysBoth};
ghost use Rattle.job_queue.specs.Answers.{job_of, IsEmptyAnswer, IsInterrupted};
ghost use Rattle.job_queue.specs.QueueShown.{IsStateWord, IsPermitsWord};
ghost use Rattle.model_events.specs.declared.WaitAction.TheVariants as actions;

use crate::answer::{PutFault, Taken};
use crate::pass::QueuePass;
use crate::state::{KeepsJobs, QueueState};
use crate::word::{PartWord, QueueWord};
use model_events::WaitAction;
use running_condvar::ConditionVariable;
use running_guarded::{Guarded, GuardedPass, GuardedWord};
use running_passes::WaitResult;
use running_semaphore::SemaphoreWord;
use std::alloc::{AllocError, Allocator, Global};
use std::sync::Wait;
use std::thread;

/// A bounded queue of jobs, which threads share. Each job has a ticket, and they leave in the order of their tickets.
///
/// The jobs lie in a `QueueState` that a lock guards, which is waited for by yielding. A taker that finds no job waits at a condition
/// variable, by its caller's wait closure.
pub type JobQueue<T, A = Global> = QueueOf<QueueState<T, A>, A>;

/// A queue that keeps its jobs in an `S`. It is told by that, and not by the type of its jobs, so that a closure's bound can name it.
#[derive(Drop)]
pub struct QueueOf<S, A: Allocator = Global> {
    pub(crate) state: Guarded<S, A>,
    pub(crate) changed: ConditionVariable<A>,
}

impl<T: Drop, A: Allocator + Copy> QueueOf<QueueState<T, A>, A> {
    ghost use Rattle.job_queue.specs.QueueShown.{IsQueuePass, IsOnePart, IsWholePass};

    /// An open queue that holds at most `capacity` jobs, whose first ticket is 0, and the pass that is whole. `Err` where there was no
    /// memory; then nothing was made.
    pub fn new(alloc: A, capacity: usize) -> Result<(JobQueue<T, A>, QueuePass), AllocError>
        ensures own { IfOk result (λ made. IsQueuePass made.0 made.1) }
        ensures whole { IfOk result (λ made. IsWholePass made.1 × IsOnePart made.1) }
    {
        let (changed, changed_pass) = ConditionVariable::new(alloc)?;
        let state = QueueState::new(alloc, capacity)?;
        match Guarded::new(alloc, state) {
            Ok((state, state_pass)) => Ok((
                QueueOf { state, changed },
                QueuePass {
                    state: state_pass,
                    changed: changed_pass,
                },
            )),
            Err((error, _state)) => Err(error),
        }
    }
}

impl<S: KeepsJobs + Drop, A: Allocator> QueueOf<S, A> {
    ghost use Rattle.job_queue.specs.QueueShown.{IsQueuePass, HasStayed, HasGoneInOnce, HasGoneIn, HasLookedTwice, changed_in};

    /// Puts a job at the queue's end, gives its ticket, and notifies one that waits. Else the job comes back, and nobody is notified: as
    /// `Closed`, `Full` or `TicketsOut`, by the state (`QueueState::put`).
    ///
    /// The wake closure is called at the state's unlock, and once more with the notify.
    pub fn put<R: Wait, K: Fn(&QueueWord<'_, S>)>(
        &self,
        rt: &R,
        pass: &mut QueuePass,
        job: S::Job,
        wake_one: K,
    ) -> Result<u64, PutFault<S::Job>>
        requires own { IsQueuePass self.now pass.old }
        requires may { K.IsAlwaysCallable wake_one }
        ensures stayed { HasStayed pass.old pass.new }
        ensures once { HasGoneInOnce pass.old pass.new }
        ensures handed_back { IfErr result (λ fault. job_of fault ≡ job) }
        ensures unnotified { IfErr result (λ _. changed_in pass.new ≡ changed_in pass.old) }
        ensures notified { IfOk result (λ _. HasNotified (λ waiting. min 1 waiting) (changed_in pass.old) (changed_in pass.new) × HasWokenOf K.Fn (IsPermitsWord self.now) wake_one) }
        ensures woke { HasWokenOf K.Fn (IsStateWord self.now) wake_one }
    {
        let put = self.go_in(
            rt,
            &mut pass.state,
            &wake_one,
            move |state: &mut S| -> Result<u64, PutFault<S::Job>>
                ensures { IfErr result (λ fault. job_of fault ≡ job) }
            { state.put(job) },
        );
        match put {
            Ok(ticket) => {
                self.changed.notify_one(
                    &mut pass.changed,
                    |word: &SemaphoreWord<'_>|
                        requires { K.IsAlwaysCallable wake_one }
                        ensures { IsOneOfPermits self.entry.now.changed (object_shown word.now) (index_shown word.now) → HasWokenOf K.Fn (IsPermitsWord self.entry.now) wake_one }
                    { self.wake_at_permits(&wake_one, word) },
                );
                Ok(ticket)
            }
            Err(fault) => Err(fault),
        }
    }

    /// Takes the oldest job, `Taken::Job`. A closed queue without jobs answers `Closed`. While the queue is open and has none the call
    /// waits, as `ConditionVariable::wait` does: `wait` is told the count of permits that was seen, 0. `Interrupted` comes only after
    /// `wait` answered `Abort`, and where the state, looked at once more, is still open and without a job. `Empty` never comes.
    pub fn take<R: Wait, W: Fn(&QueueWord<'_, S>, &u64) -> WaitAction, K: Fn(&QueueWord<'_, S>)>(
        &self,
        rt: &R,
        pass: &mut QueuePass,
        wait: W,
        wake_one: K,
    ) -> Taken<S::Job>
        requires own { IsQueuePass self.now pass.old }
        requires may { W.IsAlwaysCallable wait × K.IsAlwaysCallable wake_one }
        ensures stayed { HasStayed pass.old pass.new }
        ensures went_in { (waits : ℕ) × HasGoneIn self.now waits pass.old pass.new }
        ensures never_empty { ¬ IsEmptyAnswer result }
        ensures aborted { IsInterrupted result → MayAnswerAbort W.Fn wait IsEmpty }
        ensures looked_again { IsInterrupted result → HasLookedTwice pass.old pass.new }
        ensures woke { HasWokenOf K.Fn (IsStateWord self.now) wake_one }
    {
        let taken = self.state.when(
            rt,
            &mut pass.state,
            |word: &GuardedWord<'_, S>|
                requires { K.IsAlwaysCallable wake_one }
                ensures { locks.object_shown word.now ≡ id_of self.entry.now.state → HasWokenOf K.Fn (IsStateWord self.entry.now) wake_one }
            { self.wake_at_state(&wake_one, word) },
            &self.changed,
            &mut pass.changed,
            |word: &SemaphoreWord<'_>, seen: &u64| -> WaitAction
                requires { W.IsAlwaysCallable wait }
                ensures { MayAnswer W.Fn wait (λ n. n ≡ seen.now) result }
            { ask_at_permits(&wait, word, seen) },
            |state: &mut S| take_one(state),
        );
        match taken {
            WaitResult::Success(over) => taken_of(over),
            WaitResult::Interrupted => Taken::Interrupted,
        }
    }

    /// Closes the queue, and notifies all that wait. What it holds can still be taken; a queue that is closed stays so.
    ///
    /// The closure is called at the state's unlock, and once more with the notify.
    pub fn close<R: Wait, K: Fn(&QueueWord<'_, S>)>(
        &self,
        rt: &R,
        pass: &mut QueuePass,
        wake_all: K,
    )
        requires own { IsQueuePass self.now pass.old }
        requires may { K.IsAlwaysCallable wake_all }
        ensures stayed { HasStayed pass.old pass.new }
        ensures once { HasGoneInOnce pass.old pass.new }
        ensures notified { HasNotified (λ waiting. waiting) (changed_in pass.old) (changed_in pass.new) }
        ensures woke { HasWokenOf K.Fn (IsStateWord self.now) wake_all × HasWokenOf K.Fn (IsPermitsWord self.now) wake_all }
    {
        self.go_in(
            rt,
            &mut pass.state,
            &wake_all,
            |state: &mut S| state.close(),
        );
        self.changed.notify_all(
            &mut pass.changed,
            |word: &SemaphoreWord<'_>|
                requires { K.IsAlwaysCallable wake_all }
                ensures { IsOneOfPermits self.entry.now.changed (object_shown word.now) (index_shown word.now) → HasWokenOf K.Fn (IsPermitsWord self.entry.now) wake_all }
            { self.wake_at_permits(&wake_all, word) },
        );
    }

    /// Locks the state, yielding until it is there, calls `act` with it, and lets it go.
    #[inline(always)]
    fn go_in<X, R: Wait, K: Fn(&QueueWord<'_, S>), F: FnOnce(&mut S) -> X>(
        &self,
        rt: &R,
        pass: &mut GuardedPass,
        wake: &K,
        act: F,
    ) -> X
        requires own { IsGuardedPass self.now.state pass.old }
        requires may { K.IsAlwaysCallable wake.now × F.IsAlwaysCallable act }
        ensures stayed { HasStayedAtState pass.old pass.new }
        ensures once { HasLockedOnce pass.old pass.new }
        ensures played { PlaysBoth (view pass.old) (view pass.new) }
        ensures acted { Acts F.FnOnce act result }
        ensures woke { HasWokenOf K.Fn (IsStateWord self.now) wake.now }
    {
        let gone_in = self.state.with(
            rt,
            pass,
            |_, _| go_on(),
            |word: &GuardedWord<'_, S>|
                requires { K.IsAlwaysCallable wake.now }
                ensures { locks.object_shown word.now ≡ id_of self.entry.now.state → HasWokenOf K.Fn (IsStateWord self.entry.now) wake.entry.now }
            { self.wake_at_state(wake, word) },
            act,
        );
        match gone_in {
            WaitResult::Success(given) => given,
            WaitResult::Interrupted => unreachable!(),
        }
    }

    /// Calls the wake closure with the word of the state's lock.
    #[inline(always)]
    fn wake_at_state<K: Fn(&QueueWord<'_, S>)>(&self, wake: &K, word: &GuardedWord<'_, S>)
        requires { K.IsAlwaysCallable wake.now }
        ensures { locks.object_shown word.now ≡ id_of self.now.state → HasWokenOf K.Fn (IsStateWord self.now) wake.now }
    {
        let word = PartWord::State(word);
        wake(&QueueWord { word });
    }

    /// Calls it with the word of the permits.
    #[inline(always)]
    fn wake_at_permits<K: Fn(&QueueWord<'_, S>)>(&self, wake: &K, word: &SemaphoreWord<'_>)
        requires { K.IsAlwaysCallable wake.now }
        ensures { IsOneOfPermits self.now.changed (object_shown word.now) (index_shown word.now) → HasWokenOf K.Fn (IsPermitsWord self.now) wake.now }
    {
        let word = PartWord::Permits(word);
        wake(&QueueWord { word });
    }
}

/// The answer of a wait that always goes on. It yields first, so that whoever has the state can run, also where there are more threads
/// than processors.
fn go_on() -> WaitAction
    ensures { result ≡ actions.Continue }
{
    thread::yield_now();
    WaitAction::Continue
}

/// What ends a take: a job, or that there will be none.
enum Over<T> {
    Job { ticket: u64, job: T },
    Closed,
}

/// Takes from the state; `None` where a taker is to wait.
fn take_one<S: KeepsJobs>(state: &mut S) -> Option<Over<S::Job>> {
    match state.take() {
        Taken::Job { ticket, job } => Some(Over::Job { ticket, job }),
        Taken::Closed => Some(Over::Closed),
        Taken::Empty | Taken::Interrupted => None,
    }
}

/// How a take answers that ended so.
fn taken_of<T>(over: Over<T>) -> Taken<T>
    ensures { ¬ IsEmptyAnswer result × ¬ IsInterrupted result }
{
    match over {
        Over::Job { ticket, job } => Taken::Job { ticket, job },
        Over::Closed => Taken::Closed,
    }
}

/// Asks the wait closure with that word.
fn ask_at_permits<S, W: Fn(&QueueWord<'_, S>, &u64) -> WaitAction>(
    wait: &W,
    word: &SemaphoreWord<'_>,
    seen: &u64,
) -> WaitAction
    requires { W.IsAlwaysCallable wait.now }
    ensures { MayAnswer W.Fn wait.now (λ n. n ≡ seen.now) result }
{
    let word = PartWord::Permits(word);
    wait(&QueueWord { word }, seen)
}
