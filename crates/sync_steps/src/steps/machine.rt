ghost use Rattle.std.specs.Prelude.{◌≡◌, ◌<◌, [], length, IfOk, IfErr, OnErr};
ghost use Rattle.model_events.specs.declared.event.Input.TheVariants as inputs;
ghost use Rattle.model_events.specs.declared.event.Word.TheVariants as words;
ghost use Rattle.model_events.specs.Past.{event};
ghost use Rattle.sync_steps.specs.Machine.{StandsAt, TellsObject, Tells, IsNoneWithout, TellsFailed, TellsHold, TellsParty, Steps, RefusesStep, KeepsHeadline};
ghost use Rattle.sync_steps.specs.Machine.Applies.{HasWritten, HasTurned, HasRefused};

mod stride;

use super::place::{Party, opened};
use super::turn;
use model_events::WaitAction;
use model_events::atomic::internal::AtomicInteger;
use model_events::event::{Act, Call, Event, Input, Object, StepFault, Then};
use model_events::hold::HoldKind;
use model_events::words::{Words, failed_after};
use std::alloc::{AllocError, Allocator, Global};
use std::marker::Model;
pub use stride::Stride;

/// One object and its parties, numbered from 0, each with at most one call under way and at most one hold.
#[derive(Drop)]
pub struct Machine<T, A: Allocator = Global> {
    object: Object<T>,
    parties: Vec<Party<T>, A>,
    words: Words,
    failed: u64,
}

impl<T, A: Allocator> Model for Machine<T, A> {
    ghost use Rattle.sync_steps.specs.Machine.{Configuration};

    ghost Value = { Configuration T };

    ghost view = { λ m. record { object = m.object; parties = m.parties.items; words = m.words; failed = m.failed } };
}

impl<T: AtomicInteger, A: Allocator> Machine<T, A> {
    /// A machine of the object, where no party has begun a call yet.
    ///
    /// It takes memory for the places of its parties, and answers `AllocError` where there is none.
    pub fn new(alloc: A, object: Object<T>, parties: usize) -> Result<Machine<T, A>, AllocError>
        ensures { IfOk result (StandsAt T.arithmetic object parties []) }
    {
        let party = Party {
            doing: None,
            hold: None,
        };
        let words = opened(&object);
        Ok(Machine {
            object,
            parties: vec![in alloc; party; parties]?,
            words,
            failed: 0,
        })
    }

    /// The object.
    pub fn object(&self) -> Object<T>
        ensures { TellsObject T.arithmetic self.now result }
    {
        self.object
    }

    /// The word: of a lock, a semaphore, a barrier or a once; of a `Condvar` its mutex's, of an `Atomic` its lock's.
    pub fn word(&self) -> u64
        ensures { Tells T.arithmetic self.now words.State result }
    {
        self.words.state
    }

    /// The wake counter of a `WriterLock`, else 0.
    pub fn counter(&self) -> u64
        ensures told { Tells T.arithmetic self.now words.Counter result }
        ensures absent { IsNoneWithout T.arithmetic self.now words.Counter result }
    {
        self.words.counter
    }

    /// How many wait at a `Condvar`, else 0.
    pub fn waiters(&self) -> u64
        ensures told { Tells T.arithmetic self.now words.Waiters result }
        ensures absent { IsNoneWithout T.arithmetic self.now words.Waiters result }
    {
        self.words.waiters
    }

    /// The permits of a `Condvar`, else 0.
    pub fn value(&self) -> u64
        ensures told { Tells T.arithmetic self.now words.Value result }
        ensures absent { IsNoneWithout T.arithmetic self.now words.Value result }
    {
        self.words.value
    }

    /// The low and the high word of an `Atomic`'s value, else 0 and 0.
    pub fn low_high(&self) -> (u64, u64)
        ensures low { Tells T.arithmetic self.now words.Low result.0 }
        ensures high { Tells T.arithmetic self.now words.High result.1 }
        ensures low_absent { IsNoneWithout T.arithmetic self.now words.Low result.0 }
        ensures high_absent { IsNoneWithout T.arithmetic self.now words.High result.1 }
    {
        (self.words.low, self.words.high)
    }

    /// How many exchanges failed; it stops at 2^64 - 1.
    pub fn failed(&self) -> u64
        ensures { TellsFailed T.arithmetic self.now result }
    {
        self.failed
    }

    /// What a party holds, counted from 0; nothing where there is no such party.
    pub fn hold(&self, party: usize) -> Option<HoldKind>
        ensures { TellsHold T.arithmetic self.now party result }
    {
        match self.parties.get(party) {
            Some(found) => found.hold,
            None => None,
        }
    }

    /// Where a party is, counted from 0: the call that it has under way, and what it holds; `None` where there is no such party.
    pub fn party(&self, party: usize) -> Option<Party<T>>
        ensures { TellsParty T.arithmetic self.now party result }
    {
        match self.parties.get(party) {
            Some(found) => Some(*found),
            None => None,
        }
    }

    /// Plays one input of a party, counted from 0: the event that it gives, or why it is refused.
    ///
    /// After a fault the machine is unchanged. It takes no memory.
    #[inline(always)]
    pub fn step(&mut self, party: usize, input: Input<T>) -> Result<Event<T>, StepFault>
        // The event is the one that the input gives, or the fault is the first that applies.
        ensures next { IfOk result (λ event. Steps T.arithmetic self.old party input event self.new) }
        ensures fault { IfErr result (RefusesStep T.arithmetic self.old party input) }
        ensures err { OnErr result (self.new ≡ self.old) }

        // What holds at every prefix of every run holds after the event.
        ensures headline { IfOk result (KeepsHeadline T.arithmetic self.old) }
    {
        if party >= self.parties.len() {
            return Err(StepFault::NoParty);
        }
        turn::read_values(&input);
        match input {
            Input::Begin(call) => self.begin(party, call),
            Input::Go => self.go(party),
            Input::Answer(action) => self.answer(party, action),
            Input::Choose(choice) => self.choose(party, choice),
        }
    }
}

impl<T: AtomicInteger, A: Allocator> Machine<T, A> {
    /// A party begins a call.
    #[inline(always)]
    fn begin(&mut self, party: usize, call: Call<T>) -> Result<Event<T>, StepFault>
        requires { party < length self.old.parties }
        ensures ok { IfOk result (HasTurned T.arithmetic party (inputs.Begin call) self.old self.new) }
        ensures fault { IfErr result (HasRefused T.arithmetic party (inputs.Begin call) self.old) }
        ensures err { OnErr result (self.new ≡ self.old) }
    {
        match turn::begin(&self.object, &mut self.parties[party], call) {
            Ok((act, then)) => Ok(self.tell(party, act, then)),
            Err(fault) => Err(fault),
        }
    }

    /// A party makes the next step of its call. Of all inputs it is the one that comes by the million.
    #[inline(always)]
    fn go(&mut self, party: usize) -> Result<Event<T>, StepFault>
        requires { party < length self.old.parties }
        ensures ok { IfOk result (HasTurned T.arithmetic party inputs.Go self.old self.new) }
        ensures fault { IfErr result (HasRefused T.arithmetic party inputs.Go self.old) }
        ensures err { OnErr result (self.new ≡ self.old) }
    {
        match turn::go(&self.object, &mut self.parties[party], &self.words) {
            Ok((act, then)) => Ok(self.tell(party, act, then)),
            Err(fault) => Err(fault),
        }
    }

    /// The wait closure of a party answers.
    #[inline(always)]
    fn answer(&mut self, party: usize, action: WaitAction) -> Result<Event<T>, StepFault>
        requires { party < length self.old.parties }
        ensures ok { IfOk result (HasTurned T.arithmetic party (inputs.Answer action) self.old self.new) }
        ensures fault { IfErr result (HasRefused T.arithmetic party (inputs.Answer action) self.old) }
        ensures err { OnErr result (self.new ≡ self.old) }
    {
        match turn::answer(&mut self.parties[party], action) {
            Ok((act, then)) => Ok(self.tell(party, act, then)),
            Err(fault) => Err(fault),
        }
    }

    /// The choice closure of a party answers.
    #[inline(always)]
    fn choose(&mut self, party: usize, choice: Option<T>) -> Result<Event<T>, StepFault>
        requires { party < length self.old.parties }
        ensures ok { IfOk result (HasTurned T.arithmetic party (inputs.Choose choice) self.old self.new) }
        ensures fault { IfErr result (HasRefused T.arithmetic party (inputs.Choose choice) self.old) }
        ensures err { OnErr result (self.new ≡ self.old) }
    {
        match turn::choose(&mut self.parties[party], choice) {
            Ok((act, then)) => Ok(self.tell(party, act, then)),
            Err(fault) => Err(fault),
        }
    }

    /// Writes what a party's act puts, and tells it as an event.
    #[inline(always)]
    fn tell(&mut self, party: usize, act: Act<T>, then: Then<T>) -> Event<T>
        ensures event { result ≡ event party act then }
        ensures written { HasWritten act self.old self.new }
    {
        self.words.apply(&act);
        self.failed = failed_after(self.failed, &act);
        Event { party, act, then }
    }
}
