//! A call under way, and how its pass comes to the next step.
ghost use Rattle.std.specs.Prelude.{◌≡◌};
ghost use Rattle.running_model.specs.Asked.{AskedOnce};
ghost use Rattle.running_model.specs.Turns.{action_in, pass_in};

pub use crate::calling::Ran;
use crate::calling::answer;
pub use crate::choosing::{Choice, Chooses, Chosen, Nothing, TurnWith};
pub use crate::tries::{Attempt, try_again, try_again_by};
use model_events::WaitAction;
use std::marker::{Brand, PhantomData};

/// A call of the model, which begins: with `Brand` its caller picks it.
pub trait Called<V> {
    ghost use Rattle.model_events.specs.declared.event.Call.{Call};

    ghost call: { Call V };
}

impl<V> Called<V> for Brand {
    ghost use Rattle.model_events.specs.declared.event.Call.TheVariants as calls;

    ghost call = { calls.Lock };
}

/// How a pass comes to a step of a call.
pub trait Way<V> {
    ghost use Rattle.running_model.specs.Plays.{Coming};

    ghost coming: { Coming V };
}

/// The call of `L` begins, by a party that is new.
pub struct Begins<L> {
    of: PhantomData<L>,
}

impl<V, L: Called<V>> Way<V> for Begins<L> {
    ghost use Rattle.running_model.specs.Plays.{Beginning};

    ghost coming = { Beginning L.call };
}

/// The call of `L` begins, by the party that has its hold.
pub struct Continues<L> {
    of: PhantomData<L>,
}

impl<V, L: Called<V>> Way<V> for Continues<L> {
    ghost use Rattle.running_model.specs.Plays.{Continuing};

    ghost coming = { Continuing L.call };
}

/// The call has made a step.
pub struct Goes;

impl<V> Way<V> for Goes {
    ghost use Rattle.running_model.specs.Plays.{Going};

    ghost coming = { Going };
}

/// Its wait closure has answered `Continue`, or, where it answers nothing, come back.
pub struct Continued;

impl<V> Way<V> for Continued {
    ghost use Rattle.model_events.specs.declared.WaitAction.TheVariants as actions;
    ghost use Rattle.running_model.specs.Plays.{Answered};

    ghost coming = { Answered actions.Continue };
}

/// Its wait closure has answered `Abort`.
pub struct Aborted;

impl<V> Way<V> for Aborted {
    ghost use Rattle.model_events.specs.declared.WaitAction.TheVariants as actions;
    ghost use Rattle.running_model.specs.Plays.{Answered};

    ghost coming = { Answered actions.Abort };
}

/// It has made a step on no word: its wake closure was called, or its closure has ended.
pub struct AfterAside;

impl<V> Way<V> for AfterAside {
    ghost use Rattle.running_model.specs.Plays.{Aside};

    ghost coming = { Aside };
}

/// It has made two such steps, one after the other.
pub struct AfterTwo;

/// A call under way, which comes to its next step so. It has the pass. Each step, and each call of a closure, takes it and gives the next;
/// `Stage::end` takes the last, and gives the pass back. It cannot be let go.
pub struct Turn<'p, T, W> {
    pub(crate) pass: &'p mut T,
    pub(crate) by: PhantomData<W>,
}

/// Begins a call, by a party that is new.
#[inline(always)]
pub fn begin_new<'p, L, T>(pass: &'p mut T) -> Turn<'p, T, Begins<L>>
    ensures same_borrow { result.pass.ghost_name ≡ pass.entry.ghost_name }
    ensures still { result.pass.now ≡ pass.old }
{
    Turn {
        pass,
        by: PhantomData,
    }
}

/// Begins a call, by the party that has its hold.
#[inline(always)]
pub fn begin_held<'p, L, T>(pass: &'p mut T) -> Turn<'p, T, Continues<L>>
    ensures same_borrow { result.pass.ghost_name ≡ pass.entry.ghost_name }
    ensures still { result.pass.now ≡ pass.old }
{
    Turn {
        pass,
        by: PhantomData,
    }
}

/// What a wait closure has answered, as the way by which the call comes to its next step.
pub enum Answered<'p, T> {
    Continue(Turn<'p, T, Continued>),
    Abort(Turn<'p, T, Aborted>),
}

/// Calls a wait closure, once, of this word, and gives it back.
#[inline(always)]
pub(crate) fn hear<'p, T, X, W: FnMut(&X, &u64) -> WaitAction>(
    turn: Turn<'p, T, Goes>,
    word: &X,
    told: u64,
    wait: W,
) -> (Answered<'p, T>, W)
    requires may { W.IsAlwaysCallable wait }
    ensures same_borrow { (pass_in result.0).ghost_name ≡ turn.entry.pass.ghost_name }
    ensures still { (pass_in result.0).now ≡ turn.entry.pass.now }
    ensures may_again { W.IsAlwaysCallable result.1 }
    ensures asked { AskedOnce W.FnMut word.now wait told (action_in result.0) result.1 }
{
    let Turn { pass, by: _ } = turn;
    let (action, asked) = answer(word, told, wait);
    match action {
        WaitAction::Continue => (
            Answered::Continue(Turn {
                pass,
                by: PhantomData,
            }),
            asked,
        ),
        WaitAction::Abort => (
            Answered::Abort(Turn {
                pass,
                by: PhantomData,
            }),
            asked,
        ),
    }
}
