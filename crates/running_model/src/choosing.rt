//! How a call under way calls its choice closure.
ghost use Rattle.std.specs.Prelude.{◌≡◌, Some, None};
ghost use Rattle.running_model.specs.Passes.{parties_of};
ghost use Rattle.running_model.specs.Stages.{IsPassOf, key_of};
ghost use Rattle.running_model.specs.Choices.{StandsToChoose, choice_in, pass_choosing};

use crate::counts::Counts;
use crate::played::Played;
use crate::script::Script;
use crate::stage::Stage;
use crate::turn::{Goes, Turn, Way};
use running_passes::Pass;
use std::alloc::Allocator;
use std::marker::{Brand, PhantomData};

/// A choice: with `Brand` its caller picks it.
pub trait Chosen<V> {
    ghost use Rattle.std.specs.Prelude.{Option};

    ghost choice: { Option V };
}

impl<V> Chosen<V> for Brand {
    ghost choice = { None };
}

/// Its choice closure has chosen as `L` says.
pub struct Chooses<L> {
    of: PhantomData<L>,
}

impl<V, L: Chosen<V>> Way<V> for Chooses<L> {
    ghost use Rattle.running_model.specs.Plays.{Choosing};

    ghost coming = { Choosing L.choice };
}

/// No value.
pub struct Nothing;

impl<V> Chosen<V> for Nothing {
    ghost choice = { None };
}

/// A call under way whose choice closure has chosen a value.
pub struct TurnWith<'p, T, V> {
    pub(crate) pass: &'p mut T,
    pub(crate) value: V,
}

impl<'p, T, V> TurnWith<'p, T, V> {
    /// The value, and the turn. The type names the value.
    #[inline(always)]
    pub fn take<L: Chosen<V>>(self) -> (V, Turn<'p, T, Chooses<L>>)
        requires named { L.choice ≡ Some self.value }
        ensures value { result.0 ≡ self.entry.value }
        ensures same_borrow { result.1.pass.ghost_name ≡ self.entry.pass.ghost_name }
        ensures still { result.1.pass.now ≡ self.entry.pass.now }
    {
        let TurnWith { pass, value } = self;
        let next = Turn {
            pass,
            by: PhantomData,
        };
        (value, next)
    }
}

/// What a choice closure has chosen, with the call under way.
pub enum Choice<'p, T, V> {
    Value(TurnWith<'p, T, V>),
    Nothing(Turn<'p, T, Chooses<Nothing>>),
}

impl<'p, M, P, V, C> Turn<'p, Pass<Played<M, P, V, C>>, Goes> {
    /// Calls the choice closure at which the call stands, with the value that the model tells it there.
    #[inline(always)]
    pub fn choose<K, A: Allocator, F: FnMut(V) -> Option<V>>(
        self,
        at: &Stage<K, M, P, V, C, A>,
        told: V,
        f: F,
    ) -> Choice<'p, Pass<Played<M, P, V, C>>, V>
    where
        M: Script<K, P, V>,
        C: Counts<K, V>,
        requires own { IsPassOf at.now self.pass.now }
        requires stands { StandsToChoose (M.model (key_of at.now)) told (parties_of self.pass.now) }
        requires may { F.pre f told }
        ensures same_borrow { (pass_choosing result).ghost_name ≡ self.entry.pass.ghost_name }
        ensures still { (pass_choosing result).now ≡ self.entry.pass.now }
        ensures chose { F.post f told (choice_in result) }
    {
        let _at = at;
        let Turn { pass, by: _ } = self;
        let mut f = f;
        match f(told) {
            Some(value) => Choice::Value(TurnWith { pass, value }),
            None => Choice::Nothing(Turn {
                pass,
                by: PhantomData,
            }),
        }
    }
}
