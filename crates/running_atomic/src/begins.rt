//! The calls of an atomic that are named by a type. The others name a value too: their callers pick them (`Brand`), and their acts.
ghost use Rattle.running_atomic.specs.declared.history.AtomicAct.{AtomicAct};
ghost use Rattle.running_atomic.specs.declared.history.AtomicAct.TheVariants as act;

use running_model::turn::Called;
use std::marker::Brand;

/// An act of the history: with `Brand` its caller picks it.
pub(crate) trait Acts {
    ghost act: { AtomicAct };
}

impl Acts for Brand {
    ghost act = { act.Load };
}

/// The act of a call that compares, and the value that it compares with: with `Brand` its caller picks them.
pub(crate) trait Compares<T> {
    ghost use Rattle.model_events.specs.Arithmetic.{Arithmetic};

    ghost act: { AtomicAct };

    ghost current: { Arithmetic T → T };
}

impl<T> Compares<T> for Brand {
    ghost act = { act.Load };

    ghost current = { λ z. z.of_words 0 0 };
}
