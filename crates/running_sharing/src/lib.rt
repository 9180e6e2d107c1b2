//! Many threads at one object, each with a part of one pass, which are that pass again at the end.
#![tactic(auto)]

ghost use Rattle.std.specs.Prelude.{◌≡◌};
ghost use Rattle.running_passes.specs.declared.part.Part.{Part};
ghost use Rattle.running_passes.specs.Parts.{half, IsSamePart, IsAgain};
ghost use denote.Param.Send.{IsSync, IsSend};

mod handle;

pub use crate::handle::Handle;
use std::thread;
use std::thread::Threads;

/// A pass that can be parted at the object that it came from, and put together again.
pub trait Shares<O>: Sized {
    // It is that object's, and has no hold.
    ghost idle: { O → Self → Type 0 };

    // Which part of all passes it is.
    ghost part: { Self → Part };

    /// Two halves of it.
    fn cut(self, of: &O) -> (Self, Self)
        requires idle { idle of.now self }
        ensures idle { idle of.now result.0 × idle of.now result.1 }
        ensures halves { (part result.0 ≡ half (part self)) × (part result.1 ≡ half (part self)) };

    /// One of both, which is that part again of which they were halves.
    fn mend(one: Self, other: Self, of: &O) -> Self
        requires idle { idle of.now one × idle of.now other }
        ensures idle { idle of.now result }
        ensures again { (p : Part) → IsSamePart (part one) (half p) → IsSamePart (part other) (half p) → IsAgain p (part result) };
}

/// Calls `work` in so many threads, each with a part of the pass, and joins what they leave: it is that part again, and so whole where
/// it was. Each call has to leave the part that it was given, at the same object, with no hold. Below 2 threads it is called once, here.
#[cycle(shares)]
pub fn in_threads<O: Sync, P: Shares<O> + Send + Drop, R: Threads + Sync, F: Fn(P) -> P + Sync>(
    rt: &R,
    of: &O,
    pass: P,
    threads: usize,
    work: &F,
) -> P
    requires idle { P.idle of.now pass }
    requires may { (p : _) → P.idle of.now p → F.pre work.now p }
    requires stays { (p q : _) → P.idle of.now p → F.post work.now p q → P.idle of.now q × (P.part q ≡ P.part p) }
    ensures idle { P.idle of.now result }
    ensures again { IsAgain (P.part pass) (P.part result) }
    ensures worked { (p : _) × (q : _) × P.idle of.now p × F.post work.now p q }
{
    if threads < 2 {
        return work(pass);
    }
    let few = threads / 2;
    let rest = threads - few;
    let (one, other) = P::cut(pass, of);
    let front = move || -> P
        requires { IsSync R.row × IsSync F.row × IsSync O.row × IsSend P.row × P.idle of.now one × ((p : _) → P.idle of.now p → F.pre work.now p) × ((p q : _) → P.idle of.now p → F.post work.now p q → P.idle of.now q × (P.part q ≡ P.part p)) }
        ensures { P.idle of.entry.now result × IsAgain (P.part one) (P.part result) × ((p : _) × (q : _) × P.idle of.entry.now p × F.post work.entry.now p q) }
    { in_threads(rt, of, one, few, work) };
    let back = move || -> P
        requires { IsSync R.row × IsSync F.row × IsSync O.row × IsSend P.row × P.idle of.now other × ((p : _) → P.idle of.now p → F.pre work.now p) × ((p q : _) → P.idle of.now p → F.post work.now p q → P.idle of.now q × (P.part q ≡ P.part p)) }
        ensures { P.idle of.entry.now result × IsAgain (P.part other) (P.part result) × ((p : _) × (q : _) × P.idle of.entry.now p × F.post work.entry.now p q) }
    { in_threads(rt, of, other, rest, work) };
    let (one, other) = thread::join(rt, front, back);
    P::mend(one, other, of)
}
