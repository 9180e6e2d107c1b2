//! How a call that may wait answers, and how one calls a wake closure.
ghost use Rattle.std.specs.Prelude.{MatchBool};
ghost use Rattle.running_passes.specs.Answers.{IsSuccess, IsInterrupted, HasWoken};

/// How a call that may give up answers.
#[derive(Debug, Drop, PartialEq, Eq)]
pub enum WaitResult<H> {
    /// It got what it came for, a hold where it came for one.
    Success(H),
    /// It gave up, and has nothing that it came for. What a call has written meanwhile, as a waiting writer's mark, it has taken back.
    Interrupted,
}

/// The answer of a call that comes for no hold.
#[inline(always)]
pub fn success_if(done: bool) -> WaitResult<()>
    ensures { MatchBool done (IsSuccess result) (IsInterrupted result) }
{
    if done {
        WaitResult::Success(())
    } else {
        WaitResult::Interrupted
    }
}

/// Calls a wake closure once.
#[inline(always)]
pub fn wake<X, W: Fn(&X)>(wake: &W, word: &X)
    requires { W.IsAlwaysCallable wake.now }
    ensures { HasWoken W.Fn wake.now }
{
    wake(word);
}
