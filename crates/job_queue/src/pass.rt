//! The right to call a queue.
ghost use Rattle.std.specs.Prelude.{◌≡◌, IfOk, is_ok, true};

use crate::queue::QueueOf;
use running_condvar::CondPass;
use running_guarded::GuardedPass;
use running_sharing::Shares;
use std::alloc::Allocator;

/// The right to call a queue, which has no bytes. No call of its owner is under way. Every thread needs one of its own.
#[derive(Drop)]
pub struct QueuePass {
    pub(crate) state: GuardedPass,
    pub(crate) changed: CondPass,
}

impl QueuePass {
    ghost use Rattle.job_queue.specs.QueueShown.{IsQueuePass, IsFirstOf, IsSecondOf, IsJoined, IsHalfOf, IsAgainOf, PartsAddUp};

    /// Two passes of the same queue. What they counted adds up to what this one had counted, and both know what it knew. `Err`, which never comes today, would hand the pass back.
    pub fn split<S, A: Allocator>(
        self,
        of: &QueueOf<S, A>,
    ) -> Result<(QueuePass, QueuePass), QueuePass>
        requires own { IsQueuePass of.now self }
        ensures never_refused { is_ok result ≡ true }
        ensures own { IfOk result (λ parts. IsQueuePass of.now parts.0 × IsQueuePass of.now parts.1) }
        ensures halves { IfOk result (λ parts. IsHalfOf self parts.0 × IsHalfOf self parts.1) }
        ensures views { IfOk result (λ parts. IsFirstOf self parts.0 × IsSecondOf self parts.1) }
        ensures weights { IfOk result (λ parts. PartsAddUp self parts.0 parts.1) }
    {
        let QueuePass { state, changed } = self;
        let Ok((state, other_state)) = state.split(&of.state) else {
            unreachable!()
        };
        let Ok((changed, other_changed)) = changed.split(&of.changed) else {
            unreachable!()
        };
        Ok((
            QueuePass { state, changed },
            QueuePass {
                state: other_state,
                changed: other_changed,
            },
        ))
    }

    /// One pass from two of the same queue, which weighs what both weighed. `Err`, which never comes today, would hand both back.
    pub fn join<S, A: Allocator>(
        a: QueuePass,
        b: QueuePass,
        of: &QueueOf<S, A>,
    ) -> Result<QueuePass, (QueuePass, QueuePass)>
        requires own { IsQueuePass of.now a × IsQueuePass of.now b }
        ensures never_refused { is_ok result ≡ true }
        ensures own { IfOk result (IsQueuePass of.now) }
        ensures views { IfOk result (λ both. IsJoined both a b) }
        ensures weights { IfOk result (λ both. PartsAddUp both a b) }
        ensures again { (p : QueuePass) → IsHalfOf p a → IsHalfOf p b → IfOk result (IsAgainOf p) }
    {
        let QueuePass { state, changed } = a;
        let QueuePass {
            state: other_state,
            changed: other_changed,
        } = b;
        let Ok(state) = GuardedPass::join(state, other_state, &of.state) else {
            unreachable!()
        };
        let Ok(changed) = CondPass::join(changed, other_changed, &of.changed) else {
            unreachable!()
        };
        Ok(QueuePass { state, changed })
    }
}

impl<S, A: Allocator> Shares<QueueOf<S, A>> for QueuePass {
    ghost use Rattle.running_guarded.specs.GuardedShown.{part_of};
    ghost use Rattle.job_queue.specs.QueueShown.{IsQueuePass, IsOnePart, state_in};

    ghost idle = { λ queue p. IsQueuePass queue p × IsOnePart p };

    ghost part = { λ p. part_of (state_in p) };

    fn cut(self, of: &QueueOf<S, A>) -> (QueuePass, QueuePass) {
        let Ok(parts) = self.split(of) else {
            unreachable!()
        };
        parts
    }

    fn mend(one: QueuePass, other: QueuePass, of: &QueueOf<S, A>) -> QueuePass {
        let Ok(pass) = QueuePass::join(one, other, of) else {
            unreachable!()
        };
        pass
    }
}
