//! A bounded buffer over two semaphores: one counts the places that are free, and the other the items.
ghost use Rattle.std.specs.Prelude.{◌≡◌, IfOk};
ghost use Rattle.running_passes.specs.Passes.{view};
ghost use Rattle.running_passes.specs.Views.{first_view};
ghost use Rattle.running_model.specs.Passes.{played};
ghost use Rattle.running_model.specs.Slots.{no_parties};
ghost use Rattle.running_semaphore.specs.Semaphore.{first_permits};
ghost use Rattle.running_semaphore.specs.SemaphoreShown.{IsSemPass, HasCounted};

use iceoryx2_pal_concurrency_sync::strategy::semaphore::{SemPass, Semaphore};
use iceoryx2_pal_concurrency_sync::{WaitResult, wake_nobody, yield_and_go_on};
use std::alloc::{AllocError, Global};
use std::sync::Wait;
use std::test::Fail;
use std::thread;
use std::thread::Threads;

/// What one side, the producer or the consumer, has of a buffer: it takes a place of one kind, and gives one of the other.
#[derive(Drop)]
struct Side {
    taking: SemPass,
    giving: SemPass,
}

/// Takes a place from one semaphore so many times, and gives it to the other. Between the two a producer would fill the place, and a
/// consumer empty it.
fn pass_on<R: Wait>(rt: &R, from: &Semaphore, to: &Semaphore, mut side: Side, times: u64) -> Side
    requires own { IsSemPass from.now side.taking × IsSemPass to.now side.giving }
    ensures took { HasCounted 0 times side.taking result.taking }
    ensures gave { HasCounted times 0 side.giving result.giving }
{
    for _ in 0..times {
        let answer = from.wait(rt, &mut side.taking, yield_and_go_on);
        match answer {
            WaitResult::Success(()) => to.post(&mut side.giving, wake_nobody, 1),
            WaitResult::Interrupted => unreachable!(),
        }
    }
    side
}

/// The semaphores of an empty buffer of 3 places, each with its pass: of those that are free, and of those that are filled.
fn empty_buffer(alloc: Global) -> Result<((Semaphore, SemPass), (Semaphore, SemPass)), AllocError>
    ensures own { IfOk result (λ made. IsSemPass made.0.0 made.0.1 × IsSemPass made.1.0 made.1.1) }
    ensures empty { IfOk result (λ made. (view made.0.1 ≡ first_view (played no_parties (first_permits 3))) × (view made.1.1 ≡ first_view (played no_parties (first_permits 0)))) }
{
    let free = Semaphore::new(alloc, 3)?;
    let filled = Semaphore::new(alloc, 0)?;
    Ok((free, filled))
}

/// A producer and a consumer pass 1000 items through a buffer of 3 places. How many places are free and filled at the end.
fn produce_and_consume<R: Threads + Wait + Sync>(
    rt: &R,
    free: (Semaphore, SemPass),
    filled: (Semaphore, SemPass),
) -> (u64, u64)
    requires own { IsSemPass free.0 free.1 × IsSemPass filled.0 filled.1 }
    requires empty { (view free.1 ≡ first_view (played no_parties (first_permits 3))) × (view filled.1 ≡ first_view (played no_parties (first_permits 0))) }
    ensures free { result.0 ≡ 3 }
    ensures filled { result.1 ≡ 0 }
{
    let ((free, free_pass), (filled, filled_pass)) = (free, filled);
    let Ok((free_one, free_two)) = free_pass.split(&free) else {
        unreachable!()
    };
    let Ok((filled_one, filled_two)) = filled_pass.split(&filled) else {
        unreachable!()
    };
    let producer = Side {
        taking: free_one,
        giving: filled_one,
    };
    let consumer = Side {
        taking: filled_two,
        giving: free_two,
    };
    let (from, to) = (&free, &filled);
    let (producer, consumer) = thread::join(
        rt,
        || -> Side
            requires { IsSemPass from.now producer.taking × IsSemPass to.now producer.giving }
            ensures { HasCounted 0 1000 producer.taking result.taking × HasCounted 1000 0 producer.giving result.giving }
        { pass_on(rt, from, to, producer, 1000) },
        || -> Side
            requires { IsSemPass to.now consumer.taking × IsSemPass from.now consumer.giving }
            ensures { HasCounted 0 1000 consumer.taking result.taking × HasCounted 1000 0 consumer.giving result.giving }
        { pass_on(rt, to, from, consumer, 1000) },
    );
    let Side {
        taking: free_one,
        giving: filled_one,
    } = producer;
    let Side {
        taking: filled_two,
        giving: free_two,
    } = consumer;
    let Ok(free_pass) = SemPass::join(free_one, free_two, &free) else {
        unreachable!()
    };
    let Ok(filled_pass) = SemPass::join(filled_one, filled_two, &filled) else {
        unreachable!()
    };
    (free.close(free_pass), filled.close(filled_pass))
}

#[test]
fn a_buffer_of_three_places(rt: HostRuntime) -> Result<(), Fail> {
    let (free, filled) = empty_buffer(rt.alloc())?;
    assert_eq!(rt; produce_and_consume(&rt, free, filled), (3, 0));
    Ok(())
}
