//! Threads that contend for one object, each as often as it can until the time is over.
ghost use Rattle.std.specs.Prelude.{IfOk};
ghost use denote.Param.Send.{IsSync, IsSend};

use crate::figures::{Counts, Figures};
use crate::work::Work;
use std::alloc::{AllocError, Global};
use std::sync::Wait;
use std::sync::atomic::{AtomicBool, AtomicU64, Ordering};
use std::thread::Threads;
use std::time::{Clock, CpuClock, Duration, Instant};
use std::{io, thread};

const ORDER: Ordering = Ordering::SeqCst;

/// What threads contend for. Each has a pass of its own.
pub trait Contended<P>: Sized {
    // The pass is that object's.
    ghost owns: { Self → P → Type 0 };

    fn make(alloc: Global) -> Result<(Self, P), AllocError>
        ensures { IfOk result (λ made. owns made.0 made.1) };

    /// Two passes of one.
    fn part(&self, pass: P) -> (P, P)
        requires { owns self.now pass }
        ensures { owns self.now result.0 × owns self.now result.1 };

    /// One operation: works inside the critical section, and as long again outside.
    fn operate<R: Wait>(&self, rt: &R, pass: &mut P, work: &mut Work)
        requires { owns self.now pass.old }
        ensures { owns self.now pass.new };
}

/// Whether the time is over, and what the threads have made by then.
#[derive(Drop)]
struct Race {
    steps: u64,
    over: AtomicBool,
    all: AtomicU64,
    least: AtomicU64,
    most: AtomicU64,
    state: AtomicU64,
}

impl Race {
    fn new(steps: u64) -> Race {
        Race {
            steps,
            over: AtomicBool::new(false),
            all: AtomicU64::new(0),
            least: AtomicU64::new(u64::MAX),
            most: AtomicU64::new(0),
            state: AtomicU64::new(0),
        }
    }

    /// One of the threads has seen that the time is over.
    fn leaves(&self, work: &Work) {
        self.all.fetch_add(work.operations, ORDER);
        self.least.fetch_min(work.operations, ORDER);
        self.most.fetch_max(work.operations, ORDER);
        self.state.fetch_xor(work.state(), ORDER);
    }

    fn counts(&self) -> Counts {
        Counts {
            all: self.all.load(ORDER),
            least: self.least.load(ORDER),
            most: self.most.load(ORDER),
        }
    }
}

/// How so many threads fare that contend for a new object so long.
pub fn contend<
    O: Contended<P> + Sync + Drop,
    P: Send + Drop,
    R: Threads + Wait + Clock + CpuClock + Sync,
>(rt: &R, alloc: Global, threads: usize, steps: u64, most: Duration) -> io::Result<Figures> {
    let (object, pass) = O::make(alloc)?;
    let race = Race::new(steps);
    let start = Instant::now(rt)?;
    let used = rt.process_cpu_time()?;
    run(rt, &object, pass, threads, &race, most);
    let took = start.elapsed(rt)?;
    let used = rt.process_cpu_time()?.saturating_sub(used);
    Ok(race.counts().figures(took, used))
}

/// Lets them run, and ends it.
fn run<O: Contended<P> + Sync, P: Send + Drop, R: Threads + Wait + Clock + Sync>(
    rt: &R,
    object: &O,
    pass: P,
    threads: usize,
    race: &Race,
    most: Duration,
)
    requires { O.owns object.now pass }
{
    let clock = move || -> ()
        requires { IsSync R.row }
    {
        thread::sleep(rt, most);
        race.over.store(true, ORDER);
    };
    let crowd = move || -> ()
        requires { IsSync R.row × IsSync O.row × IsSend P.row × O.owns object.now pass }
    { in_threads(rt, object, pass, threads, race) };
    thread::join(rt, clock, crowd);
}

/// So many, each in a thread of its own.
#[cycle(crowd)]
fn in_threads<O: Contended<P> + Sync, P: Send + Drop, R: Threads + Wait + Sync>(
    rt: &R,
    object: &O,
    pass: P,
    threads: usize,
    race: &Race,
)
    requires { O.owns object.now pass }
{
    if threads < 2 {
        operate_often(rt, object, pass, race);
        return;
    }
    let few = threads / 2;
    let rest = threads - few;
    let (one, other) = object.part(pass);
    let front = move || -> ()
        requires { IsSync R.row × IsSync O.row × IsSend P.row × O.owns object.now one }
    { in_threads(rt, object, one, few, race) };
    let back = move || -> ()
        requires { IsSync R.row × IsSync O.row × IsSend P.row × O.owns object.now other }
    { in_threads(rt, object, other, rest, race) };
    thread::join(rt, front, back);
}

/// One of them, until the time is over.
fn operate_often<O: Contended<P>, P: Drop, R: Wait>(rt: &R, object: &O, mut pass: P, race: &Race)
    requires { O.owns object.now pass }
{
    let mut work = Work::new(race.steps);
    for operations in 0..u64::MAX {
        if race.over.load(ORDER) {
            break;
        }
        object.operate(rt, &mut pass, &mut work);
        work.operations = operations + 1;
    }
    race.leaves(&work);
}
