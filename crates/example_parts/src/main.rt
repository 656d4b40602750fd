//! Two threads of a scheduler of this program's own share a mutex. One thread of the system drives both: it makes their
//! calls part by part, and no part waits. What a part answers is printed, but where its thread just goes on. No take is
//! refused, for a thread holds nothing when it takes.
//! `docs/LIBRARY.md` goes through it.
#![tactic(auto)]

ghost use Rattle.std.specs.Prelude.{◌≡◌, ℕ, ◌<◌, length, slice_index_or, IfOk};
ghost use Rattle.example_parts.specs.Threads.{IsAdmitted, IsBeginning, IsForTwo, IsThread, behind};

use adaptive_mutex::{Next, begin_lock, begin_unlock, go_on_releasing, go_on_taking};
use anyhow::Result;
use floor_table::{Description, LockPart, ThreadPart};
use lock_floor::{Floor, Pass};
use lock_model::{ClassNo, Kind, LockNo, Prio, Sequence};
use std::alloc::{AllocError, Global};

const M: LockNo = LockNo(0);

// For how many parts a thread works while it holds the mutex: for more than another one makes until it sleeps.
const WORK: u32 = 200;

// How often each thread may make a part.
const ROUNDS: u32 = 1_000;

// What a thread does in its next part.
#[derive(Clone, Copy)]
enum Stage {
    // It begins to take the mutex.
    Begins,
    // It goes on taking it.
    Takes,
    // It works, for so many parts more, and begins to release the mutex then.
    Works(u32),
    // It goes on releasing it.
    Releases,
    // Nothing: it has released it.
    Rests,
}

// A thread, as the scheduler knows it.
#[derive(Drop)]
struct Thread {
    pass: Pass,
    stage: Stage,
    sleeps: bool,
}

fn main(rt: HostRuntime) -> Result<()> {
    let alloc = rt.alloc();
    let (floor, _keeper, passes) = Floor::of_description(alloc, description(alloc)?)?;
    run_both(&rt, &floor, passes)
}

// What the floor is made for: two threads, each of which makes two entries, and a mutex.
fn description(alloc: Global) -> Result<Description, AllocError>
    ensures { IfOk result IsForTwo }
{
    let thread = ThreadPart {
        base: Prio(100),
        room: 2,
    };
    let mutex = LockPart {
        kind: Kind::Mtx,
        class: ClassNo(0),
    };
    Ok(Description {
        threads: Sequence::from_vec(vec![in alloc; thread, thread]?),
        locks: Sequence::from_vec(vec![in alloc; mutex]?),
        chans: Sequence::from_vec(Vec::new(alloc)),
        keys: Sequence::from_vec(Vec::new(alloc)),
        chains: 1,
    })
}

// A thread that is yet to take the mutex.
fn start(pass: Pass) -> Thread
    ensures { (f : _) → IsBeginning f pass → IsThread f result }
{
    Thread {
        pass,
        stage: Stage::Begins,
        sleeps: false,
    }
}

// Both threads, from their passes on.
fn run_both<R: Print>(rt: &R, floor: &Floor, mut passes: Vec<Pass>) -> Result<()>
    requires made { IsForTwo floor.now.description }
    requires two { length passes.items ≡ 2 }
    requires begin { (t : ℕ) (d : _) → t < 2
        → IsBeginning floor.now (slice_index_or passes.items t d) }
{
    let mut second = start(passes.pop().unwrap());
    let mut first = start(passes.pop().unwrap());
    run(rt, floor, &mut first, &mut second)
}

// The scheduler: it gives each thread a part in turn.
fn run<R: Print>(rt: &R, floor: &Floor, first: &mut Thread, second: &mut Thread) -> Result<()>
    requires made { IsForTwo floor.now.description }
    requires first { IsThread floor.now first.old }
    requires second { IsThread floor.now second.old }
{
    for _ in 0..ROUNDS {
        let next = give_part(floor, first, second);
        tell(rt, 0, next, first.stage)?;
        let next = give_part(floor, second, first);
        tell(rt, 1, next, second.stage)?;
    }
    Ok(())
}

// Gives a thread its next part, unless it sleeps, and does what the part answers. It answers the same.
fn give_part(floor: &Floor, thread: &mut Thread, other: &mut Thread) -> Next
    requires made { IsForTwo floor.now.description }
    requires thread { IsThread floor.now thread.old }
    requires other { IsThread floor.now other.old }
    ensures thread { IsThread floor.now thread.new }
    ensures other { IsThread floor.now other.new }
    ensures admitted { IsAdmitted result }
{
    if thread.sleeps {
        return Next::Again;
    }
    match go_on(floor, thread) {
        Next::Done => Next::Done,
        Next::Again => Next::Again,
        Next::Sleep => {
            // Who was woken already, in a part of the other one's, doesn't sleep.
            thread.sleeps = floor.is_queued(thread.pass.thread());
            Next::Sleep
        }
        Next::Wake(woken) => {
            // Of two threads it is the other one.
            other.sleeps = false;
            Next::Wake(woken)
        }
        Next::Reversed(_) | Next::Halted => unreachable!(),
    }
}

// Prints what a part answered, and where its thread stands then.
fn tell<R: Print>(rt: &R, t: u32, next: Next, stage: Stage) -> Result<()>
    requires admitted { IsAdmitted next }
{
    match next {
        Next::Done => println!(rt; "thread {t} {}", done_at(stage))?,
        Next::Again => {}
        Next::Sleep => println!(rt; "thread {t} sleeps")?,
        Next::Wake(woken) => println!(rt; "thread {t} wakes thread {}", woken.0)?,
        Next::Reversed(_) | Next::Halted => unreachable!(),
    }
    Ok(())
}

// What a thread has done whose call is done.
fn done_at(stage: Stage) -> &'static str {
    match stage {
        Stage::Begins | Stage::Takes | Stage::Works(_) => "holds the mutex",
        Stage::Releases | Stage::Rests => "has released the mutex",
    }
}

// Makes a thread's next part, and answers what that answers.
fn go_on(floor: &Floor, thread: &mut Thread) -> Next
    requires made { IsForTwo floor.now.description }
    requires thread { IsThread floor.now thread.old }
    ensures thread { IsThread floor.now thread.new }
    ensures admitted { IsAdmitted result }
{
    match thread.stage {
        Stage::Begins => {
            let next = begin_lock(floor, &mut thread.pass, M);
            thread.stage = behind(next, Stage::Takes, Stage::Works(WORK));
            next
        }
        Stage::Takes => {
            let next = go_on_taking(floor, &mut thread.pass);
            thread.stage = behind(next, Stage::Takes, Stage::Works(WORK));
            next
        }
        Stage::Works(0) => {
            let next = begin_unlock(floor, &mut thread.pass, M);
            thread.stage = behind(next, Stage::Releases, Stage::Rests);
            next
        }
        Stage::Works(left) => {
            thread.stage = Stage::Works(left - 1);
            Next::Again
        }
        Stage::Releases => {
            let next = go_on_releasing(floor, &mut thread.pass);
            thread.stage = behind(next, Stage::Releases, Stage::Rests);
            next
        }
        Stage::Rests => Next::Again,
    }
}

// The stage behind a part: on, unless the call is done.
fn behind(next: Next, on: Stage, done: Stage) -> Stage
    requires admitted { IsAdmitted next }
    ensures { result ≡ behind next on done }
{
    match next {
        Next::Done => done,
        Next::Again | Next::Sleep | Next::Wake(_) => on,
        Next::Reversed(_) | Next::Halted => unreachable!(),
    }
}
