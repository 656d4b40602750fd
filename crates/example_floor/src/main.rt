//! Two threads of this program's own on a floor that is made for no script: each adds 1 to a key of a mutex's table a
//! thousand times, and what both have made of it is printed. `docs/LIBRARY.md` goes through it.
#![tactic(auto)]

ghost use Rattle.std.specs.Prelude.{◌≡◌, ℕ, ◌+◌, ◌<◌, [], length, slice_index_or, IfOk};
ghost use Rattle.lock_floor.specs.Passes.{IsFinished, IsKeeperOf};
ghost use Rattle.example_floor.specs.Counter.{IsCounter, IsReadyFor};

use adaptive_mutex::{lock, unlock};
use anyhow::Result;
use floor_table::{Description, LockPart, ThreadPart};
use lock_floor::{Change, Closing, Floor, Keeper, Pass};
use lock_model::{ClassNo, Kind, LockNo, Prio, Sequence};
use std::alloc::{AllocError, Global};
use std::sync::Wait;
use std::thread;
use std::thread::Threads;

// The mutex, the key of its table, and how often each thread adds to it.
const M: LockNo = LockNo(0);

const KEY: u64 = 7;

const ROUNDS: u32 = 1_000;

fn main(rt: HostRuntime) -> Result<()> {
    let alloc = rt.alloc();
    let (floor, keeper, mut passes) = Floor::of_description(alloc, description(alloc)?)?;
    work_all(&rt, &floor, passes.as_mut_slice());
    let closing = close_all(floor, keeper, passes);
    let sum = closing.tables().get(M, KEY).unwrap_or(0);
    println!(rt; "{sum}")?;
    Ok(())
}

// What the floor is made for. A round makes three entries.
fn description(alloc: Global) -> Result<Description, AllocError>
    ensures { IfOk result IsCounter }
{
    let thread = ThreadPart {
        base: Prio(100),
        room: 3 * ROUNDS,
    };
    let mutex = LockPart {
        kind: Kind::Mtx,
        class: ClassNo(0),
    };
    Ok(Description {
        threads: Sequence::from_vec(vec![in alloc; thread, thread]?),
        locks: Sequence::from_vec(vec![in alloc; mutex]?),
        chans: Sequence::from_vec(Vec::new(alloc)),
        keys: Sequence::from_vec(vec![in alloc; (0, KEY)]?),
        chains: 1,
    })
}

// Runs both threads beside each other, to their end.
fn work_all<R: Threads + Wait + Sync>(rt: &R, floor: &Floor, passes: &mut [Pass])
    requires counter { IsCounter floor.now.description }
    requires ready { (t : ℕ) (d : _) → t < length passes.old
        → IsReadyFor floor.now 3000 (slice_index_or passes.old t d) }
    ensures finished { (t : ℕ) (d : _) → t < length passes.old
        → IsFinished floor.entry.now (slice_index_or passes.new t d) }
{
    thread::for_each_mut(
        rt,
        passes,
        2,
        &|_, pass: &mut Pass|
            requires { IsCounter floor.now.description × IsReadyFor floor.now 3000 pass.now }
            ensures { IsFinished floor.entry.now pass.exit.now }
        { work(rt, floor, pass) },
    );
}

// What a thread does.
fn work<R: Wait>(rt: &R, floor: &Floor, pass: &mut Pass)
    requires counter { IsCounter floor.now.description }
    requires ready { IsReadyFor floor.now 3000 pass.old }
    ensures finished { IsFinished floor.now pass.new }
{
    for _ in 0..ROUNDS {
        add_one(rt, floor, pass);
    }
    halting::end_thread(floor, rt, pass);
    floor.finish(pass);
}

// Adds 1 while it holds the mutex.
fn add_one<R: Wait>(rt: &R, floor: &Floor, pass: &mut Pass)
    requires counter { IsCounter floor.now.description }
    requires ready { IsReadyFor floor.now 3 pass.old }
    ensures ready { (n : ℕ) → IsReadyFor floor.now (n + 3) pass.old
        → IsReadyFor floor.now n pass.new }
{
    lock(floor, rt, pass, M).unwrap();
    floor.edit(rt, pass, M, KEY, Change::Add(1));
    unlock(floor, rt, pass, M);
}

// Takes in both passes, and closes the floor.
fn close_all(floor: Floor, mut keeper: Keeper, passes: Vec<Pass>) -> Closing
    requires keeper { IsKeeperOf floor keeper }
    requires none_gathered { keeper.view.gathered ≡ [] }
    requires all { length passes.items ≡ length floor.description.threads }
    requires finished { (t : ℕ) (d : _) → t < length passes.items
        → IsFinished floor (slice_index_or passes.items t d) }
{
    for pass in passes {
        keeper.gather(&floor, pass);
    }
    floor.close(keeper)
}
