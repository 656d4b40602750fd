//! The calls of mutexes on a floor: a try finds a mutex held, and free; and those who find one held lend their priority
//! along the chain of owners, and sleep until a release has woken them.
ghost use Rattle.std.specs.Prelude.{◌≡◌, ℕ, ◌<◌, ◌≤◌, [], length, slice_index_or};
ghost use Rattle.lock_model.specs.Holds.{Holds};
ghost use Rattle.lock_model.specs.Operations.{hold_in};
ghost use Rattle.lock_model.specs.declared.plan.Mode.TheVariants.{Excl};
ghost use Rattle.adaptive_mutex.specs.Mutexes.{IsMutex};
ghost use Rattle.lock_floor.specs.Passes.{IsReady};

use crate::floors::{Calls, HIGH, LOW, M, N, description, on_floor};
use adaptive_mutex::{lock, try_lock, unlock};
use lock_floor::{Floor, Pass};
use std::alloc::{AllocError, Global};
use std::rt::Clock;
use std::sync::Wait;
use std::sync::atomic::{AtomicBool, Ordering};
use std::test::Fail;
use std::thread;
use std::thread::Threads;
use std::time::Duration;

// How often low shows its priority at most, and how often a thread looks how far another one is.
const SHOWS: u32 = 1_000;

// For how long a thread gives way to others in between, in milliseconds.
const PAUSE: u64 = 5;

#[test]
fn a_try_tells_who_holds_the_mutex(rt: HostRuntime) -> Result<(), Fail> {
    assert!(rt; on_floor(&rt, rt.alloc(), &Tries)?);
    Ok(())
}

struct Tries;

impl Calls for Tries {
    fn make<R: Wait>(&self, rt: &R, floor: &Floor, passes: &mut [Pass]) -> bool {
        match passes {
            [first, second, ..] => each_is_told(rt, floor, first, second),
            [] | [_] => false,
        }
    }
}

// Whether a try tells the second thread that the first one holds m, and one tells the first that the second does; in
// between m is released, and a try gains it. The word of a held mutex has bit 2, and from bit 3 on the number of who
// holds it.
fn each_is_told<R: Wait>(rt: &R, floor: &Floor, first: &mut Pass, second: &mut Pass) -> bool
    requires m { IsMutex floor.now.description 0 }
    requires one_chain { floor.now.description.chains ≡ 1 }
    requires first { IsReady floor.now first.old × (first.old.view.share.held ≡ [])
        × (1003 ≤ first.old.view.spare) }
    requires second { IsReady floor.now second.old × (second.old.view.share.held ≡ [])
        × (1003 ≤ second.old.view.spare) }
{
    lock(floor, rt, first, M).unwrap();
    let Err(by_first) = try_lock(floor, second, M) else {
        return false;
    };
    unlock(floor, rt, first, M);
    if try_lock(floor, second, M).is_err() {
        return false;
    }
    let Err(by_second) = try_lock(floor, first, M) else {
        return false;
    };
    by_first.seen == 4 && by_second.seen == 12
}

// Low holds m, medium holds n and waits for m, and high waits for n. Low releases m only once it has high's priority,
// which comes to it through medium alone: so both stand on a turnstile by then, and sleep until they are woken.
#[test]
fn who_waits_lends_and_is_woken(rt: HostRuntime) -> Result<(), Fail> {
    let seen = Seen::new();
    meet(&rt, rt.alloc(), &seen)?;
    assert!(rt; seen.all());
    Ok(())
}

// Runs the three threads on a floor of their own.
fn meet<R: Threads + Wait + Clock + Sync>(
    rt: &R,
    alloc: Global,
    seen: &Seen,
) -> Result<(), AllocError> {
    let description = description(alloc)?;
    let (floor, _keeper, mut passes) = Floor::of_description(alloc, description)?;
    work_all(rt, &floor, passes.as_mut_slice(), seen);
    Ok(())
}

// What the threads have come to, and what they have seen.
#[derive(Drop)]
struct Seen {
    low_holds_m: AtomicBool,
    medium_holds_n: AtomicBool,
    low_gets_the_loan: AtomicBool,
    low_releases_m: AtomicBool,
    medium_gains_behind_low: AtomicBool,
    medium_releases_n: AtomicBool,
    high_gains_behind_medium: AtomicBool,
    the_loan_goes_home: AtomicBool,
}

impl Seen {
    fn new() -> Seen {
        Seen {
            low_holds_m: AtomicBool::new(false),
            medium_holds_n: AtomicBool::new(false),
            low_gets_the_loan: AtomicBool::new(false),
            low_releases_m: AtomicBool::new(false),
            medium_gains_behind_low: AtomicBool::new(false),
            medium_releases_n: AtomicBool::new(false),
            high_gains_behind_medium: AtomicBool::new(false),
            the_loan_goes_home: AtomicBool::new(false),
        }
    }

    // Whether all has been seen that is to be.
    fn all(&self) -> bool {
        self.low_gets_the_loan.load(Ordering::SeqCst)
            && self.medium_gains_behind_low.load(Ordering::SeqCst)
            && self.high_gains_behind_medium.load(Ordering::SeqCst)
            && self.the_loan_goes_home.load(Ordering::SeqCst)
    }
}

// Runs the three threads beside each other.
fn work_all<R: Threads + Wait + Clock + Sync>(
    rt: &R,
    floor: &Floor,
    passes: &mut [Pass],
    seen: &Seen,
)
    requires m { IsMutex floor.now.description 0 }
    requires n { IsMutex floor.now.description 1 }
    requires one_chain { floor.now.description.chains ≡ 1 }
    requires each { (t : ℕ) (d : _) → t < length passes.old
        → IsReady floor.now (slice_index_or passes.old t d)
        × ((slice_index_or passes.old t d).view.share.held ≡ [])
        × (1003 ≤ (slice_index_or passes.old t d).view.spare) }
{
    thread::for_each_mut(
        rt,
        passes,
        3,
        &|t, pass: &mut Pass|
            requires { IsMutex floor.now.description 0 × IsMutex floor.now.description 1
                × (floor.now.description.chains ≡ 1) × IsReady floor.now pass.now
                × (pass.now.view.share.held ≡ []) × (1003 ≤ pass.now.view.spare) }
        {
            if t == 0 {
                work_as_low(rt, floor, pass, seen)
            } else if t == 1 {
                work_as_medium(rt, floor, pass, seen)
            } else {
                work_as_high(rt, floor, pass, seen)
            }
        },
    );
}

// Low takes m, and releases it when it has high's priority.
fn work_as_low<R: Wait + Clock>(rt: &R, floor: &Floor, pass: &mut Pass, seen: &Seen)
    requires m { IsMutex floor.now.description 0 }
    requires one_chain { floor.now.description.chains ≡ 1 }
    requires ready { IsReady floor.now pass.old }
    requires unheld { pass.old.view.share.held ≡ [] }
    requires room { 1003 ≤ pass.old.view.spare }
{
    lock(floor, rt, pass, M).unwrap();
    seen.low_holds_m.store(true, Ordering::SeqCst);
    let lent = gets_the_loan(rt, floor, pass);
    seen.low_gets_the_loan.store(lent, Ordering::SeqCst);
    give_way(rt);
    seen.low_releases_m.store(true, Ordering::SeqCst);
    unlock(floor, rt, pass, M);
    let (_base, eff) = floor.show(rt, pass);
    seen.the_loan_goes_home.store(eff == LOW, Ordering::SeqCst);
}

// Whether low gets high's priority. It shows its own at most 1,000 times.
fn gets_the_loan<R: Wait + Clock>(rt: &R, floor: &Floor, pass: &mut Pass) -> bool
    requires ready { IsReady floor.now pass.old }
    requires held { hold_in pass.old.view.share.held 0 ≡ Holds Excl }
    requires room { 1002 ≤ pass.old.view.spare }
    ensures ready { IsReady floor.now pass.new }
    ensures held { hold_in pass.new.view.share.held 0 ≡ Holds Excl }
    ensures room { 2 ≤ pass.new.view.spare }
{
    for _ in 0..SHOWS {
        let (_base, eff) = floor.show(rt, pass);
        if eff == HIGH {
            return true;
        }
        give_way(rt);
    }
    false
}

// Medium takes n, and m once low has that.
fn work_as_medium<R: Wait + Clock>(rt: &R, floor: &Floor, pass: &mut Pass, seen: &Seen)
    requires m { IsMutex floor.now.description 0 }
    requires n { IsMutex floor.now.description 1 }
    requires one_chain { floor.now.description.chains ≡ 1 }
    requires ready { IsReady floor.now pass.old }
    requires unheld { pass.old.view.share.held ≡ [] }
    requires room { 1003 ≤ pass.old.view.spare }
{
    lock(floor, rt, pass, N).unwrap();
    seen.medium_holds_n.store(true, Ordering::SeqCst);
    come_behind(rt, &seen.low_holds_m);
    if lock(floor, rt, pass, M).is_err() {
        unlock(floor, rt, pass, N);
        return;
    }
    let behind = seen.low_releases_m.load(Ordering::SeqCst);
    seen.medium_gains_behind_low.store(behind, Ordering::SeqCst);
    unlock(floor, rt, pass, M);
    seen.medium_releases_n.store(true, Ordering::SeqCst);
    unlock(floor, rt, pass, N);
}

// High takes n once medium has it.
fn work_as_high<R: Wait + Clock>(rt: &R, floor: &Floor, pass: &mut Pass, seen: &Seen)
    requires n { IsMutex floor.now.description 1 }
    requires one_chain { floor.now.description.chains ≡ 1 }
    requires ready { IsReady floor.now pass.old }
    requires unheld { pass.old.view.share.held ≡ [] }
    requires room { 1003 ≤ pass.old.view.spare }
{
    come_behind(rt, &seen.medium_holds_n);
    lock(floor, rt, pass, N).unwrap();
    let behind = seen.medium_releases_n.load(Ordering::SeqCst);
    seen.high_gains_behind_medium
        .store(behind, Ordering::SeqCst);
    unlock(floor, rt, pass, N);
}

// Waits for a while until another thread has come that far.
fn come_behind<R: Clock>(rt: &R, other: &AtomicBool) {
    for _ in 0..SHOWS {
        if other.load(Ordering::SeqCst) {
            return;
        }
        give_way(rt);
    }
}

// Gives the processor to others for a while.
fn give_way<R: Clock>(rt: &R) {
    thread::sleep(rt, Duration::from_millis(PAUSE));
}
