//! Running all threads of a plan.
ghost use Rattle.std.specs.Prelude.{◌≡◌, ℕ, ◌≤◌, ◌<◌, ◌++◌, length, map, slice_index_or, IfOk};
ghost use Rattle.lock_model.specs.Operations.{IsProper};
ghost use Rattle.lock_model.specs.OrderedPlans.{IsOrdered};
ghost use Rattle.lock_model.specs.Text as text;
ghost use Rattle.lock_history.specs.Outcomes.{outcome_seen};
ghost use Rattle.lock_state.specs.Run.{threads_of};
ghost use Rattle.floor_table.specs.Descriptions.{IsFor, description_of};
ghost use Rattle.lock_floor.specs.Closings.{IsClosing};
ghost use Rattle.lock_floor.specs.Passes.{IsKeeperOf, IsFinished};
ghost use Rattle.floor_run.specs.Progress.{IsNew, IsDone};
ghost use Rattle.floor_run.specs.Runs.{IsRunOf, outcome_of};

use crate::worker::work;
use lock_floor::{Closing, Floor, Keeper, Pass};
use lock_history::Outcome;
use lock_io::Gate;
use lock_model::Plan;
use std::alloc::{AllocError, Global};
use std::sync::Wait;
use std::thread;
use std::thread::Threads;

/// Runs the plan: one worker for each of its threads, all beside each other, on one floor, which is closed when all
/// have come to their end. Gives what is to be printed of the run, and what is left of the floor. It takes no memory
/// between the start of the first worker and the end of the last.
///
/// The plan is one that some script gives. The floor has so many chains of each sort: one, as
/// `lock_calls::take_or_halt` asks it. Where no thread can be started, the workers run one after another, and the call
/// may then not return where one waits for another: at a lock, in a sleep, or at the gate.
///
/// The outcome is stuck exactly where a thread was halted in its sleep, whatever takes were refused; else it is
/// reversed exactly where a take was refused. A halt comes only behind a moment at which no thread could go on:
/// that is a part of the law which its history keeps. Where the plan is ordered, no take of it is refused and
/// nobody is halted: the run is done.
pub fn run_plan<R: Threads + Wait + Sync, G: Gate>(
    rt: &R,
    alloc: Global,
    plan: &Plan,
    chains: u32,
    gate: &G,
) -> Result<(Outcome, Closing), AllocError>
    requires proper { IsProper plan.now }
    requires one_chain { chains ≡ 1 }
    ensures run { IfOk result (λ r. IsRunOf plan.now chains (outcome_seen r.0) r.1) }
    ensures ordered { IfOk result (λ r. IsOrdered plan.now → (outcome_seen r.0).ending ≡ text.IsDone) }
{
    let (floor, mut keeper, mut passes) = Floor::make(alloc, plan, chains)?;
    work_all(rt, &floor, passes.as_mut_slice(), plan, gate);
    gather_all(&floor, &mut keeper, passes);
    let closing = floor.close(keeper);
    let outcome = outcome_of(alloc, plan, chains, &closing)?;
    Ok((outcome, closing))
}

// Makes the operations of all threads, each in a worker of its own.
fn work_all<R: Threads + Wait + Sync, G: Gate>(
    rt: &R,
    floor: &Floor,
    passes: &mut [Pass],
    plan: &Plan,
    gate: &G,
)
    requires given { IsFor plan.now floor.now.description }
    requires proper { IsProper plan.now }
    requires one_chain { floor.now.description.chains ≡ 1 }
    requires new { (t : ℕ) (d : _) → t < length passes.old
        → IsNew floor.now t (slice_index_or passes.old t d) }
    ensures done { (t : ℕ) (d : _) → t < length passes.old
        → IsDone plan.entry.now floor.entry.now t (slice_index_or passes.new t d) }
{
    let workers = passes.len().max(1);
    thread::for_each_mut(
        rt,
        passes,
        workers,
        &|t, pass: &mut Pass|
            requires { IsFor plan.now floor.now.description × IsProper plan.now
                × (floor.now.description.chains ≡ 1) × IsNew floor.now t pass.now }
            ensures { IsDone plan.entry.now floor.entry.now t pass.exit.now }
        { work(rt, floor, pass, plan, gate) },
    );
}

// Takes in the passes, in their order.
fn gather_all(floor: &Floor, keeper: &mut Keeper, passes: Vec<Pass>)
    requires mine { IsKeeperOf floor.now keeper.old }
    requires finished { (t : ℕ) (d : _) → t < length passes.items
        → IsFinished floor.now (slice_index_or passes.items t d) }
    ensures mine { IsKeeperOf floor.entry.now keeper.new }
    ensures gathered { keeper.new.view.gathered
        ≡ keeper.old.view.gathered ++ map (λ p. (p.view.thread, p.view.share)) passes.items }
{
    for pass in passes {
        keeper.gather(floor, pass);
    }
}

// What is printed of a run that left its floor so.
fn outcome_of(
    alloc: Global,
    plan: &Plan,
    chains: u32,
    closing: &Closing,
) -> Result<Outcome, AllocError>
    requires closing { IsClosing (description_of plan.now chains) (threads_of plan.now) closing.now }
    ensures { IfOk result (λ o.
        (x : IsClosing (description_of plan.now chains) (threads_of plan.now) closing.now)
        → outcome_seen o ≡ outcome_of plan.now x.history) }
{
    floor_ends::outcome_of(alloc, closing)
}
