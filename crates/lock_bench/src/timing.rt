//! Timing one run of a case.
ghost use Rattle.std.specs.Prelude.{IfOk};
ghost use Rattle.lock_model.specs.Operations.{IsProper};

use crate::gate::TimingGate;
use crate::scripts::{Case, script_of};
use anyhow::Result;
use floor_run::run_plan;
use lock_model::limits::LOCKS;
use lock_model::{Entry, Event, Plan, ThreadNo};
use script_read::read_script;
use std::alloc::Global;
use std::rt::Clock;
use std::sync::Wait;
use std::thread::Threads;

// The chains of each sort of queue: one, as a mutex's `lock` asks it.
const CHAINS: u32 = 1;

/// What a run told: its nanoseconds, and of how many of 1,000 sections the one before, of the same lock, was another
/// thread's.
#[derive(Clone, Copy)]
pub struct Figures {
    pub nanoseconds: u64,
    pub handovers: u64,
}

/// The plan of a case whose threads make so many rounds each.
pub fn plan_of(alloc: Global, case: &Case, rounds: usize) -> Result<Plan>
    ensures { IfOk result IsProper }
{
    let script = script_of(alloc, case, rounds)?;
    let plan = read_script(alloc, script.as_bytes())?;
    Ok(plan)
}

/// Runs the plan of a case, whose threads make so many rounds each.
pub fn time_of<R: Threads + Wait + Clock + Sync>(
    rt: &R,
    alloc: Global,
    case: Case,
    plan: &Plan,
    rounds: usize,
) -> Result<Figures>
    requires proper { IsProper plan.now }
{
    let gate = TimingGate::new(rt, alloc, case, rounds)?;
    run(rt, alloc, plan, &gate)
}

/// Runs it, and tells how long each of the takes was that are timed.
pub fn push_waits<R: Threads + Wait + Clock + Sync>(
    rt: &R,
    alloc: Global,
    case: Case,
    plan: &Plan,
    rounds: usize,
    waits: &mut Vec<u64>,
) -> Result<()>
    requires proper { IsProper plan.now }
{
    let gate = TimingGate::new(rt, alloc, case, rounds)?;
    run(rt, alloc, plan, &gate)?;
    gate.push_waits(waits)
}

fn run<R: Threads + Wait + Clock + Sync>(
    rt: &R,
    alloc: Global,
    plan: &Plan,
    gate: &TimingGate<'_, R>,
) -> Result<Figures>
    requires proper { IsProper plan.now }
{
    let (outcome, _closing) = run_plan(rt, alloc, plan, CHAINS, gate)?;
    let history = outcome.history.as_slice();
    Ok(Figures {
        nanoseconds: gate.time(history),
        handovers: handovers(history),
    })
}

// Of how many of 1,000 sections the one before, of the same lock, was another thread's.
fn handovers(history: &[Entry]) -> u64 {
    let mut holders: [Option<ThreadNo>; LOCKS] = [None; LOCKS];
    let mut sections: u64 = 0;
    let mut others: u64 = 0;
    for e in history {
        if let Event::Locked { l, mode: _ } = e.event
            && let Some(holder) = holders.get_mut(usize::from(l.0))
        {
            sections = sections.saturating_add(1);
            if let Some(t) = *holder
                && t != e.thread
            {
                others = others.saturating_add(1);
            }
            *holder = Some(e.thread);
        }
    }
    others.saturating_mul(1_000) / sections.max(1)
}
