//! Runs of plans on threads of the system: that these run beside each other, one for each thread of the plan, and ask
//! the gate.
ghost use Rattle.lock_model.specs.Operations.{IsProper};

use crate::briefs::plan_of;
use crate::fixtures::{MEETINGS, check_row, outcome_of};
use crate::gates::Barrier;
use lock_history::{Last, Outcome, print};
use lock_io::{Gate, Meeting};
use lock_model::Plan;
use std::alloc::Global;
use std::sync::Wait;
use std::test::Fail;
use std::thread::Threads;

#[test]
fn two_threads_meet(rt: HostRuntime) -> Result<(), Fail> {
    for &(script, first, second, begins) in MEETINGS {
        let gate = Meeting::new(first, second);
        let begun = begins_so(&rt, rt.alloc(), script, &gate, begins)?;
        check_row(begins, begun && !gate.missed() && gate.came() == (2, 2))?;
    }
    Ok(())
}

// Whether a run is done and has four entries, and its text begins so.
fn begins_so<R: Threads + Wait + Sync>(
    rt: &R,
    alloc: Global,
    script: &str,
    gate: &Meeting,
    begins: &str,
) -> Result<bool, Fail> {
    let (entries, last, text) = run(rt, alloc, script, gate)?;
    Ok((entries, last) == (4, Last::Done) && text.as_slice().starts_with(begins.as_bytes()))
}

// So many threads, each of which locks and unlocks a mutex of its own.
const CROWDS: &[(u64, &str)] = &[
    (
        3,
        "lockrun 1;[3 mutex m# k;][3 thread t# 100;lock m#;unlock m#;end;]done;",
    ),
    (
        4,
        "lockrun 1;[4 mutex m# k;][4 thread t# 100;lock m#;unlock m#;end;]done;",
    ),
    (
        8,
        "lockrun 1;[8 mutex m# k;][8 thread t# 100;lock m#;unlock m#;end;]done;",
    ),
    (
        32,
        "lockrun 1;[32 mutex m# k;][32 thread t# 100;lock m#;unlock m#;end;]done;",
    ),
];

// Fewer threads of the system than the plan has would serve as many of these first, and they would miss the others at
// the gate.
#[test]
fn a_thread_of_the_system_for_each(rt: HostRuntime) -> Result<(), Fail> {
    for &(count, script) in CROWDS {
        let gate = Barrier::new(count);
        let (entries, last, _text) = run(&rt, rt.alloc(), script, &gate)?;
        let all_came = !gate.missed() && gate.came() == count && last == Last::Done;
        check_row(
            script,
            all_came && u64::from(entries) == count.saturating_mul(2),
        )?;
    }
    Ok(())
}

// How many entries the history of a script's run has, how it ends, and the text of the run.
fn run<R: Threads + Wait + Sync, G: Gate>(
    rt: &R,
    alloc: Global,
    script: &str,
    gate: &G,
) -> Result<(u32, Last, Vec<u8>), Fail> {
    let plan = plan_of(alloc, &[script])?;
    run_of(rt, alloc, &plan, gate)
}

fn run_of<R: Threads + Wait + Sync, G: Gate>(
    rt: &R,
    alloc: Global,
    plan: &Plan,
    gate: &G,
) -> Result<(u32, Last, Vec<u8>), Fail>
    requires { IsProper plan.now }
{
    let (outcome, _halted) = outcome_of(rt, alloc, plan, gate)?;
    told(alloc, plan, &outcome)
}

fn told(alloc: Global, plan: &Plan, outcome: &Outcome) -> Result<(u32, Last, Vec<u8>), Fail> {
    let text = print(alloc, plan, outcome)?;
    Ok((outcome.history.len(), outcome.last, text))
}
