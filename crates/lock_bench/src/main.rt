//! `lock_bench [time [CASE]]` times the locks of running floors. With `time` it prints lines `name value` as
//! `bench/mutex_baseline.c`, `bench/rwlock_baseline.c` and `bench/cond_baseline.c` do, whose names and shapes of runs
//! it shares, of all cases or of one: nanoseconds of an operation, which is a take, an edit, a `get` or a release with
//! its entry, best and median of 9 runs, and of how many of 100 sections of the median run the one before, of the same
//! lock, was another thread's. Where threads wait on a condition it is those of a round: of a round trip, or of a
//! broadcast until all sleep again. Of a chain it is the nanoseconds from a take at its end to the loan that is seen at
//! its head. Of a writer's takes while others read it is the median and the longest of 1,000. Without a word, it makes
//! a short run of each case, and prints the names alone.
#![tactic(auto)]

ghost use Rattle.lock_model.specs.Operations.{IsProper};

mod gate;
mod scripts;
mod timing;

use anyhow::{Result, bail};
use lock_model::Plan;
use scripts::{CASES, Case, Round};
use std::alloc::Global;
use std::env;
use std::rt::Clock;
use std::sync::Wait;
use std::thread::Threads;
use timing::{Figures, plan_of, push_waits, time_of};

// How often each case is run where it is timed.
const RUNS: usize = 9;

// How many takes are timed, and in how many runs at most.
const TAKES: usize = 1_000;

const MOST_RUNS: usize = 10_000;

// The most operations of all rounds of a run: a script has 20,000 at most. And those of a short run.
const MOST_OPERATIONS: usize = 19_900;

const FEW_OPERATIONS: usize = 240;

fn main(rt: HostRuntime) -> Result<()> {
    let mut words = env::args(&rt)?.skip(1);
    let timed = match words.next() {
        Some(word) if word.as_str() == "time" => true,
        Some(_) => bail!("the one word that is known is `time`"),
        None => false,
    };
    let chosen = words.next();
    run_cases(&rt, timed, chosen.as_deref())
}

// Runs the case of that name, or all of them.
fn run_cases<R: AllocGlobal + Print + Threads + Wait + Clock + Sync>(
    rt: &R,
    timed: bool,
    chosen: Option<&str>,
) -> Result<()> {
    for row in CASES.iter() {
        let case = Case::of(row);
        if chosen.is_none_or(|name| name == case.name) {
            run_case(rt, timed, &case)?;
        }
    }
    Ok(())
}

fn run_case<R: AllocGlobal + Print + Threads + Wait + Clock + Sync>(
    rt: &R,
    timed: bool,
    case: &Case,
) -> Result<()> {
    let alloc = rt.alloc();
    let rounds = case.rounds(if timed {
        MOST_OPERATIONS
    } else {
        FEW_OPERATIONS
    });
    let plan = plan_of(alloc, case, rounds)?;
    if !timed {
        run_briefly(rt, alloc, case, &plan, rounds)
    } else if case.round == Round::Waits {
        print_waits(rt, alloc, case, &plan, rounds)
    } else {
        print_times(rt, alloc, case, &plan, rounds)
    }
}

// Makes one short run.
fn run_briefly<R: Print + Threads + Wait + Clock + Sync>(
    rt: &R,
    alloc: Global,
    case: &Case,
    plan: &Plan,
    rounds: usize,
) -> Result<()>
    requires proper { IsProper plan.now }
{
    time_of(rt, alloc, *case, plan, rounds)?;
    println!(rt; "{} ok", case.name)?;
    Ok(())
}

// Prints what the runs told.
fn print_times<R: Print + Threads + Wait + Clock + Sync>(
    rt: &R,
    alloc: Global,
    case: &Case,
    plan: &Plan,
    rounds: usize,
) -> Result<()>
    requires proper { IsProper plan.now }
{
    let mut runs = Vec::new(alloc);
    push_runs(rt, alloc, case, plan, rounds, &mut runs)?;
    runs.sort_unstable_by_key(|figures| figures.nanoseconds);
    print_runs(rt, case.name, &runs, case.operations(rounds))
}

// Runs it so often, for the runs that told a time. There is none where the last owner of a chain saw no loan.
fn push_runs<R: Threads + Wait + Clock + Sync>(
    rt: &R,
    alloc: Global,
    case: &Case,
    plan: &Plan,
    rounds: usize,
    runs: &mut Vec<Figures>,
) -> Result<()>
    requires proper { IsProper plan.now }
{
    for _ in 0..RUNS {
        let figures = time_of(rt, alloc, *case, plan, rounds)?;
        if figures.nanoseconds > 0 {
            runs.push(figures)?;
        }
    }
    Ok(())
}

// Prints the best and the median of these runs, which are sorted.
fn print_runs<R: Print>(rt: &R, name: &str, runs: &[Figures], operations: u64) -> Result<()> {
    if let (Some(best), Some(median)) = (runs.first(), runs.get(runs.len() / 2)) {
        print_tenths(rt, name, "", tenths(best.nanoseconds, operations))?;
        print_tenths(rt, name, "_median", tenths(median.nanoseconds, operations))?;
        print_tenths(rt, name, "_handovers", median.handovers)
    } else {
        bail!("no run told a time")
    }
}

// Prints how long takes were, of so many runs as it takes to see enough of them.
fn print_waits<R: Print + Threads + Wait + Clock + Sync>(
    rt: &R,
    alloc: Global,
    case: &Case,
    plan: &Plan,
    rounds: usize,
) -> Result<()>
    requires proper { IsProper plan.now }
{
    let mut waits = Vec::new(alloc);
    run_often(rt, alloc, case, plan, rounds, &mut waits)?;
    waits.truncate(TAKES);
    waits.sort_unstable();
    print_median_and_worst(rt, case.name, &waits)
}

fn run_often<R: Threads + Wait + Clock + Sync>(
    rt: &R,
    alloc: Global,
    case: &Case,
    plan: &Plan,
    rounds: usize,
    waits: &mut Vec<u64>,
) -> Result<()>
    requires proper { IsProper plan.now }
{
    for _ in 0..MOST_RUNS {
        push_waits(rt, alloc, *case, plan, rounds, waits)?;
        if waits.len() >= TAKES {
            break;
        }
    }
    Ok(())
}

// Of takes that are sorted.
fn print_median_and_worst<R: Print>(rt: &R, name: &str, waits: &[u64]) -> Result<()> {
    if let (Some(median), Some(worst)) = (waits.get(waits.len() / 2), waits.last()) {
        print_tenths(rt, name, "_median", tenths(*median, 1))?;
        print_tenths(rt, name, "_worst", tenths(*worst, 1))
    } else {
        bail!("no run told a time")
    }
}

// Tenths of a nanosecond for each operation.
fn tenths(nanoseconds: u64, operations: u64) -> u64 {
    nanoseconds.saturating_mul(10) / operations.max(1)
}

fn print_tenths<R: Print>(rt: &R, name: &str, of: &str, tenths: u64) -> Result<()> {
    println!(rt; "{name}{of} {}.{}", tenths / 10, tenths % 10)?;
    Ok(())
}
