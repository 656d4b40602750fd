//! The status that a command answers for the bytes of a source, and the whole text, which is made before its first byte
//! is written. One function a command.
ghost use Rattle.std.specs.Prelude.{◌≡◌, ◌≤◌, IfErr, IfOk, true, false};
ghost use Rattle.command_line.specs.Forms.{runs_threads};
ghost use Rattle.command_line.specs.Ranges.{HasRanges};
ghost use Rattle.hold_profile.specs.Histories.{IsHistoryOf};
ghost use Rattle.lock_model.specs.Operations.{IsProper};
ghost use Rattle.lock_history.specs.Endings.{ending_of};
ghost use Rattle.lock_history.specs.Outcomes.{outcome_seen};
ghost use Rattle.lock_top.specs.Output.{has_text, IsOutputOfCounts, IsOutputOfLocks, IsOutputOfProfile, IsOutputOfSchedule, IsOutputOfThreads, IsOutputOfTicks, IsFaultOf, IsOutputSaid, output_of, profile_output_of, status_of};

use command_line::{Command, LockrunArgs};
use complaints::Status;
use floor_run::run_plan;
use hold_profile::{print_profile, profile};
use lock_history::{Last, Outcome, print, print_counts};
use lock_io::Gate;
use lock_model::Plan;
use script_read::{ReadError, read_script};
use std::alloc::{AllocError, Global};
use std::sync::Wait;
use std::thread::Threads;
use step_world::run_schedule;
use tick_sleep::{read_ticks, run_ticks};

/// Those of any command.
pub fn of_command<R: Threads + Wait + Sync, G: Gate>(
    rt: &R,
    alloc: Global,
    said: LockrunArgs,
    bytes: &[u8],
    gate: &G,
) -> Result<(Status, Vec<u8>), ReadError>
    requires { HasRanges said }
    ensures pair { IfOk result (λ a. IsOutputSaid said bytes.now (a.0, a.1.items)) }
    ensures refused { IfErr result (IsFaultOf (IsOutputSaid said bytes.now)) }
    ensures has_text { IfOk result (λ a. has_text a.0 ≡ true) }
{
    match said.command {
        Command::Check | Command::Step | Command::Ticks | Command::Profile => {
            plainly(alloc, said, bytes)
        }
        Command::Run => by_threads(rt, alloc, bytes, gate),
    }
}

/// Those of a command that starts no thread.
pub fn plainly(
    alloc: Global,
    said: LockrunArgs,
    bytes: &[u8],
) -> Result<(Status, Vec<u8>), ReadError>
    requires command { runs_threads said.command ≡ false }
    requires ranges { HasRanges said }
    ensures pair { IfOk result (λ a. IsOutputSaid said bytes.now (a.0, a.1.items)) }
    ensures refused { IfErr result (IsFaultOf (IsOutputSaid said bytes.now)) }
    ensures has_text { IfOk result (λ a. has_text a.0 ≡ true) }
{
    match said.command {
        Command::Check => counts(alloc, bytes),
        Command::Step => scheduled(alloc, bytes, said.chains, said.turns),
        Command::Ticks => ticks(alloc, bytes),
        Command::Profile => profiled(alloc, bytes, said.chains, said.turns),
        Command::Run => unreachable!(),
    }
}

// `check`: how much of each thing the script has.
#[tactic(auto, using(crate::proofs::Outcome::refused_output))]
fn counts(alloc: Global, bytes: &[u8]) -> Result<(Status, Vec<u8>), ReadError>
    ensures pair { IfOk result (λ a.
        IsOutputOfLocks IsOutputOfCounts bytes.now (a.0, a.1.items)) }
    ensures refused { IfErr result (IsFaultOf (IsOutputOfLocks IsOutputOfCounts bytes.now)) }
    ensures has_text { IfOk result (λ a. has_text a.0 ≡ true) }
{
    let plan = read_script(alloc, bytes)?;
    let text = print_counts(alloc, &plan)?;
    Ok((Status::Done, text))
}

// `step`: the scheduled run of the script's plan.
#[tactic(auto, using(crate::proofs::Outcome::refused_output))]
fn scheduled(
    alloc: Global,
    bytes: &[u8],
    chains: u32,
    turns: u32,
) -> Result<(Status, Vec<u8>), ReadError>
    requires some_chains { 1 ≤ chains }
    requires few_chains { chains ≤ 64 }
    requires some_turns { 1 ≤ turns }
    requires few_turns { turns ≤ 1000000 }
    ensures pair { IfOk result (λ a.
        IsOutputOfLocks (IsOutputOfSchedule chains turns) bytes.now (a.0, a.1.items)) }
    ensures refused { IfErr result
        (IsFaultOf (IsOutputOfLocks (IsOutputOfSchedule chains turns) bytes.now)) }
    ensures has_text { IfOk result (λ a. has_text a.0 ≡ true) }
{
    let plan = read_script(alloc, bytes)?;
    let outcome = run_schedule(alloc, &plan, chains, turns)?;
    let made = of_outcome(alloc, &plan, &outcome)?;
    Ok(made)
}

// `profile`: the profile of that run.
#[tactic(auto, using(crate::proofs::Outcome::refused_output))]
fn profiled(
    alloc: Global,
    bytes: &[u8],
    chains: u32,
    turns: u32,
) -> Result<(Status, Vec<u8>), ReadError>
    requires some_chains { 1 ≤ chains }
    requires few_chains { chains ≤ 64 }
    requires some_turns { 1 ≤ turns }
    requires few_turns { turns ≤ 1000000 }
    ensures pair { IfOk result (λ a.
        IsOutputOfLocks (IsOutputOfProfile chains turns) bytes.now (a.0, a.1.items)) }
    ensures refused { IfErr result
        (IsFaultOf (IsOutputOfLocks (IsOutputOfProfile chains turns) bytes.now)) }
    ensures has_text { IfOk result (λ a. has_text a.0 ≡ true) }
{
    let plan = read_script(alloc, bytes)?;
    let run = run_schedule(alloc, &plan, chains, turns)?;
    let made = of_history(alloc, &plan, &run)?;
    Ok(made)
}

// `ticks`: the run of a script of ticks.
#[tactic(auto, using(crate::proofs::Outcome::refused_ticks))]
fn ticks(alloc: Global, bytes: &[u8]) -> Result<(Status, Vec<u8>), ReadError>
    ensures pair { IfOk result (λ a. IsOutputOfTicks bytes.now (a.0, a.1.items)) }
    ensures refused { IfErr result (IsFaultOf (IsOutputOfTicks bytes.now)) }
    ensures has_text { IfOk result (λ a. has_text a.0 ≡ true) }
{
    let plan = read_ticks(alloc, bytes)?;
    let text = run_ticks(alloc, &plan)?;
    Ok((Status::Done, text))
}

/// `run`: those of a run of the script's threads.
#[tactic(auto, using(crate::proofs::Outcome::refused_output))]
pub fn by_threads<R: Threads + Wait + Sync, G: Gate>(
    rt: &R,
    alloc: Global,
    bytes: &[u8],
    gate: &G,
) -> Result<(Status, Vec<u8>), ReadError>
    ensures pair { IfOk result (λ a.
        IsOutputOfLocks IsOutputOfThreads bytes.now (a.0, a.1.items)) }
    ensures refused { IfErr result (IsFaultOf (IsOutputOfLocks IsOutputOfThreads bytes.now)) }
    ensures has_text { IfOk result (λ a. has_text a.0 ≡ true) }
{
    let plan = read_script(alloc, bytes)?;
    let made = of_threads(rt, alloc, &plan, gate)?;
    Ok(made)
}

// Those of a run of a plan's threads, on a floor with one chain of each sort of queue, whatever the words say.
fn of_threads<R: Threads + Wait + Sync, G: Gate>(
    rt: &R,
    alloc: Global,
    plan: &Plan,
    gate: &G,
) -> Result<(Status, Vec<u8>), AllocError>
    requires proper { IsProper plan.now }
    ensures pair { IfOk result (λ a. IsOutputOfThreads plan.now (a.0, a.1.items)) }
    ensures has_text { IfOk result (λ a. has_text a.0 ≡ true) }
{
    let (outcome, _) = run_plan(rt, alloc, plan, 1, gate)?;
    of_outcome(alloc, plan, &outcome)
}

// Those of what a run leaves to be printed.
fn of_outcome(
    alloc: Global,
    plan: &Plan,
    outcome: &Outcome,
) -> Result<(Status, Vec<u8>), AllocError>
    ensures pair { IfOk result (λ a. (a.0, a.1.items) ≡ output_of plan.now (outcome_seen outcome.now)) }
    ensures has_text { IfOk result (λ a. has_text a.0 ≡ true) }
{
    let text = print(alloc, plan, outcome)?;
    Ok((status_of(outcome.last), text))
}

// Those of the profile of what a run leaves.
fn of_history(
    alloc: Global,
    plan: &Plan,
    outcome: &Outcome,
) -> Result<(Status, Vec<u8>), AllocError>
    requires proper { IsProper plan.now }
    requires legal { IsHistoryOf plan.now outcome.now.history }
    ensures pair { IfOk result (λ a.
        (a.0, a.1.items) ≡ profile_output_of plan.now (outcome_seen outcome.now)) }
    ensures has_text { IfOk result (λ a. has_text a.0 ≡ true) }
{
    let counted = profile(alloc, plan, &outcome.history)?;
    let text = print_profile(alloc, plan, &counted, outcome.last)?;
    Ok((status_of(outcome.last), text))
}

// The status of a run by how it ended.
fn status_of(last: Last) -> Status
    ensures status { result ≡ status_of (ending_of last) }
    ensures has_text { has_text result ≡ true }
{
    match last {
        Last::Done => Status::Done,
        Last::Stuck => Status::Stuck,
        Last::Reversed => Status::Reversed,
        Last::TooLong => Status::TooLong,
    }
}
