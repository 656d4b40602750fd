//! The text of a run as it stands.
ghost use Rattle.std.specs.Prelude.{◌≡◌, ◌<◌, IfOk, length, map, reverse};
ghost use Rattle.lock_history.specs.Endings.{ending_of, numbers_of};
ghost use Rattle.lock_model.specs.Takes.{has_reversal};
ghost use Rattle.lock_model.specs.Text as texts;
ghost use Rattle.lock_state.specs.Run as run;
ghost use Rattle.lock_state.specs.Run.{Run, all_ended, threads_of, whole_ending};
ghost use Rattle.step_world.specs.Worlds.{IsSound, Represents};
ghost use Rattle.turn_calls.specs.Texts.{IsShown, as_it_stands, goes_on, nobody_goes_on, outcome_with};

use crate::threads::{ThreadState, state_of};
use lock_history::{History, Last, Log, Outcome, QueueLine, print};
use lock_model::{Entry, Plan, Prio, Sequence, ThreadNo};
use std::alloc::{AllocError, Global};
use step_machine::Machine;
use step_world::World;

/// What is printed of a run beside its tables.
#[derive(Drop)]
pub struct Shown {
    pub(crate) history: History,
    pub(crate) queues: Vec<QueueLine>,
    pub(crate) finals: Vec<(Prio, Prio)>,
    pub(crate) last: Last,
}

// What is printed of the run of a world.
pub(crate) fn shown_of(alloc: Global, world: &World<'_>) -> Result<Shown, AllocError>
    requires sound { IsSound world.now }
    ensures { IfOk result (λ shown. (r : Run) → Represents world.now r
        → IsShown world.now.plan world.now.chains r shown) }
{
    let history = history_of(alloc, world)?;
    let queues = world.queues(alloc)?;
    let finals = finals_of(alloc, world)?;
    let last = last_of(world);
    Ok(Shown {
        history,
        queues,
        finals,
        last,
    })
}

// The text of that and of the tables of the objects, which are given back.
pub(crate) fn print_with(
    alloc: Global,
    plan: &Plan,
    shown: Shown,
    machine: Machine,
) -> (Machine, Result<Vec<u8>, AllocError>)
    ensures given_back { result.0 ≡ machine }
    ensures text { IfOk result.1 (λ text. text.items
        ≡ texts.text_of plan.now (outcome_with shown machine.tables)) }
{
    let Machine {
        words,
        chain,
        sleepers,
        threads,
        log,
        tables,
        orders,
    } = machine;
    let Shown {
        history,
        queues,
        finals,
        last,
    } = shown;
    let outcome = Outcome {
        history,
        queues: Sequence::from_vec(queues),
        finals: Sequence::from_vec(finals),
        tables,
        last,
    };
    let text = print(alloc, plan, &outcome);
    let Outcome { tables, .. } = outcome;
    let same = Machine {
        words,
        chain,
        sleepers,
        threads,
        log,
        tables,
        orders,
    };
    (same, text)
}

// Its entries so far.
fn history_of(alloc: Global, world: &World<'_>) -> Result<History, AllocError>
    requires sound { IsSound world.now }
    ensures { IfOk result (λ history. (r : Run) → Represents world.now r
        → history ≡ reverse r.state.history) }
{
    let entries = world.history();
    let mut log = Log::make(alloc, entries.len() as u32)?;
    for entry in entries {
        log.put(*entry);
    }
    Ok(History::of_log(log))
}

// Each thread's base and effective priority.
fn finals_of(alloc: Global, world: &World<'_>) -> Result<Vec<(Prio, Prio)>, AllocError>
    ensures { IfOk result (λ finals. (r : Run) → Represents world.now r
        → numbers_of finals.items ≡ map (λ t. (r.state.base t, r.state.effective t))
        (threads_of world.now.plan)) }
{
    let mut finals = Vec::new(alloc);
    for t in 0..world.threads() {
        finals.push(world.priorities(ThreadNo(t)))?;
    }
    Ok(finals)
}

// How it ended, where its last turn was the last one.
fn last_of(world: &World<'_>) -> Last
    requires sound { IsSound world.now }
    ensures { (r : Run) → Represents world.now r → ending_of result
        ≡ run.ending_of world.now.plan (as_it_stands world.now.plan r) }
{
    if all_ended(world) {
        whole_ending(world)
    } else if nobody_goes_on(world) {
        Last::Stuck
    } else {
        Last::TooLong
    }
}

// How it ended where all threads have ended.
fn whole_ending(world: &World<'_>) -> Last
    ensures { (r : Run) → Represents world.now r
        → ending_of result ≡ whole_ending r.state.history }
{
    if has_reversal(world.history()) {
        Last::Reversed
    } else {
        Last::Done
    }
}

// Whether a take was refused for its order.
fn has_reversal(history: &[Entry]) -> bool
    ensures { result ≡ has_reversal history.now }
{
    history.iter().any(|e| e.event.is_reversal())
}

fn all_ended(world: &World<'_>) -> bool
    ensures { (r : Run) → Represents world.now r → result ≡ all_ended world.now.plan r }
{
    for t in 0..world.threads() {
        if !world.has_ended(ThreadNo(t)) {
            return false;
        }
    }
    true
}

// Whether a turn of each thread that hasn't ended would be idle.
fn nobody_goes_on(world: &World<'_>) -> bool
    requires sound { IsSound world.now }
    ensures { (r : Run) → Represents world.now r
        → result ≡ nobody_goes_on world.now.plan r }
{
    for t in 0..world.threads() {
        if goes_on(world, ThreadNo(t)) {
            return false;
        }
    }
    true
}

// Whether a thread hasn't ended, and its turn wouldn't be idle.
fn goes_on(world: &World<'_>, t: ThreadNo) -> bool
    requires thread { t.0 < length world.now.plan.threads }
    requires sound { IsSound world.now }
    ensures { (r : Run) → Represents world.now r → result ≡ goes_on world.now.plan r t.0 }
{
    match state_of(world, t) {
        ThreadState::Running | ThreadState::Woken => true,
        // It has something to do before it sleeps.
        ThreadState::Queued => true,
        ThreadState::Idle | ThreadState::Ended => false,
    }
}
