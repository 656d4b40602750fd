//! What is printed of what a floor left.
ghost use Rattle.std.specs.Prelude.{◌≡◌, ◌<◌, ◌^◌, length, map, IfOk};
ghost use Rattle.std.specs.List.{list_any};
ghost use Rattle.floor_ends.specs.Outcomes.{IsMerged, bases_of, ending_left, outcome_left};
ghost use Rattle.lock_history.specs.Endings.{ending_of, numbers_of};
ghost use Rattle.lock_history.specs.Outcomes.{outcome_seen};
ghost use Rattle.lock_history.specs.Tickets.{TicketsOnce, entries_in};
ghost use Rattle.lock_model.specs.Law.{is_halt};
ghost use Rattle.lock_model.specs.Takes.{is_reversal};

use lock_floor::Closing;
use lock_history::{Last, Outcome, merge};
use lock_model::{Entry, Prio, Sequence};
use std::alloc::{AllocError, Global};
use thread_records::ThreadRec;

/// What is printed of what a floor left, in time in the length of its history and in the number of keys that its tables
/// have room for: no queue is left. The tickets of its logs' entries are 0 to n - 1, each once, as those of every floor
/// that is closed are.
pub fn outcome_of(alloc: Global, closing: &Closing) -> Result<Outcome, AllocError>
    requires once { TicketsOnce (entries_in closing.now.logs.items) }
    requires few { length (entries_in closing.now.logs.items) < 2 ^ 32 }
    ensures merged { IfOk result (λ o. IsMerged closing.now.logs.items o.history) }
    ensures outcome { IfOk result (λ o. outcome_seen o ≡ outcome_left closing.now o.history) }
{
    let history = merge(alloc, closing.logs())?;
    let tables = closing.tables().clone()?;
    let finals = finals(alloc, closing.recs())?;
    let last = last_of(history.as_slice());
    Ok(Outcome {
        history,
        queues: Sequence::from_vec(Vec::new(alloc)),
        finals: Sequence::from_vec(finals),
        tables,
        last,
    })
}

// Each thread's base priority, and its effective one, which is the same where nobody waits.
fn finals(alloc: Global, recs: &[Box<ThreadRec>]) -> Result<Vec<(Prio, Prio)>, AllocError>
    ensures { IfOk result (λ pairs. numbers_of pairs.items ≡ map bases_of recs.now) }
{
    let mut pairs = Vec::with_capacity(alloc, recs.len())?;
    for rec in recs {
        pairs.push((rec.base(), rec.base()))?;
    }
    Ok(pairs)
}

// How the threads ended, by their history.
fn last_of(history: &[Entry]) -> Last
    ensures { ending_of result ≡ ending_left history.now }
{
    if has_halt(history) {
        Last::Stuck
    } else if has_reversal(history) {
        Last::Reversed
    } else {
        Last::Done
    }
}

// Whether an entry tells of a halt.
fn has_halt(history: &[Entry]) -> bool
    ensures { result ≡ list_any (λ e. is_halt e.event) history.now }
{
    history.iter().any(|e| e.event.is_halt())
}

// Whether an entry is the refusal of a take.
fn has_reversal(history: &[Entry]) -> bool
    ensures { result ≡ list_any (λ e. is_reversal e.event) history.now }
{
    history.iter().any(|e| e.event.is_reversal())
}
