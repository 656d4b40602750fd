//! How the run of a chart ended, and the lines that are printed of it.
ghost use Rattle.std.specs.Prelude.{◌≡◌, ◌<◌, ◌≤◌, length, IfOk};
ghost use Rattle.run_chart.specs.Charts.{wait_in, waits_in, IsEnd};
ghost use Rattle.run_chart.specs.Runs.{IsRunOf};

use crate::rows::thread_rows;
use chart_layout::End;
use lock_history::{Last, Outcome, print};
use lock_model::{Plan, QueueName, Sequence, ThreadNo};
use run_tracks::Rows;
use std::alloc::{AllocError, Global};

/// How the run ended, and who stands on which queue where it is stuck.
#[tactic(auto, using(crate::proofs::Told::ending_is))]
pub fn end(alloc: Global, plan: &Plan, rows: &Rows) -> Result<End, AllocError>
    requires { IsRunOf plan.now rows.now }
    ensures { IfOk result (IsEnd plan.now (length rows.now.turns)) }
{
    match rows.outcome.last {
        Last::Done => Ok(End::Done),
        Last::Stuck => Ok(End::Stuck {
            waits: Sequence::from_vec(waits(alloc, plan, rows)?),
        }),
        Last::Reversed => Ok(End::Reversed),
        Last::TooLong => Ok(End::TooLong),
    }
}

// Who stands on which queue in the last row.
fn waits(alloc: Global, plan: &Plan, rows: &Rows) -> Result<Vec<(ThreadNo, QueueName)>, AllocError>
    requires { IsRunOf plan.now rows.now }
    ensures { IfOk result (λ waits. waits.items ≡ waits_in plan.now (length rows.now.turns)) }
{
    let last = rows.turns.as_slice().len() as u32;
    (0..plan.threads.as_slice().len())
        .filter_map(|t| wait_in(plan, rows, last, ThreadNo(t as u8)))
        .collect(alloc)
}

// A thread that stands on a queue in a row, with its queue.
fn wait_in(plan: &Plan, rows: &Rows, row: u32, t: ThreadNo) -> Option<(ThreadNo, QueueName)>
    requires run { IsRunOf plan.now rows.now }
    requires row { row ≤ length rows.now.turns }
    requires thread { t.0 < length rows.now.threads }
    ensures { result ≡ wait_in plan.now row t.0 }
{
    thread_rows(rows, t).row.at(row).stands_on.map(|q| (t, q))
}

/// The printed lines behind those of the history.
pub fn printed_end(alloc: Global, plan: &Plan, outcome: &Outcome) -> Result<Vec<u8>, AllocError> {
    let text = print(alloc, plan, outcome)?;
    Vec::from_slice(alloc, behind_lines(&text, outcome.history.len()))
}

// What stands behind so many lines.
fn behind_lines(text: &[u8], lines: u32) -> &[u8] {
    let mut rest = text;
    for _ in 0..lines {
        match rest.iter().position(|byte| *byte == b'\n') {
            Some(i) => rest = &rest[i + 1..],
            None => return b"",
        }
    }
    rest
}
