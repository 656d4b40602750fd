//! What the threads of a run show in a window, one behind the other: the lane of each, its bars, and the strip of its
//! priorities.
ghost use Rattle.std.specs.Prelude.{◌≡◌, ◌≤◌, length, map, option_map, IfOk, OnOk};
ghost use Rattle.std.specs.List.{find};
ghost use Rattle.lock_state.specs.Run.{threads_of};
ghost use Rattle.run_chart.specs.Bars.{bar_drawn, kinds_in};
ghost use Rattle.run_chart.specs.Charts.{lane_in};
ghost use Rattle.run_chart.specs.Runs.{IsRunOf, IsThreadOf};
ghost use Rattle.run_chart.specs.Spans.{Adds, Draws};
ghost use Rattle.run_chart.specs.Steps.{prios_in, step_drawn};
ghost use Rattle.run_tracks.specs.Rows.{run_in};

use crate::bars::push_bars;
use crate::rows::{ThreadOf, thread_rows};
use crate::spans::spans;
use chart_layout::{Bar, Lane, PrioSpan};
use lock_model::{Plan, ThreadNo};
use run_tracks::{Rows, ThreadRow};
use std::alloc::{AllocError, Global};

/// What threads show.
#[derive(Drop)]
pub struct ThreadsShown {
    pub lanes: Vec<Lane>,
    pub bars: Vec<Bar>,
    pub steps: Vec<PrioSpan>,
}

/// What the threads of a run show in the rows `from..=to`.
pub fn threads(
    alloc: Global,
    plan: &Plan,
    rows: &Rows,
    from: u32,
    to: u32,
) -> Result<ThreadsShown, AllocError>
    requires run { IsRunOf plan.now rows.now }
    requires in_order { from ≤ to }
    requires within { to ≤ length rows.now.turns }
    ensures lanes { IfOk result (λ shown. shown.lanes.items
        ≡ map (lane_in plan.now (length rows.now.turns)) (threads_of plan.now)) }
    ensures bars { IfOk result (λ shown. Draws bar_drawn (length plan.now.threads) from to
        (λ t n. kinds_in plan.now (run_in plan.now n).state t) (length plan.now.threads)
        shown.bars.items) }
    ensures steps { IfOk result (λ shown. Draws step_drawn (length plan.now.threads) from to
        (λ t n. prios_in (run_in plan.now n).state t) (length plan.now.threads)
        shown.steps.items) }
{
    let mut lanes = Vec::new(alloc);
    let mut bars = Vec::new(alloc);
    let mut steps = Vec::new(alloc);
    for t in 0..rows.threads.as_slice().len() {
        let at = ThreadOf {
            plan,
            rows,
            who: ThreadNo(t as u8),
            from,
            to,
        };
        lanes.push(lane(&at))?;
        push_bars(alloc, &mut bars, &at)?;
        push_steps(alloc, &mut steps, &at)?;
    }
    Ok(ThreadsShown { lanes, bars, steps })
}

// The lane of a thread, which ends in the first row in which the thread has come to its end.
fn lane(at: &ThreadOf<'_>) -> Lane
    requires { IsThreadOf at.now }
    ensures { result ≡ lane_in at.now.plan.now (length at.now.rows.now.turns) at.now.who.0 }
{
    Lane {
        thread: at.who,
        ended: first_ended(thread_rows(at.rows, at.who).row.changes()),
    }
}

// The first row in which a thread has come to its end.
fn first_ended(changes: &[(u32, ThreadRow)]) -> Option<u32>
    ensures { result ≡ option_map (λ change. change.0) (find (λ change. change.1.ended) changes.now) }
{
    let (row, _) = changes.iter().find(|change| change.1.ended)?;
    Some(*row)
}

// Adds the steps of a thread in its window, which follow upon each other.
fn push_steps(alloc: Global, steps: &mut Vec<PrioSpan>, at: &ThreadOf<'_>) -> Result<(), AllocError>
    requires { IsThreadOf at.now }
    ensures { OnOk result (Adds step_drawn at.now.who.0 at.now.from at.now.to steps.old.items
        steps.new.items (λ n. prios_in (run_in at.now.plan.now n).state at.now.who.0)) }
{
    let track = &thread_rows(at.rows, at.who).row;
    let prios = spans(
        alloc,
        track,
        at.from,
        at.to,
        |row| (row.effective, row.base),
    )?;
    for span in &prios {
        let (effective, base) = span.value;
        steps.push(PrioSpan {
            thread: at.who,
            first: span.first,
            last: span.last,
            effective,
            base,
        })?;
    }
    Ok(())
}
