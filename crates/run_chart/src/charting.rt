//! The chart of a run.
ghost use Rattle.std.specs.Prelude.{◌≡◌, ◌≤◌, ℕ, length, IfOk};
ghost use Rattle.lock_model.specs.Operations.{IsProper};
ghost use Rattle.lock_model.specs.declared.plan.Plan as plans;
ghost use Rattle.run_chart.specs.Bars.{standing};
ghost use Rattle.run_chart.specs.Charts.{IsChartOf};
ghost use Rattle.run_tracks.specs.Rows.{run_in, IsWhereItStands, TellsRun};

use crate::ending::{end, printed_end};
use crate::threads::threads;
use crate::window::turns;
use chart_layout::Chart;
use lock_model::{Plan, Sequence};
use run_tracks::Rows;
use std::alloc::{AllocError, Global};

/// The chart of a run of the plan, in the rows `from..=to`, which are rows of the run. It shows just what is so in
/// these: `IsChartOf` of `specs/Charts.antt` says of what. It fails where memory runs out.
///
/// ```
/// let rows = rows_of(alloc, &plan, 16, 1000)?;
/// let chart = chart(alloc, &plan, &rows, 0, rows.turns.as_slice().len() as u32)?;
/// ```
#[tactic(auto, using(crate::proofs::Told::run_of))]
pub fn chart(
    alloc: Global,
    plan: &Plan,
    rows: &Rows,
    from: u32,
    to: u32,
) -> Result<Chart, AllocError>
    requires proper { IsProper plan.now }
    requires run { (chains turns : ℕ) × TellsRun plan.now chains turns rows.now }
    requires few { length rows.now.turns ≤ 1000000 }
    requires in_order { from ≤ to }
    requires within { to ≤ length rows.now.turns }
    ensures first { IfOk result (λ chart. chart.first ≡ from) }
    ensures last { IfOk result (λ chart. chart.last ≡ to) }
    ensures turns { IfOk result (λ chart. chart.turns ≡ length rows.now.turns) }
    ensures shows { IfOk result (IsChartOf plan.now) }
{
    let drawn = threads(alloc, plan, rows, from, to)?;
    let shown = turns(alloc, plan, rows, from, to)?;
    Ok(Chart {
        first: from,
        last: to,
        turns: rows.turns.as_slice().len() as u32,
        lanes: Sequence::from_vec(drawn.lanes),
        bars: Sequence::from_vec(drawn.bars),
        steps: Sequence::from_vec(drawn.steps),
        arrows: Sequence::from_vec(shown.arrows),
        marks: Sequence::from_vec(shown.marks),
        sentences: Sequence::from_vec(shown.sentences),
        end: end(alloc, plan, rows)?,
        printed: Sequence::from_vec(printed_end(alloc, plan, &rows.outcome)?),
    })
}

/// Where bars and the end show that a thread waits is where it stands: in each row of a run `standing` names the queue
/// in whose lists the thread is, and none where it is in no lists.
#[tactic(auto, using(crate::proofs::Told::stands_law))]
pub fn threads_wait_where_they_stand()
    ensures { (plan : plans.Plan) (n t : ℕ) → IsProper plan
        → IsWhereItStands (run_in plan n).state t (standing (run_in plan n).state t) }
{}
