//! The whole trace.
ghost use Rattle.std.specs.Prelude.{◌≡◌, ◌++◌, IfOk, OnOk};
ghost use Rattle.chart_escape.specs.Values.{IsJson};
ghost use Rattle.chart_trace.specs.Events.{beginning, next_lines, other_events, trace_bytes};

use crate::flows::push_flows;
use crate::told::{Pushed, push_each};
use crate::tracks::{TURNS, push_locks, time_of};
use chart_escape::Piece::{Json, Number, Own};
use chart_escape::push_tokens;
use chart_layout::Chart;
use chart_words::end_headline;
use lock_model::Plan;
use std::alloc::{AllocError, Global};

/// The trace of a chart of the plan, with a title, which may be empty: a JSON file, whatever stands in the title and
/// in names. It fails where memory runs out.
///
/// ```
/// let text = trace(alloc, &plan, &chart, "A lost wake-up")?;
/// ```
pub fn trace(alloc: Global, plan: &Plan, chart: &Chart, title: &str) -> Result<Vec<u8>, AllocError>
    ensures json { IfOk result (λ text. IsJson text.items) }
    ensures told { IfOk result (λ text.
        text.items ≡ trace_bytes plan.now chart.now title.now) }
{
    let mut out = Vec::new(alloc);
    push_begin(&mut out, chart, title)?;
    push_others(&mut out, plan, chart)?;
    push_tokens(&mut out, &[Own("]}\n")])?;
    Ok(out)
}

// The title, and how the run ended, as an instant behind the last turn: that is the first of the events.
#[tactic(auto, unfolding(crate::specs::Events::event_value))]
fn push_begin(out: &mut Vec<u8>, chart: &Chart, title: &str) -> Pushed
    ensures { OnOk result (out.new.items ≡ out.old.items ++ beginning chart.now title.now) }
{
    push_tokens(
        out,
        &[
            Own("{\"displayTimeUnit\":\"ms\",\"otherData\":{\"title\":"),
            Json(title.as_bytes()),
            Own("},\"traceEvents\":[\n{\"ph\":\"i\",\"s\":\"g\",\"name\":"),
            Json(end_headline(&chart.end).as_bytes()),
            Own(",\"pid\":"),
            Number(1),
            Own(",\"tid\":"),
            Number(TURNS),
            Own(",\"ts\":"),
            Number(time_of(chart.last)),
            Own("}"),
        ],
    )
}

// The events behind the first.
#[tactic(auto, using(crate::proofs::Traces::lines_more), unfolding(crate::specs::Events::other_events))]
fn push_others(out: &mut Vec<u8>, plan: &Plan, chart: &Chart) -> Pushed
    ensures { OnOk result (out.new.items
        ≡ out.old.items ++ next_lines (other_events plan.now chart.now)) }
{
    let bars = chart.bars.as_slice();
    let sentences = chart.sentences.as_slice();
    push_each(out, plan, chart.lanes.as_slice())?;
    push_locks(out, plan, bars)?;
    push_each(out, plan, bars)?;
    push_each(out, plan, chart.marks.as_slice())?;
    push_each(out, plan, sentences)?;
    push_each(out, plan, chart.steps.as_slice())?;
    push_flows(out, chart.arrows.as_slice(), sentences)
}
