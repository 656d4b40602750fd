//! The picture of a plan: its scheduled run, the chart of a window of that, and the chart's text.
ghost use Rattle.std.specs.Prelude.{◌≡◌, ◌≤◌, length, min, IfOk};
ghost use Rattle.chart_command.specs.Args.{HasRanges, wanted};
ghost use Rattle.chart_top.specs.Pictures.{is_long, IsLength, IsPictureOfPlan};
ghost use Rattle.lock_model.specs.Operations.{IsProper};
ghost use Rattle.run_chart.specs.Charts.{IsChartOf};
ghost use Rattle.run_tracks.specs.Rows.{TellsRun};

use crate::heading::{Heading, plain_title};
use crate::renderer::Renderer;
use chart_command::{Form, LockchartArgs};
use chart_layout::Chart;
use lock_model::Plan;
use run_chart::chart;
use run_rows::rows_of;
use run_tracks::Rows;
use std::alloc::{AllocError, Global};

/// A picture, and whether it is long.
#[derive(Drop)]
pub struct Drawing {
    pub text: Vec<u8>,
    pub is_long: bool,
}

/// The picture that the words ask for, of the plan of these bytes.
pub fn draw<R: Renderer>(
    renderer: &R,
    alloc: Global,
    said: &LockchartArgs<'_>,
    bytes: &[u8],
    plan: &Plan,
) -> Result<Drawing, AllocError>
    requires proper { IsProper plan.now }
    requires ranges { HasRanges said.now }
    requires in_order { said.now.from ≤ said.now.to }
    ensures picture { IfOk result (λ d.
        IsPictureOfPlan R.renders (wanted said.now) bytes.now plan.now d.text.items) }
    ensures long { IfOk result (λ d. IsLength (wanted said.now) plan.now d.is_long) }
{
    let rows = rows_of(alloc, plan, said.chains, said.turns)?;
    let last = rows.turns.as_slice().len() as u32;
    let (from, to) = (said.from.min(last), said.to.min(last));
    let chart = chart(alloc, plan, &rows, from, to)?;
    draw_chart(renderer, alloc, said, bytes, plan, &rows, &chart)
}

// The same, of the chart of the rows that are wanted of the plan's run.
fn draw_chart<R: Renderer>(
    renderer: &R,
    alloc: Global,
    said: &LockchartArgs<'_>,
    bytes: &[u8],
    plan: &Plan,
    rows: &Rows,
    chart: &Chart,
) -> Result<Drawing, AllocError>
    requires run { TellsRun plan.now said.now.chains said.now.turns rows.now }
    requires shows { IsChartOf plan.now chart.now }
    requires first { chart.now.first ≡ min said.now.from (length rows.now.turns) }
    requires last { chart.now.last ≡ min said.now.to (length rows.now.turns) }
    ensures picture { IfOk result (λ d.
        IsPictureOfPlan R.renders (wanted said.now) bytes.now plan.now d.text.items) }
    ensures long { IfOk result (λ d. IsLength (wanted said.now) plan.now d.is_long) }
{
    let plain = plain_title(alloc, plan)?;
    let heading = Heading::of(said.title, bytes, &plain);
    let text = renderer.render(alloc, said.form, plan, rows, chart, heading)?;
    Ok(Drawing {
        text,
        is_long: is_long(said.form, chart.last.saturating_sub(chart.first)),
    })
}

// Whether a picture of so many turns is long.
fn is_long(form: Form, turns: u32) -> bool
    ensures { result ≡ is_long form turns }
{
    match form {
        Form::Svg => turns > 300,
        Form::Html | Form::Trace | Form::Text | Form::Json => false,
    }
}
