//! What writes a chart down, and the forms in which it is written.
ghost use Rattle.std.specs.Prelude.{IfOk};
ghost use Rattle.chart_top.specs.Pictures.{Rendering, in_forms};

use crate::heading::Heading;
use chart_command::Form;
use chart_html::{data_of, html};
use chart_layout::Chart;
use chart_svg::svg;
use chart_text::text;
use chart_trace::trace;
use lock_model::Plan;
use run_tracks::Rows;
use std::alloc::{AllocError, Global};

/// What writes a chart down, in the form that is asked for. So what is promised of a call of the program is said of any
/// renderer: it writes what that made of the run, and nothing else.
pub trait Renderer {
    /// Which texts it makes of the rows and the chart of a plan, under a heading.
    ghost renders: { Rendering };

    /// The text of a chart of the plan and of the rows that it shows. It fails where memory runs out.
    fn render(
        &self,
        alloc: Global,
        form: Form,
        plan: &Plan,
        rows: &Rows,
        chart: &Chart,
        heading: Heading<'_>,
    ) -> Result<Vec<u8>, AllocError>
        ensures { IfOk result (λ text. renders form plan.now rows.now chart.now
            heading.entry.title.now heading.entry.subtitle.now text.items) };
}

/// A picture, a page with a slider, a trace for a viewer that zooms, lines of text, and the data of the page alone.
#[derive(Clone, Copy, Debug, PartialEq, Eq)]
pub struct Forms;

impl Renderer for Forms {
    ghost renders = { in_forms };

    fn render(
        &self,
        alloc: Global,
        form: Form,
        plan: &Plan,
        rows: &Rows,
        chart: &Chart,
        heading: Heading<'_>,
    ) -> Result<Vec<u8>, AllocError> {
        match form {
            Form::Svg => svg(alloc, plan, chart, heading.title, heading.subtitle),
            Form::Html => html(alloc, plan, rows, chart, heading.title, heading.subtitle),
            Form::Trace => trace(alloc, plan, chart, heading.title),
            Form::Text => text(alloc, plan, rows, chart, heading.title),
            Form::Json => data_of(alloc, plan, rows, chart),
        }
    }
}
