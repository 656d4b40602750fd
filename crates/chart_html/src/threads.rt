//! What threads were.
ghost use Rattle.std.specs.Prelude.{◌≡◌, ◌++◌, false, OnOk};
ghost use Rattle.chart_escape.specs.Values.{members, members_bytes};
ghost use Rattle.chart_html.specs.Data.{done, lane_end, thread};
ghost use Rattle.lock_model.specs.Plans.{thread_name};

use crate::columns::{Column, push_column};
use crate::items::{Known, Listed, push_items, push_with_number, push_with_string};
use chart_layout::Chart;
use chart_words::push_words;
use lock_model::Plan;
use run_tracks::ThreadRows;
use std::alloc::AllocError;

impl Listed for ThreadRows {
    ghost value = { λ known t its. thread known.plan.now known.chart.now t its };

    fn push(&self, out: &mut Vec<u8>, known: &Known<'_>, t: usize) -> Result<(), AllocError> {
        let plan = known.plan;
        let rows = self.row.changes();
        push_with_string(out, "{\"name\":", name_of(plan, t))?;
        push_column(out, b",\"base\":", plan, Column::Base, rows)?;
        push_column(out, b",\"runs\":", plan, Column::Runs, rows)?;
        push_column(out, b",\"wait\":", plan, Column::Wait, rows)?;
        push_column(out, b",\"on\":", plan, Column::On, rows)?;
        push_column(out, b",\"stands\":", plan, Column::Stands, rows)?;
        push_column(out, b",\"walk\":", plan, Column::Walk, rows)?;
        push_items(out, b",\"held\":", known, self.held.as_slice())?;
        push_end(out, known.chart, t)?;
        Ok(())
    }
}

fn name_of(plan: &Plan, t: usize) -> &[u8]
    ensures { result.now ≡ thread_name plan.now t }
{
    match plan.threads.as_slice().get(t) {
        Some(thread) => thread.name.as_bytes(),
        None => b"",
    }
}

// The first row in which the thread has come to its end.
fn ended_of(chart: &Chart, t: usize) -> Option<u32>
    ensures { result ≡ lane_end chart.now t }
{
    chart.lanes.as_slice().get(t)?.ended
}

// That row, if there is one, and the end of the object.
fn push_end(out: &mut Vec<u8>, chart: &Chart, t: usize) -> Result<(), AllocError>
    ensures { OnOk result (out.new.items
        ≡ out.old.items ++ members_bytes false (members (done (lane_end chart.now t)))) }
{
    match ended_of(chart, t) {
        Some(row) => {
            push_with_number(out, ",\"done\":", u64::from(row))?;
            push_words(out, b"}")
        }
        None => push_words(out, b"}"),
    }
}
