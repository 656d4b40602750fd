//! The whole text.
ghost use Rattle.std.specs.Prelude.{◌≡◌, ◌++◌, ◌-◌, ℕ, map, IfOk, OnOk};
ghost use Rattle.chart_text.specs.Lines.{end_line, head_lines, lines_from, said_of, shown_byte, text_bytes, words_at};

use crate::columns::{name_width, push_left};
use crate::said::{Said, said_by_turn, words_of};
use crate::turns::push_turn;
use chart_layout::{Chart, End};
use chart_words::{push_end, push_words};
use lock_model::Plan;
use run_tracks::Rows;
use std::alloc::{AllocError, Global};

/// The text of a chart of the plan and of the rows that it shows, with a title, which may be empty: a line for each
/// turn. It fails where memory runs out.
///
/// ```
/// let text = text(alloc, &plan, &rows, &chart, "A lost wake-up")?;
/// ```
pub fn text(
    alloc: Global,
    plan: &Plan,
    rows: &Rows,
    chart: &Chart,
    title: &str,
) -> Result<Vec<u8>, AllocError>
    ensures { IfOk result (λ text.
        text.items ≡ text_bytes plan.now rows.now chart.now title.now) }
{
    let width = name_width(plan.threads.as_slice());
    let said = said_by_turn(alloc, plan, chart)?;
    let mut out = Vec::new(alloc);
    push_head(&mut out, width, title.as_bytes())?;
    push_lines(&mut out, plan, width, rows, chart, &said)?;
    push_end_line(&mut out, plan, &chart.end)?;
    Ok(out)
}

// The title, and the heads of the columns.
fn push_head(out: &mut Vec<u8>, width: usize, title: &[u8]) -> Result<(), AllocError>
    ensures { OnOk result (out.new.items ≡ out.old.items ++ head_lines width title.now) }
{
    push_words(out, b"# ")?;
    push_shown(out, title)?;
    push_words(out, b"\n# turn entry ")?;
    push_left(out, width, b"thread")?;
    push_words(out, b" what the turn did\n")
}

fn push_shown(out: &mut Vec<u8>, title: &[u8]) -> Result<(), AllocError>
    ensures { OnOk result (out.new.items ≡ out.old.items ++ map shown_byte title.now) }
{
    for byte in title {
        out.push(shown_byte(*byte))?;
    }
    Ok(())
}

// A space in place of a byte that moves a terminal's cursor.
fn shown_byte(byte: u8) -> u8
    ensures { result ≡ shown_byte byte }
{
    if byte < 32 || byte == 127 { b' ' } else { byte }
}

// The lines of the turns between the rows of the window.
fn push_lines(
    out: &mut Vec<u8>,
    plan: &Plan,
    width: usize,
    rows: &Rows,
    chart: &Chart,
    said: &Said,
) -> Result<(), AllocError>
    requires { (n : ℕ) → words_at said.now n ≡ said_of plan.now chart.now n }
    ensures { OnOk result (out.new.items ≡ out.old.items
        ++ lines_from plan.now width rows.now chart.now chart.now.first
        (chart.now.last - chart.now.first)) }
{
    for turn in chart.first..chart.last {
        push_turn(out, plan, width, rows, turn, words_of(said, turn))?;
    }
    Ok(())
}

fn push_end_line(out: &mut Vec<u8>, plan: &Plan, end: &End) -> Result<(), AllocError>
    ensures { OnOk result (out.new.items ≡ out.old.items ++ end_line plan.now end.now) }
{
    push_words(out, b"# ")?;
    push_end(out, plan, end)?;
    push_words(out, b"\n")
}
