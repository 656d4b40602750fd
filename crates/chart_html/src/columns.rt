//! What the rows of a thread tell, column by column, as tracks.
ghost use Rattle.std.specs.Prelude.{◌≡◌, ◌++◌, ℕ, List, true, codes, option_map, None, OnOk};
ghost use Rattle.chart_escape.specs.Values.{number_bytes, separator, value_bytes};
ghost use Rattle.chart_html.specs.Tracks.{changed, column_track, is_told, told};
ghost use Rattle.chart_html.specs.declared.columns.Column as columns;
ghost use Rattle.lock_model.specs.declared.plan.Plan as plans;
ghost use Rattle.run_tracks.specs.Tracks.{value_in, IsTrack};
ghost use Rattle.run_tracks.specs.declared.threads.ThreadRow as threads;

use crate::tracks::begin_pair;
use chart_escape::{Piece, begin_line_item, push_tokens};
use chart_words::{push_queue, push_words, queue_name};
use lock_model::Plan;
use run_tracks::{ThreadRow, Wait, Walk};
use std::alloc::AllocError;

/// What a track tells of a thread.
#[derive(Clone, Copy)]
pub enum Column {
    /// Its own priority.
    Base,
    /// The priority by which it runs.
    Runs,
    /// Whether it runs, is queued or was woken.
    Wait,
    /// The name of the queue that its record names.
    On,
    /// What waiting where it stands is called: `waits for bus`.
    Stands,
    /// The name of what its walk stands at.
    Walk,
}

/// The changes at which a column tells something else are a track, as the thread's rows are, and tell in each row what
/// is told of the thread there.
pub fn columns_tell_rows()
    ensures track { (plan : plans.Plan) (column : columns.Column)
        (rows : List (ℕ × threads.ThreadRow)) → IsTrack rows
        → IsTrack (changed (told plan column) None rows) }
    ensures tells { (plan : plans.Plan) (column : columns.Column)
        (rows : List (ℕ × threads.ThreadRow)) (n : ℕ) → IsTrack rows
        → option_map (told plan column) (value_in n (changed (told plan column) None rows))
        ≡ option_map (told plan column) (value_in n rows) }
{}

/// Pushes a member that is the track of a column: what stands up to it, and a pair for each change at which the column
/// tells something else.
pub fn push_column(
    out: &mut Vec<u8>,
    name: &[u8],
    plan: &Plan,
    column: Column,
    rows: &[(u32, ThreadRow)],
) -> Result<(), AllocError>
    ensures { OnOk result (out.new.items ≡ out.old.items
        ++ name.now ++ value_bytes (column_track plan.now column rows.now)) }
{
    push_words(out, name)?;
    push_words(out, b"[")?;
    let mut last = None;
    let mut n = 0usize;
    for row in rows {
        let mut text = Vec::new(*out.allocator());
        push_cell(&mut text, plan, column, row.1)?;
        if is_told(&last, &text) {
            continue;
        }
        push_change(out, n == 0, row.0, &text)?;
        last = Some(text);
        n += 1;
    }
    push_words(out, b"]")
}

// What a column tells from a row on.
fn push_change(out: &mut Vec<u8>, first: bool, row: u32, text: &[u8]) -> Result<(), AllocError>
    ensures { OnOk result (out.new.items ≡ out.old.items ++ separator first true
        ++ codes "[" ++ number_bytes row ++ codes "," ++ text.now ++ codes "]") }
{
    begin_line_item(out, first)?;
    begin_pair(out, row)?;
    push_words(out, text)?;
    push_words(out, b"]")
}

fn is_told(last: &Option<Vec<u8>>, text: &[u8]) -> bool
    ensures { result ≡ is_told (option_map (λ last. last.items) last.now) text.now }
{
    match last {
        Some(last) => last.as_slice() == text,
        None => false,
    }
}

// What a column tells of a row.
fn push_cell(
    out: &mut Vec<u8>,
    plan: &Plan,
    column: Column,
    row: ThreadRow,
) -> Result<(), AllocError>
    ensures { OnOk result (out.new.items ≡ out.old.items ++ told plan.now column row) }
{
    match column {
        Column::Base => push_tokens(out, &[Piece::Number(u64::from(row.base.0))]),
        Column::Runs => push_tokens(out, &[Piece::Number(u64::from(row.effective.0))]),
        Column::Wait => match row.wait {
            Wait::Running => push_tokens(out, &[Piece::Json(b"running")]),
            Wait::Queued => push_tokens(out, &[Piece::Json(b"queued")]),
            Wait::Woken(_) => push_tokens(out, &[Piece::Json(b"woken")]),
        },
        Column::On => match row.blocked_on {
            Some(q) => push_tokens(out, &[Piece::Json(queue_name(plan, q))]),
            None => push_tokens(out, &[Piece::Json(b"")]),
        },
        Column::Stands => match row.stands_on {
            Some(q) => {
                let mut words = Vec::new(*out.allocator());
                push_queue(&mut words, plan, q)?;
                push_tokens(out, &[Piece::Json(&words)])
            }
            None => push_tokens(out, &[Piece::Json(b"")]),
        },
        Column::Walk => match row.walk {
            Walk::None => push_tokens(out, &[Piece::Json(b"")]),
            Walk::AtLock(l) => push_tokens(out, &[Piece::Json(plan.lock_name(l))]),
            Walk::AtThread(t) => push_tokens(out, &[Piece::Json(plan.thread_name(t))]),
        },
    }
}
