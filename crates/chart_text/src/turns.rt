//! The line of a turn.
ghost use Rattle.std.specs.Prelude.{◌≡◌, ◌++◌, decimal, slice_get, Some, IfOk, OnOk};
ghost use Rattle.chart_text.specs.Lines.{columns_of, did_words, line_of, ticket_word};

use crate::columns::{push_left, push_right};
use chart_layout::MarkKind;
use chart_words::{push_mark, push_note, push_words};
use lock_model::{Entry, Plan, Turn, push_digits};
use run_tracks::{Rows, TurnRow};
use std::alloc::{AllocError, Global};

/// Pushes the line of a turn of which this is said, if the run has that turn.
pub fn push_turn(
    out: &mut Vec<u8>,
    plan: &Plan,
    width: usize,
    rows: &Rows,
    turn: u32,
    said: &[u8],
) -> Result<(), AllocError>
    ensures { OnOk result (out.new.items ≡ out.old.items
        ++ line_of plan.now width turn (slice_get rows.now.turns turn) said.now) }
{
    match rows.turns.as_slice().get(turn as usize) {
        Some(row) => push_line(out, plan, width, turn, *row, said),
        None => Ok(()),
    }
}

fn push_line(
    out: &mut Vec<u8>,
    plan: &Plan,
    width: usize,
    turn: u32,
    row: TurnRow,
    said: &[u8],
) -> Result<(), AllocError>
    ensures { OnOk result (out.new.items
        ≡ out.old.items ++ line_of plan.now width turn (Some row) said.now) }
{
    push_columns(out, plan, width, turn, row)?;
    push_did(out, plan, row)?;
    push_words(out, said)?;
    push_words(out, b"\n")
}

fn push_columns(
    out: &mut Vec<u8>,
    plan: &Plan,
    width: usize,
    turn: u32,
    row: TurnRow,
) -> Result<(), AllocError>
    ensures { OnOk result (out.new.items
        ≡ out.old.items ++ columns_of plan.now width turn row) }
{
    push_right(out, 6, &number_of(*out.allocator(), turn)?)?;
    push_right(out, 5, &ticket_of(*out.allocator(), row.entry)?)?;
    push_left(out, width, plan.thread_name(row.who))?;
    push_words(out, b" ")
}

fn number_of(alloc: Global, n: u32) -> Result<Vec<u8>, AllocError>
    ensures { IfOk result (λ word. word.items ≡ decimal n) }
{
    let mut word = Vec::new(alloc);
    push_digits(&mut word, u64::from(n))?;
    Ok(word)
}

// The number of an entry, or a dash.
fn ticket_of(alloc: Global, entry: Option<Entry>) -> Result<Vec<u8>, AllocError>
    ensures { IfOk result (λ word. word.items ≡ ticket_word entry) }
{
    match entry {
        Some(entry) => number_of(alloc, entry.ticket),
        None => Vec::from_slice(alloc, b"-"),
    }
}

// What a turn did, by its entry if it made one.
fn push_did(out: &mut Vec<u8>, plan: &Plan, row: TurnRow) -> Result<(), AllocError>
    ensures { OnOk result (out.new.items
        ≡ out.old.items ++ did_words plan.now row.answer row.entry) }
{
    match (row.answer, row.entry) {
        (Turn::Ended, _) => push_words(out, b"has ended"),
        (Turn::Idle, _) => push_words(out, b"idle"),
        (Turn::Did(kind), None) => push_mark(out, plan, MarkKind::Did(kind)),
        (Turn::Did(_), Some(entry)) => {
            push_mark(out, plan, MarkKind::Noted(entry.event))?;
            push_note(out, plan, entry.event)
        }
    }
}
