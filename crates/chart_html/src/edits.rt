//! What was set and added in the locks' tables, each with its row.
ghost use Rattle.std.specs.Prelude.{◌≡◌, ◌++◌, decimal, true, OnOk};
ghost use Rattle.chart_escape.specs.Json.{json_string};
ghost use Rattle.chart_escape.specs.Values.{items, value_bytes, Array};
ghost use Rattle.chart_html.specs.Data.{edit, edits_behind, table_of};

use crate::items::{push_with_number, push_with_string};
use chart_escape::begin_line_item;
use chart_words::push_words;
use lock_model::{LockNo, OfTable, push_digits};
use run_tracks::TurnRow;
use std::alloc::AllocError;

/// Pushes the edits of a run, by row. A turn made one, or none.
pub fn push_edits(out: &mut Vec<u8>, turns: &[TurnRow]) -> Result<(), AllocError>
    ensures { OnOk result (out.new.items
        ≡ out.old.items ++ value_bytes (Array (items true (edits_behind 0 turns.now)))) }
{
    push_words(out, b"[")?;
    let mut first = true;
    for (turn, its) in turns.iter().enumerate() {
        let (l, key, adds, amount) = match table_of(*its) {
            OfTable::SetsTo { l, key, value } => (l, key, 0, value),
            OfTable::AddsTo { l, key, amount } => (l, key, 1, amount),
            OfTable::NoTable | OfTable::Reads { .. } => continue,
        };
        begin_line_item(out, first)?;
        push_edit(out, turn as u64 + 1, l, key, adds, amount)?;
        first = false;
    }
    push_words(out, b"]")
}

// What a turn did in a lock's table.
fn table_of(turn: TurnRow) -> OfTable
    ensures { result ≡ table_of turn }
{
    match turn.entry {
        Some(entry) => entry.event.at_table(),
        None => OfTable::NoTable,
    }
}

fn push_edit(
    out: &mut Vec<u8>,
    row: u64,
    l: LockNo,
    key: u64,
    adds: u64,
    amount: u64,
) -> Result<(), AllocError>
    ensures { OnOk result (out.new.items
        ≡ out.old.items ++ value_bytes (edit row l key adds amount)) }
{
    push_with_number(out, "[", row)?;
    push_with_number(out, ",", u64::from(l.0))?;
    push_digits_text(out, ",", key)?;
    push_with_number(out, ",", adds)?;
    push_digits_text(out, ",", amount)?;
    push_words(out, b"]")
}

// A key and an amount may have 64 bits, so they are strings.
fn push_digits_text(out: &mut Vec<u8>, words: &'static str, n: u64) -> Result<(), AllocError>
    ensures { OnOk result (out.new.items
        ≡ out.old.items ++ (words.now ++ json_string (decimal n))) }
{
    let mut digits = Vec::new(*out.allocator());
    push_digits(&mut digits, n)?;
    push_with_string(out, words, &digits)
}
