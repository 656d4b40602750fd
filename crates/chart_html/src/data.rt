//! What the page knows of a run, as JSON.
ghost use Rattle.std.specs.Prelude.{◌≡◌, ◌++◌, [], slice_get, unwrap_or, IfOk, OnOk};
ghost use Rattle.chart_escape.specs.Values.{value_bytes, IsJson};
ghost use Rattle.chart_html.specs.Data.{data_bytes, data_value, done_words, kind_word, lock, mark, sentence};

use crate::edits::push_edits;
use crate::items::{Known, Listed, push_items, push_with_number, push_with_string};
use chart_layout::{Chart, MarkKind, Sentence, TurnMark};
use chart_words::{push_mark, push_note, push_sentence, push_words};
use lock_model::{Kind, LockDecl, Plan};
use run_tracks::Rows;
use std::alloc::{AllocError, Global};

/// The data of a page: JSON, which may also stand alone. It fails where memory runs out.
///
/// ```
/// let data = data_of(alloc, &plan, &rows, &chart)?;
/// ```
pub fn data_of(
    alloc: Global,
    plan: &Plan,
    rows: &Rows,
    chart: &Chart,
) -> Result<Vec<u8>, AllocError>
    ensures told { IfOk result (λ text. text.items ≡ data_bytes plan.now rows.now chart.now) }
    ensures reads { IfOk result (λ text. IsJson text.items) }
{
    let mut out = Vec::new(alloc);
    push_data(&mut out, &Known { plan, rows, chart })?;
    push_words(&mut out, b"\n")?;
    Ok(out)
}

fn push_data(out: &mut Vec<u8>, known: &Known<'_>) -> Result<(), AllocError>
    ensures { OnOk result (out.new.items ≡ out.old.items
        ++ value_bytes (data_value known.now.plan.now known.now.rows.now known.now.chart.now)) }
{
    let (plan, rows, chart) = (known.plan, known.rows, known.chart);
    push_with_number(out, "{\"first\":", u64::from(chart.first))?;
    push_with_number(out, ",\"last\":", u64::from(chart.last))?;
    push_items(out, b",\n\"marks\":", known, chart.marks.as_slice())?;
    push_items(out, b",\n\"said\":", known, chart.sentences.as_slice())?;
    push_items(out, b",\n\"threads\":", known, rows.threads.as_slice())?;
    push_items(out, b",\n\"locks\":", known, plan.locks.as_slice())?;
    push_items(out, b",\n\"queues\":", known, rows.queues.changes())?;
    push_words(out, b",\n\"edits\":")?;
    push_edits(out, rows.turns.as_slice())?;
    push_words(out, b"}")?;
    Ok(())
}

/// A turn: number, thread, and what was done.
impl Listed for TurnMark {
    ghost value = { λ known n its. mark known.plan.now its };

    fn push(&self, out: &mut Vec<u8>, known: &Known<'_>, _n: usize) -> Result<(), AllocError> {
        let mut words = Vec::new(*out.allocator());
        push_done(&mut words, known.plan, self.what)?;
        push_with_number(out, "[", u64::from(self.turn))?;
        push_with_number(out, ",", u64::from(self.thread.0))?;
        push_with_string(out, ",", &words)?;
        push_words(out, b"]")
    }
}

// What was done, with all that its event tells.
fn push_done(out: &mut Vec<u8>, plan: &Plan, what: MarkKind) -> Result<(), AllocError>
    ensures { OnOk result (out.new.items ≡ out.old.items ++ done_words plan.now what) }
{
    match what {
        MarkKind::Noted(event) => {
            push_mark(out, plan, what)?;
            push_note(out, plan, event)
        }
        MarkKind::Did(_) => push_mark(out, plan, what),
        MarkKind::Idle => push_words(out, b"idle"),
    }
}

/// A sentence, with its turn.
impl Listed for Sentence {
    ghost value = { λ known n its. sentence known.plan.now its };

    fn push(&self, out: &mut Vec<u8>, known: &Known<'_>, _n: usize) -> Result<(), AllocError> {
        let mut words = Vec::new(*out.allocator());
        push_sentence(&mut words, known.plan, self)?;
        push_with_number(out, "[", u64::from(self.turn))?;
        push_with_string(out, ",", &words)?;
        push_words(out, b"]")
    }
}

/// A lock: its name, its kind, and the track of its word.
impl Listed for LockDecl {
    ghost value = { λ known l its. lock known.rows.now.words l its };

    fn push(&self, out: &mut Vec<u8>, known: &Known<'_>, l: usize) -> Result<(), AllocError> {
        push_with_string(out, "{\"name\":", self.name.as_bytes())?;
        push_with_string(out, ",\"kind\":", kind_word(self.kind))?;
        push_items(out, b",\"word\":", known, track_of(known.rows, l))?;
        push_words(out, b"}")?;
        Ok(())
    }
}

fn kind_word(kind: Kind) -> &'static [u8]
    ensures { result.now ≡ kind_word kind }
{
    match kind {
        Kind::Mtx => b"mutex",
        Kind::Rw => b"rw",
        Kind::Sx => b"sx",
    }
}

// The track of a lock's word.
fn track_of(rows: &Rows, l: usize) -> &[(u32, u64)]
    ensures { result.now ≡ unwrap_or (slice_get rows.now.words l) [] }
{
    match rows.words.as_slice().get(l) {
        Some(track) => track.changes(),
        None => &[],
    }
}
