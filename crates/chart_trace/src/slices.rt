//! Bars and turns as slices, what is said of turns as instants, and priorities as counters.

ghost use Rattle.std.specs.Prelude.{◌≡◌, ◌++◌, codes, OnOk};
ghost use Rattle.chart_trace.specs.Events.{Counter, Said, Slice, bar_events, begin_of, mark_events, next_line, sentence_events, step_events};

use crate::told::{Pushed, Told};
use crate::tracks::{Place, TURNS, place_of, process_of, time_of, track_of};
use chart_escape::Piece::{Json, Number, Own};
use chart_escape::push_tokens;
use chart_layout::{Bar, MarkKind, PrioSpan, Sentence, TurnMark};
use chart_words::{push_bar, push_lost, push_mark, push_note, push_sentence};
use lock_model::Plan;

/// A slice, from the turn that began it to the turn that ended it.
impl Told for Bar {
    ghost events = { bar_events };

    fn push(&self, out: &mut Vec<u8>, plan: &Plan) -> Pushed {
        let mut name = Vec::new(*out.allocator());
        push_bar(&mut name, plan, self.what)?;
        let begin = begin_of(self.first);
        let at = place_of(self.thread, track_of(self.what), begin);
        push_slice(out, at, &name, time_of(self.last).saturating_sub(begin))
    }
}

// The time from which a row is shown.
fn begin_of(row: u32) -> u64
    ensures { result ≡ begin_of row }
{
    time_of(row.saturating_sub(1))
}

/// A slice of a millisecond. Idle turns have none.
impl Told for TurnMark {
    ghost events = { mark_events };

    fn push(&self, out: &mut Vec<u8>, plan: &Plan) -> Pushed {
        let mut name = Vec::new(*out.allocator());
        let at = place_of(self.thread, TURNS, time_of(self.turn));
        match self.what {
            MarkKind::Noted(event) => {
                push_mark(&mut name, plan, self.what)?;
                push_note(&mut name, plan, event)?;
                push_lost(&mut name, event)?;
                push_slice(out, at, &name, 1000)
            }
            MarkKind::Did(_) => {
                push_mark(&mut name, plan, self.what)?;
                push_slice(out, at, &name, 1000)
            }
            MarkKind::Idle => Ok(()),
        }
    }
}

/// What is said of a turn, as an instant.
impl Told for Sentence {
    ghost events = { sentence_events };

    fn push(&self, out: &mut Vec<u8>, plan: &Plan) -> Pushed {
        let mut words = Vec::new(*out.allocator());
        push_sentence(&mut words, plan, self)?;
        let at = place_of(self.thread, TURNS, time_of(self.turn));
        push_said(out, at, &words)
    }
}

/// The priority by which a thread runs, as a counter: the more important, the higher.
impl Told for PrioSpan {
    ghost events = { step_events };

    fn push(&self, out: &mut Vec<u8>, _plan: &Plan) -> Pushed {
        let height = 255 - u64::from(self.effective.0);
        push_counter(out, process_of(self.thread), begin_of(self.first), height)
    }
}

#[tactic(auto, unfolding(crate::specs::Events::event_value))]
fn push_slice(out: &mut Vec<u8>, at: Place, name: &[u8], lasts: u64) -> Pushed
    ensures { OnOk result (out.new.items
        ≡ out.old.items ++ next_line (Slice at name.now lasts)) }
{
    push_tokens(
        out,
        &[
            Own(",\n{\"ph\":\"X\",\"name\":"),
            Json(name),
            Own(",\"pid\":"),
            Number(at.pid),
            Own(",\"tid\":"),
            Number(at.tid),
            Own(",\"ts\":"),
            Number(at.time),
            Own(",\"dur\":"),
            Number(lasts),
            Own("}"),
        ],
    )
}

#[tactic(auto, unfolding(crate::specs::Events::event_value))]
fn push_said(out: &mut Vec<u8>, at: Place, words: &[u8]) -> Pushed
    ensures { OnOk result (out.new.items
        ≡ out.old.items ++ next_line (Said (codes "t") words.now at)) }
{
    push_tokens(
        out,
        &[
            Own(",\n{\"ph\":\"i\",\"s\":\"t\",\"name\":"),
            Json(words),
            Own(",\"pid\":"),
            Number(at.pid),
            Own(",\"tid\":"),
            Number(at.tid),
            Own(",\"ts\":"),
            Number(at.time),
            Own("}"),
        ],
    )
}

#[tactic(auto, unfolding(crate::specs::Events::event_value))]
fn push_counter(out: &mut Vec<u8>, pid: u64, time: u64, height: u64) -> Pushed
    ensures { OnOk result (out.new.items
        ≡ out.old.items ++ next_line (Counter pid time height)) }
{
    push_tokens(
        out,
        &[
            Own(",\n{\"ph\":\"C\",\"name\":\"priority\",\"pid\":"),
            Number(pid),
            Own(",\"ts\":"),
            Number(time),
            Own(",\"args\":{\"255 - runs as\":"),
            Number(height),
            Own("}}"),
        ],
    )
}
