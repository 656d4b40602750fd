//! Where slices lie. A process is a thread of the plan, and no two slices of a track of its overlap: a thread stands on
//! one queue at most, it holds a lock in one mode at most, and it makes one turn at a time.

ghost use Rattle.std.specs.Prelude.{◌≡◌, ◌++◌, None, OnOk};
ghost use Rattle.chart_trace.specs.Events.{Order, Process, Track, holds_track, is_first_there, lane_events, lock_track, lock_tracks, next_line, next_lines, place, process_of, time_of, track_of};

use crate::told::{Pushed, Told};
use chart_escape::Piece::{Json, Number, Own};
use chart_escape::push_tokens;
use chart_layout::{Bar, BarKind, Lane};
use lock_model::{LockNo, Plan, ThreadNo};

/// A track of a process, and a time in microseconds.
#[derive(Clone, Copy)]
pub struct Place {
    pub pid: u64,
    pub tid: u64,
    pub time: u64,
}

/// The place on a thread's track of that number.
pub fn place_of(t: ThreadNo, tid: u64, time: u64) -> Place
    ensures { result ≡ place t tid time }
{
    Place {
        pid: process_of(t),
        tid,
        time,
    }
}

/// The track of a thread's turns.
pub const TURNS: u64 = 1;

/// That of its waits.
pub const WAITS: u64 = 2;

const WALKS: u64 = 3;

// That of lock 0; the others follow.
const HOLDS: u64 = 10;

/// The number of a thread's process.
pub fn process_of(t: ThreadNo) -> u64
    ensures { result ≡ process_of t }
{
    u64::from(t.0) + 1
}

/// The track of the holds of a lock.
pub fn holds_of(l: LockNo) -> u64
    ensures { result ≡ holds_track l }
{
    HOLDS + u64::from(l.0)
}

/// The track of a bar.
pub fn track_of(what: BarKind) -> u64
    ensures { result ≡ track_of what }
{
    match what {
        BarKind::Holds { l, .. } => holds_of(l),
        BarKind::Waits { .. } | BarKind::TakenOff { .. } | BarKind::Woken { .. } => WAITS,
        BarKind::Walks => WALKS,
    }
}

/// The time of a turn, in microseconds: that of its number, in milliseconds.
pub fn time_of(turn: u32) -> u64
    ensures { result ≡ time_of turn }
{
    u64::from(turn) * 1000
}

/// What its process and its first tracks are called.
impl Told for Lane {
    ghost events = { lane_events };

    fn push(&self, out: &mut Vec<u8>, plan: &Plan) -> Pushed {
        let pid = process_of(self.thread);
        push_process(out, pid, plan.thread_name(self.thread))?;
        push_order(out, pid)?;
        push_track(out, pid, TURNS, b"turns")?;
        push_track(out, pid, WAITS, b"waits")?;
        push_track(out, pid, WALKS, b"walks")
    }
}

/// Pushes a track for each lock that a thread holds. Its bars follow upon each other.
pub fn push_locks(out: &mut Vec<u8>, plan: &Plan, bars: &[Bar]) -> Pushed
    ensures { OnOk result (out.new.items
        ≡ out.old.items ++ next_lines (lock_tracks plan.now None bars.now)) }
{
    let mut before = None;
    for bar in bars {
        push_lock(out, plan, before, *bar)?;
        before = Some(*bar);
    }
    Ok(())
}

// The track of a bar, unless the bar before it lies there too.
fn push_lock(out: &mut Vec<u8>, plan: &Plan, before: Option<Bar>, bar: Bar) -> Pushed
    ensures { OnOk result (out.new.items
        ≡ out.old.items ++ next_lines (lock_track plan.now before bar)) }
{
    if !is_first_there(before, bar) {
        return Ok(());
    }
    match bar.what {
        BarKind::Holds { l, .. } => {
            push_track(out, process_of(bar.thread), holds_of(l), plan.lock_name(l))
        }
        BarKind::Waits { .. } | BarKind::TakenOff { .. } | BarKind::Woken { .. } | BarKind::Walks =>
            Ok(()),
    }
}

fn is_first_there(before: Option<Bar>, bar: Bar) -> bool
    ensures { result ≡ is_first_there before bar }
{
    match before {
        None => true,
        Some(before) => {
            before.thread != bar.thread || track_of(before.what) != track_of(bar.what)
        }
    }
}

#[tactic(auto, unfolding(crate::specs::Events::event_value))]
fn push_process(out: &mut Vec<u8>, pid: u64, name: &[u8]) -> Pushed
    ensures { OnOk result (out.new.items ≡ out.old.items ++ next_line (Process pid name.now)) }
{
    push_tokens(
        out,
        &[
            Own(",\n{\"ph\":\"M\",\"name\":\"process_name\",\"pid\":"),
            Number(pid),
            Own(",\"args\":{\"name\":"),
            Json(name),
            Own("}}"),
        ],
    )
}

#[tactic(auto, unfolding(crate::specs::Events::event_value))]
fn push_order(out: &mut Vec<u8>, pid: u64) -> Pushed
    ensures { OnOk result (out.new.items ≡ out.old.items ++ next_line (Order pid)) }
{
    push_tokens(
        out,
        &[
            Own(",\n{\"ph\":\"M\",\"name\":\"process_sort_index\",\"pid\":"),
            Number(pid),
            Own(",\"args\":{\"sort_index\":"),
            Number(pid),
            Own("}}"),
        ],
    )
}

#[tactic(auto, unfolding(crate::specs::Events::event_value))]
fn push_track(out: &mut Vec<u8>, pid: u64, tid: u64, name: &[u8]) -> Pushed
    ensures { OnOk result (out.new.items
        ≡ out.old.items ++ next_line (Track pid tid name.now)) }
{
    push_tokens(
        out,
        &[
            Own(",\n{\"ph\":\"M\",\"name\":\"thread_name\",\"pid\":"),
            Number(pid),
            Own(",\"tid\":"),
            Number(tid),
            Own(",\"args\":{\"name\":"),
            Json(name),
            Own("}}"),
        ],
    )
}
