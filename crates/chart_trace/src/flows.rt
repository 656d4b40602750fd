//! Wakes and loans as arrows from slice to slice: from the turn to the waiter's slice, or to the slice of the lock that
//! the owner holds.

ghost use Rattle.std.specs.Prelude.{◌≡◌, ◌++◌, codes, ℕ, nat_eq, IfOk, OnOk};
ghost use Rattle.std.specs.HashMap as table;
ghost use Rattle.chart_escape.specs.Json.{json_string};
ghost use Rattle.chart_escape.specs.Values.{number_bytes};
ghost use Rattle.chart_trace.specs.Events.{From, To, arrow_events, end_of, flow_to, loan_lock, lock_lent, next_line, next_lines};

use crate::told::Pushed;
use crate::tracks::{Place, TURNS, WAITS, holds_of, place_of, time_of};
use chart_escape::Piece::{Json, Number, Own};
use chart_escape::push_tokens;
use chart_layout::{Arrow, ArrowKind, Saying, Sentence};
use chart_words::push_arrow;
use lock_model::LockNo;
use std::alloc::{AllocError, Global};
use std::collections::HashMap;

/// Pushes the arrows of wakes and loans. Which lock a loan is for, the sentence of its turn says.
pub fn push_flows(out: &mut Vec<u8>, arrows: &[Arrow], sentences: &[Sentence]) -> Pushed
    ensures { OnOk result (out.new.items
        ≡ out.old.items ++ next_lines (arrow_events sentences.now 0 arrows.now)) }
{
    let locks = loan_locks(*out.allocator(), sentences)?;
    for (id, arrow) in arrows.iter().enumerate() {
        let lock = locks.get(&arrow.turn).copied();
        push_flow_to(out, id as u64, *arrow, end_of(lock, arrow.kind))?;
    }
    Ok(())
}

// By their turns, the locks of loans.
fn loan_locks(alloc: Global, sentences: &[Sentence]) -> Result<HashMap<u32, LockNo>, AllocError>
    ensures { IfOk result (λ locks. (turn : ℕ)
        → table.get nat_eq locks turn ≡ loan_lock sentences.now turn) }
{
    let mut locks = HashMap::new(alloc);
    for sentence in sentences {
        if let Some(lock) = lock_lent(&sentence.saying) {
            locks.insert(sentence.turn, lock)?;
        }
    }
    Ok(locks)
}

fn lock_lent(saying: &Saying) -> Option<LockNo>
    ensures { result ≡ lock_lent saying.now }
{
    match saying {
        Saying::Lends { lock, .. } => Some(*lock),
        Saying::Waits { .. }
        | Saying::Sorts { .. }
        | Saying::Claims { .. }
        | Saying::Frees { .. }
        | Saying::Sleeps { .. }
        | Saying::Wakes { .. }
        | Saying::Refused { .. } => None,
    }
}

// The track at which an arrow ends.
fn end_of(lock: Option<LockNo>, kind: ArrowKind) -> Option<u64>
    ensures { result ≡ end_of lock kind }
{
    match kind {
        ArrowKind::Wakes => Some(WAITS),
        ArrowKind::Lends { .. } => match lock {
            Some(l) => Some(holds_of(l)),
            None => None,
        },
        ArrowKind::BlockedOn | ArrowKind::Behind | ArrowKind::Refused => None,
    }
}

fn push_flow_to(out: &mut Vec<u8>, id: u64, arrow: Arrow, track: Option<u64>) -> Pushed
    ensures { OnOk result (out.new.items
        ≡ out.old.items ++ next_lines (flow_to id arrow track)) }
{
    match track {
        Some(track) => {
            let mut name = Vec::new(*out.allocator());
            push_arrow(&mut name, arrow)?;
            let time = time_of(arrow.turn);
            let from = place_of(arrow.from, TURNS, time);
            push_flow(out, id, &name, from, place_of(arrow.to, track, time))
        }
        None => Ok(()),
    }
}

// Both ends of an arrow.
#[tactic(auto, unfolding(crate::specs::Events::event_value))]
fn push_flow(out: &mut Vec<u8>, id: u64, name: &[u8], from: Place, to: Place) -> Pushed
    ensures { OnOk result (out.new.items ≡ out.old.items ++ next_line (From id name.now from)
        ++ next_line (To id name.now to)) }
{
    push_end(out, ",\n{\"ph\":\"s\",\"name\":", id, name, from)?;
    push_end(out, ",\n{\"ph\":\"f\",\"bp\":\"e\",\"name\":", id, name, to)
}

fn push_end(out: &mut Vec<u8>, begin: &'static str, id: u64, name: &[u8], at: Place) -> Pushed
    ensures { OnOk result (out.new.items
        ≡ out.old.items ++ (begin.now ++ (json_string name.now
        ++ (codes ",\"cat\":\"lock\",\"id\":" ++ (number_bytes id
        ++ (codes ",\"pid\":" ++ (number_bytes at.pid ++ (codes ",\"tid\":" ++ (number_bytes at.tid
        ++ (codes ",\"ts\":" ++ (number_bytes at.time ++ codes "}"))))))))))) }
{
    push_tokens(
        out,
        &[
            Own(begin),
            Json(name),
            Own(",\"cat\":\"lock\",\"id\":"),
            Number(id),
            Own(",\"pid\":"),
            Number(at.pid),
            Own(",\"tid\":"),
            Number(at.tid),
            Own(",\"ts\":"),
            Number(at.time),
            Own("}"),
        ],
    )
}
