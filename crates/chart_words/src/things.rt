//! What is said of bars, arrows and marks.

ghost use Rattle.std.specs.Prelude.{◌≡◌, ◌++◌, OnOk};
ghost use Rattle.lock_model.specs.Text.{mode_letter, lock_kind, lock_name};
ghost use Rattle.chart_words.specs.Words.{arrow_words, bar_words, event_word, hold_word, lost_words, mark_words, note_words, order_words, refusal_words, verb};

use crate::names::{Pushed, push_class, push_named, push_queue, push_words};
use chart_layout::{Arrow, ArrowKind, BarKind, MarkKind};
use lock_model::{ClassNo, Event, Kind, LockNo, Mode, Plan, StepKind, push_number, push_word};
use std::alloc::AllocError;

/// Pushes what a bar says: `holds bus`, `reads data`, `waits for bus`, `taken off`, `woken`, `walks`.
#[tactic(auto, unfolding(crate::specs::Words::bar_words))]
pub fn push_bar(out: &mut Vec<u8>, plan: &Plan, what: BarKind) -> Result<(), AllocError>
    ensures { OnOk result (out.new.items ≡ out.old.items ++ bar_words plan.now what) }
{
    match what {
        BarKind::Holds { l, mode } => {
            push_words(out, hold_word(plan.lock_kind(l), mode))?;
            push_word(out, plan.lock_name(l))
        }
        BarKind::Waits { q } => push_queue(out, plan, q),
        BarKind::TakenOff { .. } => push_words(out, b"taken off"),
        BarKind::Woken { .. } => push_words(out, b"woken"),
        BarKind::Walks => push_words(out, b"walks"),
    }
}

fn hold_word(kind: Kind, mode: Mode) -> &'static [u8]
    ensures { result.now ≡ hold_word kind mode }
{
    match (kind, mode) {
        (_, Mode::Excl) | (Kind::Mtx, Mode::Shared) => b"holds",
        (Kind::Rw, Mode::Shared) => b"reads",
        (Kind::Sx, Mode::Shared) => b"shares",
    }
}

/// Pushes what an arrow says: `lends 10`, or `lends` where the owner ran so already, `wakes`, `blocks on`,
/// `waits behind`, `may not wait for`.
#[tactic(auto, unfolding(crate::specs::Words::arrow_words))]
pub fn push_arrow(out: &mut Vec<u8>, arrow: Arrow) -> Result<(), AllocError>
    ensures { OnOk result (out.new.items ≡ out.old.items ++ arrow_words arrow) }
{
    match arrow.kind {
        ArrowKind::Lends { before, prio } => {
            push_words(out, b"lends")?;
            if before == prio {
                return Ok(());
            }
            push_number(out, u64::from(prio.0))
        }
        ArrowKind::Wakes => push_words(out, b"wakes"),
        ArrowKind::BlockedOn => push_words(out, b"blocks on"),
        ArrowKind::Behind => push_words(out, b"waits behind"),
        ArrowKind::Refused => push_words(out, b"may not wait for"),
    }
}

/// Pushes the word that stands at a mark: `lock bus`, `add`, `block`. An idle turn has none.
#[tactic(auto, unfolding(crate::specs::Words::mark_words))]
pub fn push_mark(out: &mut Vec<u8>, plan: &Plan, what: MarkKind) -> Result<(), AllocError>
    ensures { OnOk result (out.new.items ≡ out.old.items ++ mark_words plan.now what) }
{
    match what {
        MarkKind::Noted(event) => push_event(out, plan, event),
        MarkKind::Did(kind) => push_words(out, verb_of(kind)),
        MarkKind::Idle => Ok(()),
    }
}

/// What a step is called.
#[tactic(auto, unfolding(crate::specs::Words::verb))]
pub fn verb_of(kind: StepKind) -> &'static [u8]
    ensures { result.now ≡ verb kind }
{
    match kind {
        StepKind::Gain => b"gain",
        StepKind::Claim => b"claim",
        StepKind::Drop => b"give up",
        StepKind::Enter => b"block",
        StepKind::OpenUp => b"give up",
        StepKind::Mark => b"wake",
        StepKind::Resume => b"awake",
        StepKind::Lend => b"lend",
        StepKind::Shift => b"sort",
        StepKind::WalkEnd => b"walk ends",
        StepKind::Add => b"sleep",
        StepKind::Wake => b"take off",
        StepKind::Note => b"note",
    }
}

// The word of an event. A lock's name stands in it where the lock is taken, released or
// refused.
#[tactic(auto, unfolding(crate::specs::Words::event_word))]
fn push_event(out: &mut Vec<u8>, plan: &Plan, event: Event) -> Pushed
    ensures { OnOk result (out.new.items ≡ out.old.items ++ event_word plan.now event) }
{
    match event {
        Event::Locked { l, mode } => push_mode(out, plan, l, mode, b"lock "),
        Event::Tried { l, mode } => {
            push_words(out, b"try")?;
            push_mode(out, plan, l, mode, b"lock ")
        }
        Event::Unlocked { l, mode } => push_mode(out, plan, l, mode, b"unlock "),
        Event::Busy { l, .. } => push_named(out, b"busy ", plan.lock_name(l)),
        Event::Set { .. } => push_words(out, b"set"),
        Event::Added { .. } => push_words(out, b"add"),
        Event::Got { .. } => push_words(out, b"get"),
        Event::Base { .. } => push_words(out, b"prio"),
        Event::Shown { .. } => push_words(out, b"show"),
        Event::Sleeps { .. } => push_words(out, b"sleep"),
        Event::Woke { .. } => push_words(out, b"woke"),
        Event::HaltedChan { .. } | Event::HaltedLock { .. } => push_words(out, b"halted"),
        Event::WokeOne { .. } => push_words(out, b"signal"),
        Event::WokeAll { .. } => push_words(out, b"wake all"),
        Event::Reversed { l, .. } => push_named(out, b"refused ", plan.lock_name(l)),
    }
}

fn push_mode(out: &mut Vec<u8>, plan: &Plan, l: LockNo, mode: Mode, words: &[u8]) -> Pushed
    ensures { OnOk result (out.new.items
        ≡ out.old.items ++ mode_letter (lock_kind plan.now l.0) mode ++ words.now
        ++ lock_name plan.now l.0) }
{
    push_words(out, mode.letter(plan.lock_kind(l)))?;
    push_named(out, words, plan.lock_name(l))
}

/// Pushes what an event tells beside its word: keys, values, priorities, and under which class a take was
/// refused.
#[tactic(auto, unfolding(crate::specs::Words::note_words))]
pub fn push_note(out: &mut Vec<u8>, plan: &Plan, event: Event) -> Result<(), AllocError>
    ensures { OnOk result (out.new.items ≡ out.old.items ++ note_words plan.now event) }
{
    match event {
        Event::Set {
            l,
            key,
            value: amount,
        }
        | Event::Added { l, key, amount } => {
            push_word(out, plan.lock_name(l))?;
            push_number(out, key)?;
            push_number(out, amount)
        }
        Event::Got { l, key, found } => {
            push_word(out, plan.lock_name(l))?;
            push_number(out, key)?;
            match found {
                Some(value) => push_number(out, value),
                None => push_word(out, b"-"),
            }
        }
        Event::Base { prio } => push_number(out, u64::from(prio.0)),
        Event::Shown { base, eff } => {
            push_number(out, u64::from(base.0))?;
            push_number(out, u64::from(eff.0))
        }
        Event::Busy { seen, .. } => push_number(out, seen),
        Event::Sleeps { c }
        | Event::Woke { c }
        | Event::HaltedChan { c }
        | Event::WokeOne { c, .. }
        | Event::WokeAll { c, .. } => push_word(out, plan.chan_name(c)),
        Event::HaltedLock { l } => push_word(out, plan.lock_name(l)),
        Event::Reversed { held, .. } => push_class(out, plan, held),
        Event::Locked { .. } | Event::Tried { .. } | Event::Unlocked { .. } => Ok(()),
    }
}

/// Pushes why a take was refused, by the class of a lock that the thread holds: `: its class must come before that of
/// fork3, which is held`.
pub fn push_refusal(
    out: &mut Vec<u8>,
    plan: &Plan,
    lock: LockNo,
    class: ClassNo,
    held: Option<LockNo>,
) -> Result<(), AllocError>
    ensures { OnOk result (out.new.items
        ≡ out.old.items ++ refusal_words plan.now lock class held) }
{
    match held {
        None => push_class(out, plan, class),
        Some(held) => {
            let is_same = plan.lock_class(lock).0 == class.0;
            push_named(out, order_words(is_same), plan.lock_name(held))?;
            push_words(out, b", which is held")
        }
    }
}

fn order_words(is_same: bool) -> &'static [u8]
    ensures { result.now ≡ order_words is_same }
{
    if is_same {
        b": its class is that of "
    } else {
        b": its class must come before that of "
    }
}

/// Pushes what is said where a wake found nobody asleep.
#[tactic(auto, unfolding(crate::specs::Words::lost_words))]
pub fn push_lost(out: &mut Vec<u8>, event: Event) -> Result<(), AllocError>
    ensures { OnOk result (out.new.items ≡ out.old.items ++ lost_words event) }
{
    if event.wakes_nobody() {
        push_words(out, b": lost, nobody sleeps there")
    } else {
        Ok(())
    }
}
