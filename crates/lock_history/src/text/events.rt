// The words of an event, behind the thread's name on an entry's line. What pushes them is inlined: a word whose length
// is known is a move or two, and no call.
ghost use Rattle.std.specs.Prelude.{◌≡◌, ◌++◌, ◌∷◌, [], decimal, map, OnOk};
ghost use Rattle.lock_model.specs.Text.{spaced, event_words, mode_letter, chan_word, woken_words, or_dash, names_at_bits, found_word, lock_name, lock_kind, chan_name};

use super::names::{push_chan_name, push_class_name, push_lock_name};
use lock_model::{
    ChanNo, Event, LockNo, Mode, Plan, ThreadDecl, push_name, push_number, push_word,
};
use std::alloc::AllocError;

#[inline(always)]
pub(super) fn push_event(out: &mut Vec<u8>, plan: &Plan, event: Event) -> Result<(), AllocError>
    ensures { OnOk result (out.new.items
        ≡ out.old.items ++ spaced (event_words plan.now event)) }
{
    match event {
        Event::Locked { l, mode } => push_mode(out, plan, b"", l, mode, b"lock"),
        Event::Tried { l, mode } => push_mode(out, plan, b"try", l, mode, b"lock"),
        Event::Unlocked { l, mode } => push_mode(out, plan, b"", l, mode, b"unlock"),
        Event::Busy { l, seen } => {
            push_on_lock(out, plan, b"busy", l)?;
            push_number(out, seen)
        }
        Event::Set { l, key, value } => push_edit(out, plan, b"set", l, key, value),
        Event::Added { l, key, amount } => push_edit(out, plan, b"add", l, key, amount),
        Event::Got { l, key, found } => {
            push_on_lock(out, plan, b"get", l)?;
            push_number(out, key)?;
            push_found(out, found)
        }
        Event::Base { prio } => {
            push_word(out, b"prio")?;
            push_number(out, u64::from(prio.0))
        }
        Event::Shown { base, eff } => {
            push_word(out, b"show")?;
            push_number(out, u64::from(base.0))?;
            push_number(out, u64::from(eff.0))
        }
        Event::Sleeps { c } => push_chan(out, plan, c, b"wait", b"msleep"),
        Event::Woke { c } => push_on_chan(out, plan, b"woke", c),
        Event::HaltedChan { c } => push_on_chan(out, plan, b"halted", c),
        Event::HaltedLock { l } => push_on_lock(out, plan, b"halted", l),
        Event::WokeOne { c, woken } => push_waking(out, plan, c, b"signal", b"wakeup_one", woken),
        Event::WokeAll { c, woken } => push_waking(out, plan, c, b"broadcast", b"wakeup", woken),
        Event::Reversed { l, held } => {
            push_on_lock(out, plan, b"reversed", l)?;
            push_class_name(out, plan, held)
        }
    }
}

// A call's word, and the name of the lock on which it is made,
#[inline(always)]
fn push_on_lock(out: &mut Vec<u8>, plan: &Plan, word: &[u8], l: LockNo) -> Result<(), AllocError>
    ensures { OnOk result (out.new.items
        ≡ out.old.items ++ spaced (word.now ∷ lock_name plan.now l.0 ∷ [])) }
{
    push_word(out, word)?;
    push_lock_name(out, plan, l)
}

// or that of the condition variable or channel.
#[inline(always)]
fn push_on_chan(out: &mut Vec<u8>, plan: &Plan, word: &[u8], c: ChanNo) -> Result<(), AllocError>
    ensures { OnOk result (out.new.items
        ≡ out.old.items ++ spaced (word.now ∷ chan_name plan.now c.0 ∷ [])) }
{
    push_word(out, word)?;
    push_chan_name(out, plan, c)
}

// A change at a key of a lock's table.
#[inline(always)]
fn push_edit(
    out: &mut Vec<u8>,
    plan: &Plan,
    word: &[u8],
    l: LockNo,
    key: u64,
    amount: u64,
) -> Result<(), AllocError>
    ensures { OnOk result (out.new.items ≡ out.old.items
        ++ spaced (word.now ∷ lock_name plan.now l.0 ∷ decimal key ∷ decimal amount ∷ [])) }
{
    push_on_lock(out, plan, word, l)?;
    push_number(out, key)?;
    push_number(out, amount)
}

// A lock's word for a mode, as `trylock` or `runlock`, and the lock's name.
#[inline(always)]
fn push_mode(
    out: &mut Vec<u8>,
    plan: &Plan,
    before: &[u8],
    l: LockNo,
    mode: Mode,
    behind: &[u8],
) -> Result<(), AllocError>
    ensures { OnOk result (out.new.items ≡ out.old.items ++ spaced (
        (before.now ++ mode_letter (lock_kind plan.now l.0) mode ++ behind.now)
        ∷ lock_name plan.now l.0 ∷ [])) }
{
    push_word(out, before)?;
    out.extend_from_slice(mode.letter(plan.lock_kind(l)))?;
    out.extend_from_slice(behind)?;
    push_lock_name(out, plan, l)
}

// The word for a condition variable, or else for a channel, and its name.
#[inline(always)]
fn push_chan(
    out: &mut Vec<u8>,
    plan: &Plan,
    c: ChanNo,
    on_cond: &[u8],
    on_chan: &[u8],
) -> Result<(), AllocError>
    ensures { OnOk result (out.new.items ≡ out.old.items ++ spaced (
        chan_word plan.now c.0 on_cond.now on_chan.now ∷ chan_name plan.now c.0 ∷ [])) }
{
    let word = if plan.is_cond(c) { on_cond } else { on_chan };
    push_on_chan(out, plan, word, c)
}

// A waking of a condition variable or a channel, and the threads that it took.
fn push_waking(
    out: &mut Vec<u8>,
    plan: &Plan,
    c: ChanNo,
    on_cond: &[u8],
    on_chan: &[u8],
    woken: u64,
) -> Result<(), AllocError>
    ensures { OnOk result (out.new.items ≡ out.old.items ++ spaced (
        chan_word plan.now c.0 on_cond.now on_chan.now ∷ chan_name plan.now c.0
        ∷ woken_words plan.now woken)) }
{
    push_chan(out, plan, c, on_cond, on_chan)?;
    push_woken(out, plan.threads.as_slice(), woken)
}

#[inline(always)]
fn push_found(out: &mut Vec<u8>, found: Option<u64>) -> Result<(), AllocError>
    ensures { OnOk result (out.new.items ≡ out.old.items ++ 32 ∷ found_word found) }
{
    match found {
        Some(value) => push_number(out, value),
        None => push_word(out, b"-"),
    }
}

// The names of the threads whose bits are set, or a dash where there is none.
fn push_woken(out: &mut Vec<u8>, threads: &[ThreadDecl], woken: u64) -> Result<(), AllocError>
    ensures { OnOk result (out.new.items ≡ out.old.items
        ++ spaced (or_dash (names_at_bits (map (λ d. d.name) threads.now) woken))) }
{
    let before = out.len();
    push_names_at_bits(out, threads, woken)?;
    if out.len() == before {
        push_word(out, b"-")?;
    }
    Ok(())
}

fn push_names_at_bits(
    out: &mut Vec<u8>,
    threads: &[ThreadDecl],
    woken: u64,
) -> Result<(), AllocError>
    ensures { OnOk result (out.new.items ≡ out.old.items
        ++ spaced (names_at_bits (map (λ d. d.name) threads.now) woken)) }
{
    let mut bits = woken;
    for thread in threads {
        if bits % 2 == 1 {
            push_name(out, &thread.name)?;
        }
        bits /= 2;
    }
    Ok(())
}
