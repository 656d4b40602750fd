//! A run of a script of ticks, and its text.
ghost use Rattle.std.specs.Prelude.{◌≡◌, ◌≤◌, ◌<◌, ◌+◌, ◌^◌, ◌++◌, ◌∷◌, [], true, codes, decimal, flat_map, length, map, option_map, IfOk, OnOk};
ghost use Rattle.lock_model.specs.Text.{line_of, spaced, names_at_bits, or_dash};
ghost use Rattle.tick_sleep.specs.Expiry.{TimesOutWhereDue};
ghost use Rattle.tick_sleep.specs.Plans.{IsProper, can_happen, sleeper_name, sleeper_names};
ghost use Rattle.tick_sleep.specs.Ticks.{NoneIsDue, behind, expired, unexpired};
ghost use Rattle.tick_sleep.specs.Text.{event_words, event_lines, slept_words, posted_words, name_or_dash, timeout_line, sleeping_line, sleeping_lines, tick_run};

use crate::plan::{SleeperDecl, Slept, TickEvent, TickPlan};
use crate::queue::TickQueue;
use lock_model::{ThreadNo, push_digits, push_number, push_word};
use std::alloc::{AllocError, Global};

/// The text of a run of a plan that a script gives: a line for each event, one for each sleep that times out, one for
/// each thread that still sleeps, and `ok`. A sleep times out exactly where its thread sleeps still and its due tick is
/// reached. It fails where memory runs out.
#[tactic(auto, unfolding(crate::specs::Text::tick_run), using(crate::proofs::Orders::times_out_where_due))]
pub fn run_ticks(alloc: Global, plan: &TickPlan) -> Result<Vec<u8>, AllocError>
    requires { IsProper plan.now }
    ensures text { IfOk result (λ text. text.items ≡ tick_run plan.now) }
    ensures timeouts { TimesOutWhereDue }
{
    let sleepers = plan.sleepers.as_slice();
    let mut queue = TickQueue::make(alloc, sleepers)?;
    let mut text = Vec::new(alloc);
    for (e, event) in plan.events.as_slice().iter().enumerate() {
        push_event(&mut text, sleepers, &mut queue, e as u64, *event)?;
    }
    push_sleepers(&mut text, sleepers, &queue)?;
    text.extend_from_slice(b"ok\n")?;
    Ok(text)
}

// Lets something happen, and pushes its lines.
fn push_event(
    out: &mut Vec<u8>,
    sleepers: &[SleeperDecl],
    queue: &mut TickQueue,
    e: u64,
    event: TickEvent,
) -> Result<(), AllocError>
    requires prios { queue.old.ticks.prios ≡ map (λ d. d.prio) sleepers.now }
    requires may { can_happen (length sleepers.now) event ≡ true }
    requires early { queue.old.ticks.tick + 1000000 < 2 ^ 64 }
    requires none_due { NoneIsDue queue.old.ticks }
    ensures lines { OnOk result (out.new.items
        ≡ out.old.items ++ event_lines sleepers.now e queue.old.ticks event) }
    ensures state { OnOk result (queue.new.ticks ≡ behind queue.old.ticks event) }
    ensures none_due { OnOk result (NoneIsDue queue.new.ticks) }
{
    push_digits(out, e)?;
    match event {
        TickEvent::Sleep { t, key, ticks, sig } => {
            push_word(out, name_of(sleepers, t))?;
            push_slept(out, queue.sleep(t, key, ticks, sig), key)?;
            out.push(b'\n')?;
        }
        TickEvent::WakeOne { key } => {
            push_call(out, b"wakeone", key)?;
            push_name(out, sleepers, queue.wake_one(key))?;
            out.push(b'\n')?;
        }
        TickEvent::WakeAll { key } => {
            push_call(out, b"wakeup", key)?;
            push_names(out, sleepers, queue.wake_all(key))?;
            out.push(b'\n')?;
        }
        TickEvent::Post { t } => {
            push_posted(out, queue.post(t), name_of(sleepers, t))?;
            out.push(b'\n')?;
        }
        TickEvent::Tick { n } => {
            queue.advance(n);
            push_word(out, b"tick")?;
            push_number(out, queue.now())?;
            out.push(b'\n')?;
            push_timeouts(out, sleepers, queue, e)?;
        }
    }
    Ok(())
}

// The name of a thread, and no bytes where none of that number is declared.
fn name_of(sleepers: &[SleeperDecl], t: ThreadNo) -> &[u8]
    ensures { result.now ≡ sleeper_name sleepers.now t.0 }
{
    match sleepers.get(usize::from(t.0)) {
        Some(sleeper) => sleeper.name.as_bytes(),
        None => b"",
    }
}

// What became of a sleep.
fn push_slept(out: &mut Vec<u8>, slept: Slept, key: u8) -> Result<(), AllocError>
    ensures { OnOk result (out.new.items ≡ out.old.items ++ spaced (slept_words slept key)) }
{
    match slept {
        Slept::Queued => push_call(out, b"sleeps", key),
        Slept::Asleep => push_word(out, b"asleep"),
        Slept::Interrupted => push_word(out, b"interrupted"),
    }
}

// A call's word, and the key on which it is made.
fn push_call(out: &mut Vec<u8>, word: &[u8], key: u8) -> Result<(), AllocError>
    ensures { OnOk result (out.new.items
        ≡ out.old.items ++ spaced (word.now ∷ decimal key ∷ [])) }
{
    push_word(out, word)?;
    push_number(out, u64::from(key))
}

// The name of the thread that was woken, or a dash.
fn push_name(
    out: &mut Vec<u8>,
    sleepers: &[SleeperDecl],
    woken: Option<ThreadNo>,
) -> Result<(), AllocError>
    ensures { OnOk result (out.new.items ≡ out.old.items
        ++ spaced (name_or_dash sleepers.now (option_map (λ t. t.0) woken) ∷ [])) }
{
    match woken {
        Some(t) => push_word(out, name_of(sleepers, t)),
        None => push_word(out, b"-"),
    }
}

// The names of the threads whose bits are set, or a dash where there is none.
fn push_names(out: &mut Vec<u8>, sleepers: &[SleeperDecl], woken: u64) -> Result<(), AllocError>
    ensures { OnOk result (out.new.items ≡ out.old.items
        ++ spaced (or_dash (names_at_bits (sleeper_names sleepers.now) woken))) }
{
    let before = out.len();
    push_names_at_bits(out, sleepers, woken)?;
    if out.len() == before {
        push_word(out, b"-")?;
    }
    Ok(())
}

fn push_names_at_bits(
    out: &mut Vec<u8>,
    sleepers: &[SleeperDecl],
    woken: u64,
) -> Result<(), AllocError>
    ensures { OnOk result (out.new.items ≡ out.old.items
        ++ spaced (names_at_bits (sleeper_names sleepers.now) woken)) }
{
    let mut bits = woken;
    for sleeper in sleepers {
        if bits % 2 == 1 {
            push_word(out, sleeper.name.as_bytes())?;
        }
        bits /= 2;
    }
    Ok(())
}

// A signal that ended a sleep, or was posted.
fn push_posted(out: &mut Vec<u8>, ended: bool, name: &[u8]) -> Result<(), AllocError>
    ensures { OnOk result (out.new.items ≡ out.old.items ++ spaced (posted_words ended name.now)) }
{
    if ended {
        push_word(out, name)?;
        push_word(out, b"interrupted")
    } else {
        push_word(out, b"signal")?;
        push_word(out, name)
    }
}

// The sleeps that time out, each a line.
fn push_timeouts(
    out: &mut Vec<u8>,
    sleepers: &[SleeperDecl],
    queue: &mut TickQueue,
    e: u64,
) -> Result<(), AllocError>
    ensures lines { OnOk result (out.new.items ≡ out.old.items
        ++ flat_map (timeout_line sleepers.now e)
        (expired queue.old.ticks.tick queue.old.ticks.sleepers)) }
    ensures state { OnOk result (queue.new.ticks ≡ record queue.old.ticks {
      sleepers = unexpired queue.old.ticks.tick queue.old.ticks.sleepers;
    }) }
    ensures none_due { OnOk result (NoneIsDue queue.new.ticks) }
{
    while let Some((t, due)) = queue.pop_expired() {
        push_timeout(out, e, name_of(sleepers, t), due)?;
    }
    Ok(())
}

// The line of a sleep that timed out.
fn push_timeout(out: &mut Vec<u8>, e: u64, name: &[u8], due: u64) -> Result<(), AllocError>
    ensures { OnOk result (out.new.items ≡ out.old.items
        ++ line_of (decimal e) (name.now ∷ codes "timedout" ∷ decimal due ∷ [])) }
{
    push_digits(out, e)?;
    push_word(out, name)?;
    push_word(out, b"timedout")?;
    push_number(out, due)?;
    out.push(b'\n')?;
    Ok(())
}

// The threads that still sleep, by number, each a line.
fn push_sleepers(
    out: &mut Vec<u8>,
    sleepers: &[SleeperDecl],
    queue: &TickQueue,
) -> Result<(), AllocError>
    requires { length sleepers.now ≤ 64 }
    ensures { OnOk result (out.new.items ≡ out.old.items
        ++ sleeping_lines 0 sleepers.now queue.now.ticks.sleepers) }
{
    for (t, sleeper) in sleepers.iter().enumerate() {
        push_sleeper(
            out,
            sleeper.name.as_bytes(),
            queue.key_of(ThreadNo(t as u8)),
        )?;
    }
    Ok(())
}

// The line of a thread that sleeps on a key, if it does.
fn push_sleeper(out: &mut Vec<u8>, name: &[u8], key: Option<u8>) -> Result<(), AllocError>
    ensures { OnOk result (out.new.items ≡ out.old.items ++ sleeping_line name.now key) }
{
    if let Some(key) = key {
        out.extend_from_slice(b"sleeping")?;
        push_word(out, name)?;
        push_number(out, u64::from(key))?;
        out.push(b'\n')?;
    }
    Ok(())
}
