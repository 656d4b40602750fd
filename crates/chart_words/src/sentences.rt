//! What is said of turns, and of the end.

ghost use Rattle.std.specs.Prelude.{◌≡◌, ◌++◌, codes, decimal, OnOk};
ghost use Rattle.lock_model.specs.Text.{lock_name, thread_name};
ghost use Rattle.chart_words.specs.Sentences.{change_words, claim_words, end_words, given_back_words, headline, heard_words, holders_words, saying_words, sentence_words, to_wake_words, waits_behind, walk_words};

use crate::names::{Pushed, push_named, push_prio, push_queue, push_threads, push_words};
use crate::things::push_refusal;
use chart_layout::{End, Saying, Sentence};
use lock_model::{LockNo, Plan, Prio, QueueName, ThreadNo};
use std::alloc::AllocError;

/// Pushes what is said of a turn: `high waits for bus, held by low`.
#[tactic(auto, unfolding(crate::specs::Sentences::sentence_words))]
pub fn push_sentence(out: &mut Vec<u8>, plan: &Plan, sentence: &Sentence) -> Result<(), AllocError>
    ensures { OnOk result (out.new.items
        ≡ out.old.items ++ sentence_words plan.now sentence.now) }
{
    push_words(out, plan.thread_name(sentence.thread))?;
    push_saying(out, plan, &sentence.saying)
}

/// The same without the name of the thread: ` waits for bus, held by low`.
#[tactic(auto, unfolding(crate::specs::Sentences::saying_words))]
pub fn push_saying(out: &mut Vec<u8>, plan: &Plan, saying: &Saying) -> Result<(), AllocError>
    ensures { OnOk result (out.new.items ≡ out.old.items ++ saying_words plan.now saying.now) }
{
    match saying {
        Saying::Waits {
            lock,
            holders,
            behind,
        } => {
            push_named(out, b" waits for ", plan.lock_name(*lock))?;
            push_holders(out, plan, holders.as_slice(), *behind)
        }
        Saying::Lends {
            to,
            lock,
            before,
            prio,
            goes_on,
        } => {
            push_lends(out, plan, *to, *lock, *prio)?;
            push_change(out, *before, *prio)?;
            push_walk(out, *goes_on)
        }
        Saying::Sorts { other, lock } => push_sorts(out, plan, *other, *lock),
        Saying::Claims { lock, before, prio } => {
            push_named(out, b" takes ", plan.lock_name(*lock))?;
            push_claim(out, *before, *prio)
        }
        Saying::Frees {
            lock,
            before,
            prio,
            takes_off,
        } => {
            push_named(out, b" frees ", plan.lock_name(*lock))?;
            push_given_back(out, *before, *prio)?;
            push_to_wake(out, plan, takes_off.as_slice())
        }
        Saying::Sleeps { chan, lock } => {
            push_named(out, b" sleeps on ", plan.chan_name(*chan))?;
            push_named(out, b" and gives ", plan.lock_name(*lock))?;
            push_words(out, b" up")
        }
        Saying::Wakes { chan, takes_off } => {
            push_named(out, b" signals ", plan.chan_name(*chan))?;
            push_heard(out, plan, takes_off.as_slice())
        }
        Saying::Refused { lock, held, holds } => {
            push_named(out, b" may not take ", plan.lock_name(*lock))?;
            push_refusal(out, plan, *lock, *held, *holds)
        }
    }
}

#[tactic(auto, unfolding(crate::specs::Sentences::walk_words))]
fn push_walk(out: &mut Vec<u8>, goes_on: bool) -> Pushed
    ensures { OnOk result (out.new.items ≡ out.old.items ++ walk_words goes_on) }
{
    if goes_on {
        push_words(out, b", and the walk goes on")
    } else {
        Ok(())
    }
}

// Who holds a lock; of readers, behind whom which writer came first.
#[tactic(auto, unfolding(crate::specs::Sentences::holders_words))]
fn push_holders(
    out: &mut Vec<u8>,
    plan: &Plan,
    holders: &[ThreadNo],
    behind: Option<ThreadNo>,
) -> Pushed
    ensures { OnOk result (out.new.items
        ≡ out.old.items ++ holders_words plan.now holders.now behind) }
{
    match behind {
        None => {
            push_words(out, b", held by ")?;
            push_threads(out, plan, holders)
        }
        Some(writer) => {
            push_words(out, b": ")?;
            push_threads(out, plan, holders)?;
            let alone = holders.len() == 1;
            let reads: &[u8] = if alone { b" reads" } else { b" read" };
            push_words(out, reads)?;
            push_named(out, b" it, but ", plan.thread_name(writer))?;
            push_words(out, b" came first")
        }
    }
}

fn push_lends(out: &mut Vec<u8>, plan: &Plan, to: ThreadNo, lock: LockNo, prio: Prio) -> Pushed
    ensures { OnOk result (out.new.items
        ≡ out.old.items ++ codes " lends " ++ decimal prio.0 ++ codes " to "
        ++ thread_name plan.now to.0 ++ codes ", the owner of " ++ lock_name plan.now lock.0) }
{
    push_prio(out, b" lends ", prio)?;
    push_named(out, b" to ", plan.thread_name(to))?;
    push_named(out, b", the owner of ", plan.lock_name(lock))
}

// Of those whose turnstile the new owner has.
#[tactic(auto, unfolding(crate::specs::Sentences::claim_words, crate::specs::Sentences::change_words))]
fn push_claim(out: &mut Vec<u8>, before: Prio, prio: Prio) -> Pushed
    ensures { OnOk result (out.new.items ≡ out.old.items ++ claim_words before prio) }
{
    if before == prio {
        push_words(out, b" while others wait, who lend it nothing better")
    } else {
        push_words(out, b" while others wait, who lend to it")?;
        push_change(out, before, prio)
    }
}

// From which priority to which, as ` (200 → 10)`.
#[tactic(auto, unfolding(crate::specs::Sentences::change_words))]
fn push_change(out: &mut Vec<u8>, before: Prio, prio: Prio) -> Pushed
    ensures { OnOk result (out.new.items ≡ out.old.items ++ change_words before prio) }
{
    push_prio(out, b" (", before)?;
    push_prio(out, " → ".as_bytes(), prio)?;
    push_words(out, b")")
}

fn push_sorts(out: &mut Vec<u8>, plan: &Plan, other: ThreadNo, lock: LockNo) -> Pushed
    ensures { OnOk result (out.new.items
        ≡ out.old.items ++ codes " sorts " ++ thread_name plan.now other.0
        ++ codes " anew among the waiters of " ++ lock_name plan.now lock.0) }
{
    push_named(out, b" sorts ", plan.thread_name(other))?;
    push_named(out, b" anew among the waiters of ", plan.lock_name(lock))
}

#[tactic(auto, unfolding(crate::specs::Sentences::given_back_words, crate::specs::Sentences::change_words))]
fn push_given_back(out: &mut Vec<u8>, before: Prio, prio: Prio) -> Pushed
    ensures { OnOk result (out.new.items ≡ out.old.items ++ given_back_words before prio) }
{
    if before == prio {
        return Ok(());
    }
    push_words(out, b", gives the loan back")?;
    push_change(out, before, prio)
}

#[tactic(auto, unfolding(crate::specs::Sentences::to_wake_words))]
fn push_to_wake(out: &mut Vec<u8>, plan: &Plan, takes_off: &[ThreadNo]) -> Pushed
    ensures { OnOk result (out.new.items
        ≡ out.old.items ++ to_wake_words plan.now takes_off.now) }
{
    push_words(out, b", to wake ")?;
    push_threads(out, plan, takes_off)
}

#[tactic(auto, unfolding(crate::specs::Sentences::heard_words))]
fn push_heard(out: &mut Vec<u8>, plan: &Plan, takes_off: &[ThreadNo]) -> Pushed
    ensures { OnOk result (out.new.items ≡ out.old.items ++ heard_words plan.now takes_off.now) }
{
    if takes_off.is_empty() {
        push_words(out, b", and nobody sleeps there")
    } else {
        push_to_wake(out, plan, takes_off)
    }
}

/// How the run ended, in a few words.
#[tactic(auto, unfolding(crate::specs::Sentences::headline))]
pub fn end_headline(end: &End) -> &'static str
    ensures { result.now ≡ headline end.now }
{
    match end {
        End::Done => "all threads came to their end",
        End::Stuck { .. } => "STUCK: nobody can run any more",
        End::Reversed => "a lock order was refused",
        End::TooLong => "the turns were used up",
    }
}

/// Pushes what is said of the end.
#[tactic(auto, unfolding(crate::specs::Sentences::end_words))]
pub fn push_end(out: &mut Vec<u8>, plan: &Plan, end: &End) -> Result<(), AllocError>
    ensures { OnOk result (out.new.items ≡ out.old.items ++ end_words plan.now end.now) }
{
    match end {
        End::Done => push_words(out, b"all threads came to their end"),
        End::Stuck { waits } => {
            push_words(out, b"stuck")?;
            push_stuck(out, plan, waits.as_slice())
        }
        End::Reversed => {
            push_words(
                out,
                b"all threads came to their end, but a lock order was refused",
            )
        }
        End::TooLong => {
            push_words(
                out,
                b"the turns were used up before all threads came to their end",
            )
        }
    }
}

// Threads, and what each waits for.
fn push_stuck(out: &mut Vec<u8>, plan: &Plan, waits: &[(ThreadNo, QueueName)]) -> Pushed
    ensures { OnOk result (out.new.items
        ≡ out.old.items ++ waits_behind plan.now (codes ": ") waits.now) }
{
    let mut between: &[u8] = b": ";
    for (t, q) in waits {
        push_named(out, between, plan.thread_name(*t))?;
        push_words(out, b" ")?;
        push_queue(out, plan, *q)?;
        between = b", ";
    }
    Ok(())
}
