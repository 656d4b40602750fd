//! The text that a run prints: a line for each entry of its history, for each queue that isn't empty, for
//! each thread and for each key of the tables, and a last line that says how it ended. A line is its words
//! with one space between them; `lock_model`'s `specs/Text.antt` says which words.
ghost use Rattle.std.specs.Prelude.{◌≡◌, ◌≤◌, ◌++◌, ◌∷◌, [], codes, decimal, map, flat_map, length, IfOk, OnOk};
ghost use Rattle.std.specs.List.{zip};
ghost use Rattle.std.specs.FinMap.{entries};
ghost use Rattle.lock_model.specs.Limits.{most_operations};
ghost use Rattle.lock_model.specs.Operations.{operations_in_all};
ghost use Rattle.lock_model.specs.Text.{text_of, counts_text, count_words, fault_text, line_of, spaced, entry_line, thread_line, table_line, lock_name, ending_word};
ghost use Rattle.lock_history.specs.Endings.{ending_of, numbers_of};
ghost use Rattle.lock_history.specs.Outcomes.{outcome_seen};

use crate::outcome::{Last, Outcome};
use crate::tables::Tables;
use lock_model::{
    Entry, LockNo, Name, Plan, Prio, ThreadDecl, push_digits, push_name, push_number, push_word,
};
use std::alloc::{AllocError, Global};

mod events;
mod names;
mod queues;

use events::push_event;
use names::{push_lock_name, push_thread_name};
use queues::push_queues;

/// The text of a run: its history in order, the queues that aren't empty, each thread's base and effective
/// priority in the end, in order of declaration, the value at each lock and key, and how it ended. It fails
/// where memory runs out.
#[tactic(auto, unfolding(lock_model::specs::Text::text_of))]
pub fn print(alloc: Global, plan: &Plan, out: &Outcome) -> Result<Vec<u8>, AllocError>
    ensures { IfOk result (λ text. text.items ≡ text_of plan.now (outcome_seen out.now)) }
{
    // An entry's line is hardly ever longer.
    let mut text = Vec::with_capacity(alloc, 32 * out.history.len() as usize)?;
    push_entries(&mut text, plan, out.history.as_slice())?;
    push_queues(&mut text, plan, out.queues.as_slice())?;
    push_threads(&mut text, plan.threads.as_slice(), out.finals.as_slice())?;
    push_tables(&mut text, plan, &out.tables)?;
    text.extend_from_slice(last_word(out.last))?;
    text.push(b'\n')?;
    Ok(text)
}

/// The text for a source that is no script: the number of the first faulty line, and the fault's code.
pub fn print_fault(alloc: Global, line: u32, code: u8) -> Result<Vec<u8>, AllocError>
    ensures { IfOk result (λ text. text.items ≡ fault_text line code) }
{
    let mut out = Vec::from_slice(alloc, b"line")?;
    push_number(&mut out, u64::from(line))?;
    push_word(&mut out, b"code")?;
    push_number(&mut out, u64::from(code))?;
    out.push(b'\n')?;
    Ok(out)
}

/// The text for a script that is only read: how many threads, locks, conditions and channels, classes and operations it
/// has.
///
/// ```
/// let text = print_counts(alloc, &plan)?;
/// // ok threads 2 locks 1 channels 0 classes 1 operations 6
/// ```
pub fn print_counts(alloc: Global, plan: &Plan) -> Result<Vec<u8>, AllocError>
    requires { operations_in_all plan.now ≤ most_operations }
    ensures { IfOk result (λ text. text.items ≡ counts_text plan.now) }
{
    let mut out = Vec::from_slice(alloc, b"ok")?;
    push_counts(&mut out, plan, u64::from(plan.operations_in_all()))?;
    out.push(b'\n')?;
    Ok(out)
}

// How many of each thing, and so many operations.
fn push_counts(out: &mut Vec<u8>, plan: &Plan, operations: u64) -> Result<(), AllocError>
    ensures { OnOk result (out.new.items
        ≡ out.old.items ++ spaced (count_words plan.now operations)) }
{
    push_threads_and_locks(out, plan)?;
    push_channels_and_classes(out, plan)?;
    push_count(out, b"operations", operations)?;
    Ok(())
}

fn push_threads_and_locks(out: &mut Vec<u8>, plan: &Plan) -> Result<(), AllocError>
    ensures { OnOk result (out.new.items ≡ out.old.items ++ spaced (
        codes "threads" ∷ decimal (length plan.now.threads)
        ∷ codes "locks" ∷ decimal (length plan.now.locks) ∷ [])) }
{
    push_count(out, b"threads", plan.threads.as_slice().len() as u64)?;
    push_count(out, b"locks", plan.locks.as_slice().len() as u64)
}

fn push_channels_and_classes(out: &mut Vec<u8>, plan: &Plan) -> Result<(), AllocError>
    ensures { OnOk result (out.new.items ≡ out.old.items ++ spaced (
        codes "channels" ∷ decimal (length plan.now.chans)
        ∷ codes "classes" ∷ decimal (length plan.now.classes) ∷ [])) }
{
    push_count(out, b"channels", plan.chans.as_slice().len() as u64)?;
    push_count(out, b"classes", plan.classes.as_slice().len() as u64)
}

// How many of something there are, behind a word for it.
fn push_count(out: &mut Vec<u8>, word: &[u8], n: u64) -> Result<(), AllocError>
    ensures { OnOk result (out.new.items ≡ out.old.items ++ spaced (word.now ∷ decimal n ∷ [])) }
{
    push_word(out, word)?;
    push_number(out, n)
}

/// The last line of a text, without its end: how the run ended.
pub fn last_word(last: Last) -> &'static [u8]
    ensures { result.now ≡ ending_word (ending_of last) }
{
    match last {
        Last::Done => b"ok",
        Last::Stuck => b"stuck",
        Last::Reversed => b"reversed",
        Last::TooLong => b"toolong",
    }
}

fn push_entries(out: &mut Vec<u8>, plan: &Plan, history: &[Entry]) -> Result<(), AllocError>
    ensures { OnOk result (out.new.items
        ≡ out.old.items ++ flat_map (entry_line plan.now) history.now) }
{
    for entry in history {
        push_entry(out, plan, entry)?;
    }
    Ok(())
}

#[inline(always)]
fn push_entry(out: &mut Vec<u8>, plan: &Plan, entry: &Entry) -> Result<(), AllocError>
    ensures { OnOk result (out.new.items ≡ out.old.items ++ entry_line plan.now entry.now) }
{
    push_digits(out, u64::from(entry.ticket))?;
    push_thread_name(out, plan, entry.thread)?;
    push_event(out, plan, entry.event)?;
    out.push(b'\n')?;
    Ok(())
}

// A line for each thread that has its pair of priorities.
fn push_threads(
    out: &mut Vec<u8>,
    threads: &[ThreadDecl],
    finals: &[(Prio, Prio)],
) -> Result<(), AllocError>
    ensures { OnOk result (out.new.items ≡ out.old.items
        ++ flat_map thread_line (zip (map (λ d. d.name) threads.now) (numbers_of finals.now))) }
{
    for (thread, (base, eff)) in threads.iter().zip(finals) {
        push_thread(out, &thread.name, *base, *eff)?;
    }
    Ok(())
}

fn push_thread(out: &mut Vec<u8>, name: &Name, base: Prio, eff: Prio) -> Result<(), AllocError>
    ensures { OnOk result (out.new.items
        ≡ out.old.items ++ thread_line (name.now, (base.0, eff.0))) }
{
    out.extend_from_slice(b"thread")?;
    push_name(out, name)?;
    push_word(out, b"base")?;
    push_number(out, u64::from(base.0))?;
    push_word(out, b"eff")?;
    push_number(out, u64::from(eff.0))?;
    out.push(b'\n')?;
    Ok(())
}

fn push_tables(out: &mut Vec<u8>, plan: &Plan, tables: &Tables) -> Result<(), AllocError>
    ensures { OnOk result (out.new.items
        ≡ out.old.items ++ flat_map (table_line plan.now) (entries tables.now.present)) }
{
    for ((l, key), slot) in tables.slots() {
        if let Some(value) = slot {
            push_row(out, plan, LockNo(*l), *key, *value)?;
        }
    }
    Ok(())
}

fn push_row(
    out: &mut Vec<u8>,
    plan: &Plan,
    l: LockNo,
    key: u64,
    value: u64,
) -> Result<(), AllocError>
    ensures { OnOk result (out.new.items ≡ out.old.items
        ++ line_of (codes "table") (lock_name plan.now l.0 ∷ decimal key ∷ decimal value ∷ [])) }
{
    out.extend_from_slice(b"table")?;
    push_lock_name(out, plan, l)?;
    push_number(out, key)?;
    push_number(out, value)?;
    out.push(b'\n')?;
    Ok(())
}
