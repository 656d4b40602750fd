//! The names of what stands in a plan, and lists of them; and words with a name or a priority behind them.

ghost use Rattle.std.specs.Prelude.{◌≡◌, ◌++◌, codes, decimal, OnOk};
ghost use Rattle.lock_model.specs.Text.{class_name};
ghost use Rattle.chart_words.specs.Words.{queue_name, queue_words, thread_names};

use lock_model::{ClassNo, Plan, Prio, QueueName, ThreadNo, push_digits};
use std::alloc::AllocError;

/// Whether memory was there for what is pushed.
pub type Pushed = Result<(), AllocError>;

/// The name of what a queue belongs to.
pub fn queue_name(plan: &Plan, q: QueueName) -> &[u8]
    ensures { result.now ≡ queue_name plan.now q }
{
    match q {
        QueueName::Lock(l) => plan.lock_name(l),
        QueueName::Chan(c) => plan.chan_name(c),
    }
}

/// Pushes what waiting on a queue is called, and the queue's name: `waits for bus`, `sleeps on ready`.
#[tactic(auto, unfolding(crate::specs::Words::queue_words))]
pub fn push_queue(out: &mut Vec<u8>, plan: &Plan, q: QueueName) -> Result<(), AllocError>
    ensures { OnOk result (out.new.items ≡ out.old.items ++ queue_words plan.now q) }
{
    match q {
        QueueName::Lock(l) => push_named(out, b"waits for ", plan.lock_name(l)),
        QueueName::Chan(c) => push_named(out, b"sleeps on ", plan.chan_name(c)),
    }
}

/// Pushes the names of threads: `a`, `a and b`, `a, b and c`.
#[tactic(auto, unfolding(crate::specs::Words::thread_names))]
pub fn push_threads(out: &mut Vec<u8>, plan: &Plan, threads: &[ThreadNo]) -> Pushed
    ensures { OnOk result (out.new.items
        ≡ out.old.items ++ thread_names plan.now threads.now) }
{
    let Some((first, others)) = threads.split_first() else {
        return Ok(());
    };
    push_words(out, plan.thread_name(*first))?;
    let mut left = others;
    while let Some((t, behind)) = left.split_first() {
        let between: &[u8] = if behind.is_empty() { b" and " } else { b", " };
        push_named(out, between, plan.thread_name(*t))?;
        left = behind;
    }
    Ok(())
}

/// Pushes words.
pub fn push_words(out: &mut Vec<u8>, words: &[u8]) -> Result<(), AllocError>
    ensures { OnOk result (out.new.items ≡ out.old.items ++ words.now) }
{
    out.extend_from_slice(words)
}

/// Pushes words, and a name.
pub fn push_named(out: &mut Vec<u8>, words: &[u8], name: &[u8]) -> Result<(), AllocError>
    ensures { OnOk result (out.new.items ≡ out.old.items ++ words.now ++ name.now) }
{
    push_words(out, words)?;
    push_words(out, name)
}

/// Pushes words, and a priority.
pub fn push_prio(out: &mut Vec<u8>, words: &[u8], prio: Prio) -> Result<(), AllocError>
    ensures { OnOk result (out.new.items ≡ out.old.items ++ words.now ++ decimal prio.0) }
{
    push_words(out, words)?;
    push_digits(out, u64::from(prio.0))
}

/// Pushes under which class a lock was refused.
pub fn push_class(out: &mut Vec<u8>, plan: &Plan, held: ClassNo) -> Pushed
    ensures { OnOk result (out.new.items
        ≡ out.old.items ++ codes " under class " ++ class_name plan.now held.0) }
{
    push_named(out, b" under class ", plan.class_name(held))
}
