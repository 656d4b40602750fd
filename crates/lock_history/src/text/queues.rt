// The lines of the queues that aren't empty: a queue's slot, its head and its free list, and its waiters on
// either side with their kept priorities.
ghost use Rattle.std.specs.Prelude.{◌≡◌, ◌++◌, ◌∷◌, [], codes, decimal, map, flat_map, OnOk};
ghost use Rattle.lock_model.specs.Text.{spaced, queue_line, queue_word, waiter_word, joined, thread_name};
ghost use Rattle.lock_history.specs.Outcomes.{line_seen, waiter_seen, others_joined};

use crate::outcome::QueueLine;
use lock_model::{Plan, Prio, QueueName, ThreadNo, push_digits, push_number, push_word};
use std::alloc::AllocError;

pub(super) fn push_queues(
    out: &mut Vec<u8>,
    plan: &Plan,
    queues: &[QueueLine],
) -> Result<(), AllocError>
    ensures { OnOk result (out.new.items
        ≡ out.old.items ++ flat_map (queue_line plan.now) (map line_seen queues.now)) }
{
    for queue in queues {
        push_queue(out, plan, queue)?;
    }
    Ok(())
}

fn push_queue(out: &mut Vec<u8>, plan: &Plan, queue: &QueueLine) -> Result<(), AllocError>
    ensures { OnOk result (out.new.items
        ≡ out.old.items ++ queue_line plan.now (line_seen queue.now)) }
{
    push_place(out, plan, queue)?;
    push_lists(out, plan, queue)?;
    out.push(b'\n')?;
    Ok(())
}

// The queue, its slot and its head.
fn push_place(out: &mut Vec<u8>, plan: &Plan, queue: &QueueLine) -> Result<(), AllocError>
    ensures { OnOk result (out.new.items ≡ out.old.items ++ (codes "queue" ++ spaced (
        queue_word plan.now queue.now.q ∷ codes "slot" ∷ decimal queue.now.slot
        ∷ codes "head" ∷ thread_name plan.now queue.now.head.0 ∷ []))) }
{
    out.extend_from_slice(b"queue")?;
    push_word(out, queue_word(plan, queue.q))?;
    push_word(out, b"slot")?;
    push_number(out, u64::from(queue.slot))?;
    push_word(out, b"head")?;
    push_word(out, plan.thread_name(queue.head))
}

// The free list and the waiters on either side.
fn push_lists(out: &mut Vec<u8>, plan: &Plan, queue: &QueueLine) -> Result<(), AllocError>
    ensures { OnOk result (out.new.items ≡ out.old.items ++ spaced (
        codes "free" ∷ joined (map (thread_name plan.now) (map (λ t. t.0) queue.now.free))
        ∷ codes "excl" ∷ joined (map (waiter_word plan.now) (map waiter_seen queue.now.excl))
        ∷ codes "shared" ∷ joined (map (waiter_word plan.now) (map waiter_seen queue.now.shared))
        ∷ [])) }
{
    push_word(out, b"free")?;
    push_free(out, plan, queue.free.as_slice())?;
    push_word(out, b"excl")?;
    push_waiters(out, plan, queue.excl.as_slice())?;
    push_word(out, b"shared")?;
    push_waiters(out, plan, queue.shared.as_slice())
}

fn queue_word(plan: &Plan, q: QueueName) -> &[u8]
    ensures { result.now ≡ queue_word plan.now q }
{
    match q {
        QueueName::Lock(l) => plan.lock_name(l),
        QueueName::Chan(c) => plan.chan_name(c),
    }
}

// Threads, joined by commas, or a dash.
fn push_free(out: &mut Vec<u8>, plan: &Plan, free: &[ThreadNo]) -> Result<(), AllocError>
    ensures { OnOk result (out.new.items ≡ out.old.items
        ++ 32 ∷ joined (map (thread_name plan.now) (map (λ t. t.0) free.now))) }
{
    let Some((first, others)) = free.split_first() else {
        return push_word(out, b"-");
    };
    push_word(out, plan.thread_name(*first))?;
    push_other_threads(out, plan, others)
}

fn push_other_threads(out: &mut Vec<u8>, plan: &Plan, others: &[ThreadNo]) -> Result<(), AllocError>
    ensures { OnOk result (out.new.items ≡ out.old.items
        ++ others_joined (map (thread_name plan.now) (map (λ t. t.0) others.now))) }
{
    for t in others {
        out.push(b',')?;
        out.extend_from_slice(plan.thread_name(*t))?;
    }
    Ok(())
}

// Waiters, joined by commas, or a dash.
fn push_waiters(
    out: &mut Vec<u8>,
    plan: &Plan,
    waiters: &[(ThreadNo, Prio)],
) -> Result<(), AllocError>
    ensures { OnOk result (out.new.items ≡ out.old.items
        ++ 32 ∷ joined (map (waiter_word plan.now) (map waiter_seen waiters.now))) }
{
    let Some((first, others)) = waiters.split_first() else {
        return push_word(out, b"-");
    };
    out.push(b' ')?;
    push_waiter(out, plan, *first)?;
    push_other_waiters(out, plan, others)
}

fn push_other_waiters(
    out: &mut Vec<u8>,
    plan: &Plan,
    others: &[(ThreadNo, Prio)],
) -> Result<(), AllocError>
    ensures { OnOk result (out.new.items ≡ out.old.items
        ++ others_joined (map (waiter_word plan.now) (map waiter_seen others.now))) }
{
    for waiter in others {
        out.push(b',')?;
        push_waiter(out, plan, *waiter)?;
    }
    Ok(())
}

fn push_waiter(out: &mut Vec<u8>, plan: &Plan, waiter: (ThreadNo, Prio)) -> Result<(), AllocError>
    ensures { OnOk result (out.new.items
        ≡ out.old.items ++ waiter_word plan.now (waiter_seen waiter)) }
{
    out.extend_from_slice(plan.thread_name(waiter.0))?;
    out.push(b'@')?;
    push_digits(out, u64::from(waiter.1.0))
}
