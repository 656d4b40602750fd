//! What is printed of a run beside its history and tables.
ghost use Rattle.std.specs.Prelude.{◌≡◌, ◌≤◌, ◌<◌, ◌^◌, ◌∷◌, [], length, map, Some, IfOk, OnOk, IfSome, ◌++◌, ℕ};
ghost use Rattle.lock_history.specs.Endings.{numbers_of};
ghost use Rattle.lock_history.specs.Outcomes.{line_seen, waiter_seen};
ghost use Rattle.lock_model.specs.Plans.{config_of};
ghost use Rattle.wait_objects.specs.Changes.{waiters};
ghost use Rattle.chain_table.specs.Chains.{head_of};
ghost use Rattle.step_world.specs.Outcomes.{line_at, lines_of, finals_of, IsShort, HasShortQueues};

use chain_table::{Chain, slot_of};
use lock_history::QueueLine;
use lock_model::{ChanNo, Kind, LockNo, Plan, Prio, QueueName, Sequence, Side, ThreadNo};
use std::alloc::{AllocError, Global};
use step_machine::Machine;
use wait_objects::{Object, Own};

/// A line for each queue that isn't empty: those of the locks by number, and then those of the channels.
#[tactic(auto, using(crate::proofs::Readings::flat_map_range_more))]
pub fn queue_lines(
    alloc: Global,
    machine: &Machine,
    plan: &Plan,
    chains: u32,
) -> Result<Vec<QueueLine>, AllocError>
    requires some_chains { 1 ≤ chains }
    requires few_chains { chains ≤ 64 }
    requires locks { length plan.now.locks ≤ 64 }
    requires chans { length plan.now.chans ≤ 64 }
    requires short { HasShortQueues (config_of plan.now) machine.now }
    ensures { IfOk result (λ lines. map line_seen lines.items
        ≡ lines_of chains (config_of plan.now) machine.now) }
{
    let mut lines = Vec::new(alloc);
    for (l, lock) in plan.locks.as_slice().iter().enumerate() {
        let l = l as u8;
        let q = QueueName::Lock(LockNo(l));
        let slot = slot_of(l, chains);
        match lock.kind {
            Kind::Mtx | Kind::Rw => push_line(alloc, &mut lines, &machine.chain, q, slot)?,
            Kind::Sx => push_line(alloc, &mut lines, &machine.sleepers, q, slot)?,
        }
    }
    for c in 0..plan.chans.as_slice().len() as u8 {
        let q = QueueName::Chan(ChanNo(c));
        push_line(alloc, &mut lines, &machine.sleepers, q, slot_of(c, chains))?;
    }
    Ok(lines)
}

// The line of a queue with its slot, where the chain has a head for it.
fn push_line<E: Own>(
    alloc: Global,
    lines: &mut Vec<QueueLine>,
    chain: &Chain<Object<E>>,
    q: QueueName,
    slot: u32,
) -> Result<(), AllocError>
    requires few { IfSome (head_of q chain.now) (λ h. IsShort h.contents) }
    ensures { OnOk result (map line_seen lines.new.items
        ≡ map line_seen lines.old.items ++ line_at q slot (head_of q chain.now)) }
{
    if let Some(head) = chain.find(q) {
        lines.push(QueueLine {
            q,
            slot,
            head: head.number(),
            free: Sequence::from_vec(free_list(alloc, head)?),
            excl: Sequence::from_vec(waiters(alloc, head, Side::X)?),
            shared: Sequence::from_vec(waiters(alloc, head, Side::S)?),
        })?;
    }
    Ok(())
}

// The objects on a free list, the first of it first.
#[tactic(auto, using(crate::proofs::Readings::one_more, crate::proofs::Readings::all_read))]
fn free_list<E: Own>(alloc: Global, head: &Object<E>) -> Result<Vec<ThreadNo>, AllocError>
    requires { length head.now.contents.free < 2 ^ 32 }
    ensures { IfOk result (λ free. map (λ t. t.0) free.items ≡ head.now.contents.free) }
{
    let mut free = Vec::new(alloc);
    while let Some(number) = head.free_at(free.len() as u32) {
        free.push(number)?;
    }
    Ok(free)
}

// The waiters of a side, from the front.
#[tactic(auto, using(crate::proofs::Readings::one_more, crate::proofs::Readings::all_read))]
fn waiters<E: Own>(
    alloc: Global,
    head: &Object<E>,
    side: Side,
) -> Result<Vec<(ThreadNo, Prio)>, AllocError>
    requires { length (waiters side head.now.contents) < 2 ^ 32 }
    ensures { IfOk result (λ found. map waiter_seen found.items ≡ waiters side head.now.contents) }
{
    let mut found = Vec::new(alloc);
    while let Some(waiter) = head.waiter_at(side, found.len() as u32) {
        found.push(waiter)?;
    }
    Ok(found)
}

/// Each thread's base and effective priority.
pub fn finals(alloc: Global, machine: &Machine) -> Result<Vec<(Prio, Prio)>, AllocError>
    ensures { IfOk result (λ pairs. numbers_of pairs.items ≡ finals_of machine.now) }
{
    let mut pairs = Vec::new(alloc);
    for thread in &machine.threads {
        pairs.push((thread.record.base(), thread.record.eff()))?;
    }
    Ok(pairs)
}
