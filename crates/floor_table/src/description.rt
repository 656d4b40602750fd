//! What a floor is made for. It speaks of no operations, so that threads that follow no script can share a floor too; a
//! plan gives one.
ghost use Rattle.std.specs.Prelude.{◌≡◌, ℕ, ◌<◌, ◌^◌, ◌++◌, map, sum, length, IfOk, OnOk};
ghost use Rattle.lock_model.specs.Operations.{operations_in_all};
ghost use Rattle.floor_table.specs.Descriptions.{thread_part, lock_part, keys_named, keys_in, description_of};

use lock_model::{ChanDecl, ClassNo, Kind, LockDecl, LockNo, Op, Plan, Prio, Sequence, ThreadDecl};
use std::alloc::{AllocError, Global};

/// A thread of a floor: its base priority, and for how many entries its log has room.
///
/// ```
/// let thread = ThreadPart { base: Prio(100), room: 8 };
/// ```
#[derive(Clone, Copy, Debug, PartialEq, Eq)]
pub struct ThreadPart {
    pub base: Prio,
    pub room: u32,
}

/// A lock of a floor.
///
/// ```
/// let lock = LockPart { kind: Kind::Mtx, class: ClassNo(0) };
/// ```
#[derive(Clone, Copy, Debug, PartialEq, Eq)]
pub struct LockPart {
    pub kind: Kind,
    pub class: ClassNo,
}

/// What a floor is made for. A thread, a lock, and a condition variable or channel is named by its place in its list.
///
/// ```
/// let of_a_plan = Description::of_plan(alloc, &plan, 16)?;
/// let counter = Description {
///     threads: Sequence::from_vec(vec![in alloc; thread, thread]?),
///     locks: Sequence::from_vec(vec![in alloc; lock]?),
///     chans: Sequence::from_vec(Vec::new(alloc)),
///     keys: Sequence::from_vec(vec![in alloc; (0, 7)]?),
///     chains: 16,
/// };
/// ```
#[derive(Drop, Debug)]
pub struct Description {
    pub threads: Sequence<ThreadPart>,
    pub locks: Sequence<LockPart>,
    /// The lock of each condition variable or channel.
    pub chans: Sequence<LockNo>,
    /// The keys of the locks' tables, each behind its lock's number: by lock and then by key, each once.
    pub keys: Sequence<(u8, u64)>,
    /// How many chains there are of turnstiles, and as many of sleep queues.
    pub chains: u32,
}

impl Description {
    /// What a plan gives for a floor with so many chains of each sort: each thread has room for two entries for each of
    /// its operations, and the keys are those that operations name. It fails where memory runs out.
    pub fn of_plan(alloc: Global, plan: &Plan, chains: u32) -> Result<Description, AllocError>
        requires { operations_in_all plan.now < 2 ^ 31 }
        ensures { IfOk result (λ floor. floor ≡ description_of plan.now chains) }
    {
        let threads = thread_parts(alloc, plan.threads.as_slice())?;
        let locks = lock_parts(alloc, plan.locks.as_slice())?;
        let chans = locks_of(alloc, plan.chans.as_slice())?;
        let keys = keys_of(alloc, plan.threads.as_slice())?;
        Ok(Description {
            threads: Sequence::from_vec(threads),
            locks: Sequence::from_vec(locks),
            chans: Sequence::from_vec(chans),
            keys: Sequence::from_vec(keys),
            chains,
        })
    }
}

// The threads, with room for two entries for each operation.
fn thread_parts(alloc: Global, threads: &[ThreadDecl]) -> Result<Vec<ThreadPart>, AllocError>
    requires { sum (map (λ d. length d.ops) threads.now) < 2 ^ 31 }
    ensures { IfOk result (λ parts. parts.items ≡ map thread_part threads.now) }
{
    let mut parts = Vec::with_capacity(alloc, threads.len())?;
    for thread in threads {
        parts.push(ThreadPart {
            base: thread.base,
            room: 2 * thread.ops.as_slice().len() as u32,
        })?;
    }
    Ok(parts)
}

// The locks.
fn lock_parts(alloc: Global, locks: &[LockDecl]) -> Result<Vec<LockPart>, AllocError>
    ensures { IfOk result (λ parts. parts.items ≡ map lock_part locks.now) }
{
    let mut parts = Vec::with_capacity(alloc, locks.len())?;
    for lock in locks {
        parts.push(LockPart {
            kind: lock.kind,
            class: lock.class,
        })?;
    }
    Ok(parts)
}

// The lock of each condition variable or channel.
fn locks_of(alloc: Global, chans: &[ChanDecl]) -> Result<Vec<LockNo>, AllocError>
    ensures { IfOk result (λ locks. locks.items ≡ map (λ d. d.lock) chans.now) }
{
    let mut locks = Vec::with_capacity(alloc, chans.len())?;
    for chan in chans {
        locks.push(chan.lock)?;
    }
    Ok(locks)
}

// The keys of locks' tables that the threads' operations name, by lock and then by key, each once.
fn keys_of(alloc: Global, threads: &[ThreadDecl]) -> Result<Vec<(u8, u64)>, AllocError>
    ensures { IfOk result (λ keys. keys.items ≡ keys_in threads.now) }
{
    let mut keys = Vec::new(alloc);
    for thread in threads {
        push_keys(&mut keys, thread.ops.as_slice())?;
    }
    keys.sort_unstable();
    keys.dedup();
    Ok(keys)
}

// The keys that operations name, in order.
fn push_keys(keys: &mut Vec<(u8, u64)>, ops: &[Op]) -> Result<(), AllocError>
    ensures { OnOk result (keys.new.items ≡ keys.old.items ++ keys_named ops.now) }
{
    for op in ops {
        if let Some((l, key)) = op.place() {
            keys.push((l.0, key))?;
        }
    }
    Ok(())
}
