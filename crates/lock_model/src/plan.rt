//! What a script says: its classes, locks and channels, its threads with their operations, and whose
//! turns the scheduled run begins with.
ghost use Rattle.std.specs.Prelude.{◌≡◌, ℕ, ◌<◌, ◌^◌, ◌↔◌, ◌||◌, ◌==◌, IsTrue, IfOk, OnOk, option_map, option_to_list};
ghost use Rattle.std.specs.List.{Contains, list_any};
ghost use Rattle.std.specs.List.Sorted.{IsStrictlyIncreasing};
ghost use Rattle.lock_model.specs.Keys.{place_of, op_names, plan_names};
ghost use Rattle.lock_model.specs.Operations.{operations_in_all, of_locks};
ghost use Rattle.lock_model.specs.declared.plan.OfLocks.TheVariants.{Acquires};
ghost use Rattle.lock_model.specs.Plans.{operations_of, thread_name, lock_name, lock_kind, chan_name, is_cond, class_name, lock_class, chan_lock};
ghost use Rattle.lock_model.specs.Text.{mode_letter};

use crate::event::Held;
use crate::name::Name;
use crate::numbers::{ChanNo, ClassNo, LockNo, Prio, ThreadNo};
use crate::sequence::Sequence;
use std::alloc::{AllocError, Global};

/// The kind of a lock. It decides who may hold it together, on what its waiters block, and whom a release
/// wakes.
///
/// ```
/// let kind = Kind::Rw;
/// ```
#[derive(Clone, Copy, Debug, PartialEq, Eq, Hash)]
pub enum Kind {
    /// A mutex, as mutex(9) has it: one thread holds it, whose waiters block on a turnstile and lend it their
    /// priority.
    Mtx,
    /// A reader-writer lock, as rwlock(9) has it: one writer, or readers together. Its waiters block on a
    /// turnstile, and they lend to a writer but to no reader. Readers go behind writers that wait.
    Rw,
    /// A shared/exclusive lock, as sx(9) has it. It may be held across a sleep of any length, so its waiters
    /// sleep on a sleep queue and lend nothing.
    Sx,
}

/// How a lock is held or wanted.
///
/// ```
/// let write = Op::Take { l: LockNo(0), mode: Mode::Excl };
/// ```
#[derive(Clone, Copy, Debug, PartialEq, Eq, Hash)]
pub enum Mode {
    /// By one thread alone: a mutex, the write lock of a reader-writer lock, the exclusive lock of sx(9).
    Excl,
    /// Together with others that share it: the read lock of a reader-writer lock, the shared lock of sx(9). A
    /// mutex is never shared.
    Shared,
}

impl Mode {
    /// The letter by which operations and entries of a lock of that kind name the mode, as the `w` of `wlock`. There is
    /// none for a mutex.
    pub fn letter(self, kind: Kind) -> &'static [u8]
        ensures { result.now ≡ mode_letter kind self }
    {
        match (kind, self) {
            (Kind::Mtx, Mode::Excl | Mode::Shared) => b"",
            (Kind::Rw, Mode::Excl) => b"w",
            (Kind::Rw, Mode::Shared) => b"r",
            (Kind::Sx, Mode::Excl) => b"x",
            (Kind::Sx, Mode::Shared) => b"s",
        }
    }
}

/// A side of a lock's queue: waiters for either mode stand in a list of their own, and a bit of the lock word
/// shows whether there are some.
///
/// ```
/// let side = Side::X;
/// ```
#[derive(Clone, Copy, Debug, PartialEq, Eq, Hash)]
pub enum Side {
    /// That of the threads that want the lock exclusively. Sleepers on a channel stand here too.
    X,
    /// That of the threads that want to share the lock.
    S,
}

/// What a queue of waiters belongs to.
///
/// ```
/// let queue = QueueName::Lock(LockNo(0));
/// ```
#[derive(Clone, Copy, Debug, PartialEq, Eq, Hash)]
pub enum QueueName {
    /// A lock: threads that block on it stand in its queue.
    Lock(LockNo),
    /// A condition variable or a channel: threads that sleep on it stand in its queue.
    Chan(ChanNo),
}

/// What a name of a script stands for. Locks, channels and threads share one set of names.
///
/// ```
/// let declared = Declared::Thread(ThreadNo(0));
/// ```
#[derive(Clone, Copy, Debug, PartialEq, Eq, Hash)]
pub enum Declared {
    /// A lock.
    Lock(LockNo),
    /// A condition variable or a channel.
    Chan(ChanNo),
    /// A thread.
    Thread(ThreadNo),
}

/// A lock, as a script declares it.
///
/// ```
/// let lock = LockDecl {
///     name: Name::of(b"inodes").ok_or("not a name")?,
///     kind: Kind::Sx,
///     class: ClassNo(0),
/// };
/// ```
#[derive(Clone, Copy, Debug)]
pub struct LockDecl {
    pub name: Name,
    pub kind: Kind,
    pub class: ClassNo,
}

/// What threads sleep on: a condition variable of condvar(9), where `cond` holds, or else a channel of
/// msleep(9). A sleep gives up its lock and gets it back.
///
/// ```
/// let condition = ChanDecl {
///     name: Name::of(b"not_empty").ok_or("not a name")?,
///     cond: true,
///     lock: LockNo(0),
/// };
/// ```
#[derive(Clone, Copy, Debug)]
pub struct ChanDecl {
    pub name: Name,
    pub cond: bool,
    pub lock: LockNo,
}

/// A thread: its base priority and its operations in order.
///
/// ```
/// let writer = ThreadDecl {
///     name: Name::of(b"writer").ok_or("not a name")?,
///     base: Prio(100),
///     ops: Sequence::from_vec(vec![in alloc; Op::Show]?),
/// };
/// ```
#[derive(Drop, Debug)]
pub struct ThreadDecl {
    pub name: Name,
    pub base: Prio,
    pub ops: Sequence<Op>,
}

/// What a script says. A lock, a channel, a thread and a class is named by its place in its list; the
/// schedule says whose turns the scheduled run begins with.
///
/// ```
/// let keys = plan.keys_of(alloc, LockNo(0))?;
/// let first = plan.operations_of(ThreadNo(0)).first();
/// let name = plan.thread_name(ThreadNo(0));
/// ```
#[derive(Drop, Debug)]
pub struct Plan {
    pub classes: Sequence<Name>,
    pub locks: Sequence<LockDecl>,
    pub chans: Sequence<ChanDecl>,
    pub threads: Sequence<ThreadDecl>,
    pub schedule: Sequence<ThreadNo>,
}

/// An operation of a thread.
///
/// ```
/// let ops = [
///     Op::Take { l: LockNo(0), mode: Mode::Excl },
///     Op::Add { l: LockNo(0), key: 7, amount: 1 },
///     Op::Release { l: LockNo(0) },
/// ];
/// ```
#[derive(Clone, Copy, Debug, PartialEq, Eq, Hash)]
pub enum Op {
    /// Takes a lock in a mode, and blocks as long as the lock word doesn't admit it.
    Take { l: LockNo, mode: Mode },
    /// Takes a lock in a mode where its word admits it, and else skips the block that ends at the matching
    /// `EndTry`, whose next operation has the number `past`. It never blocks.
    Try { l: LockNo, mode: Mode, past: u32 },
    /// Ends the block of a try. It takes no turn and makes no entry.
    EndTry,
    /// Releases a lock, in the mode in which the thread holds it.
    Release { l: LockNo },
    /// Sets a key of the table of a lock that the thread holds exclusively.
    Set { l: LockNo, key: u64, value: u64 },
    /// Adds to the value at a key of the table of a lock that the thread holds exclusively, modulo 2^64. An
    /// absent key counts as 0.
    Add { l: LockNo, key: u64, amount: u64 },
    /// Reads a key of the table of a lock that the thread holds.
    Get { l: LockNo, key: u64 },
    /// Sets the thread's base priority.
    Base { prio: Prio },
    /// Shows the thread's base and effective priority.
    Show,
    /// Gives up the lock of the condition variable or channel, sleeps on it until a thread wakes it, and takes
    /// the lock again in the same mode.
    Sleep { c: ChanNo },
    /// Wakes the most important of those that sleep on the condition variable or channel.
    WakeOne { c: ChanNo },
    /// Wakes all that sleep on the condition variable or channel.
    WakeAll { c: ChanNo },
}

/// What an operation does with locks.
///
/// ```
/// let done = OfLocks::EditsAt { l: LockNo(0), key: 7 };
/// ```
#[derive(Clone, Copy, Debug, PartialEq, Eq, Hash)]
pub enum OfLocks {
    /// It is about no lock.
    NoLock,
    /// It acquires a lock, by a take or by a try.
    Acquires { held: Held },
    /// It closes the block of a try.
    ClosesBlock,
    /// It releases a lock.
    Releases { l: LockNo },
    /// It changes the value at a key of a lock's table.
    EditsAt { l: LockNo, key: u64 },
    /// It reads the value at a key of a lock's table.
    ReadsAt { l: LockNo, key: u64 },
    /// It gives up the lock of the condition variable or channel, and takes it again.
    SleepsOn { c: ChanNo },
    /// It wakes some that sleep on the condition variable or channel.
    WakesOn { c: ChanNo },
}

impl Op {
    /// What it does with locks.
    pub fn of_locks(self) -> OfLocks
        ensures { result ≡ of_locks self }
    {
        match self {
            Op::Take { l, mode } => acquires(l, mode, false),
            Op::Try { l, mode, .. } => acquires(l, mode, true),
            Op::EndTry => OfLocks::ClosesBlock,
            Op::Release { l } => OfLocks::Releases { l },
            Op::Set { l, key, .. } | Op::Add { l, key, .. } => OfLocks::EditsAt { l, key },
            Op::Get { l, key } => OfLocks::ReadsAt { l, key },
            Op::Base { .. } | Op::Show => OfLocks::NoLock,
            Op::Sleep { c } => OfLocks::SleepsOn { c },
            Op::WakeOne { c } | Op::WakeAll { c } => OfLocks::WakesOn { c },
        }
    }

    /// The lock and the key of its table that the operation sets, adds to or reads.
    pub fn place(self) -> Option<(LockNo, u64)>
        ensures { option_map (λ p. (p.0.0, p.1)) result ≡ place_of self }
    {
        match self.of_locks() {
            OfLocks::EditsAt { l, key } | OfLocks::ReadsAt { l, key } => Some((l, key)),
            OfLocks::NoLock
            | OfLocks::Acquires { .. }
            | OfLocks::ClosesBlock
            | OfLocks::Releases { .. }
            | OfLocks::SleepsOn { .. }
            | OfLocks::WakesOn { .. } => None,
        }
    }
}

fn acquires(l: LockNo, mode: Mode, by_try: bool) -> OfLocks
    ensures { result ≡ Acquires (record { l = l; mode = mode; by_try = by_try }) }
{
    OfLocks::Acquires {
        held: Held { l, mode, by_try },
    }
}

impl Plan {
    /// The keys that the operations name for a lock's table, each once and in ascending order. It fails
    /// where memory runs out.
    pub fn keys_of(&self, alloc: Global, l: LockNo) -> Result<Vec<u64>, AllocError>
        ensures ascending { IfOk result (λ keys. IsStrictlyIncreasing keys.items) }
        ensures named { IfOk result (λ keys. (key : ℕ) →
            Contains keys.items key ↔ IsTrue (plan_names self.now l.0 key)) }
    {
        let mut keys = Vec::new(alloc);
        for thread in self.threads.as_slice() {
            push_keys(&mut keys, thread.ops.as_slice(), l)?;
        }
        keys.sort_unstable();
        keys.dedup();
        Ok(keys)
    }

    /// The operations of a thread, in order. There is none where the plan has no thread of that number.
    pub fn operations_of(&self, t: ThreadNo) -> &[Op]
        ensures { result.now ≡ operations_of self.now t.0 }
    {
        match self.threads.as_slice().get(usize::from(t.0)) {
            Some(thread) => thread.ops.as_slice(),
            None => &[],
        }
    }

    /// How many operations all threads have together. Each `endtry` counts as one.
    pub fn operations_in_all(&self) -> u32
        requires { operations_in_all self.now < 2 ^ 32 }
        ensures { result ≡ operations_in_all self.now }
    {
        let mut all = 0;
        for thread in self.threads.as_slice() {
            all += thread.ops.as_slice().len() as u32;
        }
        all
    }

    /// The name of a thread, and no bytes where the plan has no thread of that number.
    pub fn thread_name(&self, t: ThreadNo) -> &[u8]
        ensures { result.now ≡ thread_name self.now t.0 }
    {
        match self.threads.as_slice().get(usize::from(t.0)) {
            Some(thread) => thread.name.as_bytes(),
            None => b"",
        }
    }

    /// The name of a lock, and no bytes where the plan has no lock of that number.
    pub fn lock_name(&self, l: LockNo) -> &[u8]
        ensures { result.now ≡ lock_name self.now l.0 }
    {
        match self.locks.as_slice().get(usize::from(l.0)) {
            Some(lock) => lock.name.as_bytes(),
            None => b"",
        }
    }

    /// The kind of a lock, and that of a mutex where the plan has no lock of that number.
    pub fn lock_kind(&self, l: LockNo) -> Kind
        ensures { result ≡ lock_kind self.now l.0 }
    {
        match self.locks.as_slice().get(usize::from(l.0)) {
            Some(lock) => lock.kind,
            None => Kind::Mtx,
        }
    }

    /// The class of a lock, and class 0 where the plan has no lock of that number.
    pub fn lock_class(&self, l: LockNo) -> ClassNo
        ensures { result.0 ≡ lock_class self.now l.0 }
    {
        match self.locks.as_slice().get(usize::from(l.0)) {
            Some(lock) => lock.class,
            None => ClassNo(0),
        }
    }

    /// The name of a condition variable or channel, and no bytes where the plan has none of that number.
    pub fn chan_name(&self, c: ChanNo) -> &[u8]
        ensures { result.now ≡ chan_name self.now c.0 }
    {
        match self.chans.as_slice().get(usize::from(c.0)) {
            Some(chan) => chan.name.as_bytes(),
            None => b"",
        }
    }

    /// Whether it is a condition variable, and not a channel. So it is where the plan has none of that number.
    pub fn is_cond(&self, c: ChanNo) -> bool
        ensures { result ≡ is_cond self.now c.0 }
    {
        match self.chans.as_slice().get(usize::from(c.0)) {
            Some(chan) => chan.cond,
            None => true,
        }
    }

    /// The lock of a condition variable or channel, and lock 0 where the plan has none of that number.
    pub fn chan_lock(&self, c: ChanNo) -> LockNo
        ensures { result.0 ≡ chan_lock self.now c.0 }
    {
        match self.chans.as_slice().get(usize::from(c.0)) {
            Some(chan) => chan.lock,
            None => LockNo(0),
        }
    }

    /// The name of a class, and no bytes where the plan has no class of that number.
    pub fn class_name(&self, k: ClassNo) -> &[u8]
        ensures { result.now ≡ class_name self.now k.0 }
    {
        match self.classes.as_slice().get(usize::from(k.0)) {
            Some(class) => class.as_bytes(),
            None => b"",
        }
    }
}

// The keys that operations name for the lock, in order.
fn push_keys(keys: &mut Vec<u64>, ops: &[Op], l: LockNo) -> Result<(), AllocError>
    ensures { OnOk result ((key : ℕ) → list_any (λ k. k == key) keys.new.items
        ≡ (list_any (λ k. k == key) keys.old.items || list_any (op_names l.0 key) ops.now)) }
{
    for op in ops {
        if let Some(key) = named_key(*op, l) {
            keys.push(key)?;
        }
    }
    Ok(())
}

// The key that an operation names for the lock.
fn named_key(op: Op, l: LockNo) -> Option<u64>
    ensures { (key : ℕ) → list_any (λ k. k == key) (option_to_list result) ≡ op_names l.0 key op }
{
    match op.place() {
        Some((at, key)) if at == l => Some(key),
        Some(_) | None => None,
    }
}
