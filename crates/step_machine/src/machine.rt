//! The objects of a scheduled run: lock words, the chains of the turnstiles that are lent to locks and of the sleep
//! queues that are lent to locks and channels, the threads, the history so far and the tables. Each method is a step of
//! a thread (`lock_state`'s `specs/Steps.antt`), or two in a row.
ghost use Rattle.std.specs.Prelude.{◌≡◌, ◌<◌, ◌≤◌, ◌^◌, length, IfOk};
ghost use Rattle.lock_model.specs.Operations.{IsProper, is_endtry, next_at};
ghost use Rattle.lock_model.specs.Plans.{config_of};
ghost use Rattle.lock_state.specs.Run.{start_run};
ghost use Rattle.lock_model.specs.Config.{Config};
ghost use Rattle.lock_state.specs.State.{State};
ghost use Rattle.step_machine.specs.Runs.{RepresentsRun};
ghost use Rattle.step_machine.specs.Threads.{AreNew};
ghost use Rattle.step_machine.specs.Represents.{Represents};
ghost use Rattle.step_machine.specs.Steps.{ChangesProgress, KeepsBooks};

use crate::thread::Thread;
use chain_table::Chain;
use lock_history::{Log, Tables};
use lock_model::{OfLocks, Op, Plan, ThreadDecl, ThreadNo};
use sleep_queues::SleepQueue;
use std::alloc::{AllocError, Global};
use turnstile_core::Turnstile;
use witness_orders::Orders;

mod locks;
mod notes;
mod orders;
mod queues;
mod walks;

/// The objects between two steps.
#[derive(Drop)]
pub struct Machine {
    /// By lock: its word.
    pub words: Vec<u64>,
    /// The turnstiles that are lent to locks. There is one chain, whatever the number of slots.
    pub chain: Chain<Turnstile>,
    /// The sleep queues that are lent to sx locks and channels, in one chain too.
    pub sleepers: Chain<SleepQueue>,
    /// By thread.
    pub threads: Vec<Thread>,
    /// The entries so far, in order of their tickets.
    pub log: Log,
    /// What the locks protect.
    pub tables: Tables,
    /// The order in which classes of locks were taken.
    pub orders: Orders,
}

impl Machine {
    /// All objects at home, all locks free, no order of locks, and memory for every entry that the plan's operations
    /// can make.
    pub fn make(alloc: Global, plan: &Plan) -> Result<Machine, AllocError>
        requires { IsProper plan.now }
        ensures { IfOk result (λ m. RepresentsRun plan.now m (start_run (config_of plan.now))) }
    {
        Ok(Machine {
            words: vec![in alloc; 0; plan.locks.as_slice().len()]?,
            chain: Chain::empty(),
            sleepers: Chain::empty(),
            threads: make_threads(alloc, plan.threads.as_slice())?,
            // An operation makes two entries at most.
            log: Log::make(alloc, 2 * plan.operations_in_all())?,
            tables: Tables::make(alloc, plan)?,
            orders: Orders::make(alloc, plan.classes.as_slice().len() as u32)?,
        })
    }

    /// The thread goes on with the first of its operations from the n-th on that is no endtry: that takes no turn.
    pub fn go_on(&mut self, t: ThreadNo, ops: &[Op], n: usize)
        requires thread { t.0 < length self.old.threads.items }
        requires within { n ≤ length ops.now }
        ensures shows { (c : Config) (s : State) → Represents c self.old s
            → Represents c self.new s }
        ensures progress { ChangesProgress self.old self.new t.0
            (λ a. record a { next_op = next_at ops.now n }) }
        ensures books { KeepsBooks self.old self.new }
    {
        self.threads[usize::from(t.0)].next_op = next_at(ops, n);
    }
}

// The first operation from the n-th on that is no endtry.
fn next_at(ops: &[Op], n: usize) -> usize
    requires { n ≤ length ops.now }
    ensures { result ≡ next_at ops.now n }
{
    let behind = &ops[n..];
    n + behind.iter().take_while(|op| is_endtry(op)).count()
}

fn is_endtry(op: &Op) -> bool
    ensures { result ≡ is_endtry op.now }
{
    match op.of_locks() {
        OfLocks::ClosesBlock => true,
        OfLocks::NoLock
        | OfLocks::Acquires { .. }
        | OfLocks::Releases { .. }
        | OfLocks::EditsAt { .. }
        | OfLocks::ReadsAt { .. }
        | OfLocks::SleepsOn { .. }
        | OfLocks::WakesOn { .. } => false,
    }
}

// The threads of a plan at their begin.
fn make_threads(alloc: Global, decls: &[ThreadDecl]) -> Result<Vec<Thread>, AllocError>
    requires { length decls.now < 2 ^ 8 }
    ensures { IfOk result (λ threads. AreNew decls.now threads.items) }
{
    let mut threads = Vec::with_capacity(alloc, decls.len())?;
    for (t, decl) in decls.iter().enumerate() {
        threads.push(Thread::make(alloc, ThreadNo(t as u8), decl.base)?)?;
    }
    Ok(threads)
}
