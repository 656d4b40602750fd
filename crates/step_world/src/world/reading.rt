//! What a world tells between two turns: its history, and what each thread, lock, key and queue is. No call changes the
//! world, and only the lines of queues take memory.
ghost use Rattle.std.specs.Prelude.{◌≡◌, ◌↔◌, ◌<◌, ◌^◌, ℕ, nat_lt, Some, length, map, reverse, slice_get, false, IfOk};
ghost use Rattle.std.specs.Option.{option_map_or};
ghost use Rattle.chain_table.specs.Chains.{head_of};
ghost use Rattle.lock_history.specs.Outcomes.{line_seen};
ghost use Rattle.lock_state.specs.State.{gained_order, State};
ghost use Rattle.lock_model.specs.Operations.{hold_in};
ghost use Rattle.lock_model.specs.Plans.{config_of};
ghost use Rattle.lock_model.specs.Queues.{stands, is_turnstile_queue};
ghost use Rattle.lock_model.specs.Words.{word_of};
ghost use Rattle.lock_model.specs.declared.plan.QueueName as names;
ghost use Rattle.lock_objects.specs.Represents.{walk_of, hold_of, wait_of};
ghost use Rattle.lock_state.specs.Facts.{Lawful};
ghost use Rattle.lock_state.specs.Run.{Run, owes, queue_lines};
ghost use Rattle.step_machine.specs.Represents as objects;
ghost use Rattle.step_world.specs.Worlds.{Represents};
ghost use Rattle.wait_objects.specs.Changes.{waits};

use super::World;
use crate::outcome::queue_lines;
use crate::turns::owes;
use chain_table::Chain;
use lock_history::QueueLine;
use lock_model::{Entry, Held, Kind, LockNo, Mode, Plan, Prio, QueueName, ThreadNo};
use lock_objects::Wait;
use prio_lending::Walk;
use std::alloc::{AllocError, Global};
use step_machine::{Machine, Thread};
use wait_objects::{Object, Own};

impl<'p> World<'p> {
    /// The entries so far, in order of their tickets. They are fewer than 2^32.
    ///
    /// ```
    /// let newest = world.history().last();
    /// ```
    pub fn history(&self) -> &[Entry]
        ensures history { (r : Run) → Represents self.now r
            → result.now ≡ reverse r.state.history }
        ensures few { length result.now < 2 ^ 32 }
    {
        self.machine.log.as_slice()
    }

    /// The base and the effective priority of a thread, which the plan declares. The effective one is the better of the
    /// base and all that is lent to the thread.
    ///
    /// ```
    /// let (base, effective) = world.priorities(ThreadNo(0));
    /// let is_lent_to = effective < base;
    /// ```
    pub fn priorities(&self, t: ThreadNo) -> (Prio, Prio)
        requires { t.0 < length self.now.plan.threads }
        ensures base { (r : Run) → Represents self.now r → result.0.0 ≡ r.state.base t.0 }
        ensures effective { (r : Run) → Represents self.now r
            → result.1.0 ≡ r.state.effective t.0 }
    {
        let record = &self.thread(t).record;
        (record.base(), record.eff())
    }

    /// Whether a thread, which the plan declares, runs, is queued or was woken.
    ///
    /// ```
    /// let waits = world.wait(ThreadNo(0)) == Wait::Queued;
    /// ```
    pub fn wait(&self, t: ThreadNo) -> Wait
        requires { t.0 < length self.now.plan.threads }
        ensures { (r : Run) → Represents self.now r → wait_of result ≡ r.state.wait t.0 }
    {
        self.thread(t).wait
    }

    /// The queue that the record of a thread, which the plan declares, names: the one on which the thread stands, or
    /// off which it was taken and from which it has yet to get its object back.
    ///
    /// ```
    /// let on_first_lock = world.blocked_on(ThreadNo(0)) == Some(QueueName::Lock(LockNo(0)));
    /// ```
    pub fn blocked_on(&self, t: ThreadNo) -> Option<QueueName>
        requires { t.0 < length self.now.plan.threads }
        ensures { (r : Run) → Represents self.now r → result ≡ r.state.blocked_on t.0 }
    {
        self.thread(t).record.on()
    }

    /// The queue in whose lists a thread, which the plan declares, stands. It stands on no other.
    ///
    /// ```
    /// let is_taken_off = world.stands_on(ThreadNo(0)) != world.blocked_on(ThreadNo(0));
    /// ```
    pub fn stands_on(&self, t: ThreadNo) -> Option<QueueName>
        requires { t.0 < length self.now.plan.threads }
        ensures { (r : Run) (q : names.QueueName) → Represents self.now r
            → result ≡ Some q ↔ 0 < stands t.0 (r.state.lists q) }
    {
        let q = self.blocked_on(t)?;
        stands(&self.machine, self.plan, q, t).then_some(q)
    }

    /// Where the lending walk of a thread, which the plan declares, stands.
    ///
    /// ```
    /// let has_walk = world.walk(ThreadNo(0)) != Walk::None;
    /// ```
    pub fn walk(&self, t: ThreadNo) -> Walk
        requires { t.0 < length self.now.plan.threads }
        ensures { (r : Run) → Represents self.now r → walk_of result ≡ r.state.walk t.0 }
    {
        self.thread(t).walk
    }

    /// Whether a thread, which the plan declares, owes something: it has a walk, somebody to wake, or a release after a
    /// wait to make.
    ///
    /// ```
    /// let sleeps = world.wait(ThreadNo(0)) == Wait::Queued && !world.owes(ThreadNo(0));
    /// ```
    pub fn owes(&self, t: ThreadNo) -> bool
        requires { t.0 < length self.now.plan.threads }
        ensures { (r : Run) → Represents self.now r
            → result ≡ owes (config_of self.now.plan) r.state t.0 }
    {
        owes(&self.machine, self.plan, t)
    }

    /// The locks that a thread, which the plan declares, holds, in order of acquisition.
    ///
    /// ```
    /// let gained_last = world.held(ThreadNo(0)).last();
    /// ```
    pub fn held(&self, t: ThreadNo) -> &[Held]
        requires { t.0 < length self.now.plan.threads }
        ensures held { (r : Run) (l : ℕ) → Represents self.now r
            → hold_in result.now l ≡ r.state.held t.0 l }
        ensures order { (r : Run) → Represents self.now r
            → r.state.held_locks t.0 ≡ gained_order result.now }
    {
        &self.thread(t).held
    }

    /// The mode in which a thread, which the plan declares, holds a lock. There is none exactly where it doesn't.
    ///
    /// ```
    /// let reads = world.mode(ThreadNo(0), LockNo(0)) == Some(Mode::Shared);
    /// ```
    pub fn mode(&self, t: ThreadNo, l: LockNo) -> Option<Mode>
        requires { t.0 < length self.now.plan.threads }
        ensures { (r : Run) → Represents self.now r → hold_of result ≡ r.state.held t.0 l.0 }
    {
        self.thread(t).mode(l)
    }

    /// The word of a lock, which the plan declares, in its 64 bits.
    ///
    /// ```
    /// let is_free = world.word(LockNo(0)) == 0;
    /// ```
    pub fn word(&self, l: LockNo) -> u64
        requires { l.0 < length self.now.plan.locks }
        ensures { (r : Run) → Represents self.now r → word_of result ≡ r.state.word l.0 }
    {
        self.machine.words[usize::from(l.0)]
    }

    /// The value at a key of a lock's table. There is none exactly where the key is absent.
    ///
    /// ```
    /// let is_set = world.value(LockNo(0), 7).is_some();
    /// ```
    pub fn value(&self, l: LockNo, key: u64) -> Option<u64>
        ensures { (r : Run) → Represents self.now r → result ≡ r.state.table l.0 key }
    {
        self.machine.tables.get(l, key)
    }

    /// The queues that aren't empty: those of the locks by number, and then those of the channels.
    ///
    /// ```
    /// let heads = world.queues(alloc)?.iter().map(|line| line.head).collect(alloc)?;
    /// ```
    pub fn queues(&self, alloc: Global) -> Result<Vec<QueueLine>, AllocError>
        ensures { IfOk result (λ lines. (r : Run) → Represents self.now r
            → map line_seen lines.items
            ≡ queue_lines self.now.chains (config_of self.now.plan) r.state) }
    {
        queue_lines(alloc, &self.machine, self.plan, self.chains)
    }

    // What the machine keeps of a thread.
    fn thread(&self, t: ThreadNo) -> &Thread
        requires { t.0 < length self.now.plan.threads }
        ensures { slice_get self.now.machine.threads.items t.0 ≡ Some result.now }
    {
        &self.machine.threads[usize::from(t.0)]
    }
}

// Whether a thread stands on a queue.
fn stands(machine: &Machine, plan: &Plan, q: QueueName, t: ThreadNo) -> bool
    ensures { (s : State) → objects.Represents (config_of plan.now) machine.now s
        → Lawful (config_of plan.now) s → result ≡ nat_lt 0 (stands t.0 (s.lists q)) }
{
    if has_turnstile(plan, q) {
        waits(&machine.chain, q, t)
    } else {
        waits(&machine.sleepers, q, t)
    }
}

// Whether what is lent to a queue is a turnstile.
fn has_turnstile(plan: &Plan, q: QueueName) -> bool
    ensures { result ≡ is_turnstile_queue (config_of plan.now) q }
{
    match q {
        QueueName::Lock(l) => match plan.lock_kind(l) {
            Kind::Mtx | Kind::Rw => true,
            Kind::Sx => false,
        },
        QueueName::Chan(_) => false,
    }
}

// Whether a thread waits on what a chain has for a queue.
fn waits<E: Own>(chain: &Chain<Object<E>>, q: QueueName, t: ThreadNo) -> bool
    ensures { result ≡ option_map_or (λ h. waits t.0 h.contents) (head_of q chain.now) false }
{
    match chain.find(q) {
        Some(head) => head.waits(t),
        None => false,
    }
}
