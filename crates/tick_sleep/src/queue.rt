//! Timed and interruptible sleeps, over a tick that is handed in. A thread sleeps on a key, by a sleep queue; where it
//! sleeps for so many ticks it has a callout in the wheel, as sleep(9)'s timed forms have one of callout(9); and a
//! signal ends its sleep where it may.
ghost use Rattle.std.specs.Prelude.{◌≡◌, ◌≤◌, ◌<◌, ◌+◌, ◌^◌, ◌∷◌, [], ℕ, true, false, length, map, filter, find, nat_lt, option_map, slice_get, unwrap_or, IfOk, IfNone, IfSome, MatchOption};
ghost use Rattle.std.specs.Prelude.{List, ◌==◌, ◌&&◌};
ghost use Rattle.std.specs.List.{list_any};
ghost use Rattle.lock_model.specs.Counts.{one};
ghost use Rattle.tick_sleep.specs.Expiry.{Ascends, TimesOutWhereDue};
ghost use Rattle.tick_sleep.specs.declared.plan.TickSleeper as sleeper;
ghost use Rattle.tick_sleep.specs.Limits.{most_sleepers, greatest_key};
ghost use Rattle.tick_sleep.specs.Plans.{can_time_out};
ghost use Rattle.tick_sleep.specs.Ticks.{start, is_of, sleep_answer, behind_sleep, woken_one, behind_wake_one, woken_all, behind_wake_all, is_interruptible, behind_post, advanced, is_due, due_of, expired, sleeps, without, NoneIsDue, TimesOut};
ghost use Rattle.tick_sleep.specs.Text.{key_of};
ghost use Rattle.tick_sleep.specs.Rolls.{first_at, IsOnce};
ghost use Rattle.tick_sleep.specs.Tables.{times_home, times_lent, made_table, Wakes};
ghost use Rattle.tick_sleep.specs.declared.who.Who.TheVariants.{Thread};

use crate::limits;
use crate::plan::{SleeperDecl, Slept, TickSleeper};
use crate::roll::Roll;
use crate::table::SleepTable;
use crate::who::Who;
use lock_model::{Prio, ThreadNo};
use std::alloc::{AllocError, Global};
use std::marker::Model;

/// Who sleeps, and since which tick who doesn't any more. All memory is taken when it is made.
///
/// ```
/// let mut queue = TickQueue::make(alloc, plan.sleepers.as_slice())?;
/// queue.sleep(ThreadNo(0), 3, Some(5), false);
/// queue.advance(5);
/// assert!(rt; queue.pop_expired() == Some((ThreadNo(0), 5)));
/// ```
#[derive(Drop)]
pub struct TickQueue {
    tick: u64,
    // The buckets of the ticks up to this one are passed.
    passed: u64,
    // By thread.
    prios: Vec<Prio>,
    posted: Vec<bool>,
    roll: Roll,
    table: SleepTable,
}

impl Model for TickQueue {
    ghost use Rattle.tick_sleep.specs.Queues.{Seen, seen_queue, IsSound};

    ghost Value = { Seen };

    ghost view = { seen_queue };

    ghost invariant = { IsSound };
}

impl TickQueue {
    /// Tick 0: nobody sleeps, and no signal is posted. At most 64 sleepers are given.
    pub fn make(alloc: Global, sleepers: &[SleeperDecl]) -> Result<TickQueue, AllocError>
        requires { length sleepers.now ≤ most_sleepers }
        ensures { IfOk result (λ q. q ≡ record {
          ticks = start sleepers.now;
          table = made_table (length sleepers.now);
        }) }
    {
        Ok(TickQueue {
            tick: 0,
            passed: 0,
            prios: prios_of(alloc, sleepers)?,
            posted: vec![in alloc; false; sleepers.len()]?,
            roll: Roll::make(alloc)?,
            table: SleepTable::make(alloc, sleepers.len())?,
        })
    }

    /// A thread goes to sleep on a key. A signal ends the sleep where `sig` holds, and it times out after so many
    /// ticks, where these are given. `Asleep` comes exactly where it sleeps already, and `Interrupted` exactly where it
    /// doesn't, `sig` holds and a signal was posted to it.
    pub fn sleep(&mut self, t: ThreadNo, key: u8, ticks: Option<u32>, sig: bool) -> Slept
        requires declared { t.0 < length self.old.ticks.prios }
        requires key { key ≤ greatest_key }
        requires ticks { can_time_out ticks ≡ true }
        requires fits { IfSome ticks (λ n. self.old.ticks.tick + n < 2 ^ 64) }
        requires none_due { NoneIsDue self.old.ticks }
        ensures state { self.new.ticks ≡ behind_sleep self.old.ticks t key ticks sig }
        ensures answer { result ≡ sleep_answer self.old.ticks t.0 sig }
    {
        if self.roll.has(t) {
            return Slept::Asleep;
        }
        if is_interrupted(&self.posted, t, sig) {
            self.posted[usize::from(t.0)] = false;
            return Slept::Interrupted;
        }
        let prio = prio_of(&self.prios, t);
        let due = due_tick(self.tick, ticks);
        self.table.lie_down(t, key, prio);
        self.roll.add(TickSleeper {
            t,
            prio,
            key,
            due,
            sig,
        });
        Slept::Queued
    }

    /// Wakes the most important sleeper of a key, and of equals the one that has slept longest. `None` comes exactly
    /// where nobody sleeps on it.
    pub fn wake_one(&mut self, key: u8) -> Option<ThreadNo>
        requires key { key ≤ greatest_key }
        requires none_due { NoneIsDue self.old.ticks }
        ensures state { self.new.ticks ≡ behind_wake_one self.old.ticks key }
        ensures who { option_map (λ t. t.0) result ≡ woken_one self.old.ticks key }
    {
        let t = self.table.wake(key, Who::Best)?;
        self.roll.remove(t);
        Some(t)
    }

    /// Wakes all sleepers of a key, and tells who they were: bit `t` for the thread `t`.
    pub fn wake_all(&mut self, key: u8) -> u64
        requires key { key ≤ greatest_key }
        requires none_due { NoneIsDue self.old.ticks }
        ensures state { self.new.ticks ≡ behind_wake_all self.old.ticks key }
        ensures who { result ≡ woken_all self.old.ticks key }
    {
        self.table.wake(key, Who::All);
        self.roll.remove_key(key)
    }

    /// Posts a signal to a thread: it ends an interruptible sleep, and else it stays posted. It answers whether it
    /// ended a sleep.
    pub fn post(&mut self, t: ThreadNo) -> bool
        requires declared { t.0 < length self.old.ticks.prios }
        requires none_due { NoneIsDue self.old.ticks }
        ensures state { self.new.ticks ≡ behind_post self.old.ticks t.0 }
        ensures answer { result ≡ is_interruptible t.0 self.old.ticks.sleepers }
    {
        match self.roll.get(t) {
            Some(sleeper) if sleeper.sig => {
                end_sleep(&mut self.roll, &mut self.table, t);
                true
            }
            Some(_) | None => {
                self.posted[usize::from(t.0)] = true;
                false
            }
        }
    }

    /// So many ticks pass.
    pub fn advance(&mut self, n: u32)
        requires fits { self.old.ticks.tick + n < 2 ^ 64 }
        requires none_due { NoneIsDue self.old.ticks }
        ensures { self.new.ticks ≡ advanced self.old.ticks n }
    {
        self.tick += u64::from(n);
    }

    /// Takes the next sleeper whose due tick is reached, by due tick and then by arrival, and tells that tick. `None`
    /// comes exactly where there is none.
    pub fn pop_expired(&mut self) -> Option<(ThreadNo, u64)>
        ensures taken { IfSome result (λ r. TimesOut self.old.ticks self.new.ticks r.0 r.1) }
        ensures none { IfNone result (NoneIsDue self.old.ticks) }
        ensures kept { IfNone result (self.new.ticks ≡ self.old.ticks) }
    {
        let (passed, next) = next_due(&self.roll, self.passed, self.tick);
        self.passed = passed;
        let t = next?;
        end_sleep(&mut self.roll, &mut self.table, t);
        Some((t, passed + 1))
    }

    /// The tick that is reached.
    pub fn now(&self) -> u64
        ensures { result ≡ self.now.ticks.tick }
    {
        self.tick
    }

    /// The key on which a thread sleeps. `None` comes exactly where it doesn't sleep.
    pub fn key_of(&self, t: ThreadNo) -> Option<u8>
        ensures { result ≡ key_of t.0 self.now.ticks.sleepers }
    {
        Some(self.roll.get(t)?.key)
    }

    /// Whenever it is called, each thread's sleep queue is in exactly one place: at some thread's home, the head of a
    /// key, or on the free list of one.
    pub fn one_place_each(&self)
        ensures { (x : ℕ) → times_home x self.now.table.homes + times_lent x self.now.table.chain
            ≡ one (nat_lt x (length self.now.ticks.prios)) }
    {
        self.table.one_place_each();
    }
}

/// Which sleeps time out where a tick is reached: exactly those of sleepers whose due tick is reached, in the order of
/// their due ticks, and those of one tick in order of arrival.
pub fn times_out_in_order()
    ensures exactly { TimesOutWhereDue }
    ensures ascending { (tick : ℕ) (ss : List sleeper.TickSleeper) → Ascends (expired tick ss) }
    ensures by_arrival { (tick due : ℕ) (ss : List sleeper.TickSleeper) →
        filter (λ s. due_of s == due) (expired tick ss)
        ≡ filter (λ s. due_of s == due) (filter (is_due tick) ss) }
{}

// By thread.
fn prios_of(alloc: Global, sleepers: &[SleeperDecl]) -> Result<Vec<Prio>, AllocError>
    ensures { IfOk result (λ prios. prios.items ≡ map (λ d. d.prio) sleepers.now) }
{
    let mut prios = Vec::with_capacity(alloc, sleepers.len())?;
    for sleeper in sleepers {
        prios.push(sleeper.prio)?;
    }
    Ok(prios)
}

// Whether a signal is posted to a thread, and ends the sleep that it is to begin.
fn is_interrupted(posted: &[bool], t: ThreadNo, sig: bool) -> bool
    ensures { result ≡ (sig && unwrap_or (slice_get posted.now t.0) false) }
{
    match posted.get(usize::from(t.0)) {
        Some(is_posted) => sig && *is_posted,
        None => false,
    }
}

// The priority of a thread.
fn prio_of(prios: &[Prio], t: ThreadNo) -> Prio
    ensures { result ≡ unwrap_or (slice_get prios.now t.0) (record { 0 = 0 }) }
{
    match prios.get(usize::from(t.0)) {
        Some(prio) => *prio,
        None => Prio(0),
    }
}

// The tick at which a sleep times out that begins now.
fn due_tick(now: u64, ticks: Option<u32>) -> Option<u64>
    requires { IfSome ticks (λ n. now + n < 2 ^ 64) }
    ensures { result ≡ option_map (λ n. now + n) ticks }
{
    Some(now + u64::from(ticks?))
}

// A thread doesn't sleep any more.
fn end_sleep(roll: &mut Roll, table: &mut SleepTable, t: ThreadNo)
    ensures roll { roll.new ≡ without t.0 roll.old }
    ensures once { IsOnce roll.old }
    ensures table { MatchOption (find (is_of t.0) roll.old) (table.new ≡ table.old)
        (λ s. Wakes table.old table.new s.key (Thread t)) }
{
    if let Some(sleeper) = roll.get(t) {
        table.wake(sleeper.key, Who::Thread(t));
        roll.remove(t);
    }
}

// The last tick before the next at which somebody is due, with who is due there first; or now. Nobody is due up to the
// first of them.
fn next_due(roll: &Roll, passed: u64, now: u64) -> (u64, Option<ThreadNo>)
    requires within { passed ≤ now }
    requires none_due { filter (is_due passed) roll.now ≡ [] }
    ensures within { result.0 ≤ now }
    ensures none_due { filter (is_due result.0) roll.now ≡ [] }
    ensures none { IfNone result.1 (result.0 ≡ now) }
    ensures once { IsOnce roll.now }
    ensures some { IfSome result.1 (λ t. (result.0 < now)
        × (first_at (result.0 + 1) roll.now ≡ Some t)) }
{
    let mut passed = skipped(roll, passed, now);
    let _each_once = roll.len();
    while passed < now {
        if let Some(t) = roll.first_at(passed + 1) {
            return (passed, Some(t));
        }
        passed += 1;
    }
    (passed, None)
}

// From which tick on buckets are asked. Where more ticks pass than there may be sleepers, it costs less to ask each
// sleeper when it is due, and to begin right before the first of them.
fn skipped(roll: &Roll, passed: u64, now: u64) -> u64
    requires within { passed ≤ now }
    requires none_due { filter (is_due passed) roll.now ≡ [] }
    ensures within { result ≤ now }
    ensures none_due { filter (is_due result) roll.now ≡ [] }
{
    if now - passed <= limits::SLEEPERS as u64 {
        return passed;
    }
    let soonest = roll.soonest();
    if soonest > now {
        return now;
    }
    if soonest == 0 {
        return passed;
    }
    soonest - 1
}
