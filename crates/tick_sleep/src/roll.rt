//! Who sleeps, in order of arrival, with the wheel of their callouts.
ghost use Rattle.std.specs.Prelude.{◌≡◌, ◌<◌, ◌≤◌, ◌++◌, ◌∷◌, [], ℕ, true, false, length, map, option_map, find, position, filter, vec_capacity, IfOk};
ghost use Rattle.lock_state.specs.Steps.LockWords.{bits_of_threads};
ghost use Rattle.tick_sleep.specs.Limits.{most_sleepers};
ghost use Rattle.tick_sleep.specs.Ticks.{is_due, is_of, is_on, is_reached, on_key, off_key, sleeps, without};
ghost use Rattle.tick_sleep.specs.Rolls.{first_at, IsOnce};

use crate::limits;
use crate::plan::TickSleeper;
use crate::wheel::{Callout, Wheel};
use lock_model::ThreadNo;
use std::alloc::{AllocError, Global};
use std::marker::Model;

/// The sleepers in order of arrival. Each is there once.
#[derive(Drop)]
pub(crate) struct Roll {
    sleepers: Vec<TickSleeper>,
    wheel: Wheel,
}

impl Model for Roll {
    ghost use Rattle.std.specs.Prelude.{List};
    ghost use Rattle.tick_sleep.specs.declared.plan.TickSleeper.{TickSleeper};
    ghost use Rattle.tick_sleep.specs.RollFacts.{IsSound};

    ghost Value = { List TickSleeper };

    ghost view = { λ r. r.sleepers.items };

    ghost invariant = { IsSound };
}

impl Roll {
    /// Nobody sleeps. There is room for so many as there may be.
    pub(crate) fn make(alloc: Global) -> Result<Roll, AllocError>
        ensures { IfOk result (λ r. r ≡ []) }
    {
        Ok(Roll {
            sleepers: Vec::with_capacity(alloc, limits::SLEEPERS)?,
            wheel: Wheel::make(alloc)?,
        })
    }

    /// Adds a sleeper behind the others.
    pub(crate) fn add(&mut self, sleeper: TickSleeper)
        requires room { length self.old < most_sleepers }
        requires absent { sleeps sleeper.t.0 self.old ≡ false }
        ensures { self.new ≡ self.old ++ sleeper ∷ [] }
    {
        push_last(&mut self.sleepers, sleeper);
        if let Some(due) = sleeper.due {
            self.wheel.put(Callout { t: sleeper.t, due });
        }
    }

    /// Takes a thread out, if it sleeps.
    pub(crate) fn remove(&mut self, t: ThreadNo)
        ensures left { self.new ≡ without t.0 self.old }
        ensures once { IsOnce self.old }
    {
        if let Some(sleeper) = remove_first(&mut self.sleepers, t) {
            if let Some(due) = sleeper.due {
                self.wheel.remove(t, due);
            }
        }
    }

    /// Takes all sleepers of a key out, and tells who they were, as a set of bits.
    pub(crate) fn remove_key(&mut self, key: u8) -> u64
        requires { (t : ℕ) → sleeps t self.old ≡ true → t < most_sleepers }
        ensures left { self.new ≡ off_key key self.old }
        ensures once { IsOnce self.old }
        ensures taken { result ≡ bits_of_threads (map (λ s. s.t.0) (on_key key self.old)) }
    {
        let mut woken: u64 = 0;
        let _each_once = self.len();
        while let Some(t) = self.first_on(key) {
            woken += 1_u64 << t.0;
            self.remove(t);
        }
        woken
    }

    /// How many sleep. Each thread is there once.
    pub(crate) fn len(&self) -> usize
        ensures len { result ≡ length self.now }
        ensures once { IsOnce self.now }
    {
        self.sleepers.len()
    }

    /// Whether a thread sleeps.
    pub(crate) fn has(&self, t: ThreadNo) -> bool
        ensures sleeps { result ≡ sleeps t.0 self.now }
        ensures once { IsOnce self.now }
    {
        self.sleepers.iter().any(|s| s.t == t)
    }

    /// The sleeper of a thread, if it sleeps.
    pub(crate) fn get(&self, t: ThreadNo) -> Option<TickSleeper>
        ensures found { result ≡ find (is_of t.0) self.now }
        ensures once { IsOnce self.now }
    {
        sleeper_of(&self.sleepers, t)
    }

    /// The thread that has slept longest on a key.
    pub(crate) fn first_on(&self, key: u8) -> Option<ThreadNo>
        ensures first { result ≡ option_map (λ s. s.t) (find (is_on key) self.now) }
        ensures once { IsOnce self.now }
    {
        let sleeper = self.sleepers.iter().find(|s| s.key == key)?;
        Some(sleeper.t)
    }

    /// The thread that has slept longest of those that are due at a tick.
    pub(crate) fn first_at(&self, tick: u64) -> Option<ThreadNo>
        ensures first { result ≡ first_at tick self.now }
        ensures once { IsOnce self.now }
    {
        self.wheel.first(tick)
    }

    /// The least due tick, or the greatest number where nobody has one.
    pub(crate) fn soonest(&self) -> u64
        ensures { (tick : ℕ) → tick < result → filter (is_due tick) self.now ≡ [] }
    {
        soonest_of(&self.sleepers)
    }
}

// Adds a sleeper, for which there is memory.
fn push_last(sleepers: &mut Vec<TickSleeper>, sleeper: TickSleeper)
    requires { length sleepers.old.items < vec_capacity sleepers.old }
    ensures items { sleepers.new.items ≡ sleepers.old.items ++ sleeper ∷ [] }
    ensures room { vec_capacity sleepers.old ≤ vec_capacity sleepers.new }
{
    sleepers.push(sleeper).unwrap();
}

// The place of the first sleeper that is of a thread.
fn place_of(sleepers: &[TickSleeper], t: ThreadNo) -> Option<usize>
    ensures { result ≡ position (is_of t.0) sleepers.now }
{
    sleepers.iter().position(|s| s.t == t)
}

// The first sleeper that is of a thread, if there is one.
fn sleeper_of(sleepers: &[TickSleeper], t: ThreadNo) -> Option<TickSleeper>
    ensures { result ≡ find (is_of t.0) sleepers.now }
{
    let place = place_of(sleepers, t)?;
    Some(sleepers[place])
}

// Takes the first sleeper that is of a thread out, if there is one.
fn remove_first(sleepers: &mut Vec<TickSleeper>, t: ThreadNo) -> Option<TickSleeper>
    ensures taken { result ≡ find (is_of t.0) sleepers.old.items }
    ensures left { sleepers.new.items ≡ without t.0 sleepers.old.items }
    ensures room { vec_capacity sleepers.new ≡ vec_capacity sleepers.old }
{
    let place = place_of(sleepers, t)?;
    Some(sleepers.remove(place))
}

// The least due tick of sleepers, or the greatest number where none has one.
fn soonest_of(sleepers: &[TickSleeper]) -> u64
    ensures { (tick : ℕ) → tick < result → filter (is_due tick) sleepers.now ≡ [] }
{
    let mut soonest = u64::MAX;
    for sleeper in sleepers {
        soonest = sooner(soonest, sleeper.due);
    }
    soonest
}

// The lesser of two ticks, where there are two.
fn sooner(tick: u64, due: Option<u64>) -> u64
    ensures { (n : ℕ) → n < result → (n < tick) × (is_reached n due ≡ false) }
{
    match due {
        Some(due) => tick.min(due),
        None => tick,
    }
}
