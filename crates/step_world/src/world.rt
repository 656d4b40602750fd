//! The world of a scheduled run, and its turns.
ghost use Rattle.std.specs.Prelude.{◌≡◌, ◌⊎◌, ◌↔◌, ◌≤◌, ◌<◌, true, false, length, option_map, IfOk, IfSome};
ghost use Rattle.lock_state.specs.Facts.{LawfulTurn, Ordered};
ghost use Rattle.lock_model.specs.Operations.{IsProper};
ghost use Rattle.lock_model.specs.Plans.{config_of};
ghost use Rattle.lock_state.specs.Run.{Run, start_run, turn_of, run_behind, has_ended};
ghost use Rattle.run_laws.specs.OnTrack.{IsSleeping};
ghost use Rattle.lock_state.specs.Best.{HasBest, HasCycle};
ghost use Rattle.lock_objects.specs.Marked.{places_of};
ghost use Rattle.step_world.specs.Worlds.{IsSound, Represents, first_marked, first_thread};

use crate::turns::{act, turn};
use lock_model::{Plan, ThreadNo, Turn};
use lock_objects::{Marked, Wait};
use std::alloc::{AllocError, Global};
use std::marker::Model;
use step_machine::Machine;

mod reading;

/// A scheduled run between two turns. Its state is lawful: it represents a run of its plan that is on track.
pub struct World<'p> {
    plan: &'p Plan,
    chains: u32,
    machine: Machine,
}

// One call, which the crates above cite. They would each prove again how every object in it is dropped, were it
// derived.
impl Drop for World<'_> {
    fn drop(self) {
        let World {
            plan: _,
            chains: _,
            machine: _,
        } = self;
    }
}

impl<'p> Model for World<'p> {
    ghost use Rattle.step_world.specs.Worlds.{World as Seen, IsSound};
    ghost use Rattle.step_machine.specs.contracts.machine.Machine as machines;
    ghost use Rattle.std.specs.Coded.{codes};

    ghost Value = { Seen };

    ghost coded = { Prim.hlevel (codes, machines.the_row.coded) };

    ghost view = { λ w. record {
      plan = w.plan.now;
      chains = w.chains;
      machine = w.machine;
    } };

    ghost invariant = { λ w. IsSound (record {
      plan = w.plan.now;
      chains = w.chains;
      machine = w.machine;
    }) };
}

impl<'p> World<'p> {
    /// The beginning of a run, with all memory that its turns will need. There are 1 to 64 chains of each sort. The
    /// plan is one that some script gives.
    pub fn make(alloc: Global, plan: &'p Plan, chains: u32) -> Result<World<'p>, AllocError>
        requires proper { IsProper plan.now }
        requires some_chains { 1 ≤ chains }
        requires few_chains { chains ≤ 64 }
        ensures plan { IfOk result (λ w. w.plan ≡ plan.now) }
        ensures chains { IfOk result (λ w. w.chains ≡ chains) }
        ensures begins { IfOk result (λ w. Represents w (start_run (config_of plan.now))) }
    {
        let machine = Machine::make(alloc, plan)?;
        Ok(World {
            plan,
            chains,
            machine,
        })
    }

    /// The world again whose objects these are, with its plan and its number of chains. It takes no memory.
    ///
    /// ```
    /// let world = World::of_machine(&plan, 16, world.into_machine());
    /// ```
    pub fn of_machine(plan: &'p Plan, chains: u32, machine: Machine) -> World<'p>
        requires { IsSound (record {
          plan = plan.now;
          chains = chains;
          machine = machine;
        }) }
        ensures { result ≡ record {
          plan = plan.now;
          chains = chains;
          machine = machine;
        } }
    {
        World {
            plan,
            chains,
            machine,
        }
    }

    /// Makes one turn of a thread, which the plan declares: the first action that fits, with its answer.
    /// `Ended` comes exactly where the thread has ended, and `Idle` exactly where it sleeps: it hasn't ended, its wait
    /// word says Queued, and it owes nothing. Both change nothing. Locks are held and wanted in the order that was
    /// admitted, so no threads wait in a cycle. It takes no memory.
    pub fn turn(&mut self, t: ThreadNo) -> Turn
        requires { t.0 < length self.old.plan.threads }
        ensures plan { self.new.plan ≡ self.old.plan }
        ensures chains { self.new.chains ≡ self.old.chains }
        ensures answer { (r : Run) → Represents self.old r
            → result ≡ (turn_of self.old.plan r t.0).answer }
        ensures turn { (r : Run) → Represents self.old r
            → Represents self.new (run_behind self.old.plan r t.0) }
        ensures idle { (r : Run) → Represents self.old r
            → result ≡ Turn.Idle ↔ IsSleeping self.old.plan r t.0 }
        ensures ended { (r : Run) → Represents self.old r
            → result ≡ Turn.Ended ↔ has_ended self.old.plan r t.0 ≡ true }
        ensures unchanged { (result ≡ Turn.Idle) ⊎ (result ≡ Turn.Ended) → self.new ≡ self.old }
        ensures lawful { (r : Run) × Represents self.new r
            × LawfulTurn (config_of self.new.plan) r.state }
        ensures ordered { (r : Run) → Represents self.new r
            → Ordered (config_of self.new.plan) r.state }
        ensures no_cycle { (r : Run) → Represents self.new r → HasCycle r.state → ⊥ }
        ensures best { (r : Run) → Represents self.new r
            → HasBest (config_of self.new.plan) r.state }
    {
        let world: &mut World<'p> = self;
        turn(&mut world.machine, world.plan, t)
    }

    /// The same for one that hasn't ended.
    pub(crate) fn act(&mut self, t: ThreadNo) -> Turn
        requires thread { t.0 < length self.old.plan.threads }
        requires going { (r : Run) → Represents self.old r
            → has_ended self.old.plan r t.0 ≡ false }
        ensures plan { self.new.plan ≡ self.old.plan }
        ensures chains { self.new.chains ≡ self.old.chains }
        ensures answer { (r : Run) → Represents self.old r
            → result ≡ (turn_of self.old.plan r t.0).answer }
        ensures turn { (r : Run) → Represents self.old r
            → Represents self.new (run_behind self.old.plan r t.0) }
        ensures unchanged { (result ≡ Turn.Idle) ⊎ (result ≡ Turn.Ended) → self.new ≡ self.old }
    {
        let world: &mut World<'p> = self;
        act(&mut world.machine, world.plan, t)
    }

    /// Whom a thread, which the plan declares, wakes next: the first of those that it took off a queue.
    pub(crate) fn wakes_next(&self, t: ThreadNo) -> Option<ThreadNo>
        requires { t.0 < length self.now.plan.threads }
        ensures next { (r : Run) → Represents self.now r
            → option_map (λ u. u.0) result ≡ first_marked (r.state.marked t.0) }
        ensures thread { IfSome result (λ u. u.0 < length self.now.plan.threads) }
    {
        first_of(&self.machine.threads[usize::from(t.0)].marked)
    }

    /// Whether a thread, which the plan declares, sleeps: it hasn't ended, its wait word says Queued, and it owes
    /// nothing.
    pub(crate) fn sleeps(&self, t: ThreadNo) -> bool
        requires { t.0 < length self.now.plan.threads }
        ensures { (r : Run) → Represents self.now r
            → result ≡ true ↔ IsSleeping self.now.plan r t.0 }
    {
        match self.wait(t) {
            Wait::Queued => !self.owes(t) && !self.has_ended(t),
            Wait::Running | Wait::Woken(_) => false,
        }
    }

    /// Whether a thread, which the plan declares, has ended: its operations are done or cut, it owes nothing and holds
    /// nothing.
    pub fn has_ended(&self, t: ThreadNo) -> bool
        requires { t.0 < length self.now.plan.threads }
        ensures { (r : Run) → Represents self.now r → result ≡ has_ended self.now.plan r t.0 }
    {
        self.machine.threads[usize::from(t.0)].has_ended(self.plan.operations_of(t))
    }

    /// The number of threads.
    pub fn threads(&self) -> u8
        ensures number { result ≡ length self.now.plan.threads }
        ensures few { result ≤ 32 }
    {
        self.machine.threads.len() as u8
    }

    /// The number of locks.
    pub fn locks(&self) -> u8
        ensures number { result ≡ length self.now.plan.locks }
    {
        self.machine.words.len() as u8
    }

    /// The objects, to be told of.
    pub(crate) fn machine(&self) -> &Machine
        ensures { result.now ≡ self.now.machine }
    {
        &self.machine
    }

    /// The objects, which let go of the plan: `of_machine` makes the world of them again.
    pub fn into_machine(self) -> Machine
        ensures objects { result ≡ self.entry.machine }
        ensures sound { IsSound self.entry }
    {
        let World {
            plan: _,
            chains: _,
            machine,
        } = self;
        machine
    }
}

// Who is the first of a marked list.
fn first_of(marked: &Marked) -> Option<ThreadNo>
    ensures { option_map (λ u. u.0) result ≡ first_thread (places_of marked.now) }
{
    match marked {
        Marked::Waiters(waiters) => Some(waiters.first()?.thread()),
        Marked::Sleepers(sleepers) => Some(sleepers.first()?.thread()),
        Marked::AbortedSleepers(sleepers) => Some(sleepers.first()?.thread()),
    }
}
