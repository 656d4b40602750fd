//! A world that owns its plan.
ghost use Rattle.std.specs.Prelude.{◌≡◌, ◌⊎◌, ◌↔◌, ◌≤◌, ◌<◌, true, length, IfErr, IfOk, IsOk};
ghost use Rattle.lock_model.specs.Operations.{IsProper};
ghost use Rattle.lock_model.specs.Plans.{config_of};
ghost use Rattle.lock_state.specs.Best.{HasBest, HasCycle};
ghost use Rattle.lock_state.specs.Facts.{LawfulTurn};
ghost use Rattle.lock_state.specs.Run.{Run, has_ended, run_behind, start_run, turn_of};
ghost use Rattle.run_laws.specs.OnTrack.{IsSleeping};
ghost use Rattle.step_world.specs.Worlds.{IsSound, Represents};
ghost use Rattle.turn_calls.specs.Openings.{IsRead, StandsAgainst};
ghost use Rattle.turn_calls.specs.Tellings.{IsToldOf};
ghost use Rattle.turn_calls.specs.Texts.{text_of_run};
ghost use Rattle.turn_calls.specs.declared.threads.ThreadState.TheVariants as states;

use crate::opening::{NotOpened, plan_of};
use crate::text::{print_with, shown_of};
use crate::threads::{NoThread, ThreadNow, thread_now};
use lock_model::{Plan, ThreadNo, Turn};
use script_laws::scripts::scripts_have_proper_plans;
use std::alloc::{AllocError, Global};
use std::marker::Model;
use step_machine::Machine;
use step_world::World;

/// The world of a script between two turns, with the script's plan.
///
/// ```
/// let (world, answer) = OpenWorld::open(alloc, script, 16)?.turn(0);
/// ```
pub struct OpenWorld {
    plan: Plan,
    chains: u32,
    machine: Machine,
}

// A machine owns much: so letting go of a world is one call, wherever that is done.
impl Drop for OpenWorld {
    fn drop(self) {
        let OpenWorld {
            plan: _,
            chains: _,
            machine: _,
        } = self;
    }
}

impl Model for OpenWorld {
    ghost use Rattle.step_world.specs.Worlds.{World as Seen, IsSound};
    ghost use Rattle.step_machine.specs.contracts.machine.Machine as machines;
    ghost use Rattle.std.specs.Coded.{codes};

    ghost Value = { Seen };

    ghost coded = { Prim.hlevel (codes, machines.the_row.coded) };

    ghost view = { λ w. record {
      plan = w.plan;
      chains = w.chains;
      machine = w.machine;
    } };

    ghost invariant = { λ w. IsSound (record {
      plan = w.plan;
      chains = w.chains;
      machine = w.machine;
    }) };
}

impl OpenWorld {
    /// Opens the world of a script before its first turn, with so many chains of each sort, of which only the slots of
    /// queues tell. It has all memory that its turns will need. Where none is opened, it says what stands against that;
    /// and where nothing does but want of memory, `NoMemory`.
    pub fn open(alloc: Global, script: &[u8], chains: u32) -> Result<OpenWorld, NotOpened>
        ensures plan { IfOk result (λ w. IsRead script.now chains w.plan) }
        ensures chains { IfOk result (λ w. w.chains ≡ chains) }
        ensures begins { IfOk result (λ w. Represents w (start_run (config_of w.plan))) }
        ensures against { IfErr result (StandsAgainst script.now chains) }
    {
        scripts_have_proper_plans();
        let plan = plan_of(alloc, script, chains)?;
        match begin(alloc, &plan, chains) {
            Err(_) => Err(NotOpened::NoMemory),
            Ok(machine) => Ok(OpenWorld {
                plan,
                chains,
                machine,
            }),
        }
    }

    /// The plan of its script: names, kinds, operations, and the schedule, which nobody need keep.
    pub fn plan(&self) -> &Plan
        ensures { result.now ≡ self.now.plan }
    {
        &self.plan
    }

    /// A thread has a turn: the first action that fits, with its answer. It is refused exactly where the plan declares
    /// no thread of that number. `Ended` comes exactly where the thread has ended, and `Idle` exactly where it sleeps.
    pub fn turn(self, t: u8) -> (OpenWorld, Result<Turn, NoThread>)
        ensures may { IsOk result.1 ↔ t < length self.plan.threads }
        ensures refused { IfErr result.1 (λ why. result.0 ≡ self) }
        ensures plan { result.0.plan ≡ self.plan }
        ensures chains { result.0.chains ≡ self.chains }
        ensures answer { IfOk result.1 (λ answer. (r : Run) → Represents self r
            → answer ≡ (turn_of self.plan r t).answer) }
        ensures turn { IfOk result.1 (λ answer. (r : Run) → Represents self r
            → Represents result.0 (run_behind self.plan r t)) }
        ensures idle { IfOk result.1 (λ answer. (r : Run) → Represents self r
            → answer ≡ Turn.Idle ↔ IsSleeping self.plan r t) }
        ensures ended { IfOk result.1 (λ answer. (r : Run) → Represents self r
            → answer ≡ Turn.Ended ↔ has_ended self.plan r t ≡ true) }
        ensures unchanged { IfOk result.1 (λ answer. (answer ≡ Turn.Idle) ⊎ (answer ≡ Turn.Ended)
            → result.0 ≡ self) }
        ensures lawful { (r : Run) × Represents result.0 r
            × LawfulTurn (config_of result.0.plan) r.state }
    {
        let OpenWorld {
            plan,
            chains,
            machine,
        } = self;
        let mut world = World::of_machine(&plan, chains, machine);
        let answer = turn(&mut world, t);
        let machine = world.into_machine();
        let behind = OpenWorld {
            plan,
            chains,
            machine,
        };
        (behind, answer)
    }

    /// What a thread is between two turns. It is refused exactly where the plan declares none of that number.
    pub fn thread(self, t: u8) -> (OpenWorld, Result<ThreadNow, NoThread>)
        ensures unchanged { result.0 ≡ self }
        ensures may { IsOk result.1 ↔ t < length self.plan.threads }
        ensures told { IfOk result.1 (λ now. (r : Run) → Represents self r
            → IsToldOf self.plan r t now) }
        ensures idle { IfOk result.1 (λ now. (r : Run) → Represents self r
            → now.state ≡ states.Idle ↔ IsSleeping self.plan r t) }
        ensures ended { IfOk result.1 (λ now. (r : Run) → Represents self r
            → now.state ≡ states.Ended ↔ has_ended self.plan r t ≡ true) }
    {
        let OpenWorld {
            plan,
            chains,
            machine,
        } = self;
        let world = World::of_machine(&plan, chains, machine);
        let told = thread(&world, t);
        let machine = world.into_machine();
        let same = OpenWorld {
            plan,
            chains,
            machine,
        };
        (same, told)
    }

    /// The text of the run as it stands: the one that `lockrun step` prints where its last turn was the last one here.
    /// It fails only where memory runs out.
    pub fn text(self, alloc: Global) -> (OpenWorld, Result<Vec<u8>, AllocError>)
        ensures unchanged { result.0 ≡ self }
        ensures text { IfOk result.1 (λ text. (r : Run) → Represents self r
            → text.items ≡ text_of_run self.plan self.chains r) }
    {
        let OpenWorld {
            plan,
            chains,
            machine,
        } = self;
        let world = World::of_machine(&plan, chains, machine);
        let shown = shown_of(alloc, &world);
        let machine = world.into_machine();
        let (machine, text) = match shown {
            Err(e) => (machine, Err(e)),
            Ok(shown) => print_with(alloc, &plan, shown, machine),
        };
        let same = OpenWorld {
            plan,
            chains,
            machine,
        };
        (same, text)
    }
}

// The objects of the world of a plan before its first turn.
fn begin(alloc: Global, plan: &Plan, chains: u32) -> Result<Machine, AllocError>
    requires proper { IsProper plan.now }
    requires some_chains { 1 ≤ chains }
    requires few_chains { chains ≤ 64 }
    ensures begins { IfOk result (λ m. Represents (record {
      plan = plan.now;
      chains = chains;
      machine = m;
    }) (start_run (config_of plan.now))) }
    ensures sound { IfOk result (λ m. IsSound (record {
      plan = plan.now;
      chains = chains;
      machine = m;
    })) }
{
    let world = World::make(alloc, plan, chains)?;
    Ok(world.into_machine())
}

// A turn of a thread, if there is such a one.
fn turn(world: &mut World<'_>, t: u8) -> Result<Turn, NoThread>
    ensures may { IsOk result ↔ t < length world.old.plan.threads }
    ensures refused { IfErr result (λ why. world.new ≡ world.old) }
    ensures plan { world.new.plan ≡ world.old.plan }
    ensures chains { world.new.chains ≡ world.old.chains }
    ensures answer { IfOk result (λ answer. (r : Run) → Represents world.old r
        → answer ≡ (turn_of world.old.plan r t).answer) }
    ensures turn { IfOk result (λ answer. (r : Run) → Represents world.old r
        → Represents world.new (run_behind world.old.plan r t)) }
    ensures idle { IfOk result (λ answer. (r : Run) → Represents world.old r
        → answer ≡ Turn.Idle ↔ IsSleeping world.old.plan r t) }
    ensures ended { IfOk result (λ answer. (r : Run) → Represents world.old r
        → answer ≡ Turn.Ended ↔ has_ended world.old.plan r t ≡ true) }
    ensures unchanged { IfOk result (λ answer. (answer ≡ Turn.Idle) ⊎ (answer ≡ Turn.Ended)
        → world.new ≡ world.old) }
{
    if t >= world.threads() {
        return Err(NoThread);
    }
    Ok(world.turn(ThreadNo(t)))
}

// What a thread is, if there is such a one.
fn thread(world: &World<'_>, t: u8) -> Result<ThreadNow, NoThread>
    ensures may { IsOk result ↔ t < length world.now.plan.threads }
    ensures told { IfOk result (λ now. (r : Run) → Represents world.now r
        → IsToldOf world.now.plan r t now) }
    ensures idle { IfOk result (λ now. (r : Run) → Represents world.now r
        → now.state ≡ states.Idle ↔ IsSleeping world.now.plan r t) }
    ensures ended { IfOk result (λ now. (r : Run) → Represents world.now r
        → now.state ≡ states.Ended ↔ has_ended world.now.plan r t ≡ true) }
{
    if t >= world.threads() {
        return Err(NoThread);
    }
    Ok(thread_now(world, ThreadNo(t)))
}
