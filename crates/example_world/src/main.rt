//! A plan that is made of values, and its world turn by turn, in an order that no schedule says: a thread of little
//! importance holds a lock, one of great importance waits for it and lends it its priority. `docs/LIBRARY.md` goes
//! through it.
#![tactic(auto)]

ghost use Rattle.std.specs.Prelude.{IfOk};
ghost use Rattle.lock_model.specs.Operations.{IsProper};

use anyhow::{Context, Result};
use lock_model::{
    ClassNo, Kind, LockDecl, LockNo, Mode, Name, Op, Plan, Prio, Sequence, ThreadDecl, ThreadNo,
};
use script_laws::scripts::scripts_have_proper_plans;
use script_read::{read_script, write_script};
use std::alloc::Global;
use step_world::World;

const LOW: ThreadNo = ThreadNo(0);

const HIGH: ThreadNo = ThreadNo(1);

const BUS: LockNo = LockNo(0);

// Who has the turns.
const ORDER: [ThreadNo; 8] = [LOW, HIGH, HIGH, LOW, LOW, HIGH, HIGH, HIGH];

// The chains of each sort of queue.
const CHAINS: u32 = 16;

fn main(rt: HostRuntime) -> Result<()> {
    let alloc = rt.alloc();
    let plan = checked_plan(alloc)?;
    let mut world = World::make(alloc, &plan, CHAINS)?;
    run(&rt, &mut world)
}

// Makes the turns, and prints what each did.
fn run<R: Print>(rt: &R, world: &mut World<'_>) -> Result<()> {
    for &t in ORDER.iter() {
        if t.0 < world.threads() {
            let answer = world.turn(t);
            let (_, effective) = world.priorities(LOW);
            println!(rt; "thread {}: {answer:?}; low has {}", t.0, effective.0)?;
        }
    }
    let entries = world.history().len();
    println!(rt; "{entries} entries")?;
    Ok(())
}

// The plan, read again from its canonical text. Where it breaks a rule of scripts, the error says in which line.
fn checked_plan(alloc: Global) -> Result<Plan>
    ensures { IfOk result IsProper }
{
    scripts_have_proper_plans();
    let text = write_script(alloc, &two_threads(alloc)?)?;
    Ok(read_script(alloc, &text)?)
}

// Two threads that take and release a mutex.
fn two_threads(alloc: Global) -> Result<Plan> {
    let bus = LockDecl {
        name: named(b"bus")?,
        kind: Kind::Mtx,
        class: ClassNo(0),
    };
    let low = thread(alloc, b"low", Prio(200))?;
    let high = thread(alloc, b"high", Prio(10))?;
    Ok(Plan {
        classes: Sequence::from_vec(vec![in alloc; named(b"buses")?]?),
        locks: Sequence::from_vec(vec![in alloc; bus]?),
        chans: Sequence::from_vec(Vec::new(alloc)),
        threads: Sequence::from_vec(vec![in alloc; low, high]?),
        schedule: Sequence::from_vec(Vec::new(alloc)),
    })
}

fn thread(alloc: Global, name: &[u8], base: Prio) -> Result<ThreadDecl> {
    let take = Op::Take {
        l: BUS,
        mode: Mode::Excl,
    };
    Ok(ThreadDecl {
        name: named(name)?,
        base,
        ops: Sequence::from_vec(vec![in alloc; take, Op::Release { l: BUS }]?),
    })
}

fn named(name: &[u8]) -> Result<Name> {
    Name::of(name).context("no script may have that name")
}
