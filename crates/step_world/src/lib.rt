//! The scheduled run: one thread of control gives the threads of a plan their turns, and each turn is made on the very
//! objects that block threads in FreeBSD, those of `step_machine`: lock words, turnstiles in chains, and the records of
//! threads.
//!
//! A turn is the first action that fits (`lock_state`'s `specs/Run.antt`), and an action is a list of steps: a
//! thread first makes its lending walk, then wakes those that it took off a queue, then waits, resumes, or makes its
//! next operation. `run_laws` shows that each step may be made and keeps the state lawful. `step_machine` shows
//! that each method of the machine is a step, and this crate that a turn calls the methods of its action.
//!
//! A take's first turn checks the order of its lock in the graph of `witness_orders`. Where it is refused, its thread
//! is cut: it makes no other operation, gives back what it holds, the lock gained last first, and ends.
//!
//! - `world`: the world and its turns. After `World::make` no turn takes memory.
//! - `schedule`: the run by a plan's schedule and then in rounds, to its outcome.
//! - `turns`: one function an action: which steps a thread makes in its turn.
//! - `threads`: sets of threads, as who is known to sleep.
//! - `outcome`: what is printed of a run.
#![tactic(auto)]

mod outcome;
mod schedule;
mod threads;
mod turns;
mod world;

pub use lock_model::{StepKind, Turn};
pub use lock_objects::Wait;
pub use prio_lending::Walk;
pub use schedule::{Course, run_schedule};
pub use world::World;
