//! The objects of a scheduled run, and the steps that are made on them: lock words, turnstiles and sleep queues in
//! chains, the records of threads, the history so far, the tables, and the order in which classes of locks were taken.
//!
//! Each method of a `Machine` is a step of a thread (`lock_state`'s `specs/Steps.antt`), or two in a row: where the
//! objects represent a lawful state in which the step may be made, they represent the state behind it. Which steps a
//! thread makes in its turn, `step_world` says.
//!
//! - `machine`: the objects, and the steps: `locks` (gains and releases), `orders` (takes that are admitted or
//!   refused), `queues` (blocking and waking), `walks` (lending) and `notes` (entries of the history).
//! - `thread`: what the machine keeps of a thread.
#![tactic(auto)]

mod machine;
mod thread;

pub use machine::Machine;
pub use thread::Thread;
