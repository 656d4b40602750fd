//! What the program `lockrun` does, as a library: words and a source in, a status and a text out. A program, or a face
//! for other languages, picks up its words and its streams and calls this.
//!
//! From the outside in:
//! - `top`: the calls, with everything that is promised of them.
//! - `serving`: what all commands share: reading the words and the bytes, and writing the text.
//! - `answer`: the status and the text that a command makes of the bytes.
//! - `memory`: the same of a source in memory, without words and streams.
#![tactic(auto)]

mod answer;
mod memory;
mod serving;
mod top;

pub use crate::memory::{NotStepped, step_in_memory};
pub use crate::serving::Served;
pub use crate::top::{lockrun, lockrun_live, lockrun_plain, lockrun_served};
use complaints::Program;
pub use complaints::Status;

/// The program, as its sentences name it.
pub const LOCKRUN: Program = Program {
    name: "lockrun",
    form: "lockrun check|step|run|ticks|profile [--chains N] [--turns N] < SCRIPT",
    too_long: "the turns were used up before all threads had ended",
};
