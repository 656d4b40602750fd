//! Timed and interruptible sleeps, over a tick that is handed in: sleepq_timedwait_sig of subr_sleepqueue.c without a
//! clock. And scripts of such sleeps, with the text of their runs.
//!
//! - `queue`: who sleeps; the calls that put threads to sleep and wake them.
//! - `roll`: the sleepers in order of arrival, with `wheel`, the callouts by tick.
//! - `table`: the sleep queues, lent to keys or at home; `who` of a key's sleepers gets up.
//! - `plan`: what a script says. `limits` is the most of each thing.
//! - `reader`, `statement`, `numbers`: reading a script, with the codes and the tests of bytes of `script_read`.
//! - `run`: a run of a plan, and its text.
#![tactic(auto)]

ghost use Rattle.std.specs.Prelude.{IfOk, IfErr, codes};
ghost use Rattle.tick_sleep.specs.Plans.{IsProper};
ghost use Rattle.tick_sleep.specs.Script.{IsAccepted};
ghost use Rattle.tick_sleep.specs.Reading.{Refuses};

pub mod limits;
mod numbers;
mod plan;
mod queue;
mod reader;
mod roll;
mod run;
mod statement;
mod table;
mod wheel;
mod who;

pub use plan::{SleeperDecl, Slept, TickEvent, TickPlan, TickSleeper};
pub use queue::{TickQueue, times_out_in_order};
use reader::Reader;
pub use run::run_ticks;
use script_read::{Code, ReadError, is_word, split_line};
use std::alloc::Global;

/// The plan of a script of ticks. `Script` tells the first faulty line and its code, exactly where the bytes are no
/// script, and `Memory` comes only for want of memory.
#[tactic(auto, unfolding(crate::specs::Script::reading_of_lines, crate::specs::Script::reading_of, crate::specs::Script::IsAccepted, crate::specs::Script::IsFaulty))]
pub fn read_ticks(alloc: Global, bytes: &[u8]) -> Result<TickPlan, ReadError>
    ensures accepted { IfOk result (IsAccepted bytes.now) }
    ensures proper { IfOk result IsProper }
    ensures faulty { IfErr result (Refuses bytes.now) }
{
    match split_line(bytes) {
        Some((header, lines)) if is_word(header, "ticks 1") => Reader::read(alloc, lines),
        _ => Err(Code::HEADER.at(1)),
    }
}
