//! Reading a script: from its bytes to the plan that it says, or to its first fault. Which bytes are a script and of
//! which plan, and which fault the others have, is the definition `reading_of` of `lock_model`. And writing one: from a
//! plan to its canonical text.
//!
//! - `lines` and `words` cut a source into lines, and a line into words.
//! - `numbers` reads numbers and priorities.
//! - `statement` finds out what a line says.
//! - `reader` keeps what the lines so far have made known, and tests each line by it.
//! - `fault` is the codes and the errors; other scripts, as those of ticks, have of them what they need.
//! - `meaning` says what each code means.
//! - `writer` writes a plan's canonical text.
//! - `generator` makes plans of numbers. They are proper and ordered, and their only edits are adds.
#![tactic(auto)]

ghost use Rattle.std.specs.Prelude.{◌≡◌, ℕ, List, IfOk, IfErr};
ghost use Rattle.lock_model.specs.declared.plan.Plan as plans;
ghost use Rattle.lock_model.specs.Script.{IsAccepted, IsFaulty};
ghost use Rattle.script_read.specs.Reading.{Refuses};

mod fault;
mod generator;
mod lines;
mod meaning;
mod numbers;
mod reader;
mod statement;
mod words;
mod writer;

pub use fault::{Code, ReadError, ScriptFault, test};
pub use generator::{gen_plan, generated_plans_are_ordered};
pub use lines::{split_at_byte, split_judged, split_line};
use lock_model::Plan;
pub use meaning::meaning_of;
pub use numbers::{number_of, priority_of};
use reader::Reader;
pub use reader::{has_meaning, spelled, test_bytes};
use std::alloc::Global;
pub use words::{cut_word, has_empty_word, is_word};
pub use writer::write_script;

/// The plan of a script. `Script` tells the first faulty line and its code, exactly where the bytes are no script, and
/// `Memory` comes only for want of memory.
#[tactic(auto, unfolding(lock_model::specs::Script::reading_of_lines, lock_model::specs::Script::reading_of, lock_model::specs::Script::IsAccepted, lock_model::specs::Script::IsFaulty))]
pub fn read_script(alloc: Global, bytes: &[u8]) -> Result<Plan, ReadError>
    ensures accepted { IfOk result (IsAccepted bytes.now) }
    ensures faulty { IfErr result (Refuses bytes.now) }
{
    match split_line(bytes) {
        Some((header, lines)) if is_word(header, "lockrun 1") => Reader::read(alloc, lines),
        _ => Err(Code::HEADER.at(1)),
    }
}

/// A source has at most one plan, or else one first fault, and not both.
pub fn one_plan_each()
    ensures one { (bytes : List ℕ) (a b : plans.Plan)
        → IsAccepted bytes a → IsAccepted bytes b → a ≡ b }
    ensures either { (bytes : List ℕ) (a : plans.Plan) (line code : ℕ)
        → IsAccepted bytes a → IsFaulty bytes line code → ⊥ }
{}
