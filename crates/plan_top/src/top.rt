//! The top call: the words of the command line and a source in, a script and the end of the call out.
//!
//! It promises, of all words that it takes (`plan_command` says which are a form), where the source and the sink tell
//! their bytes:
//! - `forms`: whether the words were a form, and how much of the source was read.
//! - `read_fault`, `write_fault`: at which status which end has failed.
//! - `writes`: what was written is the script that the source has, with the schedule that the policy makes.
//! - `fault`: at which status the bytes are no script, and what is told of them.
//! - `too_long`: at which status the script would be too long with that schedule.
//! - `complete`: where nothing fails, there is a script, a fault, or a schedule that is too long, save for want of
//!   memory.
ghost use Rattle.std.specs.Prelude.{◌≡◌, ◌≢◌, map, false, Some};
ghost use Rattle.std.specs.String.{string_bytes};
ghost use Rattle.lock_io.specs.Faults.{Rose};
ghost use Rattle.plan_command.specs.Forms.{AsksSchedule, asking_of};
ghost use Rattle.plan_top.specs.Calls.{AnswersAll, Plans, TellsForms, TellsTooLong, WritesScript};
ghost use Rattle.top_ends.specs.Calls.{ReadsBytes, TellsFaults, TellsScriptFault};
ghost use Rattle.top_ends.specs.Statuses.{writes_made};
ghost use Rattle.turn_policy.specs.declared.policy.Policy as policies;

use crate::planned::planned;
use complaints::Status;
use lock_io::{Sink, Source};
use plan_command::{Asked, WordsError, read_words};
use script_read::{ReadError, read_script};
use std::alloc::Global;
use top_ends::{Ended, read_bytes, write_text};
use turn_policy::{Policy, Unplanned};

/// What the program does: it reads a script from the source, and writes it to the sink with the schedule that a policy
/// makes; or the help, where the words ask for that. It always returns. It takes memory until the text is made, and
/// none from then on.
pub fn lockplan<S: Source, K: Sink>(
    alloc: Global,
    words: &[String],
    source: &mut S,
    sink: &mut K,
) -> Ended
    ensures forms { TellsForms (map string_bytes words.now) result.status
        (S.remaining source.old) (S.remaining source.new) }
    ensures read_fault { TellsFaults result.status Status.ReadFault
        (S.faults source.old) (S.faults source.new) }
    ensures write_fault { TellsFaults result.status Status.WriteFault
        (K.faults sink.old) (K.faults sink.new) }
    ensures writes { WritesScript (map string_bytes words.now) result.status
        (S.remaining source.old) (K.contents sink.old) (K.contents sink.new) }
    ensures fault { TellsScriptFault result.status result.fault.items (S.remaining source.old) }
    ensures too_long { (policy : policies.Policy)
        → asking_of (map string_bytes words.now) ≡ Some (AsksSchedule policy)
        → TellsTooLong policy result.status (S.remaining source.old) }
    ensures complete { (policy : policies.Policy)
        → asking_of (map string_bytes words.now) ≡ Some (AsksSchedule policy)
        → ¬ (Rose (S.faults source.old) (S.faults source.new))
        → ¬ (Rose (K.faults sink.old) (K.faults sink.new))
        → AnswersAll result.status (S.remaining source.old) }
{
    match read_words(alloc, words) {
        Ok(Asked::Schedule(policy)) => plan(alloc, policy, source, sink),
        Ok(Asked::Help(text)) => {
            Ended::with(alloc, write_text(sink, Status::Done, text.as_bytes()))
        }
        Err(WordsError::Usage) => Ended::with(alloc, Status::Usage),
        Err(WordsError::Memory) => Ended::with(alloc, Status::NoMemory),
    }
}

// Reads the source to its end, and writes its script with the schedule that the policy makes.
fn plan<S: Source, K: Sink>(alloc: Global, policy: Policy, source: &mut S, sink: &mut K) -> Ended
    ensures form { result.status ≢ Status.Usage }
    ensures reads { ReadsBytes result.status (S.remaining source.old) (S.remaining source.new) }
    ensures read_fault { TellsFaults result.status Status.ReadFault
        (S.faults source.old) (S.faults source.new) }
    ensures write_fault { TellsFaults result.status Status.WriteFault
        (K.faults sink.old) (K.faults sink.new) }
    ensures plans { Plans policy result.status
        (S.remaining source.old) (K.contents sink.old) (K.contents sink.new) }
    ensures nothing { writes_made result.status ≡ false → K.contents sink.new ≡ K.contents sink.old }
    ensures fault { TellsScriptFault result.status result.fault.items (S.remaining source.old) }
    ensures too_long { TellsTooLong policy result.status (S.remaining source.old) }
    ensures complete { ¬ (Rose (S.faults source.old) (S.faults source.new))
        → ¬ (Rose (K.faults sink.old) (K.faults sink.new))
        → AnswersAll result.status (S.remaining source.old) }
{
    let bytes = match read_bytes(alloc, source) {
        Ok(bytes) => bytes,
        Err(status) => return Ended::with(alloc, status),
    };
    let script = match read_script(alloc, &bytes) {
        Ok(script) => script,
        Err(ReadError::Script(fault)) => return Ended::by(alloc, fault),
        Err(ReadError::Memory(_)) => return Ended::with(alloc, Status::NoMemory),
    };
    match planned(alloc, script, policy) {
        Ok(text) => Ended::with(alloc, write_text(sink, Status::Done, &text)),
        Err(Unplanned::TooLong) => Ended::with(alloc, Status::TooLong),
        Err(Unplanned::Memory) => Ended::with(alloc, Status::NoMemory),
    }
}
