//! The top calls: the words of the command line and a source in, the text and a status out.
//!
//! All promise the same, of all words that they take. The words are the command line without the program's name,
//! and `command_line` says which are a form. Where the source and the sink tell their bytes:
//! - `forms`: whether the words were a form.
//! - `reads`: how much of the source was read.
//! - `read_fault`, `write_fault`: at which status which end has failed.
//! - `writes`: the status and the text that was written belong to the words and the bytes of the source.
//! - `complete`: where nothing fails, there is such a text, save for want of memory; and the run of an ordered plan's
//!   threads is done.
//! - `ordered`: no run of an ordered plan is stuck or reversed.
ghost use Rattle.std.specs.Prelude.{◌≡◌, true, false, map, IfSome, IsSome, List, ℕ};
ghost use Rattle.std.specs.String.{string_bytes};
ghost use Rattle.command_line.specs.Forms.{is_form, is_run};
ghost use Rattle.command_line.specs.Ranges.{HasRanges};
ghost use Rattle.lock_io.specs.Faults.{Rose};
ghost use Rattle.lock_model.specs.Script.{IsAccepted};
ghost use Rattle.lock_model.specs.declared.plan.Plan.{Plan};
ghost use Rattle.lock_top.specs.Calls.{NeverStops, TellsForms, WritesAll, WritesOutput};
ghost use Rattle.lock_top.specs.Output.{has_text, IsLawfulRun};
ghost use Rattle.tick_sleep.specs.Expiry.{TimesOutWhereDue};
ghost use Rattle.top_ends.specs.Calls.{ReadsBytes, TellsFaults, Wrote};
ghost use Rattle.top_ends.specs.Statuses.{reads_all};

use crate::answer::{by_threads, of_command, plainly};
use crate::serving::{Served, serve};
use command_line::LockrunArgs;
use complaints::Status;
use lock_io::{Gate, Sink, Source};
use std::alloc::Global;
use std::sync::Wait;
use std::thread::Threads;

/// What the program does: what `lockrun_live` does where the words are a form with the command `run`, and else what
/// `lockrun_plain` does.
pub fn lockrun<R: Threads + Wait + Sync, S: Source, K: Sink, G: Gate>(
    rt: &R,
    alloc: Global,
    words: &[String],
    source: &mut S,
    sink: &mut K,
    gate: &G,
) -> Status
    ensures forms { TellsForms (map string_bytes words.now) result (S.remaining source.old)
        (S.remaining source.new) }
    ensures reads { ReadsBytes result (S.remaining source.old) (S.remaining source.new) }
    ensures read_fault { TellsFaults result Status.ReadFault (S.faults source.old) (S.faults source.new) }
    ensures write_fault { TellsFaults result Status.WriteFault (K.faults sink.old) (K.faults sink.new) }
    ensures writes { WritesOutput (map string_bytes words.now) result (S.remaining source.old)
        (K.contents sink.old) (K.contents sink.new) }
    ensures complete { is_form (map string_bytes words.now) ≡ true
        → ¬ (Rose (S.faults source.old) (S.faults source.new)) → ¬ (Rose (K.faults sink.old) (K.faults sink.new))
        → WritesAll (map string_bytes words.now) result (S.remaining source.old) }
    ensures ordered { NeverStops result (S.remaining source.old) }
    ensures lawful { (bytes : List ℕ) (plan : Plan) (chains turns : ℕ)
        → IsAccepted bytes plan → IsLawfulRun plan chains turns }
    ensures timeouts { TimesOutWhereDue }
{
    lockrun_served(rt, alloc, words, source, sink, gate).status
}

/// The same, and it gives back what it read and what it made, so that nobody need keep a copy of them to say more of
/// how it ended:
/// - `source`, `kept`: the bytes of the source, where they were read to their end.
/// - `text`: the text that was written.
pub fn lockrun_served<R: Threads + Wait + Sync, S: Source, K: Sink, G: Gate>(
    rt: &R,
    alloc: Global,
    words: &[String],
    source: &mut S,
    sink: &mut K,
    gate: &G,
) -> Served
    ensures forms { TellsForms (map string_bytes words.now) result.status (S.remaining source.old)
        (S.remaining source.new) }
    ensures reads { ReadsBytes result.status (S.remaining source.old) (S.remaining source.new) }
    ensures read_fault { TellsFaults result.status Status.ReadFault (S.faults source.old) (S.faults source.new) }
    ensures write_fault { TellsFaults result.status Status.WriteFault (K.faults sink.old) (K.faults sink.new) }
    ensures writes { WritesOutput (map string_bytes words.now) result.status (S.remaining source.old)
        (K.contents sink.old) (K.contents sink.new) }
    ensures complete { is_form (map string_bytes words.now) ≡ true
        → ¬ (Rose (S.faults source.old) (S.faults source.new)) → ¬ (Rose (K.faults sink.old) (K.faults sink.new))
        → WritesAll (map string_bytes words.now) result.status (S.remaining source.old) }
    ensures ordered { NeverStops result.status (S.remaining source.old) }
    ensures source { IfSome result.source
        (λ kept. IfSome (S.remaining source.old) (λ bytes. kept.items ≡ bytes)) }
    ensures kept { reads_all result.status ≡ true → IsSome result.source }
    ensures text { has_text result.status ≡ true
        → Wrote (K.contents sink.old) (K.contents sink.new) result.text.items }
    ensures lawful { (bytes : List ℕ) (plan : Plan) (chains turns : ℕ)
        → IsAccepted bytes plan → IsLawfulRun plan chains turns }
    ensures timeouts { TimesOutWhereDue }
{
    serve(
        alloc,
        words,
        source,
        sink,
        |said: LockrunArgs, bytes: &[u8]|
            requires { HasRanges said }
        { of_command(rt, alloc, said, bytes, gate) },
    )
}

/// What the program does where no thread is started: it reads a script from the source, counts what it has, makes its
/// scheduled run or the profile of that, or runs its ticks, and writes the text to the sink. The words are any but a
/// form with the command `run`. It always returns. It takes memory until the text is made, and none from then on. With
/// whatever chains and turns, every state that the run of a plan of locks goes through is lawful, and in a run of ticks
/// a sleep times out exactly where its thread sleeps still and its due tick is reached.
pub fn lockrun_plain<S: Source, K: Sink>(
    alloc: Global,
    words: &[String],
    source: &mut S,
    sink: &mut K,
) -> Status
    requires { is_run (map string_bytes words.now) ≡ false }
    ensures forms { TellsForms (map string_bytes words.now) result (S.remaining source.old)
        (S.remaining source.new) }
    ensures reads { ReadsBytes result (S.remaining source.old) (S.remaining source.new) }
    ensures read_fault { TellsFaults result Status.ReadFault (S.faults source.old) (S.faults source.new) }
    ensures write_fault { TellsFaults result Status.WriteFault (K.faults sink.old) (K.faults sink.new) }
    ensures writes { WritesOutput (map string_bytes words.now) result (S.remaining source.old)
        (K.contents sink.old) (K.contents sink.new) }
    ensures complete { is_form (map string_bytes words.now) ≡ true
        → ¬ (Rose (S.faults source.old) (S.faults source.new)) → ¬ (Rose (K.faults sink.old) (K.faults sink.new))
        → WritesAll (map string_bytes words.now) result (S.remaining source.old) }
    ensures ordered { NeverStops result (S.remaining source.old) }
    ensures lawful { (bytes : List ℕ) (plan : Plan) (chains turns : ℕ)
        → IsAccepted bytes plan → IsLawfulRun plan chains turns }
    ensures timeouts { TimesOutWhereDue }
{
    serve(
        alloc,
        words,
        source,
        sink,
        |said: LockrunArgs, bytes: &[u8]| plainly(alloc, said, bytes),
    )
    .status
}

/// What the program does where the words are a form with the command `run`: it reads a script from the source, runs its
/// threads, each beside the others, and writes the text of that run to the sink. A take is refused in it only by the
/// order of locks that earlier takes have taught, and a sleep is halted only behind a moment at which no thread could
/// go on. The gate is asked before each operation of a thread. It waits until the threads have come to their end. It
/// takes memory until the text is made, and none from then on.
pub fn lockrun_live<R: Threads + Wait + Sync, S: Source, K: Sink, G: Gate>(
    rt: &R,
    alloc: Global,
    words: &[String],
    source: &mut S,
    sink: &mut K,
    gate: &G,
) -> Status
    requires { is_run (map string_bytes words.now) ≡ true }
    ensures forms { TellsForms (map string_bytes words.now) result (S.remaining source.old)
        (S.remaining source.new) }
    ensures reads { ReadsBytes result (S.remaining source.old) (S.remaining source.new) }
    ensures read_fault { TellsFaults result Status.ReadFault (S.faults source.old) (S.faults source.new) }
    ensures write_fault { TellsFaults result Status.WriteFault (K.faults sink.old) (K.faults sink.new) }
    ensures writes { WritesOutput (map string_bytes words.now) result (S.remaining source.old)
        (K.contents sink.old) (K.contents sink.new) }
    ensures complete { is_form (map string_bytes words.now) ≡ true
        → ¬ (Rose (S.faults source.old) (S.faults source.new)) → ¬ (Rose (K.faults sink.old) (K.faults sink.new))
        → WritesAll (map string_bytes words.now) result (S.remaining source.old) }
    ensures ordered { NeverStops result (S.remaining source.old) }
{
    serve(
        alloc,
        words,
        source,
        sink,
        |_: LockrunArgs, bytes: &[u8]| by_threads(rt, alloc, bytes, gate),
    )
    .status
}
