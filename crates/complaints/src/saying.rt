//! Saying the sentence on a stream.
ghost use Rattle.std.specs.Prelude.{ℕ, List, ◌≡◌, ◌≢◌, None, OnOk, OnErr, IsErrOf};
ghost use Rattle.std.specs.Io.KnownBytes.{append_known};
ghost use Rattle.complaints.specs.Complaints.{complaint_of, fixed_of, line_by};
ghost use Rattle.lock_io.specs.Faults.{Rose};
ghost use Rattle.lock_io.specs.Whole.{AddsFront};

use crate::program::Program;
use crate::sentence::{complaint, fixed_complaint, speaker};
use crate::status::Status;
use lock_io::{Failed, Sink, write_all};
use std::alloc::Global;

/// Why a sentence wasn't said whole.
#[derive(Clone, Copy, Debug, PartialEq, Eq)]
pub enum Unsaid {
    /// Memory was wanting for a sentence that needs words of the text. Nothing was written.
    Memory,
    /// The stream failed. What it took is the front of the sentence.
    Fault,
}

/// Writes the sentence that belongs to a status and to the text that was written, as `complaint` makes it. Where memory
/// is wanting, a sentence that needs nothing of the text is written all the same.
pub fn say<K: Sink>(
    alloc: Global,
    out: &mut K,
    program: Program,
    status: Status,
    text: &[u8],
) -> Result<(), Unsaid>
    ensures said { OnOk result (K.contents out.new
        ≡ append_known (K.contents out.old) (complaint_of program status text.now)) }
    ensures front { AddsFront (K.contents out.old) (K.contents out.new)
        (complaint_of program status text.now) }
    ensures silent { IsErrOf result Unsaid.Memory → K.contents out.new ≡ K.contents out.old }
    ensures needs_text { IsErrOf result Unsaid.Memory → fixed_of program status ≡ None }
    ensures speaks { IsErrOf result Unsaid.Memory → status ≢ Status.Done }
    ensures fault { IsErrOf result Unsaid.Fault → Rose (K.faults out.old) (K.faults out.new) }
    ensures no_fault { ¬ (IsErrOf result Unsaid.Fault) → K.faults out.new ≡ K.faults out.old }
{
    match complaint(alloc, program, status, text) {
        Ok(line) => write_all(out, &line).map_err(|_| Unsaid::Fault),
        Err(_) => say_fixed(out, program, status),
    }
}

// The same without memory, where the sentence needs nothing of the text.
fn say_fixed<K: Sink>(out: &mut K, program: Program, status: Status) -> Result<(), Unsaid>
    ensures said { (text : List ℕ) → OnOk result (K.contents out.new
        ≡ append_known (K.contents out.old) (complaint_of program status text)) }
    ensures front { (text : List ℕ) → AddsFront (K.contents out.old) (K.contents out.new)
        (complaint_of program status text) }
    ensures silent { IsErrOf result Unsaid.Memory → K.contents out.new ≡ K.contents out.old }
    ensures needs_text { IsErrOf result Unsaid.Memory → fixed_of program status ≡ None }
    ensures speaks { IsErrOf result Unsaid.Memory → status ≢ Status.Done }
    ensures fault { IsErrOf result Unsaid.Fault → Rose (K.faults out.old) (K.faults out.new) }
    ensures no_fault { ¬ (IsErrOf result Unsaid.Fault) → K.faults out.new ≡ K.faults out.old }
{
    match fixed_complaint(program, status) {
        Some(sentence) => {
            write_line(out, speaker(program, status), sentence).map_err(|_| Unsaid::Fault)
        }
        None if status == Status::Done => Ok(()),
        None => Err(Unsaid::Memory),
    }
}

// Writes who speaks and a sentence, in one line.
fn write_line<K: Sink>(out: &mut K, speaker: &str, sentence: &str) -> Result<(), Failed>
    ensures written { OnOk result (K.contents out.new
        ≡ append_known (K.contents out.old) (line_by speaker.now sentence.now)) }
    ensures front { AddsFront (K.contents out.old) (K.contents out.new)
        (line_by speaker.now sentence.now) }
    ensures fault { OnErr result (Rose (K.faults out.old) (K.faults out.new)) }
    ensures no_fault { OnOk result (K.faults out.new ≡ K.faults out.old) }
{
    write_all(out, speaker.as_bytes())?;
    write_all(out, b": ")?;
    write_all(out, sentence.as_bytes())?;
    write_all(out, b"\n")
}
