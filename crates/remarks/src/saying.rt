//! Saying the sentence of a status on a stream, and the lines below it.
ghost use Rattle.std.specs.Prelude.{◌≡◌, ◌≢◌, ◌++◌, [], IfOk, OnErr, OnOk, IsErrOf};
ghost use Rattle.std.specs.Io.KnownBytes.{append_known};
ghost use Rattle.complaints.specs.Complaints.{complaint_of};
ghost use Rattle.lock_io.specs.Faults.{Rose};
ghost use Rattle.lock_io.specs.Whole.{AddsFront};
ghost use Rattle.remarks.specs.Remarks.{AreRemarks, Text};

use crate::by_status::remarks;
use crate::shape::shaped;
use complaints::{Program, Status, Unsaid, say};
use lock_io::{Sink, write_all};
use std::alloc::{AllocError, Global};

/// Writes the sentence that belongs to a status and to the text that was written, and the lines below it that the
/// source has to it. Where the source isn't known any more, or memory is wanting for them, the sentence stands alone.
pub fn tell<K: Sink>(
    alloc: Global,
    out: &mut K,
    program: Program,
    status: Status,
    source: Option<&[u8]>,
    text: &[u8],
) -> Result<(), Unsaid>
    ensures said { OnOk result ((more : Text) × AreRemarks 8 more
        × (K.contents out.new ≡ append_known (K.contents out.old)
        (complaint_of program status text.now ++ more))) }
    ensures front { (more : Text) × AreRemarks 8 more
        × AddsFront (K.contents out.old) (K.contents out.new)
        (complaint_of program status text.now ++ more) }
    ensures silent { IsErrOf result Unsaid.Memory → K.contents out.new ≡ K.contents out.old }
    ensures speaks { IsErrOf result Unsaid.Memory → status ≢ Status.Done }
    ensures fault { IsErrOf result Unsaid.Fault → Rose (K.faults out.old) (K.faults out.new) }
    ensures no_fault { ¬ (IsErrOf result Unsaid.Fault) → K.faults out.new ≡ K.faults out.old }
{
    say(alloc, out, program, status, text)?;
    let Some(source) = source else {
        return Ok(());
    };
    match remarks(alloc, status, source, text) {
        Ok(more) => write_all(out, &more).map_err(|_| Unsaid::Fault),
        Err(_) => Ok(()),
    }
}

/// Writes the form of a program's command line, and below it what is wrong with the words and a line for each word that
/// may stand there. Where memory is wanting for these, the form stands alone.
pub fn tell_usage<K: Sink>(
    alloc: Global,
    out: &mut K,
    program: Program,
    mistake: Result<Option<String>, AllocError>,
    help: &[&str],
) -> Result<(), Unsaid>
    ensures said { OnOk result ((more : Text) × AreRemarks 8 more
        × (K.contents out.new ≡ append_known (K.contents out.old)
        (complaint_of program Status.Usage [] ++ more))) }
    ensures front { (more : Text) × AreRemarks 8 more
        × AddsFront (K.contents out.old) (K.contents out.new)
        (complaint_of program Status.Usage [] ++ more) }
    ensures fault { OnErr result (Rose (K.faults out.old) (K.faults out.new)) }
    ensures no_fault { OnOk result (K.faults out.new ≡ K.faults out.old) }
{
    say(alloc, out, program, Status::Usage, b"")?;
    match usage_lines(alloc, mistake, help) {
        Ok(more) => write_all(out, &more).map_err(|_| Unsaid::Fault),
        Err(_) => Ok(()),
    }
}

fn usage_lines(
    alloc: Global,
    mistake: Result<Option<String>, AllocError>,
    help: &[&str],
) -> Result<Vec<u8>, AllocError>
    ensures { IfOk result (λ said. AreRemarks 8 said.items) }
{
    let mut lines = Vec::new(alloc);
    push_usage(alloc, &mut lines, mistake, help)?;
    shaped(alloc, &lines)
}

fn push_usage(
    alloc: Global,
    lines: &mut Vec<String>,
    mistake: Result<Option<String>, AllocError>,
    help: &[&str],
) -> Result<(), AllocError> {
    if let Some(mistake) = mistake? {
        push_line(alloc, lines, "    ", mistake.as_str())?;
    }
    for line in help {
        push_line(alloc, lines, "      ", line)?;
    }
    Ok(())
}

// A line more: a text behind blanks.
fn push_line(
    alloc: Global,
    lines: &mut Vec<String>,
    blanks: &str,
    text: &str,
) -> Result<(), AllocError> {
    lines.push(format!(in alloc; "{blanks}{text}")?)?;
    Ok(())
}
