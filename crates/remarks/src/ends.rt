//! Saying how a program ended, whether its words were a form or not.
ghost use Rattle.std.specs.Prelude.{◌≡◌, ◌≢◌, ◌++◌, OnOk, IsErrOf};
ghost use Rattle.std.specs.Io.KnownBytes.{append_known};
ghost use Rattle.complaints.specs.Complaints.{complaint_of};
ghost use Rattle.lock_io.specs.Faults.{Rose};
ghost use Rattle.lock_io.specs.Whole.{AddsFront};
ghost use Rattle.remarks.specs.Remarks.{AreRemarks, Text};

use crate::saying::{tell, tell_usage};
use complaints::{Program, Status, Unsaid};
use lock_io::Sink;
use std::alloc::{AllocError, Global};

/// What is said of the words of a command line at `Usage`: what is wrong with them, and a line for each word that may
/// stand there.
#[derive(Drop)]
pub struct Wrong<'h> {
    pub mistake: Result<Option<String>, AllocError>,
    pub help: &'h [&'h str],
}

/// Writes what there is to say of a program that ended with that status: of words that are no form what `tell_usage`
/// does, and else what `tell` does.
pub fn tell_end<K: Sink>(
    alloc: Global,
    out: &mut K,
    program: Program,
    status: Status,
    wrong: Wrong<'_>,
    source: Option<&[u8]>,
    text: &[u8],
) -> Result<(), Unsaid>
    ensures said { OnOk result ((more : Text) × AreRemarks 8 more
        × (K.contents out.new ≡ append_known (K.contents out.old)
        (complaint_of program status text.now ++ more))) }
    ensures front { (more : Text) × AreRemarks 8 more
        × AddsFront (K.contents out.old) (K.contents out.new)
        (complaint_of program status text.now ++ more) }
    ensures silent { IsErrOf result Unsaid.Memory → K.contents out.new ≡ K.contents out.old }
    ensures speaks { IsErrOf result Unsaid.Memory → status ≢ Status.Done }
    ensures usage { IsErrOf result Unsaid.Memory → status ≢ Status.Usage }
    ensures fault { IsErrOf result Unsaid.Fault → Rose (K.faults out.old) (K.faults out.new) }
    ensures no_fault { ¬ (IsErrOf result Unsaid.Fault) → K.faults out.new ≡ K.faults out.old }
{
    if status == Status::Usage {
        // The form takes no memory to say, so what failed is the stream.
        tell_usage(alloc, out, program, wrong.mistake, wrong.help).map_err(|_| Unsaid::Fault)
    } else {
        tell(alloc, out, program, status, source, text)
    }
}
