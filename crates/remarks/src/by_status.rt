//! What is said below the sentence of a status, by the source and by the text that was written. The sentence itself,
//! and the status, stand before any of it is made.
ghost use Rattle.std.specs.Prelude.{◌≡◌, ◌++◌, IfOk, List, ℕ, OnOk, IsErrOf};
ghost use Rattle.remarks.specs.Remarks.{AreRemarks};

use crate::shape::shaped;
use complaints::Status;
use remark_lines::{of_fault, of_refusal, of_stuck};
use std::alloc::{AllocError, Global};

/// The lines below the sentence: of a fault its cause, with the line and a mark below the place; of a reversal both
/// locks, and the takes that forbid it; of a stuck run where each thread waits, or was halted. Nothing where there is
/// nothing to say.
///
/// ```
/// let text = b"line 5 code 14\n";
/// let lines = remarks(alloc, Status::BadScript, source, text)?;
/// //     thread p still holds m, which it took in line 4
/// //     4 | lock m
/// //     5 | end
/// //       | ^^^
/// ```
pub fn remarks(
    alloc: Global,
    status: Status,
    source: &[u8],
    text: &[u8],
) -> Result<Vec<u8>, AllocError>
    ensures { IfOk result (λ said. AreRemarks 8 said.items) }
{
    let lines = lines_of(alloc, status, source, text)?;
    shaped(alloc, &lines)
}

fn lines_of(
    alloc: Global,
    status: Status,
    source: &[u8],
    text: &[u8],
) -> Result<Vec<String>, AllocError> {
    match status {
        Status::BadScript => of_fault(alloc, source, text),
        Status::Stuck => of_stuck(alloc, source, text),
        Status::Reversed => of_refusal(alloc, source, text),
        Status::Done
        | Status::ReadFault
        | Status::WriteFault
        | Status::NoMemory
        | Status::TooLong
        | Status::TooBig
        | Status::Usage => Ok(Vec::new(alloc)),
    }
}
