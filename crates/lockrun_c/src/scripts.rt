//! The text of the scheduled run of a script in memory.
ghost use Rattle.std.specs.Prelude.{◌≡◌, ◌≢◌, ◌<◌, length};
ghost use Rattle.lock_model.specs.Limits.{most_bytes};
ghost use Rattle.lockrun_c.specs.Scripts.{AreTooMany, HasStepped, HasSteppedLonger, number_of};

use crate::codes::NO_MEMORY;
use crate::printing::put;
use crate::worlds::{NO_RANGE, TOO_BIG};
use lock_top::{NotStepped, Status, step_in_memory};
use std::alloc::Global;

/// Writes the text that `lockrun step` prints of a script, and how many bytes it has, and tells the status with which
/// that ends. Where the room is too small, it tells how long the text is, and the status.
#[unsafe(no_mangle)]
pub extern "C" fn lockrun_step(
    alloc: Global,
    script: &[u8],
    chains: u32,
    turns: u32,
    out: &mut [u8],
    written: &mut usize,
    status: &mut u32,
) -> u32
    ensures stepped { result ≡ 0
        → HasStepped script.now chains turns out.old out.new written.new status.new }
    ensures no_range { result ≡ 26 → AreTooMany chains turns }
    ensures too_big { result ≡ 27 → most_bytes < length script.now }
    ensures no_space { result ≡ 23
        → HasSteppedLonger script.now chains turns out.old written.new status.new }
    ensures refused { result ≢ 0 → out.new ≡ out.old }
{
    match step_in_memory(alloc, script, chains, turns) {
        Err(NotStepped::NoMemory) => NO_MEMORY,
        Err(NotStepped::NoRange) => NO_RANGE,
        Err(NotStepped::TooBig) => TOO_BIG,
        Ok((made, text)) => {
            *status = number_of(made);
            put(text.as_slice(), out, written)
        }
    }
}

// The number of a status: that with which the program ends.
fn number_of(status: Status) -> u32
    ensures { result ≡ number_of status }
{
    match status {
        Status::Done => 0,
        Status::BadScript => 1,
        Status::ReadFault => 2,
        Status::WriteFault => 3,
        Status::NoMemory => 4,
        Status::Stuck => 5,
        Status::Reversed => 6,
        Status::TooLong => 7,
        Status::TooBig => 8,
        Status::Usage => 64,
    }
}
