//! A source in memory: its bytes in, the status and the text out, without words and streams.
ghost use Rattle.std.specs.Prelude.{◌≡◌, ◌↔◌, IfErr, IfOk, IsTrue, true};
ghost use Rattle.command_line.specs.Ranges.{HasRanges};
ghost use Rattle.lock_top.specs.Memory.{IsStepped, StandsAgainst};
ghost use Rattle.lock_top.specs.Output.{has_text};

use crate::answer::plainly;
use crate::serving::answer;
use command_line::{Command, LockrunArgs};
use complaints::Status;
use lock_model::limits::{CHAINS, SCRIPT_BYTES, TURNS};
use std::alloc::Global;

/// Why no text is made of a source in memory.
#[derive(Clone, Copy, Debug, PartialEq, Eq)]
pub enum NotStepped {
    /// Memory was wanting.
    NoMemory,
    /// There are to be no chains or more than 64 of each sort, or no turns or more than 1,000,000.
    NoRange,
    /// The source has more than 1,048,576 bytes.
    TooBig,
}

/// The status that the program answers for the bytes of a source with the command `step`, so many chains of each sort
/// and so many turns at most, and the text that it writes. Of a source that is no script that is the line of its first
/// fault.
///
/// ```
/// let (status, text) = step_in_memory(alloc, script, 16, 1_000_000)?;
/// ```
pub fn step_in_memory(
    alloc: Global,
    bytes: &[u8],
    chains: u32,
    turns: u32,
) -> Result<(Status, Vec<u8>), NotStepped>
    ensures pair { IfOk result (λ a. IsStepped chains turns bytes.now (a.0, a.1.items)) }
    ensures has_text { IfOk result (λ a. has_text a.0 ≡ true) }
    ensures against { IfErr result (StandsAgainst chains turns bytes.now) }
{
    let said = LockrunArgs {
        command: Command::Step,
        chains,
        turns,
    };
    if !has_ranges(said) {
        return Err(NotStepped::NoRange);
    }
    if bytes.len() > SCRIPT_BYTES {
        return Err(NotStepped::TooBig);
    }
    match answer(alloc, said, bytes, |said: LockrunArgs, bytes: &[u8]| {
        plainly(alloc, said, bytes)
    }) {
        Ok(made) => Ok(made),
        Err(_) => Err(NotStepped::NoMemory),
    }
}

// Whether there may be so many chains and turns.
fn has_ranges(said: LockrunArgs) -> bool
    ensures { IsTrue result ↔ HasRanges said }
{
    1 <= said.chains && said.chains <= CHAINS && 1 <= said.turns && said.turns <= TURNS
}
