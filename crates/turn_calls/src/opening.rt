//! The plan of a script and the number of chains for which a world is opened, and why for others none is.
ghost use Rattle.std.specs.Prelude.{◌≡◌, ◌↔◌, IfErr, IfOk, IsTrue};
ghost use Rattle.lock_model.specs.Script.{IsAccepted};
ghost use Rattle.turn_calls.specs.Openings.{IsFew, IsRead, StandsAgainst};

use lock_model::Plan;
use lock_model::limits::{CHAINS, SCRIPT_BYTES};
use script_read::{ReadError, ScriptFault, read_script};
use std::alloc::Global;

/// Why no world is opened.
#[derive(Clone, Copy, Debug, PartialEq, Eq)]
pub enum NotOpened {
    /// Memory was wanting.
    NoMemory,
    /// There are to be no chains, or more than 64 of each sort.
    NoChains,
    /// The source has more than 1,048,576 bytes.
    TooBig,
    /// The source is no script: its first faulty line, and the fault's code.
    NoScript(ScriptFault),
}

// The plan of a script for whose world there are to be so many chains.
pub(crate) fn plan_of(alloc: Global, script: &[u8], chains: u32) -> Result<Plan, NotOpened>
    ensures read { IfOk result (IsRead script.now chains) }
    ensures against { IfErr result (StandsAgainst script.now chains) }
{
    if !is_few(chains) {
        return Err(NotOpened::NoChains);
    }
    if script.len() > SCRIPT_BYTES {
        return Err(NotOpened::TooBig);
    }
    match read_script(alloc, script) {
        Ok(plan) => Ok(plan),
        Err(ReadError::Script(fault)) => Err(NotOpened::NoScript(fault)),
        Err(ReadError::Memory(_)) => Err(NotOpened::NoMemory),
    }
}

// Whether a world may have so many chains of each sort.
fn is_few(chains: u32) -> bool
    ensures { IsTrue result ↔ IsFew chains }
{
    1 <= chains && chains <= CHAINS
}
