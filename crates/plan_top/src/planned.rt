//! The script of a plan, with a schedule that a policy made.
ghost use Rattle.std.specs.Prelude.{◌≡◌, ◌⊎◌, ℕ, List, Err, IfOk};
ghost use Rattle.lock_model.specs.Script.{IsAccepted};
ghost use Rattle.plan_top.specs.Scripts.{IsPlannedScript, IsTooBig};
ghost use Rattle.turn_policy.specs.Schedules.{IsTooLong, with_schedule};

use lock_model::limits::SCRIPT_BYTES;
use lock_model::{Plan, Sequence, ThreadNo};
use script_read::write_script;
use std::alloc::Global;
use turn_policy::{Policy, Unplanned, schedule_by};

/// The plan's canonical text, its schedule the one that the policy makes. `TooLong` comes only where it would have more
/// entries or more bytes than a script may have.
pub fn planned(alloc: Global, plan: Plan, policy: Policy) -> Result<Vec<u8>, Unplanned>
    requires script { (bytes : List ℕ) × IsAccepted bytes plan }
    ensures script { IfOk result (λ text. IsPlannedScript policy plan text.items) }
    ensures too_long { result ≡ Err Unplanned.TooLong
        → IsTooLong policy plan ⊎ IsTooBig policy plan }
{
    let turns = schedule_by(alloc, &plan, policy)?;
    let text = write_script(alloc, &rescheduled(plan, Sequence::from_vec(turns)))?;
    if text.len() > SCRIPT_BYTES {
        return Err(Unplanned::TooLong);
    }
    Ok(text)
}

// The same plan with another schedule.
fn rescheduled(plan: Plan, schedule: Sequence<ThreadNo>) -> Plan
    ensures { result ≡ with_schedule plan schedule }
{
    Plan {
        classes: plan.classes,
        locks: plan.locks,
        chans: plan.chans,
        threads: plan.threads,
        schedule,
    }
}
