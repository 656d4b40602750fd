//! The profile of a history.
ghost use Rattle.std.specs.Prelude.{◌≡◌, IfOk};
ghost use Rattle.lock_model.specs.Operations.{IsProper};
ghost use Rattle.hold_profile.specs.Histories.{IsHistoryOf};
ghost use Rattle.hold_profile.specs.Profiles.{profile_of};

use crate::counting::Counting;
use crate::lines::Profile;
use lock_history::History;
use lock_model::Plan;
use std::alloc::{AllocError, Global};

/// The profile of a history, in one pass over it. The history is a legal one of the plan, which some script gives: that
/// of a scheduled run, or of threads that ran. It fails where memory runs out.
pub fn profile(alloc: Global, plan: &Plan, history: &History) -> Result<Profile, AllocError>
    requires proper { IsProper plan.now }
    requires legal { IsHistoryOf plan.now history.now }
    ensures { IfOk result (λ x. x ≡ profile_of plan.now history.now) }
{
    let mut counting = Counting::make(alloc, plan)?;
    let entries = history.as_slice();
    for place in 0..entries.len() {
        counting.enter(plan, entries, place)?;
    }
    counting.finish(alloc, plan, entries)
}
