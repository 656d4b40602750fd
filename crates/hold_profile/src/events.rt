//! What is counted of a lock at an event.
ghost use Rattle.std.specs.Prelude.{◌≡◌};
ghost use Rattle.hold_profile.specs.AtLocks.{at_lock, counted};

use lock_model::{Event, LockFacet, LockNo, Plan};

/// What is counted of a lock.
#[derive(Clone, Copy)]
pub enum AtLock {
    /// A section of it begins.
    Begins,
    /// It ends.
    Ends,
    /// It ends, and a wait with the lock begins.
    Leaves,
    /// A try found it busy.
    FindsBusy,
    /// A halt ended a take of it.
    IsHalted,
}

/// The lock of which something is counted at an event, and what.
pub fn at_lock(plan: &Plan, event: Event) -> Option<(LockNo, AtLock)>
    ensures { result ≡ at_lock plan.now event }
{
    counted(plan, event.at_lock())
}

// What is counted, by what is said of a lock.
fn counted(plan: &Plan, said: LockFacet) -> Option<(LockNo, AtLock)>
    ensures { result ≡ counted plan.now said }
{
    match said {
        LockFacet::Begins { l, .. } => Some((l, AtLock::Begins)),
        LockFacet::Ends { l, .. } => Some((l, AtLock::Ends)),
        LockFacet::Leaves { c } => Some((plan.chan_lock(c), AtLock::Leaves)),
        LockFacet::TakesBack { c } => Some((plan.chan_lock(c), AtLock::Begins)),
        LockFacet::FindsBusy { l, .. } => Some((l, AtLock::FindsBusy)),
        LockFacet::IsHalted { l } => Some((l, AtLock::IsHalted)),
        LockFacet::NoLock | LockFacet::IsRefused { .. } => None,
    }
}
