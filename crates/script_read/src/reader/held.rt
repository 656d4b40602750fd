//! The list of locks that a thread holds, in order of acquisition: how a lock is held, and what an operation changes.
ghost use Rattle.std.specs.Prelude.{◌≡◌, OnOk};
ghost use Rattle.std.specs.Cmp.Lexicographic.{pointwise};
ghost use Rattle.lock_model.specs.Script.Faults.{is_same_held};
ghost use Rattle.lock_model.specs.Operations.{hold_in, held_behind, is_last};
ghost use Rattle.script_read.specs.Readers.{hold};

use lock_model::{Held, LockNo, Mode, OfLocks, Op, place_held};
use std::alloc::AllocError;

/// The mode in which a lock is held, if it is.
pub fn mode_of(held: &[Held], l: LockNo) -> Option<Mode>
    ensures { hold result ≡ hold_in held.now l.0 }
{
    let place = place_held(l, held)?;
    Some(held[place].mode)
}

/// Whether two lists have the same locks in the same order, each held in the same way.
pub fn is_same(held: &[Held], before: &[Held]) -> bool
    ensures { result ≡ pointwise is_same_held held.now before.now }
{
    held == before
}

/// Whether a lock was gained last, and not by a try.
#[tactic(auto, using(crate::proofs::LastHeld::last_place))]
pub fn is_last(held: &[Held], l: LockNo) -> bool
    ensures { result ≡ is_last l.0 held.now }
{
    held.last().is_some_and(|h| h.l == l && !h.by_try)
}

/// Changes the list as an operation does.
pub fn hold_behind(held: &mut Vec<Held>, op: Op) -> Result<(), AllocError>
    ensures { OnOk result (held.new.items ≡ held_behind op held.old.items) }
{
    match op.of_locks() {
        OfLocks::Acquires { held: acquired } => held.push(acquired)?,
        OfLocks::Releases { l } => {
            if let Some(place) = place_held(l, held) {
                held.remove(place);
            }
        }
        OfLocks::NoLock
        | OfLocks::ClosesBlock
        | OfLocks::EditsAt { .. }
        | OfLocks::ReadsAt { .. }
        | OfLocks::SleepsOn { .. }
        | OfLocks::WakesOn { .. } => {}
    }
    Ok(())
}
