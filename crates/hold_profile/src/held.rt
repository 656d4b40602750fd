//! The locks of each thread's sections that are open.
ghost use Rattle.std.specs.Prelude.{◌≡◌, ◌≢◌, ℕ, ◌<◌, length, OnOk, IfOk, slice_index_or, []};
ghost use Rattle.hold_profile.specs.Counting.{held_after};

use crate::events::AtLock;
use lock_model::{LockNo, ThreadNo};
use std::alloc::{AllocError, Global};

/// None yet, for so many threads.
pub fn no_locks(alloc: Global, threads: usize) -> Result<Vec<Vec<LockNo>>, AllocError>
    ensures len { IfOk result (λ lists. length lists.items ≡ threads) }
    ensures empty { IfOk result (λ lists. (t : ℕ) (d : _) → t < threads
        → (slice_index_or lists.items t d).items ≡ []) }
{
    let mut lists = Vec::new(alloc);
    for _ in 0..threads {
        lists.push(Vec::new(alloc))?;
    }
    Ok(lists)
}

/// Notes which section of a thread begins or ends at an entry of it.
pub fn note_held(
    lists: &mut Vec<Vec<LockNo>>,
    l: LockNo,
    what: AtLock,
    thread: ThreadNo,
) -> Result<(), AllocError>
    ensures len { length lists.new.items ≡ length lists.old.items }
    ensures others { (t : ℕ) (d : _) → t ≢ thread.0
        → slice_index_or lists.new.items t d ≡ slice_index_or lists.old.items t d }
    ensures noted { OnOk result ((d : _) → thread.0 < length lists.old.items
        → (slice_index_or lists.new.items thread.0 d).items
        ≡ held_after what l (slice_index_or lists.old.items thread.0 d).items) }
{
    match lists.get_mut(usize::from(thread.0)) {
        Some(held) => note_in(held, l, what),
        None => Ok(()),
    }
}

fn note_in(held: &mut Vec<LockNo>, l: LockNo, what: AtLock) -> Result<(), AllocError>
    ensures { OnOk result (held.new.items ≡ held_after what l held.old.items) }
{
    match what {
        AtLock::Begins => {
            held.push(l)?;
            Ok(())
        }
        AtLock::Ends | AtLock::Leaves => {
            held.retain(|k| l.0 != k.0);
            Ok(())
        }
        AtLock::FindsBusy | AtLock::IsHalted => Ok(()),
    }
}
