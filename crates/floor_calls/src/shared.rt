//! What the threads of a floor share.
ghost use Rattle.std.specs.Prelude.{◌≡◌, length};

use lock_floor::Floor;
use lock_model::LockNo;

/// A floor with one chain of each sort, how many locks it has, and the lock of each of its condition variables and
/// channels.
pub struct Shared {
    pub(crate) floor: Floor,
    pub(crate) locks: usize,
    pub(crate) chans: Vec<LockNo>,
    ghost all_locks: { locks ≡ length floor.description.locks },
    ghost all_chans: { chans.items ≡ floor.description.chans },
    ghost one_chain: { floor.description.chains ≡ 1 },
}

// A floor owns much: so letting go of one is one call, wherever that is done. Likewise of a thread and an open floor.
impl Drop for Shared {
    fn drop(self) {
        let Shared {
            floor: _,
            locks: _,
            chans: _,
        } = self;
    }
}

impl Shared {
    // The floor, once nobody has a share of it any more.
    pub(crate) fn into_floor(self) -> Floor
        ensures { result ≡ self.floor }
    {
        let Shared {
            floor,
            locks: _,
            chans: _,
        } = self;
        floor
    }
}
