//! Whether a floor can be opened for a description, and else why not.
ghost use Rattle.std.specs.Prelude.{◌≡◌, ◌↔◌, ◌^◌, ◌≤◌, ℕ, IsTrue};
ghost use Rattle.std.specs.declared.cmp.Ordering.TheVariants.{Less};
ghost use Rattle.floor_calls.specs.First.{IsFirst};
ghost use Rattle.floor_calls.specs.Fitting.{Spoils, all_unfit};
ghost use Rattle.floor_calls.specs.declared.unfit.Unfit.TheVariants as unfit;
ghost use Rattle.floor_table.specs.Descriptions.{room_in_all};
ghost use Rattle.lock_model.specs.History.{place_cmp};

use floor_table::{Description, LockPart, ThreadPart};
use lock_model::limits::{CHANNELS, CLASSES, LOCKS, THREADS};

// Keys and entries are fewer.
const TOO_MANY_KEYS: usize = 65_536;

const TOO_MANY_ENTRIES: u64 = 4_294_967_296;

/// Why a floor can't be opened for a description.
#[derive(Clone, Copy, Debug, PartialEq, Eq)]
pub enum Unfit {
    /// It has more than 32 threads.
    ManyThreads,
    /// It has more than 64 locks.
    ManyLocks,
    /// It has more than 64 condition variables and channels.
    ManyChannels,
    /// The class of a lock isn't below 64.
    HighClass,
    /// It has 65,536 keys or more.
    ManyKeys,
    /// A key doesn't come behind the one before it, by lock and then by key.
    UnsortedKeys,
    /// Its threads have room for 2^32 entries in all, or more.
    MuchRoom,
    /// It has more chains of each sort than one, or none.
    NotOneChain,
}

// Why a floor can't be opened for the description: of all that may stand against it, the first that is so.
pub(crate) fn unfit_of(description: &Description) -> Option<Unfit>
    ensures { IsFirst (λ why. Spoils why description.now) all_unfit result }
{
    first_unfit(
        description,
        &[
            Unfit::ManyThreads,
            Unfit::ManyLocks,
            Unfit::ManyChannels,
            Unfit::HighClass,
            Unfit::ManyKeys,
            Unfit::UnsortedKeys,
            Unfit::MuchRoom,
            Unfit::NotOneChain,
        ],
    )
}

// The first of these that is so of the description.
fn first_unfit(description: &Description, all: &[Unfit]) -> Option<Unfit>
    ensures { IsFirst (λ why. Spoils why description.now) all.now result }
{
    for why in all {
        if spoils(description, *why) {
            return Some(*why);
        }
    }
    None
}

// Whether that is so of the description.
fn spoils(description: &Description, why: Unfit) -> bool
    ensures { IsTrue result ↔ Spoils why description.now }
{
    match why {
        Unfit::ManyThreads => description.threads.as_slice().len() > THREADS,
        Unfit::ManyLocks => description.locks.as_slice().len() > LOCKS,
        Unfit::ManyChannels => description.chans.as_slice().len() > CHANNELS,
        Unfit::HighClass => has_high_class(description),
        Unfit::ManyKeys => description.keys.as_slice().len() >= TOO_MANY_KEYS,
        Unfit::UnsortedKeys => has_unsorted_keys(description),
        Unfit::MuchRoom => has_much_room(description),
        Unfit::NotOneChain => description.chains != 1,
    }
}

// Whether the class of a lock isn't below 64.
fn has_high_class(description: &Description) -> bool
    ensures { IsTrue result ↔ Spoils unfit.HighClass description.now }
{
    let locks = description.locks.as_slice();
    locks
        .iter()
        .any(|lock| usize::from(lock.class.0) >= CLASSES)
}

// Whether a key doesn't come behind the one before it.
fn has_unsorted_keys(description: &Description) -> bool
    ensures { IsTrue result ↔ Spoils unfit.UnsortedKeys description.now }
{
    let keys = description.keys.as_slice();
    for i in 1..keys.len() {
        if !comes_before(keys[i - 1], keys[i]) {
            return true;
        }
    }
    false
}

// Whether a key comes before another one, by lock and then by key.
fn comes_before(one: (u8, u64), other: (u8, u64)) -> bool
    ensures { IsTrue result ↔ (place_cmp one other ≡ Less) }
{
    one < other
}

// Whether the threads have room for 2^32 entries in all, or more.
fn has_much_room(description: &Description) -> bool
    ensures { IsTrue result ↔ Spoils unfit.MuchRoom description.now }
{
    let mut all = 0u64;
    for thread in description.threads.as_slice() {
        all += u64::from(thread.room);
        if all >= TOO_MANY_ENTRIES {
            return true;
        }
    }
    false
}
