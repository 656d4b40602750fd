//! The gate that holds threads where a seed says.

use lock_io::Gate;
use lock_model::ThreadNo;
use rand_core::SeedableRng;
use rand_core::utils::NextWord;
use rand_xoshiro::SplitMix64;
use std::sync::atomic::{AtomicU64, Ordering};
use std::thread;

// Until others have come to so many operations a thread is held at most, and for so many looks for them. At each
// 1,000th it lets the system run another: they may need its processor.
const MOST_OTHERS: u64 = 8;

const MOST_LOOKS: u32 = 10_000;

const LOOKS: u32 = 1_000;

/// A gate that holds single threads at single operations, until others have come to 1 to 8 operations more or it has
/// looked 10,000 times for them. The seed says at which: at about one of 2, 4, 8 or 16.
///
/// ```
/// let gate = DrawnGate::new(7);
/// ```
#[derive(Drop)]
pub struct DrawnGate {
    /// What is drawn for each operation of each thread depends on it.
    key: u64,
    /// A thread is held at an operation for which a number was drawn that ends in more zero bits than so many.
    zeros: u32,
    /// To how many operations threads have come.
    came: AtomicU64,
    held: AtomicU64,
    in_vain: AtomicU64,
}

impl DrawnGate {
    /// A gate that holds where the seed says.
    pub fn new(seed: u64) -> DrawnGate {
        DrawnGate {
            key: drawn(seed),
            zeros: (seed % 4) as u32,
            came: AtomicU64::new(0),
            held: AtomicU64::new(0),
            in_vain: AtomicU64::new(0),
        }
    }

    /// How often a thread was held.
    pub fn held(&self) -> u64 {
        self.held.load(Ordering::SeqCst)
    }

    /// How often one went on because it had looked so often.
    pub fn in_vain(&self) -> u64 {
        self.in_vain.load(Ordering::SeqCst)
    }

    // Holds a thread until so many operations have been come to.
    fn hold_until(&self, until: u64) {
        self.held.fetch_add(1, Ordering::SeqCst);
        for look in 1..=MOST_LOOKS {
            if self.came.load(Ordering::SeqCst) >= until {
                return;
            }
            if look % LOOKS == 0 {
                thread::yield_now();
            }
        }
        self.in_vain.fetch_add(1, Ordering::SeqCst);
    }
}

impl Gate for DrawnGate {
    fn at(&self, t: ThreadNo, operation: u32) {
        let before = self.came.fetch_add(1, Ordering::SeqCst);
        let place = (u64::from(t.0) << 32) + u64::from(operation);
        let chance = drawn(self.key ^ place);
        if chance.trailing_zeros() > self.zeros {
            let others = chance / 16 % MOST_OTHERS;
            self.hold_until(before.wrapping_add(2).wrapping_add(others));
        }
    }
}

// The number that is drawn for another.
fn drawn(number: u64) -> u64 {
    SplitMix64::seed_from_u64(number).next_word()
}
