//! A gate at which two threads wait for each other, for tests: that a run came through it shows that its threads ran
//! beside each other.

use crate::gate::Gate;
use lock_model::ThreadNo;
use std::sync::atomic::{AtomicBool, AtomicU64, Ordering};
use std::thread;

// How often a thread looks whether the other has come.
const LOOKS: u32 = 1_000_000;

/// A gate for the threads 0 and 1, each of which is held at one of its operations until the other has come to its
/// second. A thread looks at most 1,000,000 times, and then goes on.
///
/// ```
/// let gate = Meeting::new(1, 1);
/// let (outcome, _closing) = run_plan(&rt, alloc, &plan, 1, &gate)?;
/// assert!(rt; !gate.missed());
/// assert_eq!(rt; gate.came(), (2, 2));
/// ```
#[derive(Drop)]
pub struct Meeting {
    first: Side,
    second: Side,
    /// Whether some thread looked as often as it may, and the other had still not come.
    missed: AtomicBool,
}

#[derive(Drop)]
struct Side {
    /// To how many operations the thread has come.
    came: AtomicU64,
    /// At which it is held.
    held_at: u32,
}

impl Side {
    fn new(held_at: u32) -> Side {
        Side {
            came: AtomicU64::new(0),
            held_at,
        }
    }
}

impl Meeting {
    /// A gate that holds thread 0 at one operation and thread 1 at another, each counted from 0. A number that no
    /// operation has holds nobody.
    pub fn new(first: u32, second: u32) -> Meeting {
        Meeting {
            first: Side::new(first),
            second: Side::new(second),
            missed: AtomicBool::new(false),
        }
    }

    /// To how many operations each thread has come.
    pub fn came(&self) -> (u64, u64) {
        (
            self.first.came.load(Ordering::SeqCst),
            self.second.came.load(Ordering::SeqCst),
        )
    }

    /// Whether some thread went on without the other.
    pub fn missed(&self) -> bool {
        self.missed.load(Ordering::SeqCst)
    }
}

impl Gate for Meeting {
    fn at(&self, t: ThreadNo, operation: u32) {
        let (own, other) = if t == ThreadNo(0) {
            (&self.first, &self.second)
        } else {
            (&self.second, &self.first)
        };
        own.came.fetch_add(1, Ordering::SeqCst);
        if operation != own.held_at {
            return;
        }
        for _ in 0..LOOKS {
            if other.came.load(Ordering::SeqCst) == 2 {
                return;
            }
            thread::yield_now();
        }
        self.missed.store(true, Ordering::SeqCst);
    }
}
