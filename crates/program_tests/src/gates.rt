//! Gates that hold threads of a run until others have come. That a run came through shows that none of them had to wait
//! for another one's end, and so that each has a thread of the system.

use lock_io::Gate;
use lock_model::ThreadNo;
use std::sync::atomic::{AtomicBool, AtomicU64, Ordering};
use std::thread;

// How often a thread looks whether the others have come.
const LOOKS: u32 = 1_000_000;

#[derive(Drop)]
struct Arrivals {
    /// How many threads have come.
    came: AtomicU64,
    /// Whether some thread looked as often as it may, and not all had come.
    missed: AtomicBool,
}

impl Arrivals {
    fn new() -> Arrivals {
        Arrivals {
            came: AtomicU64::new(0),
            missed: AtomicBool::new(false),
        }
    }

    fn came(&self) -> u64 {
        self.came.load(Ordering::SeqCst)
    }

    fn missed(&self) -> bool {
        self.missed.load(Ordering::SeqCst)
    }

    fn come(&self) {
        self.came.fetch_add(1, Ordering::SeqCst);
    }

    // Waits until so many have come. It looks at most 1,000,000 times, and gives the processor to others behind each
    // look.
    fn wait_for(&self, threads: u64) {
        for _ in 0..LOOKS {
            if self.came() == threads {
                return;
            }
            thread::yield_now();
        }
        self.missed.store(true, Ordering::SeqCst);
    }
}

/// A gate that holds each thread at its first operation until so many have come to theirs. A thread looks at most
/// 1,000,000 times, and then goes on.
///
/// ```
/// let gate = Barrier::new(3);
/// let (outcome, _closing) = run_plan(&rt, alloc, &plan, 1, &gate)?;
/// assert!(rt; !gate.missed());
/// ```
#[derive(Drop)]
pub(crate) struct Barrier {
    threads: u64,
    firsts: Arrivals,
}

impl Barrier {
    /// A gate for so many threads.
    pub(crate) fn new(threads: u64) -> Barrier {
        Barrier {
            threads,
            firsts: Arrivals::new(),
        }
    }

    /// How many threads have come.
    pub(crate) fn came(&self) -> u64 {
        self.firsts.came()
    }

    /// Whether some thread went on without the others.
    pub(crate) fn missed(&self) -> bool {
        self.firsts.missed()
    }
}

impl Gate for Barrier {
    fn at(&self, _t: ThreadNo, operation: u32) {
        if operation == 0 {
            self.firsts.come();
            self.firsts.wait_for(self.threads);
        }
    }
}

/// A gate that holds one thread at its first operation until so many others have come to an operation of theirs. The
/// held thread looks at most 1,000,000 times, and then goes on.
///
/// ```
/// // thread 2 begins where threads 0 and 1 have come to their operations 1
/// let gate = Holding::new(2, 2, 1);
/// ```
#[derive(Drop)]
pub(crate) struct Holding {
    held: u8,
    threads: u64,
    until: u32,
    others: Arrivals,
}

impl Holding {
    /// A gate for that thread, until so many others have come to their operation of that place, from 0.
    pub(crate) fn new(held: u8, threads: u64, until: u32) -> Holding {
        Holding {
            held,
            threads,
            until,
            others: Arrivals::new(),
        }
    }

    /// Whether the held thread went on without the others.
    pub(crate) fn missed(&self) -> bool {
        self.others.missed()
    }
}

impl Gate for Holding {
    fn at(&self, t: ThreadNo, operation: u32) {
        if t.0 == self.held {
            if operation == 0 {
                self.others.wait_for(self.threads);
            }
        } else if operation == self.until {
            self.others.come();
        }
    }
}
