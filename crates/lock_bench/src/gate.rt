//! The gate of a run that is timed: it has the workers begin together, and reads the clock as they come to certain
//! operations.

use crate::scripts::{Case, Round};
use anyhow::Result;
use lock_io::Gate;
use lock_model::{Entry, Event, ThreadNo};
use std::alloc::Global;
use std::rt::Clock;
use std::sync::atomic::{AtomicU64, AtomicUsize, Ordering};
use std::thread;
use std::time::{Duration, Instant};

// How long a worker works in a long section, in nanoseconds, and behind how many of a round's operations.
const SECTION: u64 = 1_000;

const BEHIND: u32 = 2;

// How often a worker looks at most for others. They don't come where no thread can be started.
const MOST_LOOKS: u32 = 1_000_000;

// For how long the taker of a chain lets its owners fall asleep, in milliseconds.
const FALL_ASLEEP: u64 = 20;

// Where so many workers wait for each other.
#[derive(Drop)]
struct Meeting {
    workers: usize,
    there: AtomicUsize,
}

impl Meeting {
    fn new(workers: usize) -> Meeting {
        Meeting {
            workers,
            there: AtomicUsize::new(0),
        }
    }

    // Comes, and waits until all workers are there, or for so many looks.
    fn wait(&self) {
        self.come();
        self.wait_for(self.workers);
    }

    fn come(&self) {
        self.there.fetch_add(1, Ordering::SeqCst);
    }

    // Waits until so many have come, or for so many looks.
    fn wait_for(&self, comers: usize) {
        for _ in 0..MOST_LOOKS {
            if self.there.load(Ordering::SeqCst) >= comers {
                return;
            }
            thread::yield_now();
        }
    }
}

/// The gate of a run of a case.
#[derive(Drop)]
pub struct TimingGate<'a, R> {
    rt: &'a R,
    case: Case,
    // The operation behind all rounds.
    last: u32,
    // Where all workers meet, the two of a chain's ends or of a ping-pong, and the sleepers of a broadcast, who come
    // anew in each round.
    all: Meeting,
    ends: Meeting,
    sleepers: Meeting,
    // Nanoseconds behind a moment: at the begin, at the end, at the end of the first reader that came to it, and before
    // each operation of a chain's last owner, or of a writer whose takes are timed.
    from: Instant,
    began: AtomicU64,
    ended: AtomicU64,
    first_ended: AtomicU64,
    times: Vec<AtomicU64>,
}

impl<'a, R: Clock> TimingGate<'a, R> {
    /// The gate of a run in which each thread makes so many rounds.
    pub fn new(rt: &'a R, alloc: Global, case: Case, rounds: usize) -> Result<TimingGate<'a, R>> {
        let operations = rounds.saturating_mul(case.round.operations());
        let from = Instant::now(rt)?;
        let times = no_times(alloc, operations.saturating_add(2))?;
        Ok(TimingGate {
            rt,
            case,
            last: u32::try_from(operations).unwrap_or(u32::MAX),
            all: Meeting::new(case.threads),
            ends: Meeting::new(2),
            sleepers: Meeting::new(case.threads.saturating_sub(1)),
            from,
            began: AtomicU64::new(u64::MAX),
            ended: AtomicU64::new(0),
            first_ended: AtomicU64::new(u64::MAX),
            times,
        })
    }

    /// The time from the first worker's begin to the last one's end; of a chain, from the take to the loan that was
    /// seen, and 0 where none was.
    pub fn time(&self, history: &[Entry]) -> u64 {
        let ended = match self.case.round {
            Round::Bare
            | Round::Edit
            | Round::Long
            | Round::Apart
            | Round::Nested
            | Round::Read
            | Round::Write
            | Round::Get
            | Round::Mixed
            | Round::Waits
            | Round::Share
            | Round::PingPong
            | Round::Broadcast => self.ended.load(Ordering::SeqCst),
            Round::Chain => self.loan_seen(history),
        };
        ended.saturating_sub(self.began.load(Ordering::SeqCst))
    }

    /// How long each take of the writer was that came to its end before any reader came to his: from before it to
    /// behind its entry.
    pub fn push_waits(&self, waits: &mut Vec<u64>) -> Result<()> {
        let busy = self.first_ended.load(Ordering::SeqCst);
        for round in self.times.chunks_exact(self.case.round.operations()) {
            if let [asked, gained, ..] = round {
                let gained = gained.load(Ordering::SeqCst);
                if gained > 0 && gained <= busy {
                    waits.push(gained.saturating_sub(asked.load(Ordering::SeqCst)))?;
                }
            }
        }
        Ok(())
    }

    // When the last owner came to the operation behind the one that told of a loan: each of them made an entry.
    fn loan_seen(&self, history: &[Entry]) -> u64 {
        let mut entries: usize = 0;
        for e in history {
            if self.is_last_owner(e.thread) {
                entries = entries.saturating_add(1);
                if tells_of_a_loan(e.event) {
                    return self.time_before(entries);
                }
            }
        }
        0
    }

    // When its thread came to that operation.
    fn time_before(&self, operation: usize) -> u64 {
        match self.times.get(operation) {
            None => 0,
            Some(time) => time.load(Ordering::SeqCst),
        }
    }

    fn now(&self) -> u64 {
        match self.from.elapsed(self.rt) {
            Ok(time) => u64::try_from(time.as_nanos()).unwrap_or(u64::MAX),
            Err(_) => 0,
        }
    }

    // Who takes at the end of a chain, or writes where others read.
    fn is_last(&self, t: ThreadNo) -> bool {
        usize::from(t.0).saturating_add(1) == self.case.threads
    }

    fn is_last_owner(&self, t: ThreadNo) -> bool {
        usize::from(t.0).saturating_add(2) == self.case.threads
    }

    // All workers begin together; their clocks are read then, and behind all rounds. Between these an operation pays
    // for no more than two comparisons.
    fn at_round(&self, operation: u32) {
        if operation == 0 {
            self.begin();
        }
        if operation == self.last {
            self.end();
        }
    }

    #[cold]
    #[inline(never)]
    fn begin(&self) {
        self.all.wait();
        self.began.fetch_min(self.now(), Ordering::SeqCst);
    }

    #[cold]
    #[inline(never)]
    fn end(&self) {
        self.ended.fetch_max(self.now(), Ordering::SeqCst);
    }

    // Works for a while, before a mutex is given back.
    fn at_long_round(&self, operation: u32) {
        self.at_round(operation);
        if operation % 3 == BEHIND {
            let from = self.now();
            for _ in 0..MOST_LOOKS {
                if self.now().saturating_sub(from) >= SECTION {
                    return;
                }
            }
        }
    }

    // The clock is read before each operation of the writer.
    fn at_wait(&self, t: ThreadNo, operation: u32) {
        self.at_round(operation);
        if self.is_last(t) {
            self.note_time(operation);
        } else if operation == self.last {
            self.first_ended.fetch_min(self.now(), Ordering::SeqCst);
        }
    }

    fn note_time(&self, operation: u32) {
        if let Some(time) = self.times.get(operation as usize) {
            time.store(self.now(), Ordering::SeqCst);
        }
    }

    // The second thread takes the mutex once the first has it, and has it so when the first waits. The clock is read
    // before all and behind all.
    fn at_turn(&self, t: ThreadNo, operation: u32) {
        if operation == 0 {
            self.begin();
        }
        let meets = if self.is_last(t) { 0 } else { 1 };
        if operation == meets {
            self.ends.wait();
        }
        if operation == self.last.saturating_add(2) {
            self.end();
        }
    }

    // Each sleeper comes before each of its waits, while it has the mutex. The last thread takes it in a round once all
    // have come: then all sleep. The clock is read before all and behind all.
    fn at_broadcast(&self, t: ThreadNo, operation: u32) {
        if operation == 0 {
            self.begin();
        }
        let rounds = self.last / 3;
        if self.is_last(t) {
            if operation < self.last && operation % 3 == 0 {
                let before = operation as usize / 3;
                let comers = before
                    .saturating_add(1)
                    .saturating_mul(self.sleepers.workers);
                self.sleepers.wait_for(comers);
            }
        } else if operation > 0 && operation <= rounds {
            self.sleepers.come();
        } else if operation == rounds.saturating_add(2) {
            self.end();
        }
    }

    // Each owner has its own mutex before any of them takes the next one's. When they are asleep, the clock is read
    // before the taker's take, and from then on before each operation of the last owner.
    fn at_link(&self, t: ThreadNo, operation: u32) {
        if operation == 1 {
            self.all.wait();
            if self.is_last(t) {
                thread::sleep(self.rt, Duration::from_millis(FALL_ASLEEP));
                self.ends.wait();
                self.began.store(self.now(), Ordering::SeqCst);
            } else if self.is_last_owner(t) {
                self.ends.wait();
            }
        }
        if self.is_last_owner(t) {
            self.note_time(operation);
        }
    }
}

impl<R: Clock + Sync> Gate for TimingGate<'_, R> {
    fn at(&self, t: ThreadNo, operation: u32) {
        match self.case.round {
            Round::Bare
            | Round::Edit
            | Round::Apart
            | Round::Nested
            | Round::Read
            | Round::Write
            | Round::Get
            | Round::Mixed
            | Round::Share => self.at_round(operation),
            Round::Long => self.at_long_round(operation),
            Round::Waits => self.at_wait(t, operation),
            Round::PingPong => self.at_turn(t, operation),
            Round::Broadcast => self.at_broadcast(t, operation),
            Round::Chain => self.at_link(t, operation),
        }
    }
}

// Room for the times of so many operations.
fn no_times(alloc: Global, operations: usize) -> Result<Vec<AtomicU64>> {
    let mut times = Vec::new(alloc);
    for _ in 0..operations {
        times.push(AtomicU64::new(0))?;
    }
    Ok(times)
}

fn tells_of_a_loan(event: Event) -> bool {
    if let Event::Shown { base, eff } = event {
        eff != base
    } else {
        false
    }
}
