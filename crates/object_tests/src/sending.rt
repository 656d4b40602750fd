//! Objects and their nodes move from one thread to another, and so do chains and records.
use chain_table::Chain;
use sleep_queues::{SleepQueue, SleepTaken, Sleeper};
use thread_records::ThreadRec;
use turnstile_core::{Loan, Taken, Turnstile, Waiter};

fn passes<T: Send>() {}

#[test]
fn passes_between_threads(rt: HostRuntime) {
    passes::<(Box<Turnstile>, Box<Waiter>, Taken, Box<Loan>)>();
    passes::<(Box<SleepQueue>, Box<Sleeper>, SleepTaken)>();
    passes::<(Chain<Turnstile>, Box<ThreadRec>)>();
}
