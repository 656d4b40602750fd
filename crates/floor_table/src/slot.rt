//! What lies behind the latches of a floor's table.

use chain_table::Chain;
use sleep_queues::SleepQueue;
use thread_records::ThreadRec;
use turnstile_core::Turnstile;
use witness_orders::Orders;

/// A value that one thread has at a time. Each is small, so that cells lie close to each other: what is large is boxed.
#[derive(Drop)]
pub enum Slot {
    /// The record of a thread.
    Record(Box<ThreadRec>),
    /// What a key of a lock's table has, where it is present.
    Cell(Option<u64>),
    /// The turnstiles that are lent to the locks of a chain.
    Turnstiles(Chain<Turnstile>),
    /// The sleep queues that are lent to the locks and channels of a chain.
    SleepQueues(Chain<SleepQueue>),
    /// The class graph: in which order classes of locks were taken.
    Graph(Box<Orders>),
}
