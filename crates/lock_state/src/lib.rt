//! The state of a run and what threads do with it, as definitions alone: nothing here runs. With `lock_model` this is
//! what a reader must believe; every theorem of the crates above is said in these words.
//!
//! - `State`: a column for each thing that a lock, a queue, a thread or a table has.
//! - `Steps`: the steps of threads, what each asks of the state and what it makes of it. Each kind is in one of the
//!   rooms `LockWords`, `Turnstiles`, `SleepQueues`, `Lending`, `Orders`, `Counting` and `Items`.
//! - `Facts`: what holds between any two steps: a lawful state. Its rooms are `Queues`, `Waits`, `Words`, `Loans` and
//!   `Books`. Those of `Sleeps`, `Orders`, `Takes`, `Counts` and `Halts` hold beside, where each step asks what they
//!   need.
//! - `Best`: the best priority behind a thread, and cycles of waiting threads.
//! - `Run`: the scheduled run and the actions of its turns.
#![tactic(auto)]
