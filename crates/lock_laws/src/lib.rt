//! The laws of a lawful state, over definitions alone: functions with empty bodies whose contracts are theorems.
//! Both engines of the product, the scheduled run and the threads, stand on them: each shows only which steps it
//! makes, and these laws do the rest.
//!
//! - `start`: the state at the start of a plan is lawful, and so is each state that steps reach from there.
//! - `kinds`: each kind of step keeps each fact of a lawful state, and so does each list of steps.
//! - `floor`: what the steps of a running floor keep beside: own records, acquiring rounds and their chains, looks.
//! - `priorities`: where no walk is under way and nobody waits in a cycle, each effective priority is the best
//!   behind it.
//! - `waits`: a thread stands at most once, on one queue, and a lock's word shows it.
//! - `seen`: a mutex is never shared, and who doesn't hold a lock may share it beside those who do; and who changes a
//!   lock's word has no last look then.
//! - `books`: the table of a lock is what the history leaves, and what a stamp of each class of event keeps.
//! - `objects`: where turnstiles, loan nodes and waiters are.
#![tactic(auto)]

pub mod books;
pub mod floor;
pub mod kinds;
pub mod objects;
pub mod priorities;
pub mod seen;
pub mod start;
pub mod waits;
