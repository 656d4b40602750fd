//! What every other crate speaks of: the numbers, names, plans and events of a run of locks, their
//! limits, and in `specs/` the definitions that the contracts cite.
//!
//! - `numbers`: threads, locks, channels, classes and priorities.
//! - `name`: the names that a script gives to them.
//! - `sequence`: a list, as it stands in the types below.
//! - `plan`: what a script says: locks, channels, threads with their operations, and a schedule.
//! - `event`: what happened in a run, and why something was refused.
//! - `laws`: what the facets of an event tell of each other.
//! - `turn`: what a turn of the scheduled run answers.
//! - `words`: words and numbers, as they are pushed onto a text.
//! - `limits`: the most of each.
#![tactic(auto)]

mod event;
mod laws;
pub mod limits;
mod name;
mod numbers;
mod plan;
mod sequence;
mod turn;
mod words;

pub use event::{
    Busy, Entry, Event, Halted, Held, LockFacet, OfTable, Refused, Reversal, place_held,
};
pub use laws::facets_agree;
pub use name::Name;
pub use numbers::{ChanNo, ClassNo, LockNo, Prio, ThreadNo};
pub use plan::{
    ChanDecl, Declared, Kind, LockDecl, Mode, OfLocks, Op, Plan, QueueName, Side, ThreadDecl,
};
pub use sequence::Sequence;
pub use turn::{StepKind, Turn};
pub use words::{push_digits, push_name, push_number, push_word};
