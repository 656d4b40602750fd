//! Schedules that a policy made: who has the next turn of a scheduled run, by priorities or by chance.
//!
//! - `policy`: the policies.
//! - `choosing`: whom a policy chooses between two turns of a world.
//! - `planning`: the schedule of a plan: its own first, and behind it the turns that the policy chose.
//! - `laws`: what the definitions mean: who is chosen, and that there is one schedule each, which is whole.
#![tactic(auto)]

mod choosing;
pub mod laws;
mod planning;
mod policy;

pub use planning::{Unplanned, schedule_by};
pub use policy::Policy;
