//! What the words of a command line ask for.

use turn_policy::Policy;

/// What a user asks for.
#[derive(Drop, Debug)]
pub enum Asked {
    /// A schedule by this policy.
    Schedule(Policy),
    /// The help, which is this text.
    Help(String),
}
