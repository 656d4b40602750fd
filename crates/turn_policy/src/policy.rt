//! Who is given the next turn, as a user says it.

/// How the next turn is given, of those threads that have neither ended nor are idle.
///
/// ```
/// let policy = Policy::Priority { heeds_loans: true };
/// ```
#[derive(Clone, Copy, Debug, PartialEq, Eq)]
pub enum Policy {
    /// To the one with the least effective priority, or with the least base priority where loans aren't heeded; of
    /// equals to the one that ran last, and else to the one with the lowest number.
    Priority { heeds_loans: bool },
    /// To the one that a generator draws, which begins with this seed.
    Chance { seed: u32 },
}
