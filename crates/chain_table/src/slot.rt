//! Which chain a lock or a channel belongs to.
ghost use Rattle.std.specs.Prelude.{◌≡◌, ◌≤◌, ◌<◌, ◌%◌};

/// The place of the chain of the lock or channel with that number: the remainder by the number of
/// chains, which is 1 to 64.
pub fn slot_of(number: u8, chains: u32) -> u32
    requires some { 1 ≤ chains }
    requires limit { chains ≤ 64 }
    ensures value { result ≡ number % chains }
    ensures within { result < chains }
{
    u32::from(number) % chains
}
