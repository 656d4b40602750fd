//! A set of threads, as the bits of a number: who has something to do, who comes in a round.
ghost use Rattle.std.specs.Prelude.{◌≡◌, ◌≢◌, ℕ, ◌-◌, ◌==◌, ◌||◌, ◌&&◌, ◌<◌, ◌≤◌, [], ◌∷◌, true, false, not, count_ones, IfNone, IfSome};
ghost use Rattle.lock_model.specs.Counts.{has_bit, is_empty};
ghost use Rattle.step_world.specs.Sets.{members, Passes, IsBelow};

use lock_model::ThreadNo;

/// A set of threads whose numbers are below 32.
#[derive(Clone, Copy)]
pub struct ThreadSet {
    pub bits: u32,
}

impl ThreadSet {
    /// Nobody.
    pub fn none() -> ThreadSet
        ensures { (t : ℕ) → has_bit t result.bits ≡ false }
    {
        ThreadSet { bits: 0 }
    }

    /// Whether the thread is one of them.
    pub fn has(self, t: ThreadNo) -> bool
        requires { t.0 < 32 }
        ensures { result ≡ has_bit t.0 self.bits }
    {
        self.bits >> t.0 & 1 == 1
    }

    /// Whether there is nobody.
    pub fn is_empty(self) -> bool
        ensures { result ≡ is_empty (members self.bits) }
    {
        is_nobody(self.bits)
    }

    /// The thread is one of them from now on.
    pub fn put(&mut self, t: ThreadNo)
        requires { t.0 < 32 }
        ensures { (u : ℕ) → has_bit u self.new.bits ≡ (t.0 == u || has_bit u self.old.bits) }
    {
        self.bits |= 1 << t.0;
    }

    /// The thread is none of them any more.
    pub fn take_out(&mut self, t: ThreadNo)
        requires { t.0 < 32 }
        ensures { (u : ℕ) → has_bit u self.new.bits ≡ (not (t.0 == u) && has_bit u self.old.bits) }
    {
        self.bits = without(self.bits, t);
    }

    /// Takes the first out, by number. There is none exactly where there is nobody.
    pub fn take_first(&mut self) -> Option<ThreadNo>
        ensures none { IfNone result ((members self.old.bits ≡ []) × (self.new ≡ self.old)) }
        ensures some { IfSome result (λ t. members self.old.bits ≡ t.0 ∷ members self.new.bits) }
    {
        if self.bits == 0 {
            return None;
        }
        let t = first(self.bits);
        self.take_out(t);
        Some(t)
    }

    /// Takes out those who stand before the first that is none of the others given, and says how many they were. It
    /// takes out nobody where they are more than so many.
    pub fn pass(&mut self, others: ThreadSet, most: u32) -> u32
        ensures few { result ≤ most }
        ensures passed { Passes others.bits self.old.bits self.new.bits result }
    {
        let front = before_others(self.bits, others.bits);
        let number = front.count_ones();
        if most < number {
            return 0;
        }
        self.bits -= front;
        number
    }
}

// Of the sets as numbers.

fn is_nobody(bits: u32) -> bool
    ensures { result ≡ is_empty (members bits) }
{
    bits == 0
}

fn without(bits: u32, t: ThreadNo) -> u32
    requires { t.0 < 32 }
    ensures { (u : ℕ) → has_bit u result ≡ (not (t.0 == u) && has_bit u bits) }
{
    bits & !(1 << t.0)
}

fn first(bits: u32) -> ThreadNo
    requires { bits ≢ 0 }
    ensures few { result.0 < 32 }
    ensures there { has_bit result.0 bits ≡ true }
    ensures none { (u : ℕ) → u < result.0 → has_bit u bits ≡ false }
{
    ThreadNo(bits.trailing_zeros() as u8)
}

// Those who stand before the first that is none of the others.
fn before_others(bits: u32, others: u32) -> u32
    ensures some { result ≤ bits }
    ensures passed { Passes others bits (bits - result) (count_ones result) }
{
    bits & below_first(bits & !others)
}

// The bits below the lowest that is set, and all where none is.
fn below_first(bits: u32) -> u32
    ensures { IsBelow bits result }
{
    if bits == 0 {
        u32::MAX
    } else {
        (1 << bits.trailing_zeros()) - 1
    }
}
