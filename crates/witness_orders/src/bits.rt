//! Sets of classes, as the bits of a number: the lowest is that of the class 0.
ghost use Rattle.std.specs.Prelude.{◌≡◌, ℕ, ◌<◌, ◌==◌, ◌^◌};
ghost use Rattle.std.specs.List.{All, list_any};
ghost use Rattle.lock_model.specs.Counts.{has_bit};

use lock_model::ClassNo;

// The set of one class.
pub(crate) fn only(c: ClassNo) -> u64
    requires { c.0 < 64 }
    ensures { result ≡ 2 ^ c.0 }
{
    1 << c.0
}

// Whether the set has the class.
pub(crate) fn has(set: u64, c: ClassNo) -> bool
    requires { c.0 < 64 }
    ensures { result ≡ has_bit c.0 set }
{
    set >> c.0 & 1 == 1
}

// The set of the classes of a list.
pub(crate) fn set_of(classes: &[ClassNo]) -> u64
    requires { All (λ c. c.0 < 64) classes.now }
    ensures { (b : ℕ) → has_bit b result ≡ list_any (λ c. c.0 == b) classes.now }
{
    let mut set = 0;
    for c in classes {
        set |= only(*c);
    }
    set
}
