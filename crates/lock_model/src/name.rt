//! Names of locks, channels, threads and classes, seen by contracts as their spelling.
ghost use Rattle.std.specs.Prelude.{◌≡◌, ◌++◌, if◌then◌else◌, Some, None, nat_eq, IsTrue, OnOk};
ghost use Rattle.std.specs.Hash as fed;
ghost use Rattle.std.specs.Cmp.Lexicographic.{pointwise, nat_list_eq_equiv};
ghost use Rattle.std.specs.Cmp.{partial_equiv_from_equiv};
ghost use Rattle.std.specs.Cmp.Rules.{hashing};
ghost use Rattle.std.proofs.Common.{rules};
ghost use Rattle.std.specs.List.{list_all};
ghost use Rattle.lock_model.specs.Names.{is_name, is_name_byte};

use crate::limits::NAME_BYTES;
use crate::words::push_front;
use std::alloc::AllocError;
use std::hash::{Hash, Hasher};
use std::marker::Model;

/// A name: 1 to 16 bytes out of `a` to `z`, `0` to `9` and `_`, the first a letter.
///
/// ```
/// let name = Name::of(b"free_list").ok_or("not a name")?;
/// ```
#[derive(Clone, Copy, Debug)]
pub struct Name {
    // The spelling, and 0 behind it.
    bytes: [u8; NAME_BYTES],
    len: u8,
}

impl Model for Name {
    ghost use Rattle.std.specs.Prelude.{List, ℕ, ◌++◌, ◌-◌, length, take, replicate};

    ghost Value = { List ℕ };

    ghost use Rattle.lock_model.specs.Spelling.{IsSpelled, spelled_again};

    ghost view = { λ n. take n.len n.bytes };

    ghost invariant = { IsSpelled };

    ghost inverse = { λ s. record { bytes = s ++ replicate (16 - length s) 0; len = length s } };

    ghost inverse_ok = { spelled_again };
}

impl Name {
    /// The name that the bytes spell. `None` comes exactly where they break the rule.
    pub fn of(bytes: &[u8]) -> Option<Name>
        ensures { result ≡ (if is_name bytes.now then Some bytes.now else None) }
    {
        if !is_spelling(bytes) {
            return None;
        }
        let mut spelled = [0; NAME_BYTES];
        spelled[..bytes.len()].copy_from_slice(bytes);
        Some(Name {
            bytes: spelled,
            len: bytes.len() as u8,
        })
    }

    /// The spelling.
    pub fn as_bytes(&self) -> &[u8]
        ensures value { result.now ≡ self.now }
        ensures named { IsTrue (is_name result.now) }
    {
        &self.bytes[..self.len as usize]
    }

    // Pushes the spelling.
    pub(crate) fn push_onto(&self, out: &mut Vec<u8>) -> Result<(), AllocError>
        ensures { OnOk result (out.new.items ≡ out.old.items ++ self.now) }
    {
        push_front(out, &self.bytes, self.len as usize)
    }
}

fn is_spelling(bytes: &[u8]) -> bool
    ensures { result ≡ is_name bytes.now }
{
    match bytes.split_first() {
        None => false,
        Some((first, rest)) => {
            rest.len() < NAME_BYTES && first.is_ascii_lowercase() && are_name_bytes(rest)
        }
    }
}

fn are_name_bytes(bytes: &[u8]) -> bool
    ensures { result ≡ list_all is_name_byte bytes.now }
{
    bytes.iter().all(|b| is_name_byte(*b))
}

fn is_name_byte(b: u8) -> bool
    ensures { result ≡ is_name_byte b }
{
    b.is_ascii_lowercase() || b.is_ascii_digit() || b == b'_'
}

impl PartialEq for Name {
    ghost eq = { pointwise nat_eq };

    ghost laws = { partial_equiv_from_equiv nat_list_eq_equiv };

    fn eq(&self, other: &Name) -> bool {
        self.as_bytes() == other.as_bytes()
    }
}

impl Eq for Name {
    ghost laws = { nat_list_eq_equiv };
}

impl Hash for Name {
    ghost hash_input = { fed.slice fed.u8 };

    ghost respects_eq = { Prim.search (hashing, rules) };

    fn hash<H: Hasher>(&self, state: &mut H) {
        self.as_bytes().hash(state);
    }
}
