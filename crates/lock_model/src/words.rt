//! Words and numbers of a line, as they are pushed onto a text.
ghost use Rattle.std.specs.Prelude.{◌≡◌, ◌++◌, ◌∷◌, ◌≤◌, decimal, length, take, OnOk};

use crate::name::Name;
use itoa::write_digits;
use std::alloc::AllocError;

/// Pushes a word that stands behind others, with the space before it. It fails where memory runs out.
///
/// ```
/// let mut line = Vec::from_slice(alloc, b"lock")?;
/// push_word(&mut line, b"inodes")?; // lock inodes
/// ```
pub fn push_word(out: &mut Vec<u8>, word: &[u8]) -> Result<(), AllocError>
    ensures { OnOk result (out.new.items ≡ out.old.items ++ 32 ∷ word.now) }
{
    out.push(b' ')?;
    out.extend_from_slice(word)
}

/// Pushes a number that stands behind words, in decimal, with the space before it. It fails where memory runs out.
pub fn push_number(out: &mut Vec<u8>, n: u64) -> Result<(), AllocError>
    ensures { OnOk result (out.new.items ≡ out.old.items ++ 32 ∷ decimal n) }
{
    out.push(b' ')?;
    push_digits(out, n)
}

/// Pushes a number in decimal. It fails where memory runs out.
pub fn push_digits(out: &mut Vec<u8>, n: u64) -> Result<(), AllocError>
    ensures { OnOk result (out.new.items ≡ out.old.items ++ decimal n) }
{
    let mut buffer = [0; 2 * MOST_DIGITS];
    let start = write_digits(n, &mut buffer, MOST_DIGITS);
    push_front(
        out,
        &buffer[start..start + MOST_DIGITS],
        MOST_DIGITS - start,
    )
}

/// Pushes a name that stands behind others, with the space before it. It fails where memory runs out.
///
/// ```
/// let mut line = Vec::from_slice(alloc, b"lock")?;
/// push_name(&mut line, &plan.locks.as_slice()[0].name)?;
/// ```
pub fn push_name(out: &mut Vec<u8>, name: &Name) -> Result<(), AllocError>
    ensures { OnOk result (out.new.items ≡ out.old.items ++ 32 ∷ name.now) }
{
    out.push(b' ')?;
    name.push_onto(out)
}

// The most digits that a number has.
const MOST_DIGITS: usize = 20;

// Pushes the first so many of some bytes. All are copied, and the others cut off again: where callers give a number of
// bytes that is fixed, that is a few moves, and no call.
#[inline(always)]
pub(crate) fn push_front(out: &mut Vec<u8>, bytes: &[u8], n: usize) -> Result<(), AllocError>
    requires { n ≤ length bytes.now }
    ensures { OnOk result (out.new.items ≡ out.old.items ++ take n bytes.now) }
{
    let before = out.len();
    out.extend_from_slice(bytes)?;
    out.truncate(before + n);
    Ok(())
}
