//! Cutting a source into lines.
ghost use Rattle.std.specs.Prelude.{◌≡◌, ◌+◌, ◌<◌, ◌≤◌, ◌++◌, ◌∷◌, [], length, IfSome, IfNone, MatchOption, position, ◌==◌, not, true};
ghost use Rattle.lock_model.specs.Script.Lines.{is_printable, lines_of};
ghost use Rattle.std.specs.List.{list_all};
ghost use Rattle.script_read.specs.Reading.{IsRunIn, Lacks, lowest_or};

use std::simd::prelude::*;

/// The first line and the bytes behind its end. `None` comes where no bytes are left.
pub fn split_line(bytes: &[u8]) -> Option<(&[u8], &[u8])>
    ensures lines { MatchOption result (lines_of bytes.now ≡ [])
        (λ cut. lines_of bytes.now ≡ cut.0.now ∷ lines_of cut.1.now) }
    ensures shorter { IfSome result (λ cut. length cut.1.now < length bytes.now) }
{
    if bytes.is_empty() {
        return None;
    }
    match split_at_byte(bytes, b'\n') {
        Some((line, rest)) => Some((line, rest)),
        None => Some((bytes, &[])),
    }
}

/// The first line, whether each byte of it may stand in a script, and the bytes behind its end. `None` comes where no
/// bytes are left. Where each may, the line is walked once.
pub fn split_judged(bytes: &[u8]) -> Option<(&[u8], bool, &[u8])>
    ensures lines { MatchOption result (lines_of bytes.now ≡ [])
        (λ cut. lines_of bytes.now ≡ cut.0.now ∷ lines_of cut.2.now) }
    ensures judged { IfSome result (λ cut. cut.1 ≡ list_all is_printable cut.0.now) }
    ensures shorter { IfSome result (λ cut. length cut.2.now < length bytes.now) }
{
    match printable_line(bytes) {
        Some((line, rest)) => Some((line, true, rest)),
        None => {
            let (line, rest) = split_line(bytes)?;
            Some((line, are_printable(line), rest))
        }
    }
}

// The first line and the bytes behind its end, where it ends and each byte of it may stand in a script.
fn printable_line(bytes: &[u8]) -> Option<(&[u8], &[u8])>
    ensures cut { IfSome result (λ cut. bytes.now ≡ cut.0.now ++ 10 ∷ cut.1.now) }
    ensures judged { IfSome result (λ cut. list_all is_printable cut.0.now ≡ true) }
{
    // An empty line ends at once.
    let (first, rest) = bytes.split_first()?;
    if *first == b'\n' {
        return Some((&[], rest));
    }
    let place = place_of_unprintable(bytes)?;
    if bytes[place] != b'\n' {
        return None;
    }
    Some((&bytes[..place], &bytes[place + 1..]))
}

// 16 bytes are judged at once, and those that are left one by one.
fn place_of_unprintable(bytes: &[u8]) -> Option<usize>
    ensures { result ≡ position (λ b. not (is_printable b)) bytes.now }
{
    let mut from = 0;
    while LANES <= bytes.len() - from {
        let run = printable_run(bytes, from);
        if run < LANES {
            return Some(from + run);
        }
        from += LANES;
    }
    let place = place_one_by_one(&bytes[from..])?;
    Some(from + place)
}

fn place_one_by_one(bytes: &[u8]) -> Option<usize>
    ensures { result ≡ position (λ b. not (is_printable b)) bytes.now }
{
    bytes.iter().position(|b| !is_printable(*b))
}

// How many bytes are judged at once.
const LANES: usize = 16;

// How many of the 16 bytes from there on stand before the first of them that may not stand in a script.
#[inline(always)]
fn printable_run(bytes: &[u8], at: usize) -> usize
    requires { at + LANES ≤ length bytes.now }
    ensures { IsRunIn is_printable bytes.now at LANES result }
{
    let lanes = u8x16::from_slice(&bytes[at..]);
    let stops = lanes.simd_lt(u8x16::splat(b' ')) | lanes.simd_gt(u8x16::splat(b'~'));
    lowest_or(stops.to_bitmask(), LANES)
}

// The place of the lowest bit that is set, or that number where none is.
#[inline(always)]
fn lowest_or(bits: u64, none: usize) -> usize
    ensures { result ≡ lowest_or bits none }
{
    if bits == 0 {
        none
    } else {
        bits.trailing_zeros() as usize
    }
}

fn are_printable(bytes: &[u8]) -> bool
    ensures { result ≡ list_all is_printable bytes.now }
{
    bytes.iter().all(|b| is_printable(*b))
}

// From a space to `~`.
fn is_printable(b: u8) -> bool
    ensures { result ≡ is_printable b }
{
    b == b' ' || b.is_ascii_graphic()
}

/// What stands before the first byte of that value, and what stands behind it.
pub fn split_at_byte(bytes: &[u8], byte: u8) -> Option<(&[u8], &[u8])>
    ensures cut { IfSome result (λ cut. bytes.now ≡ cut.0.now ++ byte ∷ cut.1.now) }
    ensures first { IfSome result (λ cut. Lacks byte cut.0.now) }
    ensures none { IfNone result (Lacks byte bytes.now) }
{
    let place = place_of(bytes, byte)?;
    Some((&bytes[..place], &bytes[place + 1..]))
}

fn place_of(bytes: &[u8], byte: u8) -> Option<usize>
    ensures { result ≡ position (λ b. b == byte) bytes.now }
{
    bytes.iter().position(|b| *b == byte)
}
