//! A table of sources, each with what is said of it on standard error:
//!
//! ```text
//! === step # 9: by a take
//! lockrun 1
//! *2 mutex m# k
//! ..
//! ---
//! lockrun: line 7: the lock is held here already (code 9)
//!     thread t holds m0, which it took in line 5
//! ..
//! ```
//!
//! Behind `===` stand the words of the command line, and behind `#` what is shown. In a source `\xNN` is the byte of
//! that number, and `*2 ..` the rest of the line as often as that, with 0, 1 and so on for `#`, and line ends for `\n`.

use std::alloc::{AllocError, Global};

/// A row, as it stands in its table.
#[derive(Clone, Copy)]
pub struct Row<'t> {
    /// Its first line.
    pub name: &'t str,
    pub command: &'t str,
    /// The lines of its source.
    pub lines: &'t str,
    /// What is said of it, byte for byte.
    pub said: &'t str,
}

/// The row of a part of a table, which begins behind `===`; in front of the first one there is none.
pub fn row_of(part: &str) -> Option<Row<'_>> {
    let (name, rest) = part.split_once('\n')?;
    let (command, _) = name.split_once(" # ").unwrap_or((name, ""));
    let (lines, said) = rest.split_once("---\n").unwrap_or((rest, ""));
    Some(Row {
        name,
        command,
        lines,
        said,
    })
}

/// The source that a row's lines stand for.
pub fn source_of(alloc: Global, lines: &str) -> Result<Vec<u8>, AllocError> {
    let mut source = Vec::new(alloc);
    push_lines(alloc, &mut source, lines)?;
    Ok(source)
}

fn push_lines(alloc: Global, source: &mut Vec<u8>, lines: &str) -> Result<(), AllocError> {
    for line in lines.lines() {
        match repeated(line) {
            Some((times, pattern)) => push_repeated(alloc, source, times, pattern)?,
            None => push_line(source, line.as_bytes())?,
        }
    }
    Ok(())
}

// How often the rest of a line stands, where the line says so, and that rest.
fn repeated(line: &str) -> Option<(u32, &str)> {
    let (times, pattern) = line.strip_prefix('*')?.split_once(' ')?;
    Some((times.parse().ok()?, pattern))
}

// The lines of a pattern, as often as that.
fn push_repeated(
    alloc: Global,
    source: &mut Vec<u8>,
    times: u32,
    pattern: &str,
) -> Result<(), AllocError> {
    for n in 0..times {
        let number = format!(in alloc; "{n}")?;
        push_numbered(source, pattern, number.as_bytes())?;
    }
    Ok(())
}

fn push_numbered(source: &mut Vec<u8>, pattern: &str, number: &[u8]) -> Result<(), AllocError> {
    for line in pattern.split("\\n") {
        push_with(source, line.as_bytes(), number)?;
    }
    Ok(())
}

// A line with the number for `#`.
fn push_with(source: &mut Vec<u8>, line: &[u8], number: &[u8]) -> Result<(), AllocError> {
    for b in line {
        if *b == b'#' {
            source.extend_from_slice(number)?;
        } else {
            source.push(*b)?;
        }
    }
    source.push(b'\n')?;
    Ok(())
}

// A line, where `\xNN` is the byte of that number.
fn push_line(source: &mut Vec<u8>, line: &[u8]) -> Result<(), AllocError> {
    let mut skipped: usize = 0;
    for (i, b) in line.iter().enumerate() {
        if skipped > 0 {
            skipped -= 1;
        } else if let Some(byte) = escaped(&line[i..]) {
            source.push(byte)?;
            skipped = 3;
        } else {
            source.push(*b)?;
        }
    }
    source.push(b'\n')?;
    Ok(())
}

// The byte whose number a text begins with.
fn escaped(text: &[u8]) -> Option<u8> {
    match text {
        [b'\\', b'x', high, low, ..] => {
            let (high, low) = (digit_of(*high)?, digit_of(*low)?);
            Some(high.wrapping_mul(16).wrapping_add(low))
        }
        [] | [_, ..] => None,
    }
}

fn digit_of(b: u8) -> Option<u8> {
    let digit = char::from(b).to_digit(16)?;
    u8::try_from(digit).ok()
}
