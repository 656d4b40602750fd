//! Lines of a source, words of a line, and places in it.

use script_read::split_line;
use std::str;

/// Some bytes of a line that stand in a row.
#[derive(Clone, Copy, PartialEq, Eq)]
pub struct Span {
    pub start: usize,
    pub len: usize,
}

impl Span {
    /// One byte.
    pub fn at(start: usize) -> Span {
        Span { start, len: 1 }
    }

    /// Whether the byte of that number is among them.
    pub fn has(self, i: usize) -> bool {
        self.start <= i && !self.is_before(i)
    }

    /// Whether they end before that byte.
    pub fn is_before(self, i: usize) -> bool {
        self.start.saturating_add(self.len) <= i
    }
}

/// The source from a line on, the lines counted from 1.
pub fn from_line(source: &[u8], line: u32) -> &[u8] {
    let mut rest = source;
    for _ in 1..line {
        match split_line(rest) {
            Some((_, behind)) => rest = behind,
            None => return b"",
        }
    }
    rest
}

/// A line, without its end; where there is none, nothing.
pub fn line_at(source: &[u8], line: u32) -> &[u8] {
    match split_line(from_line(source, line)) {
        Some((text, _)) => text,
        None => b"",
    }
}

/// Bytes as text; where they are none, nothing.
pub fn text_of(bytes: &[u8]) -> &str {
    str::from_utf8(bytes).unwrap_or("")
}

/// The word of that number, counted from 0; where there is none, nothing.
pub fn word_at(line: &str, n: usize) -> &str {
    line.split(' ').nth(n).unwrap_or("")
}

/// Where that word stands; where there is none, the end of the line.
pub fn place_of(line: &str, n: usize) -> Span {
    let mut start: usize = 0;
    for (i, word) in line.split(' ').enumerate() {
        if i == n {
            return Span {
                start,
                len: word.len(),
            };
        }
        start = start.saturating_add(word.len()).saturating_add(1);
    }
    Span::at(line.len())
}

/// The whole line.
pub fn whole(line: &[u8]) -> Span {
    Span {
        start: 0,
        len: line.len().max(1),
    }
}
