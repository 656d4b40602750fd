//! Text in lines, which are broken at blanks.
use crate::pixels::{Px, width_of};
use crate::shapes::Class::Word;
use crate::shapes::{Class, Shape, add, add_words};
use crate::wording::Pushed;
use chart_words::push_words;
use lock_model::push_word;
use std::alloc::{AllocError, Global};
use std::mem;

/// A line of words, with a number before it or none.
#[derive(Drop)]
pub struct Line {
    class: Class,
    number: Option<u32>,
    words: Vec<u8>,
}

impl Line {
    // Whether a word more would make it too long.
    fn has_no_room(&self, word: &[u8], most: usize) -> bool {
        !self.words.is_empty() && self.words.len().saturating_add(word.len()) >= most
    }

    // Pushes a word, behind a blank where others stand before it.
    fn push_word(&mut self, word: &[u8]) -> Pushed {
        if self.words.is_empty() {
            push_words(&mut self.words, word)
        } else {
            push_word(&mut self.words, word)
        }
    }
}

/// Adds text in lines of at most so many bytes, the first with the number. A longer word is cut.
pub fn wrap(
    alloc: Global,
    lines: &mut Vec<Line>,
    class: Class,
    number: Option<u32>,
    text: &[u8],
    most: usize,
) -> Pushed {
    let text = with_blanks(alloc, text, most)?;
    let mut line = Line {
        class,
        number,
        words: Vec::new(alloc),
    };
    for word in text.split(|byte| *byte == b' ') {
        if line.has_no_room(word, most) {
            let next = Line {
                class,
                number: None,
                words: Vec::new(alloc),
            };
            lines.push(mem::replace(&mut line, next))?;
        }
        line.push_word(word)?;
    }
    lines.push(line)?;
    Ok(())
}

// The text with blanks in words of more bytes than so many. No letter is cut.
fn with_blanks(alloc: Global, text: &[u8], most: usize) -> Result<Vec<u8>, AllocError> {
    let mut out = Vec::new(alloc);
    let mut bytes: usize = 0;
    for byte in text {
        if bytes >= most && *byte != b' ' && !is_inside(*byte) {
            out.push(b' ')?;
            bytes = 0;
        }
        out.push(*byte)?;
        bytes = if *byte == b' ' {
            0
        } else {
            bytes.saturating_add(1)
        };
    }
    Ok(out)
}

// Whether a byte isn't the first of its letter.
fn is_inside(byte: u8) -> bool {
    byte & 0xc0 == 0x80
}

/// About how wide the widest line is, where a letter takes so many tenths of a pixel.
pub fn widest(lines: &[Line], tenths: u32) -> u32 {
    let mut most = 0;
    for line in lines {
        most = width_of(line.words.len(), tenths).max(most);
    }
    most
}

/// Adds lines that lie so far apart, the first of them there.
pub fn add_lines(
    alloc: Global,
    shapes: &mut Vec<Shape>,
    lines: &[Line],
    first: (Px, Px),
    pitch: u32,
) -> Pushed {
    let (x, mut y) = first;
    for line in lines {
        add_line(alloc, shapes, line, (x, y))?;
        y = y.plus(pitch);
    }
    Ok(())
}

// One line there, behind its number.
fn add_line(alloc: Global, shapes: &mut Vec<Shape>, line: &Line, at: (Px, Px)) -> Pushed {
    if let Some(number) = line.number {
        let before = (at.0.minus(10), at.1);
        add(shapes, Shape::number(alloc, Word("nr"), before, number)?)?;
    }
    add_words(alloc, shapes, line.class, at, &line.words)
}
