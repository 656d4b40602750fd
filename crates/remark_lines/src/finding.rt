//! What was found at a fault: its cause in a sentence, the place of it in the line, and another line that the sentence
//! speaks of.

use crate::book::Book;
use crate::places::{Span, place_of, word_at};
use crate::verbs::{Role, Verb};
use std::alloc::{AllocError, Global};
use std::fmt::Display;

/// The faulty line, and what the lines above it have made known.
#[derive(Drop)]
pub struct Fault<'a> {
    pub alloc: Global,
    pub source: &'a [u8],
    pub number: u32,
    pub bytes: &'a [u8],
    /// The bytes as text, where they are text.
    pub line: &'a str,
    pub book: Book<'a>,
    /// Its first word, where that is known.
    pub verb: Option<Verb>,
}

impl<'a> Fault<'a> {
    /// A word of the line, counted from 0.
    pub fn word(&self, n: usize) -> &'a str {
        word_at(self.line, n)
    }

    /// Where it stands.
    pub fn place(&self, n: usize) -> Span {
        place_of(self.line, n)
    }

    /// What the line does, where its first word is known.
    pub fn role(&self) -> Option<Role> {
        let verb = self.verb?;
        Some(verb.role())
    }

    /// The name of the open thread.
    pub fn thread(&self) -> &'a str {
        match self.book.open {
            Some(thread) => thread.name,
            None => "",
        }
    }

    /// The mark below that place.
    pub fn mark(&self, place: Span) -> Mark {
        Mark {
            alloc: self.alloc,
            place,
        }
    }

    /// The mark below a word of the line.
    pub fn at(&self, n: usize) -> Mark {
        self.mark(self.place(n))
    }
}

/// The cause of a fault.
#[derive(Drop)]
pub struct Finding {
    pub sentence: String,
    pub place: Span,
    pub other: Option<u32>,
}

/// A cause, where one is found.
pub type Found = Result<Option<Finding>, AllocError>;

/// A place of a faulty line, for which a cause is told.
#[derive(Clone, Copy)]
pub struct Mark {
    alloc: Global,
    place: Span,
}

impl Mark {
    /// The mark below one byte, so many behind the first.
    pub fn byte(self, i: usize) -> Mark {
        Mark {
            alloc: self.alloc,
            place: Span::at(self.place.start.saturating_add(i)),
        }
    }

    /// A cause that no other line has to do with, by its sentence.
    pub fn alone<S: Display + Drop>(self, sentence: S) -> Found {
        self.found(None, sentence)
    }

    /// A cause, and the line that it speaks of.
    pub fn with_line<S: Display + Drop>(self, line: u32, sentence: S) -> Found {
        self.found(Some(line), sentence)
    }

    fn found<S: Display + Drop>(self, other: Option<u32>, sentence: S) -> Found {
        Ok(Some(Finding {
            sentence: sentence.to_string(self.alloc)?,
            place: self.place,
            other,
        }))
    }
}
