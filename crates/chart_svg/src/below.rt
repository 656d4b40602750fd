//! What stands below the lanes: numbered sentences, and the printed end.
use crate::lines::{Line, add_lines, widest, wrap};
use crate::page::Page;
use crate::pixels::{Px, count};
use crate::shapes::Class::Word;
use crate::shapes::{Class, Shapes, add_words};
use crate::wording::Pushed;
use chart_layout::{End, Sentence};
use chart_words::{push_end, push_sentence};
use std::alloc::{AllocError, Global};

/// The most bytes of a line.
const MOST: usize = 96;

/// The words that stand there, and how much room they take.
#[derive(Drop)]
pub struct Below {
    /// The sentences, each with its turn, and that of the end.
    said: Vec<Line>,
    /// The printed end.
    printed: Vec<Line>,
    top: Px,
    middle: Px,
    pub right: Px,
    pub bottom: Px,
}

impl Below {
    /// What stands below a page's lanes.
    pub fn make(alloc: Global, page: &Page<'_>) -> Result<Below, AllocError> {
        let said = said_of(alloc, page)?;
        let printed = printed_of(alloc, page)?;
        let top = page.bottom.plus(46);
        let middle = Px(56).plus(widest(&said, 70).max(240)).plus(36);
        let right = middle.plus(widest(&printed, 72)).plus(24);
        let bottom = top
            .plus_times(count(said.len()), 18)
            .max(top.plus_times(count(printed.len()), 16))
            .plus(28);
        Ok(Below {
            said,
            printed,
            top,
            middle,
            right,
            bottom,
        })
    }
}

fn said_of(alloc: Global, page: &Page<'_>) -> Result<Vec<Line>, AllocError> {
    let mut said = Vec::new(alloc);
    for sentence in page.chart.sentences.as_slice() {
        add_sentence(alloc, &mut said, page, sentence)?;
    }
    add_end(alloc, &mut said, page)?;
    Ok(said)
}

fn add_sentence(
    alloc: Global,
    said: &mut Vec<Line>,
    page: &Page<'_>,
    sentence: &Sentence,
) -> Pushed {
    let mut words = Vec::new(alloc);
    push_sentence(&mut words, page.plan, sentence)?;
    wrap(alloc, said, Word("said"), Some(sentence.turn), &words, MOST)
}

fn add_end(alloc: Global, said: &mut Vec<Line>, page: &Page<'_>) -> Pushed {
    let mut words = Vec::new(alloc);
    push_end(&mut words, page.plan, &page.chart.end)?;
    wrap(alloc, said, Word("end"), None, &words, MOST)
}

fn printed_of(alloc: Global, page: &Page<'_>) -> Result<Vec<Line>, AllocError> {
    let mut printed = Vec::new(alloc);
    for line in page.chart.printed.as_slice().split(|byte| *byte == b'\n') {
        if !line.is_empty() {
            let class = line_class(&page.chart.end, line);
            wrap(alloc, &mut printed, class, None, line, MOST)?;
        }
    }
    Ok(printed)
}

// Where the run is stuck, the queues and the last word stand out.
fn line_class(end: &End, line: &[u8]) -> Class {
    let stands_out = match end {
        End::Done => false,
        End::Stuck { .. } => line.starts_with(b"queue") || line == b"stuck".as_slice(),
        End::Reversed => line == b"reversed".as_slice(),
        End::TooLong => line == b"toolong".as_slice(),
    };
    if stands_out {
        Word("stop")
    } else {
        Word("mono")
    }
}

/// What stands below the lanes.
pub fn shapes_below(alloc: Global, below: &Below) -> Shapes {
    let (middle, top) = (below.middle, below.top);
    let first = top.plus(20);
    let mut shapes = Vec::new(alloc);
    add_words(
        alloc,
        &mut shapes,
        Word("head"),
        (Px(24), top),
        b"What happened",
    )?;
    add_lines(alloc, &mut shapes, &below.said, (Px(56), first), 18)?;
    add_words(
        alloc,
        &mut shapes,
        Word("head"),
        (middle, top),
        b"At the end",
    )?;
    add_lines(alloc, &mut shapes, &below.printed, (middle, first), 16)?;
    Ok(shapes)
}
