//! What stands above the lanes: the titles, how the run ended, and which of its turns are shown.
use crate::lines::{Line, add_lines, widest, wrap};
use crate::page::Page;
use crate::pixels::{Px, count};
use crate::shapes::Class::Word;
use crate::shapes::{Class, Form, MaybeShape, Shape, add_some, add_words};
use crate::wording::{Pushed, push_counted};
use chart_layout::{Chart, End};
use chart_words::end_headline;
use std::alloc::{AllocError, Global};

/// The titles, in lines.
#[derive(Drop)]
pub struct TitleBlock {
    titles: Vec<Line>,
    subtitles: Vec<Line>,
    /// The first line of the second.
    under: Px,
    pub bottom: Px,
}

impl TitleBlock {
    pub fn make(alloc: Global, title: &str, subtitle: &str) -> Result<TitleBlock, AllocError> {
        let mut titles = Vec::new(alloc);
        wrap(
            alloc,
            &mut titles,
            Word("title"),
            None,
            title.as_bytes(),
            90,
        )?;
        let mut subtitles = Vec::new(alloc);
        wrap(
            alloc,
            &mut subtitles,
            Word("sub"),
            None,
            subtitle.as_bytes(),
            150,
        )?;
        let under = Px(32).plus_times(count(titles.len()), 24);
        let bottom = under.plus_times(count(subtitles.len()), 18).plus(4);
        Ok(TitleBlock {
            titles,
            subtitles,
            under,
            bottom,
        })
    }

    /// How wide it is, with what stands at its right.
    pub fn width(&self) -> Px {
        let titles = Px(widest(&self.titles, 127)).plus(330);
        let subtitles = Px(widest(&self.subtitles, 78)).plus(200);
        titles.max(subtitles)
    }
}

/// Adds the titles, and at the right how the run ended.
pub fn add_above(
    alloc: Global,
    shapes: &mut Vec<Shape>,
    page: &Page<'_>,
    head: &TitleBlock,
    right: Px,
) -> Pushed {
    let end = &page.chart.end;
    add_lines(alloc, shapes, &head.titles, (Px(24), Px(34)), 24)?;
    add_lines(alloc, shapes, &head.subtitles, (Px(24), head.under), 18)?;
    add_words(
        alloc,
        shapes,
        end_class(end),
        (right, Px(34)),
        end_headline(end).as_bytes(),
    )?;
    add_some(
        shapes,
        window_words(alloc, page.chart, (right, head.under))?,
    )
}

fn end_class(end: &End) -> Class {
    match end {
        End::Done => Word("good"),
        End::Stuck { .. } | End::Reversed => Word("bad"),
        End::TooLong => Word("fair"),
    }
}

// Which turns are shown, where they aren't all.
fn window_words(alloc: Global, chart: &Chart, at: (Px, Px)) -> MaybeShape {
    if chart.first == 0 && chart.last >= chart.turns {
        return Ok(None);
    }
    let mut words = Vec::new(alloc);
    push_shown(&mut words, chart)?;
    push_counted(&mut words, b" of", chart.turns)?;
    Ok(Some(Shape(Word("right"), Form::Words(at, words))))
}

// The turns between two rows, or else the one row.
fn push_shown(out: &mut Vec<u8>, chart: &Chart) -> Pushed {
    if chart.first >= chart.last {
        return push_counted(out, b"row", chart.first);
    }
    push_counted(out, b"turns", chart.first)?;
    push_counted(out, b" to", chart.last.saturating_sub(1))
}
