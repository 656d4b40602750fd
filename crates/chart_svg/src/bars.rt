//! The bars of the lanes.
ghost use Rattle.std.specs.Prelude.{◌≡◌, ◌++◌, IfOk, OnOk};
ghost use Rattle.chart_svg.specs.Drawn.{bar_area, bar_class, bar_height, bar_title, class_bytes, lasting_words, Stands};
ghost use Rattle.chart_svg.specs.Lanes.{bar_bytes, scale_of, BarIsOn};
ghost use Rattle.chart_svg.specs.Shapes.{shape_bytes, Show, ShowAll};

use crate::packing::is_walk;
use crate::page::{LaneBand, Page};
use crate::pixels::{Px, width_of};
use crate::shapes::Class::{OfLock, Word};
use crate::shapes::{Area, Class, Form, MaybeShape, Shape, Shapes, add, add_all, add_some};
use crate::wording::{Pushed, push_counted};
use chart_layout::{Bar, BarKind, Chart, End, Saying};
use chart_words::{push_bar, push_words, queue_name};
use lock_model::{Mode, QueueName, ThreadNo};
use std::alloc::{AllocError, Global};

/// The bars of a lane.
pub fn bars_of(alloc: Global, page: &Page<'_>, lane: &LaneBand) -> Shapes
    ensures { IfOk result (λ shapes.
        ShowAll shapes.items (BarIsOn page.now lane.now) lane.now.bars.laid.items) }
{
    let mut shapes = Vec::new(alloc);
    for (bar, level) in &lane.bars.laid {
        let top = lane.bar_place(bar.what, *level);
        add_all(&mut shapes, one_bar(alloc, page, *bar, top)?)?;
    }
    Ok(shapes)
}

// What is said where a bar is pointed at: `low holds bus, turn 0 to 7`.
fn said_of(alloc: Global, page: &Page<'_>, bar: Bar) -> Result<Vec<u8>, AllocError>
    ensures { IfOk result (λ said. said.items ≡ bar_title page.now.plan.now page.now.chart.now bar) }
{
    let mut said = Vec::from_slice(alloc, page.plan.thread_name(bar.thread))?;
    push_words(&mut said, b" ")?;
    push_bar(&mut said, page.plan, bar.what)?;
    push_lasting(&mut said, page.chart, bar)?;
    Ok(said)
}

// How long a bar lasts, as far as the window shows its begin and its end.
fn push_lasting(out: &mut Vec<u8>, chart: &Chart, bar: Bar) -> Pushed
    ensures { OnOk result (out.new.items ≡ out.old.items ++ lasting_words chart.now bar) }
{
    let begin = bar.first.saturating_sub(1);
    match (chart.first < bar.first, bar.last < chart.last) {
        (true, true) => {
            push_counted(out, b", turn", begin)?;
            push_counted(out, b" to", bar.last)
        }
        (true, false) => {
            push_counted(out, b", from turn", begin)?;
            push_words(out, b" on")
        }
        (false, true) => push_counted(out, b", up to turn", bar.last),
        (false, false) => push_words(out, b", throughout"),
    }
}

fn one_bar(alloc: Global, page: &Page<'_>, bar: Bar, top: Px) -> Shapes
    ensures { IfOk result (λ shapes.
        Show shapes.items (λ picture. Stands picture (bar_bytes page.now top.0 bar))) }
{
    let mut shapes = Vec::new(alloc);
    add_some(&mut shapes, ground_of(page, bar, top))?;
    add(&mut shapes, shape_of(alloc, page, bar, top)?)?;
    add_some(&mut shapes, label_of(alloc, page, bar, top)?)?;
    add_some(&mut shapes, words_behind(alloc, page, bar, top)?)?;
    Ok(shapes)
}

// The paper below a bar. A walk has none.
fn ground_of(page: &Page<'_>, bar: Bar, top: Px) -> Option<Shape> {
    if is_walk(bar.what) {
        None
    } else {
        Some(Shape(Word("paper"), Form::Rect(area_of(page, bar, top), None)))
    }
}

// A bar without the words on it.
fn shape_of(alloc: Global, page: &Page<'_>, bar: Bar, top: Px) -> Result<Shape, AllocError>
    ensures { IfOk result (λ shape. shape_bytes shape ≡ bar_bytes page.now top.0 bar) }
{
    Ok(Shape(
        class_of(bar.what),
        Form::Rect(area_of(page, bar, top), Some(said_of(alloc, page, bar)?)),
    ))
}

// The words on it, or what it is called in short, where it has room for that.
fn label_of(alloc: Global, page: &Page<'_>, bar: Bar, top: Px) -> MaybeShape {
    let area = area_of(page, bar, top);
    if is_walk(bar.what) {
        return walk_label(alloc, area);
    }
    let words = words_of(alloc, page, bar)?;
    let room = area.width.saturating_sub(8);
    let fitting = fitting(&words, short_name(page, bar.what), room);
    if width_of(fitting.len(), 72) > room {
        return Ok(None);
    }
    let at = (area.x.plus(6), top.plus(13));
    Ok(Some(Shape::words(alloc, words_class(bar.what), at, fitting)?))
}

// All words where there is room for them, and else the short name.
fn fitting<'w>(words: &'w [u8], short: &'w [u8], room: u32) -> &'w [u8] {
    if width_of(words.len(), 72) <= room {
        words
    } else {
        short
    }
}

// Behind a wait that the run's end leaves: that it isn't woken.
fn words_behind(alloc: Global, page: &Page<'_>, bar: Bar, top: Px) -> MaybeShape {
    if !is_left(page, bar) {
        return Ok(None);
    }
    let area = area_of(page, bar, top);
    let at = (area.x.plus(area.width).plus(6), top.plus(13));
    Ok(Some(Shape::words(alloc, Word("never"), at, b"never woken")?))
}

// Where a bar is, whose top is there.
fn area_of(page: &Page<'_>, bar: Bar, top: Px) -> Area
    ensures { result ≡ bar_area (scale_of page.now) page.now.chart.now bar top.0 }
{
    let begin = page.row_begin(bar.first);
    Area {
        x: begin,
        y: top,
        width: page.row_end(bar.last).from(begin),
        height: height_of(bar.what),
    }
}

fn height_of(what: BarKind) -> u32
    ensures { result ≡ bar_height what }
{
    if is_walk(what) { 3 } else { 18 }
}

// What stands on a bar. One that waits behind a writer says so.
fn words_of(alloc: Global, page: &Page<'_>, bar: Bar) -> Result<Vec<u8>, AllocError> {
    let mut words = Vec::new(alloc);
    push_bar(&mut words, page.plan, bar.what)?;
    if let Some(writer) = writer_before(page, bar) {
        push_words(&mut words, b", behind ")?;
        push_words(&mut words, page.plan.thread_name(writer))?;
    }
    Ok(words)
}

// The writer behind which a bar's thread waits, if it waits.
fn writer_before(page: &Page<'_>, bar: Bar) -> Option<ThreadNo> {
    match bar.what {
        BarKind::Waits { .. } => writer_said(page, bar.first.checked_sub(1)?),
        BarKind::Holds { .. } | BarKind::TakenOff { .. } | BarKind::Woken { .. } | BarKind::Walks =>
            None,
    }
}

// The one of whom the sentence of the turn says that the turn's thread waits behind it.
fn writer_said(page: &Page<'_>, turn: u32) -> Option<ThreadNo> {
    match &page.sentence_at(turn)?.saying {
        Saying::Waits { behind, .. } => *behind,
        Saying::Lends { .. }
        | Saying::Sorts { .. }
        | Saying::Claims { .. }
        | Saying::Frees { .. }
        | Saying::Sleeps { .. }
        | Saying::Wakes { .. }
        | Saying::Refused { .. } => None,
    }
}

// The class of a bar, and that of its words.
fn class_of(what: BarKind) -> Class
    ensures { class_bytes result ≡ bar_class what }
{
    match what {
        BarKind::Holds { l, mode } => match mode {
            Mode::Excl => OfLock("holds", l),
            Mode::Shared => OfLock("reads", l),
        },
        BarKind::Waits { q } => match q {
            QueueName::Lock(l) => OfLock("waits", l),
            QueueName::Chan(_) => Word("chan"),
        },
        BarKind::TakenOff { q } => match q {
            QueueName::Lock(l) => OfLock("taken", l),
            QueueName::Chan(_) => Word("taken"),
        },
        BarKind::Woken { .. } => Word("woken"),
        BarKind::Walks => Word("walks"),
    }
}

fn words_class(what: BarKind) -> Class {
    match what {
        BarKind::Holds { l, mode } => match mode {
            Mode::Excl => Word("on"),
            Mode::Shared => OfLock("of", l),
        },
        BarKind::Waits { q } => match q {
            QueueName::Lock(l) => OfLock("halo of", l),
            QueueName::Chan(_) => Word("onchan"),
        },
        BarKind::TakenOff { q } => match q {
            QueueName::Lock(l) => OfLock("of", l),
            QueueName::Chan(_) => Word("onchan"),
        },
        BarKind::Woken { .. } => Word("wok"),
        BarKind::Walks => Word("walk"),
    }
}

// What stands on a bar that has no room for more.
fn short_name<'c>(page: &Page<'c>, what: BarKind) -> &'c [u8] {
    match what {
        BarKind::Holds { l, .. } => page.plan.lock_name(l),
        BarKind::Waits { q } => queue_name(page.plan, q),
        BarKind::TakenOff { .. } => b"off",
        BarKind::Woken { .. } => b"woken",
        BarKind::Walks => b"",
    }
}

// Whether it is a wait that the run's end leaves.
fn is_left(page: &Page<'_>, bar: Bar) -> bool {
    match (bar.what, &page.chart.end) {
        (BarKind::Waits { .. }, End::Stuck { .. }) => bar.last == page.chart.turns,
        (BarKind::Waits { .. }, End::Done | End::Reversed | End::TooLong) => false,
        (
            BarKind::Holds { .. }
            | BarKind::TakenOff { .. }
            | BarKind::Woken { .. }
            | BarKind::Walks,
            _,
        ) => false,
    }
}

// What a walk is called, where it has room.
fn walk_label(alloc: Global, area: Area) -> MaybeShape {
    if area.width <= 34 {
        return Ok(None);
    }
    let words: &[u8] = if area.width > 90 {
        b"walks the chain"
    } else {
        b"walks"
    };
    let at = (area.x.plus(4), area.y.plus(12));
    Ok(Some(Shape::words(alloc, Word("walk"), at, words)?))
}
