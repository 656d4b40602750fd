//! What stands round the lanes: what is read aloud, the names of the threads and the numbers of the turns.
ghost use Rattle.std.specs.Prelude.{◌≡◌, ◌+◌, ◌<◌, codes, option_map, Some, IfOk};
ghost use Rattle.chart_svg.specs.Drawn.{line_bytes, pixels, prio_words};
ghost use Rattle.chart_svg.specs.Pages.{shown_words, stop_at, FrameIsOn, PrioIsOn, StopsAt};
ghost use Rattle.chart_svg.specs.Shapes.{shape_bytes, shapes_in, Show};

use crate::page::{LaneBand, Page};
use crate::pixels::{Px, width_of};
use crate::shapes::Class::Word;
use crate::shapes::{
    Area, Class, Form, MaybeShape, Shape, Shapes, add, add_all, add_some, add_words,
};
use crate::wording::{Pushed, push_counted};
use chart_layout::PrioSpan;
use chart_words::{end_headline, push_words};
use lock_model::{Prio, ThreadNo};
use std::alloc::{AllocError, Global};

/// What is read aloud of the picture.
pub fn heading(
    alloc: Global,
    page: &Page<'_>,
    title: &str,
    subtitle: &str,
) -> Result<Shape, AllocError> {
    let title = Vec::from_slice(alloc, title.as_bytes())?;
    let mut words = Vec::from_slice(alloc, subtitle.as_bytes())?;
    push_words(&mut words, b" The run ended so: ")?;
    push_words(&mut words, end_headline(&page.chart.end).as_bytes())?;
    Ok(Shape(Class::None, Form::Heading(title, words)))
}

/// The paper, of that size.
pub fn paper(size: (u32, u32)) -> Shape {
    let all = Area {
        x: Px(0),
        y: Px(0),
        width: size.0,
        height: size.1,
    };
    Shape(Word("paper"), Form::Rect(all, None))
}

/// The columns with the numbers of the turns.
pub fn columns(alloc: Global, page: &Page<'_>) -> Shapes {
    let mut shapes = Vec::new(alloc);
    add_zebra(&mut shapes, page)?;
    add_turns(alloc, &mut shapes, page)?;
    Ok(shapes)
}

// Every other column is shaded.
fn add_zebra(shapes: &mut Vec<Shape>, page: &Page<'_>) -> Pushed {
    if !page.has_words {
        return Ok(());
    }
    for turn in page.chart.first..page.chart.last {
        if turn % 2 == 0 {
            add(
                shapes,
                Shape(Word("zebra"), Form::Rect(column_of(page, turn), None)),
            )?;
        }
    }
    Ok(())
}

fn column_of(page: &Page<'_>, turn: u32) -> Area {
    Area {
        x: page.turn_at(turn).minus(page.column / 2),
        y: page.top.minus(6),
        width: page.column,
        height: page.bottom.plus(2).from(page.top),
    }
}

// The line below the lanes, and the numbers of the turns below it.
fn add_turns(alloc: Global, shapes: &mut Vec<Shape>, page: &Page<'_>) -> Pushed {
    let (top, y) = (page.bottom, page.bottom.plus(15));
    add(
        shapes,
        Shape(
            Word("axis"),
            Form::Line((page.left, top), (page.right(), top)),
        ),
    )?;
    add_words(alloc, shapes, Word("gray"), (Px(24), y), b"turn")?;
    let every = turns_apart(page);
    for turn in page.chart.first..page.chart.last {
        if turn % every == 0 {
            let at = (page.turn_at(turn), y);
            add(shapes, Shape::number(alloc, Word("turn"), at, turn)?)?;
        }
    }
    Ok(())
}

// How many turns lie from one number to the next, so that they have room.
fn turns_apart(page: &Page<'_>) -> u32
    ensures { 0 < result }
{
    let digits = if page.chart.last > 1000 { 4 } else { 3 };
    if width_of(digits, 70) <= page.column {
        1
    } else if page.column >= 14 {
        5
    } else {
        10
    }
}

/// The name of a lane's thread, its priority, and its line.
pub fn lane_frame(alloc: Global, page: &Page<'_>, lane: &LaneBand) -> Shapes
    ensures { IfOk result (λ shapes.
        Show shapes.items (λ picture. FrameIsOn page.now picture lane.now)) }
{
    let name = page.plan.thread_name(lane.thread);
    let mut shapes = Vec::new(alloc);
    add(
        &mut shapes,
        Shape::words(alloc, Word("name"), (Px(24), lane.line().plus(4)), name)?,
    )?;
    add_some(&mut shapes, priority(alloc, lane)?)?;
    add_all(&mut shapes, own_line(alloc, page, lane)?)?;
    Ok(shapes)
}

// The line of a lane's thread, to its end.
fn own_line(alloc: Global, page: &Page<'_>, lane: &LaneBand) -> Shapes
    ensures { IfOk result (λ shapes. Show shapes.items (λ picture.
        StopsAt picture lane.now (stop_at page.now lane.now.thread.0))) }
{
    match end_of(page, lane.thread) {
        Some(x) => ended_line(alloc, page, lane, x),
        None => {
            let mut shapes = Vec::new(alloc);
            add(&mut shapes, line_to(page, lane, page.right()))?;
            Ok(shapes)
        }
    }
}

fn line_to(page: &Page<'_>, lane: &LaneBand, x: Px) -> Shape {
    let y = lane.line();
    Shape(Word("line"), Form::Line((page.left, y), (x, y)))
}

// One that ends there: a stroke across it, and a word.
fn ended_line(alloc: Global, page: &Page<'_>, lane: &LaneBand, x: Px) -> Shapes
    ensures { IfOk result (λ shapes.
        Show shapes.items (λ picture. StopsAt picture lane.now (Some x.0))) }
{
    let mut shapes = Vec::new(alloc);
    add(&mut shapes, line_to(page, lane, x))?;
    add_words(
        alloc,
        &mut shapes,
        Word("gray"),
        (x.plus(5), lane.line().plus(4)),
        b"done",
    )?;
    add(&mut shapes, stroke(lane, x))?;
    Ok(shapes)
}

fn stroke(lane: &LaneBand, x: Px) -> Shape
    ensures { shape_bytes result ≡ line_bytes (codes "stops") x.0
        (pixels (lane.now.begin.0 + 25)) (pixels (lane.now.begin.0 + 47)) }
{
    Shape(
        Word("stops"),
        Form::Line((x, lane.begin.plus(25)), (x, lane.begin.plus(47))),
    )
}

/// Below the first lane's priority: which of two goes first.
pub fn hint(alloc: Global, page: &Page<'_>) -> MaybeShape {
    let Some(lane) = page.lanes.first() else {
        return Ok(None);
    };
    let at = (Px(24), lane.line().plus(32));
    Ok(Some(Shape::words(alloc, Word("hint"), at, b"smaller goes first")?))
}

/// Where a thread came to its end, where that is on the page.
pub fn end_of(page: &Page<'_>, t: ThreadNo) -> Option<Px>
    ensures { option_map (λ x. x.0) result ≡ stop_at page.now t.0 }
{
    let lane = page.chart.lanes.as_slice().get(usize::from(t.0))?;
    let row = lane.ended?;
    if row > page.chart.last {
        None
    } else {
        Some(page.row_begin(row))
    }
}

// Its priority, as the lane's first step says it.
fn priority(alloc: Global, lane: &LaneBand) -> MaybeShape
    ensures { IfOk result (λ shape.
        Show (shapes_in shape) (λ picture. PrioIsOn picture lane.now)) }
{
    let Some(step) = lane.steps.first() else {
        return Ok(None);
    };
    let words = prio_words(alloc, shown_prio(lane.strip, *step), step.base)?;
    let at = (Px(24), lane.line().plus(20));
    Ok(Some(Shape(Word("gray"), Form::Words(at, words))))
}

// The one by which it runs, or its own one where a strip shows the other.
fn shown_prio(strip: Option<Px>, step: PrioSpan) -> Prio
    ensures { prio_words result.0 step.base.0 ≡ shown_words strip step }
{
    match strip {
        Some(_) => step.base,
        None => step.effective,
    }
}

fn prio_words(alloc: Global, prio: Prio, base: Prio) -> Result<Vec<u8>, AllocError>
    ensures { IfOk result (λ words. words.items ≡ prio_words prio.0 base.0) }
{
    let mut words = Vec::new(alloc);
    push_counted(&mut words, b"priority", u32::from(prio.0))?;
    if prio != base {
        push_counted(&mut words, b" (base", u32::from(base.0))?;
        push_words(&mut words, b")")?;
    }
    Ok(words)
}
