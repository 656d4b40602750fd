//! The strips of priorities, in the lanes whose priorities change: a line where the thread runs, and a loan as a filled
//! step. More important is up.
ghost use Rattle.std.specs.Prelude.{◌≡◌, ◌++◌, codes, decimal, IfOk};
ghost use Rattle.chart_svg.specs.Drawn.{loan_area};
ghost use Rattle.chart_svg.specs.Lanes.{scale_of, IsLentAt, LoansAreDrawn};
ghost use Rattle.chart_svg.specs.Shapes.{Show, ShowAll};

use crate::frame::end_of;
use crate::page::{LaneBand, Page, prios_of};
use crate::pixels::{Px, width_of};
use crate::shapes::Class::Word;
use crate::shapes::{Area, Form, MaybeShape, Shape, Shapes, add, add_all, add_some, begin_path};
use crate::wording::{Pushed, push_counted};
use chart_layout::PrioSpan;
use chart_words::push_words;
use lock_model::{Prio, push_digits};
use std::alloc::{AllocError, Global};

/// The strip of a lane, if it has one, without the words of its loans.
pub fn strip_of(alloc: Global, page: &Page<'_>, lane: &LaneBand) -> Shapes
    ensures { IfOk result (λ shapes.
        Show shapes.items (λ picture. LoansAreDrawn page.now picture lane.now)) }
{
    let Some(strip) = lane.strip else {
        return Ok(Vec::new(alloc));
    };
    let mut shapes = ticks(alloc, page, lane, strip)?;
    add_all(&mut shapes, loans(alloc, page, lane, strip)?)?;
    add_some(&mut shapes, run(alloc, page, strip, &lane.steps)?)?;
    Ok(shapes)
}

// Priorities at the left of a strip: all that have room there, or those of its own lane where all have none.
fn ticks(alloc: Global, page: &Page<'_>, lane: &LaneBand, strip: Px) -> Shapes {
    if page.prio_pitch() < 9 {
        ticks_of(alloc, page, strip, &prios_of(alloc, &lane.steps)?)
    } else {
        ticks_of(alloc, page, strip, &page.prios)
    }
}

// Those priorities, where they have room.
fn ticks_of(alloc: Global, page: &Page<'_>, strip: Px, prios: &[Prio]) -> Shapes {
    let mut shapes = Vec::new(alloc);
    let x = page.left.minus(6);
    let mut free = strip;
    for prio in prios {
        let y = page.prio_at(strip, *prio);
        if free <= y {
            let at = (x, y.plus(3));
            add(
                &mut shapes,
                Shape::number(alloc, Word("tick"), at, u32::from(prio.0))?,
            )?;
            free = y.plus(9);
        }
    }
    Ok(shapes)
}

// The steps of the loans of a lane, whose strip begins there.
fn loans(alloc: Global, page: &Page<'_>, lane: &LaneBand, strip: Px) -> Shapes
    ensures { IfOk result (λ shapes.
        ShowAll shapes.items (IsLentAt page.now strip.0) lane.now.steps.items) }
{
    let mut shapes = Vec::new(alloc);
    for step in &lane.steps {
        add_all(&mut shapes, one_loan(alloc, page, strip, *step)?)?;
    }
    Ok(shapes)
}

fn one_loan(alloc: Global, page: &Page<'_>, strip: Px, step: PrioSpan) -> Shapes
    ensures { IfOk result (λ shapes.
        Show shapes.items (λ picture. IsLentAt page.now strip.0 picture step)) }
{
    let mut shapes = Vec::new(alloc);
    if step.effective == step.base {
        return Ok(shapes);
    }
    let area = loan_area(page, strip, step);
    let words = loan_words(alloc, step)?;
    add(
        &mut shapes,
        Shape(Word("loan"), Form::Rect(area, Some(words))),
    )?;
    add(&mut shapes, base_of(area))?;
    Ok(shapes)
}

// The line of its own priority, at the bottom of a loan.
fn base_of(area: Area) -> Shape {
    let (right, base) = (area.x.plus(area.width), area.y.plus(area.height));
    Shape(Word("base"), Form::Line((area.x, base), (right, base)))
}

// From the priority as which it runs, down to its own.
fn loan_area(page: &Page<'_>, strip: Px, step: PrioSpan) -> Area
    ensures { (scale_of page.now).strip step.thread.0 ≡ strip.0
        → result ≡ loan_area (scale_of page.now) page.now.chart.now step }
{
    let begin = page.row_begin(step.first);
    let y = page.prio_at(strip, step.effective);
    Area {
        x: begin,
        y,
        width: page.row_end(step.last).from(begin),
        height: page.prio_at(strip, step.base).from(y),
    }
}

fn loan_words(alloc: Global, step: PrioSpan) -> Result<Vec<u8>, AllocError>
    ensures { IfOk result (λ words. words.items ≡ codes "runs as " ++ decimal step.effective.0) }
{
    let mut words = Vec::new(alloc);
    push_counted(&mut words, b"runs as", u32::from(step.effective.0))?;
    Ok(words)
}

/// The words of a lane's loans, where there is room for them.
pub fn labels_of(alloc: Global, page: &Page<'_>, lane: &LaneBand) -> Shapes {
    let mut shapes = Vec::new(alloc);
    if let Some(strip) = lane.strip {
        for step in &lane.steps {
            add_some(&mut shapes, label_of(alloc, page, strip, *step)?)?;
        }
    }
    Ok(shapes)
}

// The words of a loan, where it has room for them. A step without one has no height.
fn label_of(alloc: Global, page: &Page<'_>, strip: Px, step: PrioSpan) -> MaybeShape {
    let area = loan_area(page, strip, step);
    let words = loan_words(alloc, step)?;
    if area.height < 12 || width_of(words.len(), 68) > area.width {
        return Ok(None);
    }
    let at = (area.x.plus(6), area.y.plus(area.height / 2).plus(4));
    Ok(Some(Shape(Word("as"), Form::Words(at, words))))
}

// The line along which the thread runs, to its end.
fn run(alloc: Global, page: &Page<'_>, strip: Px, steps: &[PrioSpan]) -> MaybeShape {
    let Some((first, others)) = steps.split_first() else {
        return Ok(None);
    };
    let mut path = begin_path(alloc, page.left, page.prio_at(strip, first.effective))?;
    for step in others {
        push_corner(&mut path, b"H", page.row_begin(step.first))?;
        push_corner(&mut path, b"V", page.prio_at(strip, step.effective))?;
    }
    let end = end_of(page, first.thread).unwrap_or(page.right());
    push_corner(&mut path, b"H", end)?;
    Ok(Some(Shape(Word("runs"), Form::Curve(path, Vec::new(alloc)))))
}

// A piece of the line, to that x or y.
fn push_corner(path: &mut Vec<u8>, letter: &[u8], to: Px) -> Pushed {
    push_words(path, letter)?;
    push_digits(path, u64::from(to.0))
}
