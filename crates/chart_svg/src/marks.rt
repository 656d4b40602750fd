//! The marks of the turns, with their words where there is room for words.
ghost use Rattle.std.specs.Prelude.{◌≡◌, ◌++◌, IfOk, OnOk};
ghost use Rattle.chart_svg.specs.Drawn.{class_bytes, dot_class, mark_bytes, mark_title, note_of};
ghost use Rattle.chart_svg.specs.Lanes.{IsLaidOut};
ghost use Rattle.chart_svg.specs.Pages.{MarkIsOn};
ghost use Rattle.chart_svg.specs.Shapes.{shape_bytes, Show, ShowAll};

use crate::lines::{Line, add_lines, wrap};
use crate::page::Page;
use crate::pixels::{Px, count, width_of};
use crate::shapes::Class::Word;
use crate::shapes::{Class, Figure, Form, MaybeShape, Shape, Shapes, add, add_all, add_some};
use crate::wording::Pushed;
use chart_layout::{MarkKind, TurnMark};
use chart_words::{push_lost, push_mark, push_note, push_refusal, push_words};
use lock_model::push_digits;
use std::alloc::{AllocError, Global};

/// From one line of a reason to the next.
const LINE_HEIGHT: u32 = 12;

/// All marks.
pub fn marks(alloc: Global, page: &Page<'_>) -> Shapes
    requires { IsLaidOut page.now }
    ensures { IfOk result (λ shapes.
        ShowAll shapes.items (MarkIsOn page.now) page.now.chart.now.marks) }
{
    let mut shapes = Vec::new(alloc);
    for mark in page.chart.marks.as_slice() {
        add_all(&mut shapes, one_mark(alloc, page, *mark)?)?;
    }
    Ok(shapes)
}

fn one_mark(alloc: Global, page: &Page<'_>, mark: TurnMark) -> Shapes
    requires { IsLaidOut page.now }
    ensures { IfOk result (λ shapes.
        Show shapes.items (λ picture. MarkIsOn page.now picture mark)) }
{
    let Some(lane) = page.lane_of(mark.thread) else {
        return Ok(Vec::new(alloc));
    };
    let x = page.turn_at(mark.turn);
    let mut shapes = Vec::new(alloc);
    add(&mut shapes, shape_of(alloc, page, mark, (x, lane.marks()))?)?;
    add_some(
        &mut shapes,
        own_words(alloc, page, mark, (x, lane.words()))?,
    )?;
    Ok(shapes)
}

// The words of a mark, where there is room for words, and where they don't stand before its reason.
fn own_words(alloc: Global, page: &Page<'_>, mark: TurnMark, at: (Px, Px)) -> MaybeShape {
    if !page.has_words || page.has_reason(mark) {
        return Ok(None);
    }
    let mut words = Vec::new(alloc);
    push_mark(&mut words, page.plan, mark.what)?;
    let fitting = fitting(&words, page.column);
    Ok(Some(Shape::words(alloc, word_class(mark.what), at, fitting)?))
}

// A mark without its words.
fn shape_of(
    alloc: Global,
    page: &Page<'_>,
    mark: TurnMark,
    at: (Px, Px),
) -> Result<Shape, AllocError>
    ensures { IfOk result (λ shape. shape_bytes shape
        ≡ mark_bytes page.now.plan.now mark at.0.0 at.1.0) }
{
    let said = said_of(alloc, page, mark)?;
    if mark.what.is_refusal() {
        Shape::figure(alloc, Word("cross"), Figure::Cross, at, said)
    } else {
        Ok(Shape(dot_class(mark.what), Form::Dot(at, said)))
    }
}

// What has room in a column: the words, or else the first of them.
fn fitting(words: &[u8], column: u32) -> &[u8] {
    if width_of(words.len(), 54).saturating_add(5) <= column {
        return words;
    }
    match words.iter().position(|byte| *byte == b' ') {
        Some(n) => words.get(..n).unwrap_or(words),
        None => words,
    }
}

fn dot_class(what: MarkKind) -> Class
    ensures { class_bytes result ≡ dot_class what }
{
    match what {
        MarkKind::Idle => Word("idle"),
        MarkKind::Noted(_) | MarkKind::Did(_) => Word("dot"),
    }
}

fn word_class(what: MarkKind) -> Class {
    if what.is_refusal() {
        Word("no")
    } else {
        Word("verb")
    }
}

// What is said where a mark is pointed at: `turn 3, low: add bus 1 1`.
fn said_of(alloc: Global, page: &Page<'_>, mark: TurnMark) -> Result<Vec<u8>, AllocError>
    ensures { IfOk result (λ said. said.items ≡ mark_title page.now.plan.now mark) }
{
    let mut said = Vec::from_slice(alloc, b"turn ")?;
    push_digits(&mut said, u64::from(mark.turn))?;
    push_words(&mut said, b", ")?;
    push_words(&mut said, page.plan.thread_name(mark.thread))?;
    push_words(&mut said, b": ")?;
    push_mark(&mut said, page.plan, mark.what)?;
    push_own_note(&mut said, page, mark.what)?;
    Ok(said)
}

// What it says behind the word of what was done.
fn push_own_note(out: &mut Vec<u8>, page: &Page<'_>, what: MarkKind) -> Pushed
    ensures { OnOk result (out.new.items ≡ out.old.items ++ note_of page.now.plan.now what) }
{
    match what {
        MarkKind::Noted(event) => push_note(out, page.plan, event),
        MarkKind::Did(_) => Ok(()),
        MarkKind::Idle => push_words(out, b"idle"),
    }
}

/// The words of refusals, each with its reason, above the words of other marks.
pub fn reasons(alloc: Global, page: &Page<'_>) -> Shapes {
    let mut shapes = Vec::new(alloc);
    for mark in &page.reasons {
        add_reason(alloc, &mut shapes, page, *mark)?;
    }
    Ok(shapes)
}

fn add_reason(alloc: Global, shapes: &mut Vec<Shape>, page: &Page<'_>, mark: TurnMark) -> Pushed {
    let Some(lane) = page.lane_of(mark.thread) else {
        return Ok(());
    };
    let lines = reason_lines(alloc, page, mark)?;
    let first = lane.begin.minus(height_of(&lines)).plus(11);
    add_lines(
        alloc,
        shapes,
        &lines,
        (page.turn_at(mark.turn), first),
        LINE_HEIGHT,
    )
}

/// How high lines of reasons are.
pub fn height_of(lines: &[Line]) -> u32 {
    count(lines.len()).saturating_mul(LINE_HEIGHT)
}

/// What was refused, and why. The lines are narrower than the columns from the turn before to the turn behind, so no
/// arrow of another turn goes through them.
pub fn reason_lines(
    alloc: Global,
    page: &Page<'_>,
    mark: TurnMark,
) -> Result<Vec<Line>, AllocError> {
    let mut words = Vec::new(alloc);
    push_reason(&mut words, page, mark)?;
    let room = page.column.saturating_mul(2).saturating_sub(12);
    let most = room.saturating_mul(10) / 58;
    let mut lines = Vec::new(alloc);
    wrap(alloc, &mut lines, Word("no"), None, &words, most as usize)?;
    Ok(lines)
}

// `refused fork1: its class must come before that of fork3, which is held`.
fn push_reason(out: &mut Vec<u8>, page: &Page<'_>, mark: TurnMark) -> Pushed {
    push_mark(out, page.plan, mark.what)?;
    if let Some((lock, class, held)) = page.refusal_at(mark.turn) {
        push_refusal(out, page.plan, lock, class, held)?;
    }
    match mark.what {
        MarkKind::Noted(event) => push_lost(out, event),
        MarkKind::Did(_) | MarkKind::Idle => Ok(()),
    }
}
