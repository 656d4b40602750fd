//! The arrows from lane to lane, in the column of their turn. Their lines pass behind bars; their heads and words stand
//! before all of these.
ghost use Rattle.std.specs.Prelude.{◌≡◌, ◌-◌, ◌≤◌, ◌++◌, if◌then◌else◌, length, slice_get, IfOk, OnOk, Some};
ghost use Rattle.chart_svg.specs.Drawn.{arrow_classes, arrow_title, class_bytes, figure_bytes, line_bytes, to_word, turn_at, ArrowIsDrawn};
ghost use Rattle.chart_svg.specs.Lanes.{scale_of, Fits, IsLaidOut, IsWithin};
ghost use Rattle.chart_svg.specs.Pages.{ArrowIsOn, HasPlaces};
ghost use Rattle.chart_svg.specs.Shapes.{shape_bytes, Show, ShowAll};
ghost use Rattle.chart_svg.specs.declared.shapes.Figure.TheVariants.{Up, Down};

use crate::packing::is_wait;
use crate::page::{LaneBand, Page};
use crate::pixels::{Px, count};
use crate::shapes::Class::Word;
use crate::shapes::{Class, Figure, Form, MaybeShape, Shape, add, add_all, add_some};
use crate::wording::Pushed;
use chart_layout::{Arrow, ArrowKind, BarKind, Saying};
use chart_words::{push_arrow, push_words};
use lock_model::LockNo;
use std::alloc::{AllocError, Global};

/// Arrows, as shapes.
#[derive(Drop)]
pub struct ArrowShapes {
    pub lines: Vec<Shape>,
    /// Their heads, and their words where there is room for words.
    pub heads: Vec<Shape>,
}

impl ArrowShapes {
    fn new(alloc: Global) -> ArrowShapes {
        ArrowShapes {
            lines: Vec::new(alloc),
            heads: Vec::new(alloc),
        }
    }

    // Adds arrows behind those so far.
    fn add(&mut self, more: ArrowShapes) -> Pushed
        ensures lines { OnOk result (self.new.lines.items
            ≡ self.old.lines.items ++ more.lines.items) }
        ensures heads { OnOk result (self.new.heads.items
            ≡ self.old.heads.items ++ more.heads.items) }
    {
        add_all(&mut self.lines, more.lines)?;
        add_all(&mut self.heads, more.heads)
    }
}

/// The arrows of a page, those whose lanes are there.
pub fn arrows(alloc: Global, page: &Page<'_>) -> Result<ArrowShapes, AllocError>
    requires { IsLaidOut page.now }
    ensures { IfOk result (λ arrows. Show arrows.lines.items (λ lines.
        ShowAll arrows.heads.items (ArrowIsOn page.now lines) page.now.chart.now.arrows)) }
{
    let mut arrows = ArrowShapes::new(alloc);
    for arrow in page.chart.arrows.as_slice() {
        arrows.add(one_arrow(alloc, page, *arrow)?)?;
    }
    Ok(arrows)
}

fn one_arrow(alloc: Global, page: &Page<'_>, arrow: Arrow) -> Result<ArrowShapes, AllocError>
    requires { IsLaidOut page.now }
    ensures { IfOk result (λ one. Show one.lines.items (λ lines.
        Show one.heads.items (λ heads. ArrowIsOn page.now lines heads arrow))) }
{
    let Some(from) = page.lane_of(arrow.from) else {
        return Ok(ArrowShapes::new(alloc));
    };
    let Some(to) = page.lane_of(arrow.to) else {
        return Ok(ArrowShapes::new(alloc));
    };
    arrow_between(alloc, page, arrow, from, to)
}

fn arrow_between(
    alloc: Global,
    page: &Page<'_>,
    arrow: Arrow,
    from: &LaneBand,
    to: &LaneBand,
) -> Result<ArrowShapes, AllocError>
    requires out { IsLaidOut page.now }
    requires begins { slice_get page.now.lanes.items arrow.from.0 ≡ Some from.now }
    requires ends { slice_get page.now.lanes.items arrow.to.0 ≡ Some to.now }
    ensures { IfOk result (λ one. Show one.lines.items (λ lines. Show one.heads.items (λ heads.
        ArrowIsDrawn page.now.plan.now page.now.chart.now (scale_of page.now) lines heads arrow))) }
{
    let goes_up = to.top.0 < from.top.0;
    let begin = begin_of(arrow, from, goes_up);
    let tip = tip_of(page, arrow, to, goes_up);
    let head = head_of(alloc, page, arrow, figure_of(goes_up), tip)?;
    let words = words_of(alloc, page, arrow, height_of(from, goes_up))?;
    let mut one = ArrowShapes::new(alloc);
    add(&mut one.lines, line_of(page, arrow, begin, tip))?;
    add(&mut one.heads, head)?;
    add_some(&mut one.heads, words)?;
    Ok(one)
}

fn figure_of(goes_up: bool) -> Figure
    ensures { result ≡ (if goes_up then Up else Down) }
{
    if goes_up { Figure::Up } else { Figure::Down }
}

// The height of its words: above or below the lane from which it comes.
fn height_of(from: &LaneBand, goes_up: bool) -> Px {
    if goes_up {
        from.top.minus(3)
    } else {
        from.bottom.minus(7)
    }
}

fn line_of(page: &Page<'_>, arrow: Arrow, begin: Px, tip: Px) -> Shape
    ensures { shape_bytes result ≡ line_bytes (arrow_classes arrow.kind).0
        (turn_at (scale_of page.now) page.now.chart.now arrow.turn) begin.0 tip.0 }
{
    let x = page.turn_at(arrow.turn);
    Shape(classes(arrow.kind).0, Form::Line((x, begin), (x, tip)))
}

// A head without its words.
fn head_of(
    alloc: Global,
    page: &Page<'_>,
    arrow: Arrow,
    figure: Figure,
    tip: Px,
) -> Result<Shape, AllocError>
    ensures { IfOk result (λ shape. shape_bytes shape
        ≡ figure_bytes (arrow_classes arrow.kind).1 figure
        (turn_at (scale_of page.now) page.now.chart.now arrow.turn) tip.0
        (arrow_title page.now.plan.now arrow)) }
{
    let said = said_of(alloc, page, arrow)?;
    let at = (page.turn_at(arrow.turn), tip);
    Shape::figure(alloc, classes(arrow.kind).1, figure, at, said)
}

// The classes of its line and of its head.
fn classes(kind: ArrowKind) -> (Class, Class)
    ensures line { class_bytes result.0 ≡ (arrow_classes kind).0 }
    ensures head { class_bytes result.1 ≡ (arrow_classes kind).1 }
{
    match kind {
        ArrowKind::Lends { before, prio } if before == prio => (Word("pale"), Word("palehead")),
        ArrowKind::Lends { .. } => (Word("lends"), Word("lendhead")),
        ArrowKind::Wakes => (Word("wakes"), Word("wakehead")),
        ArrowKind::BlockedOn | ArrowKind::Behind => (Word("block"), Word("blockhead")),
        ArrowKind::Refused => (Word("refused"), Word("refusedhead")),
    }
}

// What is said where its head is pointed at: `high lends 10 to low`.
fn said_of(alloc: Global, page: &Page<'_>, arrow: Arrow) -> Result<Vec<u8>, AllocError>
    ensures { IfOk result (λ said. said.items ≡ arrow_title page.now.plan.now arrow) }
{
    let mut said = Vec::from_slice(alloc, page.plan.thread_name(arrow.from))?;
    push_words(&mut said, b" ")?;
    push_arrow(&mut said, arrow)?;
    push_words(&mut said, to_word(arrow.kind))?;
    push_words(&mut said, page.plan.thread_name(arrow.to))?;
    Ok(said)
}

// What stands before the name of the thread to which it goes.
fn to_word(kind: ArrowKind) -> &'static [u8]
    ensures { result.now ≡ to_word kind }
{
    match kind {
        ArrowKind::Lends { .. } => b" to ",
        ArrowKind::Wakes | ArrowKind::BlockedOn | ArrowKind::Behind | ArrowKind::Refused => b" ",
    }
}

// Its words beside its begin, where there is room for words.
fn words_of(alloc: Global, page: &Page<'_>, arrow: Arrow, y: Px) -> MaybeShape {
    let Some(class) = words_class(arrow.kind) else {
        return Ok(None);
    };
    if !page.has_words {
        return Ok(None);
    }
    let mut words = Vec::new(alloc);
    push_arrow(&mut words, arrow)?;
    let at = (page.turn_at(arrow.turn).plus(5), y);
    Ok(Some(Shape(class, Form::Words(at, words))))
}

// The class of its words, if it has words of its own.
fn words_class(kind: ArrowKind) -> Option<Class> {
    match kind {
        ArrowKind::Lends { before, prio } if before == prio => None,
        ArrowKind::Lends { .. } => Some(Word("lend")),
        ArrowKind::Wakes => Some(Word("wake")),
        ArrowKind::BlockedOn | ArrowKind::Behind | ArrowKind::Refused => None,
    }
}

// Where an arrow begins: one that goes up above the words of the lane's marks, and one of a refusal
// above its reason too, at the top of the lane. One that goes down begins below the wait of a thread
// that blocks or lends, and at the line of one that wakes or was refused a lock.
fn begin_of(arrow: Arrow, from: &LaneBand, goes_up: bool) -> Px
    requires { HasPlaces from.now }
    ensures { IsWithin from.now result.0 }
{
    match (arrow.kind, goes_up) {
        (ArrowKind::Refused, true) => from.top,
        (
            ArrowKind::Wakes | ArrowKind::Lends { .. } | ArrowKind::BlockedOn | ArrowKind::Behind,
            true,
        ) => from.begin.plus(1),
        (ArrowKind::Wakes | ArrowKind::Refused, false) => from.line(),
        (ArrowKind::Lends { .. } | ArrowKind::BlockedOn | ArrowKind::Behind, false) => {
            from.bar_bottom(level_of(from, arrow.turn.saturating_add(1), Sought::Wait))
        }
    }
}

// Where an arrow ends: a loan at the step of the priority, one that blocks or was refused at the bar
// of the lock, and one that wakes, or that goes to a writer, at the wait.
fn tip_of(page: &Page<'_>, arrow: Arrow, to: &LaneBand, goes_up: bool) -> Px
    requires { Fits page.now.prios.items to.now }
    ensures { IsWithin to.now result.0 }
{
    if let (ArrowKind::Lends { prio, .. }, Some(strip)) = (arrow.kind, to.strip) {
        return page.prio_at(strip, prio);
    }
    let sought = match arrow.kind {
        ArrowKind::Lends { .. } | ArrowKind::BlockedOn | ArrowKind::Refused => {
            Sought::Hold(lock_of(page, arrow.turn))
        }
        ArrowKind::Wakes | ArrowKind::Behind => Sought::Wait,
    };
    let level = level_of(to, arrow.turn, sought);
    if goes_up {
        to.bar_bottom(level)
    } else {
        to.bar_top(level)
    }
}

// The lock on which a thread blocked in the turn, which it was refused, or at which its walk stood,
// where a sentence tells of it: of a loan that changes nothing none does.
fn lock_of(page: &Page<'_>, turn: u32) -> Option<LockNo> {
    match &page.sentence_at(turn)?.saying {
        Saying::Waits { lock, .. } | Saying::Lends { lock, .. } | Saying::Refused { lock, .. } => {
            Some(*lock)
        }
        Saying::Sorts { .. }
        | Saying::Claims { .. }
        | Saying::Frees { .. }
        | Saying::Sleeps { .. }
        | Saying::Wakes { .. } => None,
    }
}

// A bar at which an arrow begins or ends: that of a hold, of the lock where that is known, or that of a wait.
#[derive(Clone, Copy)]
enum Sought {
    Hold(Option<LockNo>),
    Wait,
}

// The level of the bar that covers the row.
fn level_of(lane: &LaneBand, row: u32, sought: Sought) -> u32
    ensures { result ≤ length lane.now.bars.ends.items - 1 }
{
    for level in 0..count(lane.bars.ends.len()) {
        if let Some(bar) = lane.bars.covering(level, row) {
            if is_sought(bar.what, sought) {
                return level;
            }
        }
    }
    0
}

fn is_sought(what: BarKind, sought: Sought) -> bool {
    match (what, sought) {
        (BarKind::Holds { l, .. }, Sought::Hold(lock)) => lock.unwrap_or(l) == l,
        (
            BarKind::Waits { .. }
            | BarKind::TakenOff { .. }
            | BarKind::Woken { .. }
            | BarKind::Walks,
            Sought::Hold(_),
        ) => false,
        (_, Sought::Wait) => is_wait(what),
    }
}
