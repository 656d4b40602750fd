//! Where all columns and lanes are. A column is a turn, and its mark stands in the middle of it; a row of the run goes
//! from the middle of one column to the middle of the next.
ghost use Rattle.std.specs.Prelude.{◌≡◌, ◌↔◌, false, ℕ, ◌+◌, ◌-◌, ◌*◌, ◌≤◌, ◌++◌, ◌∷◌, [], length, All, IfOk, OnOk, slice_get, MatchOption, None, Some};
ghost use Rattle.chart_svg.specs.Drawn.{of_thread, pixels, right_edge, row_begin, row_end, turn_at, SaysAs};
ghost use Rattle.chart_svg.specs.Lanes.{bar_bottom, bar_place, bar_top, pitch_of, rank_in, scale_of, AreSame, Fits, HasPrios, IsLaidOut, IsLane};

use crate::marks::{height_of, reason_lines};
use crate::packing::{Packed, is_walk, pack};
use crate::pixels::{Px, count, width_of};
use chart_layout::{
    Arrow, ArrowKind, Bar, BarKind, Chart, Lane, PrioSpan, Saying, Sentence, TurnMark,
};
use chart_words::{push_arrow, push_mark};
use lock_model::{ClassNo, LockNo, Plan, Prio, ThreadNo};
use std::alloc::{AllocError, Global};

/// The greatest number of turns whose marks carry words.
const MOST_WORDS: u32 = 32;

/// Where everything is.
#[derive(Drop)]
pub struct Page<'c> {
    pub plan: &'c Plan,
    pub chart: &'c Chart,
    /// Where the columns begin, and how wide one is.
    pub left: Px,
    pub column: u32,
    /// Whether words stand at the marks.
    pub has_words: bool,
    /// Where the lanes begin and end.
    pub top: Px,
    pub bottom: Px,
    /// By thread.
    pub lanes: Vec<LaneBand>,
    /// The priorities that occur, the most important first.
    pub prios: Vec<Prio>,
    /// The refusals whose words have their reason with them, and stand above those of other marks, by turn.
    pub reasons: Vec<TurnMark>,
}

/// Where the lane of a thread is.
#[derive(Drop)]
pub struct LaneBand {
    pub thread: ThreadNo,
    pub top: Px,
    /// Where the words of its marks begin, below its reasons.
    pub begin: Px,
    pub bottom: Px,
    /// From one level of bars to the next.
    pitch: u32,
    /// The top of its strip of priorities, where these change.
    pub strip: Option<Px>,
    pub bars: Packed,
    /// Those of its strip.
    pub steps: Vec<PrioSpan>,
}

impl LaneBand {
    /// Where the words of its marks stand, the marks, and the line of its thread.
    pub fn words(&self) -> Px
        ensures { result.0 ≡ pixels (self.now.begin.0 + 11) }
    {
        self.begin.plus(11)
    }

    pub fn marks(&self) -> Px
        ensures { result.0 ≡ pixels (self.now.begin.0 + 19) }
    {
        self.begin.plus(19)
    }

    pub fn line(&self) -> Px
        ensures { result.0 ≡ pixels (self.now.begin.0 + 36) }
    {
        self.begin.plus(36)
    }

    /// The top and the bottom of the bars of a level.
    pub fn bar_top(&self, level: u32) -> Px
        ensures { result.0 ≡ bar_top self.now level }
    {
        self.begin.plus(27).plus_times(level, self.pitch)
    }

    pub fn bar_bottom(&self, level: u32) -> Px
        ensures { result.0 ≡ bar_bottom self.now level }
    {
        self.bar_top(level).plus(18)
    }

    /// The top of a bar on a level: a walk is a thin line below the wait from which it begins.
    pub fn bar_place(&self, what: BarKind, level: u32) -> Px
        ensures { result.0 ≡ bar_place self.now what level }
    {
        if is_walk(what) {
            self.bar_bottom(level).plus(2)
        } else {
            self.bar_top(level)
        }
    }

    // Its strip below its bars, where its priorities change, and the end of the lane.
    fn put_strip(&mut self, page: &Page<'_>)
        requires begins { self.old.top.0 ≤ self.old.begin.0 }
        requires begin_fits { self.old.begin.0 ≤ 4294967295 }
        ensures same { self.new
            ≡ record self.old { strip = self.new.strip; bottom = self.new.bottom } }
        ensures fits { Fits page.now.prios.items self.new }
        ensures flat { self.new.strip ≡ None ↔ AreSame self.new.steps.items }
    {
        let end = self.bars_end();
        if self.changes() {
            self.strip = Some(end.plus(5));
            self.bottom = end.plus(page.strip_height()).plus(27);
        } else {
            self.strip = None;
            self.bottom = end.plus(20);
        }
    }

    // Below its last bars, and the walks there.
    fn bars_end(&self) -> Px
        ensures { (level : ℕ) → level ≤ length self.now.bars.ends.items - 1
            → pixels (bar_bottom self.now level + 4) ≤ result.0 }
    {
        let room = if self.bars.has_walks() { 13 } else { 4 };
        self.bar_bottom(count(self.bars.ends.len()).saturating_sub(1))
            .plus(room)
    }

    fn changes(&self) -> bool
        ensures { result ≡ false ↔ AreSame self.now.steps.items }
    {
        match self.steps.first() {
            Some(first) => differ(&self.steps, *first),
            None => false,
        }
    }
}

impl<'c> Page<'c> {
    /// The page of a chart, whose lanes begin at `top`.
    pub fn make(
        alloc: Global,
        plan: &'c Plan,
        chart: &'c Chart,
        top: Px,
    ) -> Result<Page<'c>, AllocError>
        ensures plan { IfOk result (λ page. page.plan.now ≡ plan.now) }
        ensures chart { IfOk result (λ page. page.chart.now ≡ chart.now) }
        ensures laid_out { IfOk result IsLaidOut }
        ensures long { IfOk result (λ page. length page.lanes.items ≡ length chart.now.lanes) }
    {
        let columns = chart.last.saturating_sub(chart.first).max(1);
        let has_words = columns <= MOST_WORDS;
        let column = column_of(alloc, plan, chart, columns)?;
        let reasons = if has_words {
            reasons_of(alloc, chart.marks.as_slice())?
        } else {
            Vec::new(alloc)
        };
        let mut page = Page {
            plan,
            chart,
            left: left_of(plan, chart),
            column,
            has_words,
            top,
            bottom: top,
            lanes: Vec::new(alloc),
            prios: prios_of(alloc, chart.steps.as_slice())?,
            reasons,
        };
        page.put_lanes(alloc)?;
        Ok(page)
    }

    // The lanes, one below the other.
    fn put_lanes(&mut self, alloc: Global) -> Result<(), AllocError>
        requires none { length self.old.lanes.items ≡ 0 }
        requires fits { self.old.bottom.0 ≤ 4294967295 }
        requires wide { 9 ≤ self.old.column }
        requires prios { HasPrios self.old.prios.items self.old.chart.now.steps }
        ensures same { self.new
            ≡ record self.old { lanes = self.new.lanes; bottom = self.new.bottom } }
        ensures laid_out { OnOk result (IsLaidOut self.new) }
        ensures long { OnOk result
            (length self.new.lanes.items ≡ length self.old.chart.now.lanes) }
    {
        let lanes = self.chart.lanes.as_slice();
        for (t, own) in lanes.iter().enumerate() {
            let lane = self.lane(alloc, t, own)?;
            self.bottom = lane.bottom;
            add_lane(&mut self.lanes, lane)?;
        }
        Ok(())
    }

    // The lane of a thread, below those so far.
    fn lane(&self, alloc: Global, t: usize, own: &Lane) -> Result<LaneBand, AllocError>
        requires fits { self.now.bottom.0 ≤ 4294967295 }
        requires own { slice_get self.now.chart.now.lanes t ≡ Some own.now }
        ensures top { IfOk result (λ lane. lane.top ≡ self.now.bottom) }
        ensures lane { IfOk result (IsLane self.now.prios.items self.now.chart.now t) }
    {
        let begin = self.bottom.plus(self.reasons_height(alloc, own.thread)?);
        let bars = pack(alloc, &bars_of(alloc, self.chart, t)?)?;
        let mut lane = LaneBand {
            thread: own.thread,
            top: self.bottom,
            begin,
            bottom: begin,
            pitch: if bars.has_walks() { 33 } else { 22 },
            strip: None,
            bars,
            steps: steps_of(alloc, self.chart, t)?,
        };
        lane.put_strip(self);
        Ok(lane)
    }

    // How high the reasons of its refusals are.
    fn reasons_height(&self, alloc: Global, thread: ThreadNo) -> Result<u32, AllocError> {
        let mut height = 0;
        for mark in &self.reasons {
            if mark.thread == thread {
                height = height_of(&reason_lines(alloc, self, *mark)?).max(height);
            }
        }
        Ok(height)
    }

    /// The lane of a thread, if it has one.
    pub fn lane_of(&self, t: ThreadNo) -> Option<&LaneBand>
        ensures { MatchOption result (length self.now.lanes.items ≤ t.0)
            (λ lane. slice_get self.now.lanes.items t.0 ≡ Some lane.now) }
    {
        self.lanes.get(usize::from(t.0))
    }

    /// Whether the words of a mark have their reason with them.
    pub fn has_reason(&self, mark: TurnMark) -> bool {
        self.reasons.contains(&mark)
    }

    /// What is said of a turn.
    pub fn sentence_at(&self, turn: u32) -> Option<&'c Sentence> {
        let sentences = self.chart.sentences.as_slice();
        let sentence = sentences.get(sentences.partition_point(|other| other.turn < turn))?;
        if sentence.turn == turn {
            Some(sentence)
        } else {
            None
        }
    }

    /// The lock that was refused in a turn, the class by which, and the held lock of that, if one was refused.
    pub fn refusal_at(&self, turn: u32) -> Option<(LockNo, ClassNo, Option<LockNo>)> {
        match &self.sentence_at(turn)?.saying {
            Saying::Refused { lock, held, holds } => Some((*lock, *held, *holds)),
            Saying::Waits { .. }
            | Saying::Lends { .. }
            | Saying::Sorts { .. }
            | Saying::Claims { .. }
            | Saying::Frees { .. }
            | Saying::Sleeps { .. }
            | Saying::Wakes { .. } => None,
        }
    }

    /// Where the lanes' columns end.
    pub fn right(&self) -> Px
        ensures { result.0 ≡ right_edge (scale_of self.now) self.now.chart.now }
    {
        let columns = self.chart.last.saturating_sub(self.chart.first).max(1);
        self.left.plus_times(columns, self.column)
    }

    /// The middle of a turn's column.
    pub fn turn_at(&self, turn: u32) -> Px
        ensures { result.0 ≡ turn_at (scale_of self.now) self.now.chart.now turn }
    {
        let columns = turn.saturating_sub(self.chart.first);
        self.left
            .plus_times(columns, self.column)
            .plus(self.column / 2)
    }

    /// Where a row begins and ends.
    pub fn row_begin(&self, row: u32) -> Px
        ensures { result.0 ≡ row_begin (scale_of self.now) self.now.chart.now row }
    {
        if row <= self.chart.first {
            self.left
        } else {
            self.turn_at(row.saturating_sub(1))
        }
    }

    pub fn row_end(&self, row: u32) -> Px
        ensures { result.0 ≡ row_end (scale_of self.now) self.now.chart.now row }
    {
        if row >= self.chart.last {
            self.right()
        } else {
            self.turn_at(row)
        }
    }

    /// How far the priorities of a strip lie apart, and how high a strip is.
    pub fn prio_pitch(&self) -> u32
        ensures { result ≡ pitch_of (length self.now.prios.items) }
    {
        (84 / self.gaps().max(1)).clamp(2, 15)
    }

    pub fn strip_height(&self) -> u32
        ensures { result ≡ pixels
            (pitch_of (length self.now.prios.items) * (length self.now.prios.items - 1)) }
    {
        self.prio_pitch().saturating_mul(self.gaps())
    }

    fn gaps(&self) -> u32
        ensures { result ≡ pixels (length self.now.prios.items) - 1 }
    {
        count(self.prios.len()).saturating_sub(1)
    }

    /// Where a priority is in a strip that begins there. More important is up.
    pub fn prio_at(&self, strip: Px, prio: Prio) -> Px
        ensures { result.0 ≡ pixels (strip.0 + rank_in self.now.prios.items prio.0
            * pitch_of (length self.now.prios.items)) }
    {
        strip.plus_times(count(self.rank_of(prio)), self.prio_pitch())
    }

    // How many priorities are more important.
    fn rank_of(&self, prio: Prio) -> usize
        ensures { result ≡ rank_in self.now.prios.items prio.0 }
    {
        self.prios.iter().filter(|other| other.0 < prio.0).count()
    }
}

fn add_lane(lanes: &mut Vec<LaneBand>, lane: LaneBand) -> Result<(), AllocError>
    ensures { OnOk result (lanes.new.items ≡ lanes.old.items ++ lane ∷ []) }
{
    lanes.push(lane)?;
    Ok(())
}

// The bars and the steps of a thread.
fn bars_of(alloc: Global, chart: &Chart, t: usize) -> Result<Vec<Bar>, AllocError>
    ensures { IfOk result (λ own.
        own.items ≡ of_thread (λ bar. bar.thread.0) t chart.now.bars) }
{
    let bars = chart.bars.as_slice().iter().copied();
    bars.filter(|bar| usize::from(bar.thread.0) == t)
        .collect(alloc)
}

fn steps_of(alloc: Global, chart: &Chart, t: usize) -> Result<Vec<PrioSpan>, AllocError>
    ensures { IfOk result (λ own.
        own.items ≡ of_thread (λ step. step.thread.0) t chart.now.steps) }
{
    let steps = chart.steps.as_slice().iter().copied();
    steps
        .filter(|step| usize::from(step.thread.0) == t)
        .collect(alloc)
}

// Beside the longest name, and the number of a loan with which the window begins, which may be there
// all through.
fn left_of(plan: &Plan, chart: &Chart) -> Px {
    let mut widest = if begins_lent(chart) { 120 } else { 80 };
    for thread in plan.threads.as_slice() {
        widest = width_of(thread.name.as_bytes().len(), 95).max(widest);
    }
    Px(24).plus(widest).plus(46)
}

fn begins_lent(chart: &Chart) -> bool {
    chart.steps.as_slice().iter().any(|step| step.first <= chart.first
        && step.effective != step.base)
}

// Wide enough for the words of the marks and of the loans, where they stand there.
fn column_of(alloc: Global, plan: &Plan, chart: &Chart, columns: u32) -> Result<u32, AllocError>
    ensures { IfOk result (λ column. 9 ≤ column) }
{
    match columns {
        0..=MOST_WORDS => {
            let marks = widest_mark(alloc, plan, chart.marks.as_slice())?;
            Ok(
                widest_loan(alloc, chart.arrows.as_slice())?
                    .max(marks)
                    .clamp(58, 124),
            )
        }
        33..=80 => Ok(24),
        81..=200 => Ok(14),
        _ => Ok(9),
    }
}

fn widest_mark(alloc: Global, plan: &Plan, marks: &[TurnMark]) -> Result<u32, AllocError> {
    let mut widest = 0;
    for mark in marks {
        let mut words = Vec::new(alloc);
        push_mark(&mut words, plan, mark.what)?;
        widest = width_of(words.len(), 54).saturating_add(5).max(widest);
    }
    Ok(widest)
}

fn widest_loan(alloc: Global, arrows: &[Arrow]) -> Result<u32, AllocError> {
    let mut widest = 0;
    for arrow in arrows {
        if matches!(arrow.kind, ArrowKind::Lends { .. }) {
            let mut words = Vec::new(alloc);
            push_arrow(&mut words, *arrow)?;
            widest = width_of(words.len(), 66).saturating_add(8).max(widest);
        }
    }
    Ok(widest)
}

// The refusals, but those of a thread that stand beside an earlier one of it.
fn reasons_of(alloc: Global, marks: &[TurnMark]) -> Result<Vec<TurnMark>, AllocError> {
    let mut reasons: Vec<TurnMark> = Vec::new(alloc);
    for mark in marks {
        if mark.what.is_refusal() && !is_near(&reasons, *mark) {
            reasons.push(*mark)?;
        }
    }
    Ok(reasons)
}

fn is_near(reasons: &[TurnMark], mark: TurnMark) -> bool {
    reasons.iter().any(|other| {
        other.thread == mark.thread && mark.turn.saturating_sub(other.turn) < 2
    })
}

// Whether a step says other priorities than the first.
fn differ(steps: &[PrioSpan], first: PrioSpan) -> bool
    ensures { result ≡ false ↔ All (SaysAs first) steps.now }
{
    steps.iter().any(|step| step.effective != first.effective || step.base != first.base)
}

/// The priorities that occur in steps, each once, the most important first.
pub fn prios_of(alloc: Global, steps: &[PrioSpan]) -> Result<Vec<Prio>, AllocError>
    ensures { IfOk result (λ prios. HasPrios prios.items steps.now) }
{
    let mut prios = Vec::new(alloc);
    for step in steps {
        prios.push(step.effective)?;
        prios.push(step.base)?;
    }
    prios.sort_unstable();
    prios.dedup();
    Ok(prios)
}
