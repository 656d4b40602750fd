//! Which bars of a lane stand below others. The bars of a lane lie on levels, from 0 at the top, so that no two bars of
//! a level overlap: a bar comes on the first level that is free there, and one of a thread that was taken off its queue
//! or woken on that of its wait.

ghost use Rattle.std.specs.Prelude.{◌≡◌, ◌-◌, ◌≤◌, [], ◌∷◌, ◌++◌, vec_len, All, IfOk, OnOk};
ghost use Rattle.chart_svg.specs.Drawn.{is_walk};
ghost use Rattle.chart_svg.specs.Lanes.{IsLaid};

use crate::pixels::count;
use chart_layout::{Bar, BarKind};
use std::alloc::{AllocError, Global};

/// The bars of a lane.
#[derive(Drop)]
pub struct Packed {
    /// By level and row, each with its level; behind them the walks, each with the level of the wait that it goes with.
    pub laid: Vec<(Bar, u32)>,
    /// The last row of each level.
    pub ends: Vec<u32>,
}

impl Packed {
    // One bar more, on the level that is returned, which for a walk is that of the wait.
    fn lay(&mut self, waits_on: u32, bar: Bar) -> Result<u32, AllocError>
        requires { waits_on ≤ vec_len self.old.ends - 1 }
        ensures lays { IfOk result (λ level.
            self.new.laid.items ≡ self.old.laid.items ++ (bar, level) ∷ []) }
        ensures level { IfOk result (λ level. level ≤ vec_len self.new.ends - 1) }
        ensures grows { OnOk result (vec_len self.old.ends ≤ vec_len self.new.ends) }
    {
        if is_walk(bar.what) {
            self.laid.push((bar, waits_on))?;
            return Ok(waits_on);
        }
        let level = self.level_of(waits_on, bar);
        self.reach(level, bar.last)?;
        self.laid.push((bar, level))?;
        Ok(level)
    }

    // On which level a bar comes.
    fn level_of(&self, waits_on: u32, bar: Bar) -> u32
        requires { waits_on ≤ vec_len self.now.ends - 1 }
        ensures { result ≤ vec_len self.now.ends }
    {
        if is_off(bar.what) && self.is_free(waits_on, bar.first) {
            waits_on
        } else {
            self.first_free(bar.first)
        }
    }

    // A level, which may be the next one, has bars to that row.
    fn reach(&mut self, level: u32, row: u32) -> Result<(), AllocError>
        ensures same { self.new.laid ≡ self.old.laid }
        ensures long { OnOk result (level ≤ vec_len self.old.ends
            → level ≤ vec_len self.new.ends - 1) }
        ensures grows { OnOk result (vec_len self.old.ends ≤ vec_len self.new.ends) }
    {
        if (level as usize) < self.ends.len() {
            self.ends[level as usize] = row;
        } else {
            self.ends.push(row)?;
        }
        Ok(())
    }

    // Whether no bar of the level reaches that row.
    fn is_free(&self, level: u32, row: u32) -> bool {
        match self.ends.get(level as usize) {
            Some(end) => *end < row,
            None => true,
        }
    }

    fn first_free(&self, row: u32) -> u32
        ensures { result ≤ vec_len self.now.ends }
    {
        match self.ends.iter().position(|end| *end < row) {
            Some(level) => count(level),
            None => count(self.ends.len()),
        }
    }

    /// Whether there are walks.
    pub fn has_walks(&self) -> bool {
        match self.laid.last() {
            Some((bar, _)) => is_walk(bar.what),
            None => false,
        }
    }

    /// The bar of a level that covers the row.
    pub fn covering(&self, level: u32, row: u32) -> Option<Bar> {
        let begun = self.laid.partition_point(|(bar, on)| {
            let group = group_of(bar.what, *on);
            group < level || (group == level && bar.first <= row)
        });
        let (bar, on) = self.laid.get(begun.checked_sub(1)?)?;
        if group_of(bar.what, *on) == level && row <= bar.last {
            Some(*bar)
        } else {
            None
        }
    }
}

/// The bars of a lane on their levels.
pub fn pack(alloc: Global, bars: &[Bar]) -> Result<Packed, AllocError>
    ensures { IfOk result (λ packed. All (IsLaid packed) bars.now) }
{
    let mut sorted = Vec::from_slice(alloc, bars)?;
    sorted.sort_by_key(|bar| (bar.first, is_walk(bar.what)))?;
    let mut packed = Packed {
        laid: Vec::new(alloc),
        ends: Vec::new(alloc),
    };
    let mut waits_on = 0;
    for bar in &sorted {
        let level = packed.lay(waits_on, *bar)?;
        if is_wait(bar.what) {
            waits_on = level;
        }
    }
    packed
        .laid
        .sort_by_key(|(bar, level)| group_of(bar.what, *level))?;
    Ok(packed)
}

// The bars of a level stand together, and so do the walks, behind all others.
fn group_of(what: BarKind, level: u32) -> u32 {
    if is_walk(what) { 0xffff_ffff } else { level }
}

/// Whether it is the walk of a wait.
pub fn is_walk(what: BarKind) -> bool
    ensures { result ≡ is_walk what }
{
    match what {
        BarKind::Walks => true,
        BarKind::Holds { .. }
        | BarKind::Waits { .. }
        | BarKind::TakenOff { .. }
        | BarKind::Woken { .. } => false,
    }
}

// Whether the thread is off its queue, and doesn't run yet.
fn is_off(what: BarKind) -> bool {
    match what {
        BarKind::TakenOff { .. } | BarKind::Woken { .. } => true,
        BarKind::Holds { .. } | BarKind::Waits { .. } | BarKind::Walks => false,
    }
}

/// Whether the thread stands on a queue, or is off it and doesn't run yet.
pub fn is_wait(what: BarKind) -> bool {
    match what {
        BarKind::Waits { .. } | BarKind::TakenOff { .. } | BarKind::Woken { .. } => true,
        BarKind::Holds { .. } | BarKind::Walks => false,
    }
}
