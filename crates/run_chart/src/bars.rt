//! The bars of a thread: what it holds, waits for and walks along.
ghost use Rattle.std.specs.Prelude.{◌≡◌, ℕ, ◌≤◌, length, option_to_list, OnOk};
ghost use Rattle.lock_objects.specs.Represents.{hold_of, wait_of, walk_of};
ghost use Rattle.run_chart.specs.Bars.{bar_drawn, held_kind, held_kinds, kinds_in, waited_kind, walked_kind, woken_kind};
ghost use Rattle.run_chart.specs.Runs.{IsThreadOf};
ghost use Rattle.run_chart.specs.Spans.{Adds, Makes};
ghost use Rattle.run_chart.specs.declared.bars.Shown as kinds;
ghost use Rattle.run_tracks.specs.Rows.{run_in};

use crate::adding::push_some;
use crate::rows::{ThreadOf, thread_rows};
use crate::spans::spans;
use chart_layout::{Bar, BarKind};
use lock_model::{LockNo, Mode};
use run_tracks::{Noted, ThreadRow, Track, Wait, Walk};
use std::alloc::{AllocError, Global};

/// Adds the bars of a thread in its window.
pub fn push_bars(alloc: Global, bars: &mut Vec<Bar>, at: &ThreadOf<'_>) -> Result<(), AllocError>
    requires { IsThreadOf at.now }
    ensures { OnOk result (Adds bar_drawn at.now.who.0 at.now.from at.now.to bars.old.items
        bars.new.items
        (λ n. kinds_in at.now.plan.now (run_in at.now.plan.now n).state at.now.who.0)) }
{
    push_holds(alloc, bars, at)?;
    let row = &thread_rows(at.rows, at.who).row;
    push_shown(alloc, bars, at, row, waited)?;
    push_shown(alloc, bars, at, row, woken)?;
    push_shown(alloc, bars, at, row, walked)
}

// What it holds, by lock.
fn push_holds(alloc: Global, bars: &mut Vec<Bar>, at: &ThreadOf<'_>) -> Result<(), AllocError>
    requires { IsThreadOf at.now }
    ensures { OnOk result (Adds bar_drawn at.now.who.0 at.now.from at.now.to bars.old.items
        bars.new.items (λ n. held_kinds (run_in at.now.plan.now n).state at.now.who.0
        (length at.now.plan.now.locks))) }
{
    let tracks = thread_rows(at.rows, at.who).held.as_slice();
    for (l, track) in tracks.iter().enumerate() {
        let l = LockNo(l as u8);
        push_shown(alloc, bars, at, track, |mode| held(l, mode))?;
    }
    Ok(())
}

// What is shown of a row by bars of one sort, if anything is.
#[derive(Clone, Copy, PartialEq, Eq)]
struct Shown(Option<BarKind>);

impl Noted for Shown {
    fn is(self, other: Shown) -> bool {
        self == other
    }
}

// A bar for each span of rows of which the same is shown.
fn push_shown<T: Copy, F: Fn(T) -> Shown>(
    alloc: Global,
    bars: &mut Vec<Bar>,
    at: &ThreadOf<'_>,
    track: &Track<T>,
    shown: F,
) -> Result<(), AllocError>
    requires callable { F.IsAlwaysCallable shown }
    requires in_order { at.now.from ≤ at.now.to }
    ensures { OnOk result ((is : ℕ → kinds.Shown)
        → Makes (F.post shown) track.now at.now.from at.now.to is
        → Adds bar_drawn at.now.who.0 at.now.from at.now.to bars.old.items bars.new.items
        (λ n. option_to_list (is n).0)) }
{
    let spans = spans(alloc, track, at.from, at.to, shown)?;
    for span in &spans {
        let (thread, first, last) = (at.who, span.first, span.last);
        push_some(
            bars,
            span.value.0.map(|what| Bar {
                thread,
                what,
                first,
                last,
            }),
        )?;
    }
    Ok(())
}

fn held(l: LockNo, mode: Option<Mode>) -> Shown
    ensures { result.0 ≡ held_kind l.0 (hold_of mode) }
{
    Shown(mode.map(|mode| BarKind::Holds { l, mode }))
}

// The queue on which it stands.
fn waited(row: ThreadRow) -> Shown
    ensures { result.0 ≡ waited_kind row.stands_on }
{
    Shown(row.stands_on.map(|q| BarKind::Waits { q }))
}

// Off which queue it was taken, as long as it doesn't run.
fn woken(row: ThreadRow) -> Shown
    ensures { result.0 ≡ woken_kind (wait_of row.wait) row.blocked_on row.stands_on }
{
    Shown(match (row.wait, row.blocked_on, row.stands_on) {
        (Wait::Woken(q), _, _) => Some(BarKind::Woken { q }),
        (Wait::Running | Wait::Queued, Some(q), None) => Some(BarKind::TakenOff { q }),
        (Wait::Running | Wait::Queued, _, _) => None,
    })
}

fn walked(row: ThreadRow) -> Shown
    ensures { result.0 ≡ walked_kind (walk_of row.walk) }
{
    Shown(match row.walk {
        Walk::None => None,
        Walk::AtLock(_) | Walk::AtThread(_) => Some(BarKind::Walks),
    })
}
