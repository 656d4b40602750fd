//! What the rows of a run say of a row: what a thread was in it, and who held a lock.
ghost use Rattle.std.specs.Prelude.{◌≡◌, ◌<◌, ◌≤◌, Some, IfSome, length, option_map, slice_get};
ghost use Rattle.run_chart.specs.Runs.{IsTurnOf};
ghost use Rattle.run_chart.specs.Turns.{holds, owner_in, stands_on, state_in};
ghost use Rattle.run_tracks.specs.Rows.{run_in, IsThread};

use lock_model::{LockNo, Plan, QueueName, ThreadNo};
use lock_words::owner_of;
use run_tracks::{Rows, ThreadRow, ThreadRows, Track, TurnRow};

/// A turn of a scheduled run of a plan, with the rows that tell that, and whose turn it is.
#[derive(Clone, Copy)]
pub struct TurnOf<'a> {
    pub plan: &'a Plan,
    pub rows: &'a Rows,
    pub turn: u32,
    pub who: ThreadNo,
}

/// A thread of a scheduled run of a plan, with the rows that tell that, and the window `from..=to` of its rows.
#[derive(Clone, Copy)]
pub struct ThreadOf<'a> {
    pub plan: &'a Plan,
    pub rows: &'a Rows,
    pub who: ThreadNo,
    pub from: u32,
    pub to: u32,
}

/// The tracks of a thread.
pub fn thread_rows(rows: &Rows, t: ThreadNo) -> &ThreadRows
    requires { t.0 < length rows.now.threads }
    ensures { slice_get rows.now.threads t.0 ≡ Some result.now }
{
    &rows.threads.as_slice()[usize::from(t.0)]
}

/// Who has a turn of the run, what it answers, and how many entries stand behind it.
pub fn turn_at(rows: &Rows, turn: u32) -> TurnRow
    requires { turn < length rows.now.turns }
    ensures { slice_get rows.now.turns turn ≡ Some result }
{
    rows.turns.as_slice()[turn as usize]
}

/// What a thread was in a row.
pub fn thread_in(at: &TurnOf<'_>, row: u32, t: ThreadNo) -> ThreadRow
    requires turn { IsTurnOf at.now }
    requires row { row ≤ length at.now.rows.now.turns }
    requires thread { t.0 < length at.now.rows.now.threads }
    ensures { IsThread at.now.plan.now (run_in at.now.plan.now row) t.0 result }
{
    thread_rows(at.rows, t).row.at(row)
}

/// Whether it stood on the queue.
pub fn stands_on(at: &TurnOf<'_>, row: u32, q: QueueName, t: ThreadNo) -> bool
    requires turn { IsTurnOf at.now }
    requires row { row ≤ length at.now.rows.now.turns }
    requires thread { t.0 < length at.now.rows.now.threads }
    ensures { result ≡ stands_on at.now.plan.now row q t.0 }
{
    thread_in(at, row, t).stands_on == Some(q)
}

/// The queue that its record named. What is no thread has none.
pub fn named_by(at: &TurnOf<'_>, row: u32, t: ThreadNo) -> Option<QueueName>
    requires turn { IsTurnOf at.now }
    requires row { row ≤ length at.now.rows.now.turns }
    ensures { result ≡ (state_in at.now.plan.now row).blocked_on t.0 }
{
    if usize::from(t.0) < at.rows.threads.as_slice().len() {
        thread_in(at, row, t).blocked_on
    } else {
        None
    }
}

/// Whether a thread held the lock.
pub fn holds(at: &TurnOf<'_>, row: u32, l: LockNo, t: ThreadNo) -> bool
    requires turn { IsTurnOf at.now }
    requires row { row ≤ length at.now.rows.now.turns }
    requires thread { t.0 < length at.now.rows.now.threads }
    ensures { result ≡ holds at.now.plan.now row l.0 t.0 }
{
    let held = thread_rows(at.rows, t).held.as_slice();
    match held.get(usize::from(l.0)) {
        Some(track) => track.at(row).is_some(),
        None => false,
    }
}

/// The thread that held it alone.
pub fn owner_in(at: &TurnOf<'_>, row: u32, l: LockNo) -> Option<ThreadNo>
    requires turn { IsTurnOf at.now }
    requires row { row ≤ length at.now.rows.now.turns }
    ensures is { option_map (λ t. t.0) result ≡ owner_in at.now.plan.now row l.0 }
    ensures thread { IfSome result (λ t. t.0 < length at.now.rows.now.threads) }
{
    let word = word_rows(at.rows, l)?.at(row);
    owner_of(word)
}

fn word_rows(rows: &Rows, l: LockNo) -> Option<&Track<u64>>
    ensures { option_map (λ track. track.now) result ≡ slice_get rows.now.words l.0 }
{
    rows.words.as_slice().get(usize::from(l.0))
}
