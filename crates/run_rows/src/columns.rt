//! The tracks of a run: of each thread, of each lock's word, and of the queues. Behind a turn that changed something
//! each track notes what it is now, but for those of what other threads hold, since a turn changes only what its own
//! thread holds.
ghost use Rattle.std.specs.Prelude.{◌+◌, ◌<◌, ℕ, length, IfOk, OnOk};
ghost use Rattle.lock_state.specs.Run.{Run};
ghost use Rattle.run_rows.specs.Making.{OthersHoldOn};
ghost use Rattle.run_tracks.specs.Rows.{IsThread, TellsColumns, TellsThread};
ghost use Rattle.step_world.specs.Worlds.{Represents};

use crate::each::{change_each, make_each};
use lock_model::{LockNo, Sequence, ThreadNo};
use run_tracks::{QueueRows, ThreadRow, ThreadRows, Track};
use std::alloc::{AllocError, Global};
use std::mem;
use step_world::World;

/// The tracks of a run under way.
#[derive(Drop)]
pub(crate) struct Columns {
    pub(crate) threads: Vec<ThreadRows>,
    pub(crate) words: Vec<Track<u64>>,
    pub(crate) queues: QueueRows,
}

impl Columns {
    /// Those of the begin.
    pub(crate) fn begin(alloc: Global, world: &World<'_>) -> Result<Columns, AllocError>
        ensures { IfOk result (λ a. (runs : ℕ → Run) → Represents world.now (runs 0)
            → TellsColumns world.now.plan world.now.chains runs 1 a.threads.items a.words.items
            a.queues) }
    {
        let threads = make_each(alloc, world.threads(), |t| {
            begin_thread(alloc, world, ThreadNo(t))
        })?;
        let words = make_each(alloc, world.locks(), |l| {
            Track::begin(alloc, world.word(LockNo(l)))
        })?;
        Ok(Columns {
            threads,
            words,
            queues: Track::begin(alloc, Sequence::from_vec(world.queues(alloc)?))?,
        })
    }

    /// Notes what the world is in the next row, behind a turn of a thread.
    pub(crate) fn note(
        &mut self,
        alloc: Global,
        world: &World<'_>,
        who: ThreadNo,
        row: u32,
    ) -> Result<(), AllocError>
        requires { (runs : ℕ → Run) × TellsColumns world.now.plan world.now.chains runs row
            self.old.threads.items self.old.words.items self.old.queues }
        ensures { OnOk result ((runs : ℕ → Run) → Represents world.now (runs row)
            → OthersHoldOn runs row who.0
            → TellsColumns world.now.plan world.now.chains runs row
            self.old.threads.items self.old.words.items self.old.queues
            → TellsColumns world.now.plan world.now.chains runs (row + 1)
            self.new.threads.items self.new.words.items self.new.queues) }
    {
        change_each(&mut self.threads, world.threads(), |t, thread| {
            note_thread(thread, alloc, world, ThreadNo(t), who, row)
        })?;
        change_each(&mut self.words, world.locks(), |l, word| {
            word.note(row, world.word(LockNo(l)))
        })?;
        self.queues
            .keep(row, Sequence::from_vec(world.queues(alloc)?))?;
        Ok(())
    }
}

// What a thread is, but for what it holds.
fn row_of(world: &World<'_>, t: ThreadNo) -> ThreadRow
    requires { t.0 < length world.now.plan.threads }
    ensures { (run : Run) → Represents world.now run → IsThread world.now.plan run t.0 result }
{
    let (base, effective) = world.priorities(t);
    ThreadRow {
        base,
        effective,
        wait: world.wait(t),
        blocked_on: world.blocked_on(t),
        stands_on: world.stands_on(t),
        walk: world.walk(t),
        ended: world.has_ended(t),
    }
}

// The tracks of a thread at the begin.
fn begin_thread(alloc: Global, world: &World<'_>, t: ThreadNo) -> Result<ThreadRows, AllocError>
    requires { t.0 < length world.now.plan.threads }
    ensures { IfOk result (λ a. (runs : ℕ → Run) → Represents world.now (runs 0)
        → TellsThread world.now.plan runs 1 t.0 a) }
{
    let row = Track::begin(alloc, row_of(world, t))?;
    let held = make_each(alloc, world.locks(), |l| {
        Track::begin(alloc, world.mode(t, LockNo(l)))
    })?;
    Ok(ThreadRows {
        row,
        held: Sequence::from_vec(held),
    })
}

// Notes what a thread is in the next row, and what it holds there if it had the turn.
fn note_thread(
    tracks: &mut ThreadRows,
    alloc: Global,
    world: &World<'_>,
    t: ThreadNo,
    who: ThreadNo,
    row: u32,
) -> Result<(), AllocError>
    requires thread { t.0 < length world.now.plan.threads }
    requires told { (runs : ℕ → Run) × TellsThread world.now.plan runs row t.0 tracks.old }
    ensures { OnOk result ((runs : ℕ → Run) → Represents world.now (runs row)
        → OthersHoldOn runs row who.0 → TellsThread world.now.plan runs row t.0 tracks.old
        → TellsThread world.now.plan runs (row + 1) t.0 tracks.new) }
{
    tracks.row.note(row, row_of(world, t))?;
    if t != who {
        return Ok(());
    }
    let mut held = mem::replace(&mut tracks.held, Sequence::from_vec(Vec::new(alloc))).into_vec();
    change_each(&mut held, world.locks(), |l, track| {
        track.note(row, world.mode(t, LockNo(l)))
    })?;
    tracks.held = Sequence::from_vec(held);
    Ok(())
}
