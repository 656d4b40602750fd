//! A thread of a floor, as its caller has it. What stands against a call of it is found in `against`, by `conditions`,
//! and its calls stand in `calls`.
ghost use Rattle.std.specs.Prelude.{◌≡◌, ◌↔◌, IfNone, IfSome, IsTrue};
ghost use Rattle.std.specs.Arc.{arc_value};
ghost use Rattle.std.specs.List.{Contains};
ghost use Rattle.lock_floor.specs.Cells.{IsCellAt};
ghost use Rattle.lock_floor.specs.Passes.{IsFinished};
ghost use Rattle.floor_calls.specs.declared.stages.Stage.TheVariants as stages;
ghost use Rattle.floor_calls.specs.Openings.{thread_at_rest};
ghost use Rattle.floor_calls.specs.Room.{KeepsRoom};
ghost use Rattle.floor_calls.specs.Threads.{Stands};

use crate::shared::Shared;
use crate::stages::Stage;
use lock_floor::{Pass, TableCell};
use lock_model::{LockNo, ThreadNo};
use std::alloc::Global;
use std::marker::Model;
use std::sync::Arc;

/// A thread of a floor: its share of the floor, its pass there, and at which stage it is. One caller uses it at a time.
pub struct Thread {
    pub(crate) shared: Arc<Shared, Global>,
    pub(crate) pass: Pass,
    pub(crate) stage: Stage,
}

impl Drop for Thread {
    fn drop(self) {
        let Thread {
            shared: _,
            pass: _,
            stage: _,
        } = self;
    }
}

impl Model for Thread {
    ghost use Rattle.std.specs.Arc.{arc_value};
    ghost use Rattle.floor_calls.specs.Threads.{Thread as Seen, Stands};

    ghost Value = { Seen };

    ghost view = { λ t. record {
      floor = (arc_value t.shared).floor;
      pass = t.pass;
      stage = t.stage;
    } };

    ghost invariant = { λ t. Stands (arc_value t.shared).floor t.stage t.pass };
}

impl Thread {
    // The thread of a pass that is ready.
    pub(crate) fn new(shared: Arc<Shared, Global>, pass: Pass) -> Thread
        requires stands { Stands (arc_value shared).floor stages.AtRest pass }
        ensures { result ≡ thread_at_rest (arc_value shared).floor pass }
    {
        Thread {
            shared,
            pass,
            stage: Stage::AtRest,
        }
    }

    // Its pass, once it has ended.
    pub(crate) fn into_pass(self) -> Pass
        requires ended { self.stage ≡ stages.Ended }
        ensures pass { result ≡ self.pass }
        ensures finished { IsFinished self.floor result }
    {
        let Thread {
            shared: _,
            pass,
            stage: _,
        } = self;
        pass
    }

    /// Its number among the floor's threads.
    pub fn number(&self) -> ThreadNo
        ensures { result.0 ≡ self.now.pass.view.thread }
    {
        self.pass.thread()
    }

    /// How many entries its log still has room for. It keeps room for a release of each lock that it holds, and for
    /// what the call that it is in the middle of may need.
    pub fn spare(&self) -> u32
        ensures spare { result ≡ self.now.pass.view.spare }
        ensures kept { KeepsRoom self.now.stage self.now.pass }
    {
        self.pass.spare()
    }

    /// At which stage it is.
    pub fn stage(&self) -> Stage
        ensures { result ≡ self.now.stage }
    {
        self.stage
    }

    /// Whether it has ended.
    pub fn has_ended(&self) -> bool
        ensures { IsTrue result ↔ (self.now.stage ≡ stages.Ended) }
    {
        match self.stage {
            Stage::Ended => true,
            Stage::AtRest
            | Stage::Takes
            | Stage::Tries
            | Stage::Releases
            | Stage::ComesToWake { .. }
            | Stage::Wakes
            | Stage::Waits { .. }
            | Stage::ComesToGiveUp(_)
            | Stage::GivesUp { .. }
            | Stage::TakesBack { .. }
            | Stage::Ends(_) => false,
        }
    }

    /// Whether its wait word says just then that it is queued: where a call answered `Sleep`, that it is still to
    /// sleep.
    pub fn is_queued(&self) -> bool {
        self.shared.floor.is_queued(self.pass.thread())
    }

    /// The cell at a key of a lock's table, for edits and reads. `None` comes exactly where the floor has no such key.
    pub fn find_cell(&self, l: LockNo, key: u64) -> Option<TableCell>
        ensures some { IfSome result
            (λ cell. IsCellAt self.now.floor.description l key cell) }
        ensures none { IfNone result
            (Contains self.now.floor.description.keys (l.0, key) → ⊥) }
    {
        self.shared.floor.find_cell(l, key)
    }
}
