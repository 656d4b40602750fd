//! How a wait gives its lock up and takes it back, as `lc_unlock` and `lc_lock` of a lock class in FreeBSD's
//! sys/lock.h: a call that waits on a condition or a channel knows no kind of lock. Neither makes an entry.
ghost use Rattle.std.specs.Prelude.{◌≡◌, ◌<◌, length};
ghost use Rattle.floor_table.specs.Descriptions.{config_in};
ghost use Rattle.lock_floor.specs.Passes.{IsOf};
ghost use Rattle.lock_floor.specs.Relocks.{MayRelease, GivesUp, MayRetake, TakesBack};

use crate::floor::Floor;
use crate::pass::Pass;
use lock_model::{LockNo, Mode};
use std::sync::Wait;

/// The locks of a kind, as a wait needs them.
pub trait Relock {
    ghost use Rattle.std.specs.Prelude.{ℕ};
    ghost use Rattle.floor_table.specs.Views.{Knowledge};
    ghost use Rattle.floor_table.specs.declared.description.Description.{Description as FloorDescription};
    ghost use Rattle.lock_model.specs.declared.plan.Kind.{Kind};
    ghost use Rattle.lock_model.specs.declared.plan.Mode.{Mode as InMode};

    /// The kind.
    ghost kind: { Kind };

    /// The atomic steps by which a thread of a floor releases a lock, and those by which it takes one back in a mode.
    ghost releases: { FloorDescription → ℕ → Knowledge → Knowledge → Type 0 };

    ghost takes_back: { FloorDescription → ℕ → InMode → Knowledge → Knowledge → Type 0 };

    /// Releases a lock of the kind, which the thread gained last, and wakes those who may go on. The thread runs, or is
    /// queued on a channel; one that runs runs on.
    fn release<R: Wait>(&self, floor: &Floor, rt: &R, pass: &mut Pass, l: LockNo)
        requires own { IsOf floor.now pass.old }
        requires lock { l.0 < length floor.now.description.locks }
        requires kind { (config_in floor.now.description).kind l.0 ≡ kind }
        requires may { MayRelease floor.now.description l.0 pass.old.view }
        ensures own { IsOf floor.entry.now pass.new }
        ensures gives_up { GivesUp l.0 pass.old.view pass.new.view }
        ensures steps { releases floor.entry.now.description l.0 pass.old.view pass.new.view };

    /// Takes the lock back, as a blocking call that checks no order. A sleep of it that is aborted only looks again.
    /// The floor has one chain of turnstiles.
    fn retake<R: Wait>(&self, floor: &Floor, rt: &R, pass: &mut Pass, l: LockNo, mode: Mode)
        requires own { IsOf floor.now pass.old }
        requires lock { l.0 < length floor.now.description.locks }
        requires kind { (config_in floor.now.description).kind l.0 ≡ kind }
        requires one_chain { floor.now.description.chains ≡ 1 }
        requires may { MayRetake floor.now.description l.0 mode pass.old.view }
        ensures own { IsOf floor.entry.now pass.new }
        ensures back { TakesBack l mode pass.old.view pass.new.view }
        ensures steps { takes_back floor.entry.now.description l.0 mode
            pass.old.view pass.new.view };
}
