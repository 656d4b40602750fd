//! How a wait gives a mutex up and takes it back.
ghost use Rattle.lock_model.specs.declared.plan.Kind.TheVariants.{Mtx};
ghost use Rattle.lock_calls.specs.Steps.{GivesUpBy, TakesBackBy};

use lock_calls::{give_up, take_back};
use lock_floor::{Floor, Pass, Relock};
use lock_model::{LockNo, Mode};
use std::sync::Wait;

/// What a call that waits on a condition or a channel is given, where the lock that belongs to it is a mutex.
#[derive(Clone, Copy, Debug)]
pub struct MutexRelock;

impl Relock for MutexRelock {
    ghost kind = { Mtx };

    ghost releases = { GivesUpBy };

    ghost takes_back = { TakesBackBy };

    fn release<R: Wait>(&self, floor: &Floor, rt: &R, pass: &mut Pass, l: LockNo) {
        give_up(floor, rt, pass, l);
    }

    fn retake<R: Wait>(&self, floor: &Floor, rt: &R, pass: &mut Pass, l: LockNo, mode: Mode) {
        take_back(floor, rt, pass, l, mode);
    }
}
