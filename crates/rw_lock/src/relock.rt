//! How a wait gives a reader-writer lock up and takes it back.
ghost use Rattle.lock_model.specs.declared.plan.Kind.TheVariants.{Rw};
ghost use Rattle.lock_calls.specs.Steps.{GivesUpBy, TakesBackBy};

use lock_calls::{give_up, take_back};
use lock_floor::{Floor, Pass, Relock};
use lock_model::{LockNo, Mode};
use std::sync::Wait;

/// What a call that waits on a condition or a channel is given, where the lock that belongs to it is a reader-writer
/// lock.
#[derive(Clone, Copy, Debug)]
pub struct RwRelock;

impl Relock for RwRelock {
    ghost kind = { Rw };

    ghost releases = { GivesUpBy };

    ghost takes_back = { TakesBackBy };

    fn release<R: Wait>(&self, floor: &Floor, rt: &R, pass: &mut Pass, l: LockNo) {
        give_up(floor, rt, pass, l);
    }

    fn retake<R: Wait>(&self, floor: &Floor, rt: &R, pass: &mut Pass, l: LockNo, mode: Mode) {
        take_back(floor, rt, pass, l, mode);
    }
}
