//! What may stand against a call of a thread: for each cause, whether it is so. Those of the calls that are made most
//! are inlined there.
ghost use Rattle.std.specs.Prelude.{◌≡◌, ◌↔◌, ◌<◌, true, IsTrue, length};
ghost use Rattle.cond_vars.specs.Waits.{lock_of};
ghost use Rattle.floor_calls.specs.Causes.{HoldsMutexOrRw, HoldsOtherThan, Says};
ghost use Rattle.floor_calls.specs.declared.requests.Cause.TheVariants as cause;
ghost use Rattle.floor_table.specs.Descriptions.{config_in};
ghost use Rattle.lock_model.specs.Operations.{is_last};
ghost use Rattle.lock_model.specs.Words.{is_turnstile};
ghost use Rattle.lock_model.specs.declared.plan.Kind.TheVariants.{Mtx, Sx};

use crate::stages::Stage;
use crate::thread::Thread;
use lock_floor::TableCell;
use lock_model::limits::HELD;
use lock_model::{ChanNo, Held, Kind, LockNo, Mode};

impl Thread {
    // Whether it is in the middle of no call, and hasn't ended.
    #[inline(always)]
    pub(crate) fn is_at_rest(&self) -> bool
        ensures { IsTrue result ↔ Says cause.AtRest self.now }
    {
        match self.stage {
            Stage::AtRest => true,
            Stage::Takes
            | Stage::Tries
            | Stage::Releases
            | Stage::ComesToWake { .. }
            | Stage::Wakes
            | Stage::Waits { .. }
            | Stage::ComesToGiveUp(_)
            | Stage::GivesUp { .. }
            | Stage::TakesBack { .. }
            | Stage::Ends(_)
            | Stage::Ended => false,
        }
    }

    // Whether the floor has no such lock.
    #[inline(always)]
    pub(crate) fn has_no_lock(&self, l: LockNo) -> bool
        ensures { IsTrue result ↔ Says (cause.NoLock l) self.now }
    {
        !self.has_lock(l)
    }

    // Whether the floor has that lock, and it has no such mode.
    #[inline(always)]
    pub(crate) fn has_no_mode(&self, l: LockNo, mode: Mode) -> bool
        ensures { IsTrue result ↔ Says (cause.NoMode l mode) self.now }
    {
        match mode {
            Mode::Excl => false,
            Mode::Shared => self.has_lock(l) && is_mutex(self.kind(l)),
        }
    }

    // Whether the floor has no such condition variable or channel.
    pub(crate) fn has_no_chan(&self, c: ChanNo) -> bool
        ensures { IsTrue result ↔ Says (cause.NoChan c) self.now }
    {
        usize::from(c.0) >= self.shared.chans.len()
    }

    // Whether the floor has no such cell.
    #[inline(always)]
    pub(crate) fn has_no_cell(&self, cell: TableCell) -> bool
        ensures { IsTrue result ↔ Says (cause.NoCell cell) self.now }
    {
        !self.shared.floor.has_cell(cell)
    }

    // Whether it holds the lock, in either mode.
    #[inline(always)]
    pub(crate) fn is_held(&self, l: LockNo) -> bool
        ensures { IsTrue result ↔ Says (cause.Held l) self.now }
    {
        self.pass.mode(l).is_some()
    }

    // Whether the lock is an sx lock, and it holds a mutex or a reader-writer lock.
    #[inline(always)]
    pub(crate) fn holds_unsleepable(&self, l: LockNo) -> bool
        ensures { IsTrue result ↔ Says (cause.HoldsUnsleepable l) self.now }
    {
        is_sx(self.kind(l)) && self.holds_mutex_or_rw()
    }

    // Whether the lock of the condition variable or channel isn't the one that it gained last, or was gained by a try.
    pub(crate) fn is_not_last(&self, c: ChanNo) -> bool
        ensures { IsTrue result ↔ Says (cause.NotLast c) self.now }
    {
        !is_last(self.pass.held(), self.lock_of(c))
    }

    // Whether beside the lock of the condition variable or channel it holds a mutex or a reader-writer lock.
    pub(crate) fn holds_others(&self, c: ChanNo) -> bool
        ensures { IsTrue result ↔ Says (cause.HoldsOthers c) self.now }
    {
        self.holds_beside(self.lock_of(c))
    }

    // Whether it doesn't hold the lock in that mode.
    #[inline(always)]
    pub(crate) fn is_not_held(&self, l: LockNo, mode: Mode) -> bool
        ensures { IsTrue result ↔ Says (cause.NotHeld l mode) self.now }
    {
        match (self.pass.mode(l), mode) {
            (Some(Mode::Excl), Mode::Excl) | (Some(Mode::Shared), Mode::Shared) => false,
            (Some(Mode::Excl), Mode::Shared) | (Some(Mode::Shared), Mode::Excl) | (None, _) => true,
        }
    }

    // Whether it doesn't hold the lock, in neither mode.
    #[inline(always)]
    pub(crate) fn is_unheld(&self, l: LockNo) -> bool
        ensures { IsTrue result ↔ Says (cause.Unheld l) self.now }
    {
        self.pass.mode(l).is_none()
    }

    // Whether it holds as many locks as a thread may.
    #[inline(always)]
    pub(crate) fn holds_most(&self) -> bool
        ensures { IsTrue result ↔ Says cause.HoldsMost self.now }
    {
        self.pass.held().len() >= HELD
    }

    // Whether it holds more than that.
    pub(crate) fn holds_more(&self) -> bool
        ensures { IsTrue result ↔ Says cause.HoldsMore self.now }
    {
        self.pass.held().len() > HELD
    }

    // Whether it holds a lock.
    #[inline(always)]
    pub(crate) fn holds_some(&self) -> bool
        ensures { IsTrue result ↔ Says cause.HoldsSome self.now }
    {
        !self.pass.held().is_empty()
    }

    // Whether its log has no room for an entry beside those that are kept for releases of what it holds.
    #[inline(always)]
    pub(crate) fn is_spent(&self) -> bool
        ensures { IsTrue result ↔ Says cause.Spent self.now }
    {
        self.pass.spare() as usize <= self.pass.held().len()
    }

    // Whether it has none for two beside these.
    #[inline(always)]
    pub(crate) fn is_short(&self) -> bool
        ensures { IsTrue result ↔ Says cause.Short self.now }
    {
        (self.pass.spare() as usize) < self.pass.held().len() + 2
    }

    // Whether the floor has that lock.
    #[inline(always)]
    fn has_lock(&self, l: LockNo) -> bool
        ensures { IsTrue result ↔ (l.0 < length self.now.floor.description.locks) }
    {
        usize::from(l.0) < self.shared.locks
    }

    // The kind of a lock, which is that of a mutex where the floor has no such lock.
    #[inline(always)]
    fn kind(&self, l: LockNo) -> Kind
        ensures { result ≡ (config_in self.now.floor.description).kind l.0 }
    {
        if self.has_lock(l) {
            self.shared.floor.kind(l)
        } else {
            Kind::Mtx
        }
    }

    // The lock of a condition variable or channel, which is lock 0 where the floor has no such one.
    fn lock_of(&self, c: ChanNo) -> LockNo
        ensures { result.0 ≡ lock_of self.now.floor.description c.0 }
    {
        match self.shared.chans.get(usize::from(c.0)) {
            Some(l) => *l,
            None => LockNo(0),
        }
    }

    // Whether the thread holds a mutex or a reader-writer lock. It is kept apart: so a gain saves nothing for its loop.
    #[inline(never)]
    fn holds_mutex_or_rw(&self) -> bool
        ensures { IsTrue result ↔ HoldsMutexOrRw self.now }
    {
        self.pass
            .held()
            .iter()
            .any(|held| is_mutex_or_rw(self.kind(held.l)))
    }

    // Whether the thread holds a mutex or a reader-writer lock beside that lock.
    fn holds_beside(&self, l: LockNo) -> bool
        ensures { IsTrue result ↔ HoldsOtherThan l.0 self.now }
    {
        self.pass
            .held()
            .iter()
            .any(|held| held.l != l && is_mutex_or_rw(self.kind(held.l)))
    }
}

// Whether a lock was gained last, and not by a try.
#[tactic(auto, using(crate::proofs::Sleepable::last_place))]
fn is_last(held: &[Held], l: LockNo) -> bool
    ensures { result ≡ is_last l.0 held.now }
{
    held.last().is_some_and(|h| h.l == l && !h.by_try)
}

// Whether it is the kind of an sx lock.
fn is_sx(kind: Kind) -> bool
    ensures { IsTrue result ↔ (kind ≡ Sx) }
{
    match kind {
        Kind::Sx => true,
        Kind::Mtx | Kind::Rw => false,
    }
}

// Whether it is the kind of a mutex or a reader-writer lock.
fn is_mutex_or_rw(kind: Kind) -> bool
    ensures { IsTrue result ↔ (is_turnstile kind ≡ true) }
{
    match kind {
        Kind::Mtx | Kind::Rw => true,
        Kind::Sx => false,
    }
}

// Whether it is the kind of a mutex.
fn is_mutex(kind: Kind) -> bool
    ensures { IsTrue result ↔ (kind ≡ Mtx) }
{
    match kind {
        Kind::Mtx => true,
        Kind::Rw | Kind::Sx => false,
    }
}
