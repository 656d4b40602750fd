//! What stands against a call of a thread: of all that may, the first that is so. Each list of causes is a chain of
//! tests (`conditions`), inlined into the call: so no cause is written where none is so. An atomic step waits for what
//! was written before it.
ghost use Rattle.std.specs.Prelude.{◌∷◌, []};
ghost use Rattle.floor_calls.specs.declared.requests.Cause.TheVariants.{Ended, Held as HeldAlready, HoldsMost, HoldsUnsleepable, InCall, NoCell, NoChan, NotHeld, Spent};
ghost use Rattle.floor_calls.specs.declared.requests.Request.TheVariants.{End, GoOn, Read, Release, Show, Take, Wait};
ghost use Rattle.floor_calls.specs.Causes.{Says, causes};
ghost use Rattle.floor_calls.specs.First.{IsFirst};
ghost use Rattle.lock_model.specs.declared.plan.Mode.TheVariants.{Excl};

use crate::requests::{Cause, Request};
use crate::thread::Thread;
use lock_floor::TableCell;
use lock_model::{ChanNo, LockNo, Mode};

impl Thread {
    /// What stands against a call: of all that may, the first that is so. `None` comes exactly where the call may be
    /// made.
    pub fn against(&self, request: Request) -> Option<Cause>
        ensures { IsFirst (λ cause. Says cause self.now) (causes request) result }
    {
        match request {
            Request::Take { l, mode } => self.against_gain(l, mode),
            Request::Try { l, mode } => self.against_gain(l, mode),
            Request::Release { l, mode } => self.against_release(l, mode),
            Request::Edit { cell, change: _ } => self.against_edit(cell),
            Request::Read { cell } => self.against_read(cell),
            Request::SetBase { prio: _ } => self.against_priorities(),
            Request::Show => self.against_priorities(),
            Request::WakeUp { c, all: _ } => self.against_wake(c),
            Request::Wait { c } => self.against_wait(c),
            Request::End => self.against_end(),
            Request::GoOn => self.against_going_on(),
        }
    }

    // What stands against a take or a try of a lock in a mode.
    #[inline(always)]
    #[tactic(auto, using(crate::proofs::Chains::chains))]
    pub(crate) fn against_gain(&self, l: LockNo, mode: Mode) -> Option<Cause>
        ensures { IsFirst (λ cause. Says cause self.now)
            (causes (Take l mode)) result }
    {
        if let Some(cause) = self.against_new() {
            return Some(cause);
        }
        if self.has_no_lock(l) {
            return Some(Cause::NoLock(l));
        }
        if self.has_no_mode(l, mode) {
            return Some(Cause::NoMode(l, mode));
        }
        if let Some(cause) = self.against_another(l) {
            return Some(cause);
        }
        if self.is_short() {
            return Some(Cause::Short);
        }
        None
    }

    // What stands against a release of a lock that is held in a mode.
    #[inline(always)]
    #[tactic(auto, using(crate::proofs::Chains::chains))]
    pub(crate) fn against_release(&self, l: LockNo, mode: Mode) -> Option<Cause>
        ensures { IsFirst (λ cause. Says cause self.now)
            (causes (Release l mode)) result }
    {
        if let Some(cause) = self.against_new() {
            return Some(cause);
        }
        if self.has_no_lock(l) {
            return Some(Cause::NoLock(l));
        }
        if self.has_no_mode(l, mode) {
            return Some(Cause::NoMode(l, mode));
        }
        if self.is_not_held(l, mode) {
            return Some(Cause::NotHeld(l, mode));
        }
        None
    }

    // What stands against any call but going on with one.
    #[inline(always)]
    fn against_new(&self) -> Option<Cause>
        ensures { IsFirst (λ cause. Says cause self.now) (Ended ∷ InCall ∷ []) result }
    {
        if self.is_at_rest() {
            None
        } else if self.has_ended() {
            Some(Cause::Ended)
        } else {
            Some(Cause::InCall)
        }
    }

    // What stands against a gain by what the thread holds: nothing where it holds nothing.
    #[inline(always)]
    fn against_another(&self, l: LockNo) -> Option<Cause>
        ensures { IsFirst (λ cause. Says cause self.now)
            (HeldAlready l ∷ HoldsUnsleepable l ∷ HoldsMost ∷ []) result }
    {
        if self.holds_some() {
            self.against_more(l)
        } else {
            None
        }
    }

    // The same where it holds something.
    #[inline(always)]
    #[tactic(auto, using(crate::proofs::Chains::chains))]
    fn against_more(&self, l: LockNo) -> Option<Cause>
        ensures { IsFirst (λ cause. Says cause self.now)
            (HeldAlready l ∷ HoldsUnsleepable l ∷ HoldsMost ∷ []) result }
    {
        if self.is_held(l) {
            return Some(Cause::Held(l));
        }
        if self.holds_unsleepable(l) {
            return Some(Cause::HoldsUnsleepable(l));
        }
        if self.holds_most() {
            return Some(Cause::HoldsMost);
        }
        None
    }

    // What stands against an edit of a cell.
    #[inline(always)]
    #[tactic(auto, using(crate::proofs::Chains::chains))]
    pub(crate) fn against_edit(&self, cell: TableCell) -> Option<Cause>
        ensures { IsFirst (λ cause. Says cause self.now)
            (Ended ∷ InCall ∷ NoCell cell ∷ NotHeld cell.l Excl ∷ Spent ∷ []) result }
    {
        if let Some(cause) = self.against_new() {
            return Some(cause);
        }
        if self.has_no_cell(cell) {
            return Some(Cause::NoCell(cell));
        }
        if self.is_not_held(cell.l, Mode::Excl) {
            return Some(Cause::NotHeld(cell.l, Mode::Excl));
        }
        if self.is_spent() {
            return Some(Cause::Spent);
        }
        None
    }

    // What stands against a read of it.
    #[inline(always)]
    #[tactic(auto, using(crate::proofs::Chains::chains))]
    pub(crate) fn against_read(&self, cell: TableCell) -> Option<Cause>
        ensures { IsFirst (λ cause. Says cause self.now)
            (causes (Read cell)) result }
    {
        if let Some(cause) = self.against_new() {
            return Some(cause);
        }
        if self.has_no_cell(cell) {
            return Some(Cause::NoCell(cell));
        }
        if self.is_unheld(cell.l) {
            return Some(Cause::Unheld(cell.l));
        }
        if self.is_spent() {
            return Some(Cause::Spent);
        }
        None
    }

    // What stands against a call about priorities.
    #[inline(always)]
    #[tactic(auto, using(crate::proofs::Chains::chains))]
    pub(crate) fn against_priorities(&self) -> Option<Cause>
        ensures { IsFirst (λ cause. Says cause self.now)
            (causes Show) result }
    {
        if let Some(cause) = self.against_new() {
            return Some(cause);
        }
        if self.is_spent() {
            return Some(Cause::Spent);
        }
        None
    }

    // What stands against a wake of a condition variable or channel.
    #[inline(always)]
    #[tactic(auto, using(crate::proofs::Chains::chains))]
    pub(crate) fn against_wake(&self, c: ChanNo) -> Option<Cause>
        ensures { IsFirst (λ cause. Says cause self.now)
            (Ended ∷ InCall ∷ NoChan c ∷ Spent ∷ []) result }
    {
        if let Some(cause) = self.against_new() {
            return Some(cause);
        }
        if self.has_no_chan(c) {
            return Some(Cause::NoChan(c));
        }
        if self.is_spent() {
            return Some(Cause::Spent);
        }
        None
    }

    // What stands against a wait on it.
    #[inline(always)]
    #[tactic(auto, using(crate::proofs::Chains::chains))]
    pub(crate) fn against_wait(&self, c: ChanNo) -> Option<Cause>
        ensures { IsFirst (λ cause. Says cause self.now)
            (causes (Wait c)) result }
    {
        if let Some(cause) = self.against_new() {
            return Some(cause);
        }
        if self.has_no_chan(c) {
            return Some(Cause::NoChan(c));
        }
        if self.is_not_last(c) {
            return Some(Cause::NotLast(c));
        }
        if self.holds_others(c) {
            return Some(Cause::HoldsOthers(c));
        }
        if self.holds_more() {
            return Some(Cause::HoldsMore);
        }
        if self.is_short() {
            return Some(Cause::Short);
        }
        None
    }

    // What stands against the thread's end.
    #[inline(always)]
    #[tactic(auto, using(crate::proofs::Chains::chains))]
    pub(crate) fn against_end(&self) -> Option<Cause>
        ensures { IsFirst (λ cause. Says cause self.now)
            (causes End) result }
    {
        if let Some(cause) = self.against_new() {
            return Some(cause);
        }
        if self.holds_some() {
            return Some(Cause::HoldsSome);
        }
        None
    }

    // What stands against going on with a call.
    #[inline(always)]
    #[tactic(auto, using(crate::proofs::Chains::chains))]
    pub(crate) fn against_going_on(&self) -> Option<Cause>
        ensures { IsFirst (λ cause. Says cause self.now)
            (causes GoOn) result }
    {
        if self.has_ended() {
            return Some(Cause::Ended);
        }
        if self.is_at_rest() {
            return Some(Cause::AtRest);
        }
        None
    }
}
