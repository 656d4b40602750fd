//! The calls of a thread. Each tests what it needs, and does nothing where something stands against it. None waits. A
//! thread's log keeps room for a release of each lock that the thread holds, so that a release never wants it.
ghost use Rattle.floor_calls.specs.Calls.{Answers};
ghost use Rattle.floor_calls.specs.declared.requests.Request.TheVariants as request;

use crate::at_once::{edit, read, set_base, show};
use crate::parts::{attempt, begin_end, begin_wait, begin_wake, go_on, release, take};
use crate::requests::{Cause, Request};
use crate::stages::Next;
use crate::thread::Thread;
use lock_floor::{Change, TableCell};
use lock_model::{ChanNo, LockNo, Mode, Prio};

impl Thread {
    /// Makes the call that is asked for: `Ok` comes exactly where nothing stands against it, and says what its caller
    /// is to do next. It is one of those below.
    #[tactic(auto, using(crate::proofs::Answered::answers_named))]
    pub fn ask(&mut self, request: Request) -> Result<Next, Cause>
        ensures { Answers request result self.old self.new }
    {
        match request {
            Request::Take { l, mode } => self.begin_take(l, mode),
            Request::Try { l, mode } => self.begin_try(l, mode),
            Request::Release { l, mode } => self.begin_release(l, mode),
            Request::Edit { cell, change } => self.edit(cell, change),
            Request::Read { cell } => self.read(cell),
            Request::SetBase { prio } => self.set_base(prio),
            Request::Show => self.show(),
            Request::WakeUp { c, all } => self.begin_wakeup(c, all),
            Request::Wait { c } => self.begin_wait(c),
            Request::End => self.begin_end(),
            Request::GoOn => self.go_on(),
        }
    }

    /// Begins a take of a lock in a mode, as `begin_take` of `lock_calls`. `Ok` comes exactly where the thread is in
    /// the middle of no call and hasn't ended, the floor has that lock, which may have the mode, the thread doesn't
    /// hold it and holds fewer than 8 locks, none over which it may not sleep where the lock is an sx lock, and its log
    /// has room for two entries beside those that are kept: one for the take, and one for a release of what it gains.
    #[inline(always)]
    pub fn begin_take(&mut self, l: LockNo, mode: Mode) -> Result<Next, Cause>
        ensures { Answers (request.Take l mode) result self.old self.new }
    {
        match self.against_gain(l, mode) {
            Some(cause) => Err(cause),
            None => {
                let next = take(&self.shared.floor, &mut self.pass, &mut self.stage, l, mode);
                Ok(next)
            }
        }
    }

    /// Begins a try of a lock in a mode, as `begin_try` of `lock_calls`. `Ok` comes exactly where it does of a take.
    #[inline(always)]
    pub fn begin_try(&mut self, l: LockNo, mode: Mode) -> Result<Next, Cause>
        ensures { Answers (request.Try l mode) result self.old self.new }
    {
        match self.against_gain(l, mode) {
            Some(cause) => Err(cause),
            None => {
                let next = attempt(&self.shared.floor, &mut self.pass, &mut self.stage, l, mode);
                Ok(next)
            }
        }
    }

    /// Begins a release of a lock that is held in a mode, as `begin_release` of `lock_calls`. `Ok` comes exactly where
    /// the thread is in the middle of no call and hasn't ended, and it holds that lock in that mode: for its entry room
    /// was kept.
    #[inline(always)]
    pub fn begin_release(&mut self, l: LockNo, mode: Mode) -> Result<Next, Cause>
        ensures { Answers (request.Release l mode) result self.old self.new }
    {
        match self.against_release(l, mode) {
            Some(cause) => Err(cause),
            None => {
                let next = release(&self.shared.floor, &mut self.pass, &mut self.stage, l, mode);
                Ok(next)
            }
        }
    }

    /// Changes the value of a cell of a lock's table, as `try_edit` of `lock_floor`, at once: `Done`, or `Out` where
    /// another thread had the value out, and then nothing is changed. `Ok` comes exactly where the thread is in the
    /// middle of no call and hasn't ended, the floor has that cell, the thread holds its lock exclusively, and its log
    /// has room for an entry beside those that are kept for releases of what it holds.
    #[inline(always)]
    pub fn edit(&mut self, cell: TableCell, change: Change) -> Result<Next, Cause>
        ensures { Answers (request.Edit cell change) result self.old self.new }
    {
        match self.against_edit(cell) {
            Some(cause) => Err(cause),
            None => {
                let next = edit(&self.shared.floor, &mut self.pass, cell, change);
                Ok(next)
            }
        }
    }

    /// Reads the value of a cell of a lock's table, as `try_read` of `lock_floor`, at once: `Found`, or `Out` as for an
    /// edit. `Ok` comes exactly where it does of an edit, but that the thread holds the lock in either mode.
    #[inline(always)]
    pub fn read(&mut self, cell: TableCell) -> Result<Next, Cause>
        ensures { Answers (request.Read cell) result self.old self.new }
    {
        match self.against_read(cell) {
            Some(cause) => Err(cause),
            None => {
                let next = read(&self.shared.floor, &mut self.pass, cell);
                Ok(next)
            }
        }
    }

    /// Sets the thread's base priority, as `try_set_base` of `lock_floor`, at once: `Done`, or `Out` where another
    /// thread had its record out, and then nothing is changed. `Ok` comes exactly where the thread is in the middle of
    /// no call and hasn't ended, and its log has room for an entry beside those that are kept.
    pub fn set_base(&mut self, prio: Prio) -> Result<Next, Cause>
        ensures { Answers (request.SetBase prio) result self.old self.new }
    {
        match self.against_priorities() {
            Some(cause) => Err(cause),
            None => {
                let next = set_base(&self.shared.floor, &mut self.pass, prio);
                Ok(next)
            }
        }
    }

    /// Shows the thread's base and its effective priority, as `try_show` of `lock_floor`, at once: `Shown`, or `Out` as
    /// for a new base. `Ok` comes exactly where it does of a new base.
    pub fn show(&mut self) -> Result<Next, Cause>
        ensures { Answers request.Show result self.old self.new }
    {
        match self.against_priorities() {
            Some(cause) => Err(cause),
            None => {
                let next = show(&self.shared.floor, &mut self.pass);
                Ok(next)
            }
        }
    }

    /// Begins a wake of a condition variable or channel, of its most important sleeper or of all, as `begin_wakeup` of
    /// `cond_vars`. Each who is woken is told by a `Wake`. `Ok` comes exactly where the thread is in the middle of no
    /// call and hasn't ended, the floor has that condition variable or channel, and its log has room for an entry
    /// beside those that are kept.
    pub fn begin_wakeup(&mut self, c: ChanNo, all: bool) -> Result<Next, Cause>
        ensures { Answers (request.WakeUp c all) result self.old self.new }
    {
        match self.against_wake(c) {
            Some(cause) => Err(cause),
            None => {
                let next = begin_wake(&self.shared.floor, &mut self.pass, &mut self.stage, c, all);
                Ok(next)
            }
        }
    }

    /// Begins a wait on a condition variable or channel, as `go_on_waiting` of `cond_vars`: it gives its lock up,
    /// sleeps until another thread wakes it, and takes the lock back in the mode in which it held it. `Halted` comes
    /// where an abort ended its sleep; the lock is held again then too. `Ok` comes exactly where the thread is in the
    /// middle of no call and hasn't ended, the floor has that condition variable or channel, whose lock the thread
    /// gained last, and not by a try, it holds no other mutex or reader-writer lock and at most 8 locks, and its log
    /// has room for two entries beside those that are kept.
    pub fn begin_wait(&mut self, c: ChanNo) -> Result<Next, Cause>
        ensures { Answers (request.Wait c) result self.old self.new }
    {
        match self.against_wait(c) {
            Some(cause) => Err(cause),
            None => {
                let next = begin_wait(&self.shared.floor, &mut self.pass, &mut self.stage, c);
                Ok(next)
            }
        }
    }

    /// Begins the thread's end, as `go_on_ending` of `halting`. Once that is done the thread makes no call any more.
    /// `Ok` comes exactly where the thread is in the middle of no call and hasn't ended, and holds nothing.
    pub fn begin_end(&mut self) -> Result<Next, Cause>
        ensures { Answers request.End result self.old self.new }
    {
        match self.against_end() {
            Some(cause) => Err(cause),
            None => {
                let next = begin_end(&self.shared.floor, &mut self.pass, &mut self.stage);
                Ok(next)
            }
        }
    }

    /// Goes on with the call that the thread is in the middle of: `Ok` comes exactly where there is one.
    pub fn go_on(&mut self) -> Result<Next, Cause>
        ensures { Answers request.GoOn result self.old self.new }
    {
        match self.against_going_on() {
            Some(cause) => Err(cause),
            None => {
                let next = go_on(&self.shared.floor, &mut self.pass, &mut self.stage);
                Ok(next)
            }
        }
    }
}
