//! Blocking on a turnstile or a sleep queue, and waking from it.
ghost use Rattle.std.specs.Prelude.{◌≡◌, ℕ, is_some, List, [], ◌∷◌, map};
ghost use Rattle.lock_model.specs.Queues.{Mark, Cause, lock_queue, chan_queue, side_of, taken_off};
ghost use Rattle.lock_model.specs.declared.plan.Mode as modes;
ghost use Rattle.lock_model.specs.declared.plan.QueueName as names;
ghost use Rattle.lock_model.specs.Config.{Config};
ghost use Rattle.lock_state.specs.State.{State};
ghost use Rattle.lock_state.specs.Facts.{Lawful};
ghost use Rattle.lock_state.specs.Steps.{May as MayMake, MayAll, Readies, Adds, Wakes, Marks, Resumes};
ghost use Rattle.lock_state.specs.Steps.LockWords.{MayReady, bits_of_threads};
ghost use Rattle.lock_state.specs.Steps.Turnstiles.{MayMark, MayResume};
ghost use Rattle.lock_state.specs.Steps.SleepQueues.{MayAdd, MayWake};
ghost use Rattle.prio_lending.specs.Hops.{walk_up};
ghost use Rattle.step_machine.specs.Represents.{Represents};
ghost use Rattle.step_machine.specs.Threads.{is_back};
ghost use Rattle.step_machine.specs.Steps.{May, Makes, MakesWhere, MakesAllWhere, KeepsProgress, ChangesProgress, KeepsBooks, enters, opens, with_released};

use super::Machine;
use lock_model::{ChanNo, Kind, LockNo, Mode, QueueName, Side, ThreadNo};
use lock_objects::{Marked, Wait, bits_of, enter, fall_asleep, open, take_off, wake};
use lock_words::{entered, opened, owner_of};
use prio_lending::Walk;

impl Machine {
    /// The thread blocks on a lock of that kind whose word doesn't admit the mode: it is made ready and stands on the
    /// lock's queue. On a turnstile its lending walk begins, at the lock, where a thread holds that exclusively.
    pub fn block(&mut self, t: ThreadNo, l: LockNo, mode: Mode, kind: Kind)
        requires may { May self.old (λ c s. (kind ≡ c.kind l.0) × ((x : ℕ)
            × MayAll c s (Readies t.0 (lock_queue l.0) ∷ enters kind t.0 l.0 mode x ∷ []))) }
        ensures steps { (x : ℕ) → MakesAllWhere (λ c. kind ≡ c.kind l.0) self.old self.new
            (Readies t.0 (lock_queue l.0) ∷ enters kind t.0 l.0 mode x ∷ []) }
        ensures progress { KeepsProgress self.old self.new }
        ensures books { KeepsBooks self.old self.new }
    {
        let i = usize::from(l.0);
        let owner = owner_of(self.words[i]);
        let side = side_of(mode);
        self.words[i] = entered(self.words[i], side);
        let thread = &mut self.threads[usize::from(t.0)];
        thread.wait = Wait::Queued;
        thread.wants = true;
        match kind {
            Kind::Mtx | Kind::Rw => {
                enter(&mut self.chain, &mut thread.record, l, side, owner);
                thread.walk = walk_from(l, owner);
            }
            Kind::Sx => {
                let q = QueueName::Lock(l);
                fall_asleep(&mut self.sleepers, &mut thread.record, q, side);
            }
        }
    }

    /// The thread is made ready for a queue.
    pub fn ready(&mut self, t: ThreadNo)
        requires may { May self.old (λ c s. MayReady c s t.0) }
        ensures step { (q : names.QueueName) → Makes self.old self.new (Readies t.0 q) }
        ensures progress { KeepsProgress self.old self.new }
        ensures books { KeepsBooks self.old self.new }
    {
        self.threads[usize::from(t.0)].wait = Wait::Queued;
    }

    /// The thread, which was made ready and has noted that it sleeps, stands on the channel's queue.
    pub fn add(&mut self, t: ThreadNo, c: ChanNo)
        requires may { May self.old (λ config s. (x : ℕ) × MayAdd config s t.0 c.0 x) }
        ensures step { (x : ℕ) → Makes self.old self.new (Adds t.0 c.0 x) }
        ensures progress { KeepsProgress self.old self.new }
        ensures books { KeepsBooks self.old self.new }
    {
        let rec = &mut self.threads[usize::from(t.0)].record;
        fall_asleep(&mut self.sleepers, rec, QueueName::Chan(c), Side::X);
    }

    /// The thread is the last holder of a lock of that kind, and releases it where the word shows waiters: those of the
    /// woken side are taken off the lock's queue, to be woken, and what they lent the thread goes home.
    pub fn open(&mut self, t: ThreadNo, l: LockNo, kind: Kind)
        requires may { May self.old (λ c s. (kind ≡ c.kind l.0)
            × ((mode : modes.Mode) × MayMake c s (opens kind t.0 l.0 mode))) }
        ensures step { (mode : modes.Mode) → MakesWhere (λ c s. kind ≡ c.kind l.0)
            self.old self.new (opens kind t.0 l.0 mode) }
        ensures progress { ChangesProgress self.old self.new t.0 (with_released l.0) }
        ensures books { KeepsBooks self.old self.new }
    {
        let i = usize::from(l.0);
        let (word, woken) = opened(kind, self.words[i]);
        self.words[i] = word;
        let thread = &mut self.threads[usize::from(t.0)];
        thread.put_down(l);
        let Some(side) = woken else {
            return;
        };
        let q = QueueName::Lock(l);
        thread.marked_from = q;
        match kind {
            Kind::Mtx | Kind::Rw => {
                thread.marked = Marked::Waiters(open(&mut self.chain, &mut thread.record, l, side));
            }
            Kind::Sx => {
                thread.marked = Marked::Sleepers(take_off(&mut self.sleepers, q, side, true));
            }
        }
    }

    /// The thread takes sleepers off a channel, the best or all, to be woken, and is told who they are.
    pub fn wake(&mut self, t: ThreadNo, c: ChanNo, all: bool) -> u64
        requires may { May self.old (λ config s. MayWake config s t.0 c.0 all) }
        ensures step { Makes self.old self.new (Wakes t.0 c.0 all) }
        ensures woken { (config : Config) (s : State) → Represents config self.old s → Lawful config s
            → result ≡ bits_of_threads
            (map (λ w. w.thread) (taken_off all (s.lists (chan_queue c.0)).exclusive)) }
        ensures progress { KeepsProgress self.old self.new }
        ensures books { KeepsBooks self.old self.new }
    {
        let q = QueueName::Chan(c);
        let sleepers = take_off(&mut self.sleepers, q, Side::X, all);
        let woken = bits_of(&sleepers);
        let thread = &mut self.threads[usize::from(t.0)];
        thread.marked = Marked::Sleepers(sleepers);
        thread.marked_from = q;
        woken
    }

    /// The first of the thread's marked list gets its object back and is woken.
    pub fn mark(&mut self, t: ThreadNo)
        requires may { May self.old (λ c s. (m : Mark) × (ms : List Mark) × MayMark c s t.0 m ms) }
        ensures step { (m : Mark) (ms : List Mark) → Makes self.old self.new (Marks t.0 m ms) }
        ensures progress { KeepsProgress self.old self.new }
        ensures books { KeepsBooks self.old self.new }
    {
        let thread = &mut self.threads[usize::from(t.0)];
        let from = thread.marked_from;
        if let Some(node) = thread.marked.pop() {
            let woken = &mut self.threads[usize::from(node.thread().0)];
            wake(&mut woken.record, node);
            woken.wait = Wait::Woken(from);
        }
    }

    /// A woken thread runs again. From a channel it has the lock of its wait to gain.
    pub fn resume(&mut self, t: ThreadNo)
        requires may { May self.old (λ c s. (q : names.QueueName) × (cause : Cause)
            × MayResume c s t.0 q cause) }
        ensures step { (q : names.QueueName) (cause : Cause)
            → Makes self.old self.new (Resumes t.0 q cause) }
        ensures progress { KeepsProgress self.old self.new }
        ensures books { KeepsBooks self.old self.new }
    {
        let thread = &mut self.threads[usize::from(t.0)];
        thread.wants = is_back(thread.wait) || thread.wants;
        thread.wait = Wait::Running;
    }
}

// Whether a wait word says Woken from a channel.
fn is_back(wait: Wait) -> bool
    ensures { result ≡ is_back wait }
{
    matches!(wait, Wait::Woken(QueueName::Chan(_)))
}

// The side on which threads wait to gain a lock in a mode.
fn side_of(mode: Mode) -> Side
    ensures { result ≡ side_of mode }
{
    match mode {
        Mode::Excl => Side::X,
        Mode::Shared => Side::S,
    }
}

// Where a lending walk begins: at the lock, if a thread holds it exclusively.
fn walk_from(l: LockNo, owner: Option<ThreadNo>) -> Walk
    ensures { result ≡ walk_up l.0 (is_some owner) }
{
    if owner.is_some() {
        Walk::AtLock(l)
    } else {
        Walk::None
    }
}
