//! The run by a plan's schedule and then in rounds.
ghost use Rattle.std.specs.Prelude.{◌≡◌, ◌≢◌, ◌⊎◌, ℕ, ◌+◌, ◌≤◌, ◌<◌, ◌&&◌, [], ◌∷◌, false, true, length, Some, IfOk, IfNone, IfSome};
ghost use Rattle.std.specs.Option.{is_none};
ghost use Rattle.lock_history.specs.Endings.{ending_of};
ghost use Rattle.lock_history.specs.Outcomes.{outcome_seen};
ghost use Rattle.lock_model.specs.Counts.{has_bit, is_empty};
ghost use Rattle.lock_model.specs.Operations.{IsProper};
ghost use Rattle.lock_state.specs.Run as run;
ghost use Rattle.lock_state.specs.Run.{start_course, course_after, go_on, with_turn, is_over, is_stuck, all_ended, has_ended, is_idle, turn_of, run_behind, round_of, scheduled_run, outcome_of, whole_ending, HasLegalHistory, ending_of as ending_of_course, first_turn, next_turn};
ghost use Rattle.step_world.specs.Courses.{IsCourse, Tells, GoesTo, KeepsWhereIdle, is_going, turn_seen};
ghost use Rattle.step_world.specs.Worlds.{Represents};

use crate::outcome::finals;
use crate::threads::ThreadSet;
use crate::world::World;
use lock_history::{History, Last, Outcome};
use lock_model::{Plan, Sequence, ThreadNo, Turn};
use std::alloc::{AllocError, Global};
use std::marker::Model;

/// The scheduled run of a plan: the turns of its schedule, and then rounds over the threads that haven't ended, by
/// number. Where all threads have ended it ends `Reversed` if a take was refused for its order, and else `Done`; it
/// ends `Stuck` where a whole round was idle, and else `TooLong` where the allowed turns were made. Its history is
/// legal, and whole unless it ended `Stuck` or `TooLong`. There are 1 to 64 chains of each sort, of which only the
/// printed slots tell, and 1 to 1,000,000 turns. The plan is one that some script gives.
pub fn run_schedule(
    alloc: Global,
    plan: &Plan,
    chains: u32,
    turns: u32,
) -> Result<Outcome, AllocError>
    requires proper { IsProper plan.now }
    requires some_chains { 1 ≤ chains }
    requires few_chains { chains ≤ 64 }
    requires some_turns { 1 ≤ turns }
    requires few_turns { turns ≤ 1000000 }
    ensures outcome { IfOk result (λ o. outcome_seen o ≡ scheduled_run plan.now chains turns) }
    ensures legal { IfOk result (λ o. HasLegalHistory plan.now (outcome_seen o)) }
{
    let mut course = Course::make(alloc, plan, chains)?;
    make_turns(&mut course, turns);
    course.into_outcome(alloc)
}

/// A run under way, turn by turn: the turns of the plan's schedule, and then rounds over the threads that haven't
/// ended, by number. It is over where all threads have ended, or a whole round was idle.
///
/// ```
/// let mut course = Course::make(alloc, &plan, 16)?;
/// while let Some((who, answer)) = course.go_on() {
///     println!(rt; "{who:?}: {answer:?}, {} entries", course.world().history().len())?;
/// }
/// let outcome = course.into_outcome(alloc)?;
/// ```
#[derive(Drop)]
pub struct Course<'p> {
    world: World<'p>,
    // Who still comes in the schedule, and behind that in the present round.
    schedule: &'p [ThreadNo],
    round: ThreadSet,
    // Whether this is a round whose turns were all idle so far.
    idle: bool,
    // Who hasn't ended. A turn ends no other thread than its own.
    going: ThreadSet,
    // Who is known to sleep: each turn of such a thread is idle until somebody wakes it.
    asleep: ThreadSet,
}

impl<'p> Model for Course<'p> {
    ghost use Rattle.std.specs.Prelude.{map, ◌++◌};
    ghost use Rattle.std.specs.Coded.{codes};
    ghost use Rattle.step_world.specs.Courses.{Course as Seen, IsSound};
    ghost use Rattle.step_world.specs.Sets.{members};
    ghost use Rattle.step_machine.specs.contracts.machine.Machine as machines;

    ghost Value = { Seen };

    ghost coded = { Prim.hlevel (codes, machines.the_row.coded) };

    ghost view = { λ k. record {
      world = k.world;
      coming = map (λ t. t.0) k.schedule.now ++ members k.round.bits;
      idle = k.idle;
    } };

    ghost invariant = { λ k.
        IsSound k.world k.schedule.now k.round.bits k.going.bits k.asleep.bits };
}

impl<'p> Course<'p> {
    /// The begin of a run, with all memory that its turns will need. There are 1 to 64 chains of each sort, of which
    /// only the slots of queues tell, and the plan is one that some script gives.
    pub fn make(alloc: Global, plan: &'p Plan, chains: u32) -> Result<Course<'p>, AllocError>
        requires proper { IsProper plan.now }
        requires some_chains { 1 ≤ chains }
        requires few_chains { chains ≤ 64 }
        ensures plan { IfOk result (λ course. course.world.plan ≡ plan.now) }
        ensures chains { IfOk result (λ course. course.world.chains ≡ chains) }
        ensures begins { IfOk result (λ course. IsCourse course (start_course plan.now)) }
    {
        let world = World::make(alloc, plan, chains)?;
        let going = going_in(&world);
        Ok(Course {
            world,
            schedule: plan.schedule.as_slice(),
            round: ThreadSet::none(),
            idle: false,
            going,
            asleep: ThreadSet::none(),
        })
    }

    /// Whether all threads have ended, or a whole round was idle.
    pub fn is_over(&self) -> bool
        ensures { Tells self.now result is_over }
    {
        self.all_ended() || self.is_stuck()
    }

    /// The next thread has its turn: who it is, and the turn's answer. There is none exactly where the run is over, and
    /// then nothing changes. It takes no memory.
    pub fn go_on(&mut self) -> Option<(ThreadNo, Turn)>
        ensures plan { self.new.world.plan ≡ self.old.world.plan }
        ensures chains { self.new.world.chains ≡ self.old.world.chains }
        ensures course { GoesTo self.old self.new go_on }
        ensures turn { Tells self.old (turn_seen result) next_turn }
        ensures over { Tells self.old (is_none result) is_over }
        ensures unchanged { IfNone result (self.new ≡ self.old) }
        ensures thread { IfSome result (λ made. made.0.0 < length self.old.world.plan.threads) }
        ensures still { IfSome result (λ made. KeepsWhereIdle made.1 self.old self.new) }
    {
        if self.is_over() {
            return None;
        }
        if self.is_through() {
            self.begin_round();
        }
        self.make_turn()
    }

    /// The world between two turns.
    pub fn world(&self) -> &World<'p>
        ensures { result.now ≡ self.now.world }
    {
        &self.world
    }

    /// What is printed of the run so far.
    pub fn into_outcome(self, alloc: Global) -> Result<Outcome, AllocError>
        ensures { IfOk result (λ o. (k : run.Course) → IsCourse self.entry k
            → outcome_seen o ≡ outcome_of self.entry.world.plan self.entry.world.chains k) }
    {
        let last = self.last();
        let queues = self.world.queues(alloc)?;
        let finals = finals(alloc, self.world.machine())?;
        let machine = self.world.into_machine();
        Ok(Outcome {
            history: History::of_log(machine.log),
            queues: Sequence::from_vec(queues),
            finals: Sequence::from_vec(finals),
            tables: machine.tables,
            last,
        })
    }

    fn all_ended(&self) -> bool
        ensures { Tells self.now result (λ plan k. all_ended plan k.run) }
    {
        self.going.is_empty()
    }

    fn is_stuck(&self) -> bool
        ensures { Tells self.now result (λ plan k. is_stuck k) }
    {
        self.idle && self.is_through()
    }

    // Whether nobody of the schedule or of the present round comes any more. Some run is under way.
    fn is_through(&self) -> bool
        ensures through { result ≡ is_empty self.now.coming }
        ensures run { (r : run.Run) × Represents self.now.world r }
    {
        self.schedule.is_empty() && self.round.is_empty()
    }

    // Nobody of the schedule or of the round before comes any more.
    fn begin_round(&mut self)
        ensures world { self.new.world ≡ self.old.world }
        ensures course { GoesTo self.old self.new
            (λ plan k. record k { coming = round_of plan k.run; idle = true }) }
    {
        self.schedule = &[];
        self.round = self.going;
        self.idle = true;
    }

    // The first that comes has its turn.
    fn make_turn(&mut self) -> Option<(ThreadNo, Turn)>
        ensures plan { self.new.world.plan ≡ self.old.world.plan }
        ensures chains { self.new.world.chains ≡ self.old.world.chains }
        ensures course { GoesTo self.old self.new (λ plan k. with_turn plan k.run k.coming k.idle) }
        ensures turn { Tells self.old (turn_seen result) (λ plan k. first_turn plan k.run k.coming) }
        ensures thread { IfSome result (λ made. made.0.0 < length self.old.world.plan.threads) }
        ensures still { IfSome result (λ made. KeepsWhereIdle made.1 self.old self.new) }
    {
        let t = self.take_first()?;
        let turn = self.turn(t);
        self.note(turn);
        Some((t, turn))
    }

    // The first that comes, who doesn't come any more. There is none exactly where nobody comes.
    fn take_first(&mut self) -> Option<ThreadNo>
        ensures world { self.new.world ≡ self.old.world }
        ensures idle { self.new.idle ≡ self.old.idle }
        ensures none { IfNone result ((self.old.coming ≡ []) × (self.new ≡ self.old)) }
        ensures some { IfSome result (λ t. self.old.coming ≡ t.0 ∷ self.new.coming) }
        ensures thread { IfSome result (λ t. t.0 < length self.old.world.plan.threads) }
    {
        match self.schedule.split_first() {
            Some((t, rest)) => {
                self.schedule = rest;
                Some(*t)
            }
            None => self.round.take_first(),
        }
    }

    // A turn of a thread.
    fn turn(&mut self, t: ThreadNo) -> Turn
        requires { t.0 < length self.old.world.plan.threads }
        ensures plan { self.new.world.plan ≡ self.old.world.plan }
        ensures chains { self.new.world.chains ≡ self.old.world.chains }
        ensures coming { self.new.coming ≡ self.old.coming }
        ensures idle { self.new.idle ≡ self.old.idle }
        ensures answer { (r : run.Run) → Represents self.old.world r
            → result ≡ (turn_of self.old.world.plan r t.0).answer }
        ensures turn { (r : run.Run) → Represents self.old.world r
            → Represents self.new.world (run_behind self.old.world.plan r t.0) }
        ensures still { KeepsWhereIdle result self.old self.new }
    {
        if !self.going.has(t) {
            Turn::Ended
        } else if self.asleep.has(t) {
            Turn::Idle
        } else {
            self.act(t)
        }
    }

    // The same for one that hasn't ended. It is known then whether it has, and whether it sleeps.
    fn act(&mut self, t: ThreadNo) -> Turn
        requires thread { t.0 < length self.old.world.plan.threads }
        requires going { (r : run.Run) → Represents self.old.world r
            → has_ended self.old.world.plan r t.0 ≡ false }
        ensures plan { self.new.world.plan ≡ self.old.world.plan }
        ensures chains { self.new.world.chains ≡ self.old.world.chains }
        ensures coming { self.new.coming ≡ self.old.coming }
        ensures idle { self.new.idle ≡ self.old.idle }
        ensures answer { (r : run.Run) → Represents self.old.world r
            → result ≡ (turn_of self.old.world.plan r t.0).answer }
        ensures turn { (r : run.Run) → Represents self.old.world r
            → Represents self.new.world (run_behind self.old.world.plan r t.0) }
        ensures still { KeepsWhereIdle result self.old self.new }
    {
        let woken = self.world.wakes_next(t);
        let turn = self.world.act(t);
        let sleeps = self.world.sleeps(t);
        self.asleep = asleep_behind(self.asleep, t, sleeps, woken);
        // One that sleeps hasn't ended.
        if !sleeps && self.world.has_ended(t) {
            self.going.take_out(t);
        }
        turn
    }

    // A turn was made. A round isn't idle any more where it did something.
    fn note(&mut self, turn: Turn)
        ensures { self.new ≡ record self.old { idle = self.old.idle && is_idle turn } }
    {
        self.idle = self.idle && turn == Turn::Idle;
    }

    // Those at the front of a round who are known to sleep have their turns, where they are no more than so many.
    // Nothing comes of these turns, so none is made.
    fn pass_sleepers(&mut self, most: u32) -> u32
        ensures plan { self.new.world.plan ≡ self.old.world.plan }
        ensures chains { self.new.world.chains ≡ self.old.world.chains }
        ensures few { result ≤ most }
        ensures turns { (n : ℕ) → IsCourse self.old (course_after self.old.world.plan n)
            → IsCourse self.new (course_after self.old.world.plan (n + result)) }
    {
        let asleep = self.asleep;
        self.round.pass(asleep, most)
    }

    // How the run ended.
    fn last(&self) -> Last
        ensures { Tells self.now (ending_of result) ending_of_course }
    {
        if self.all_ended() {
            self.whole_ending()
        } else if self.is_stuck() {
            Last::Stuck
        } else {
            Last::TooLong
        }
    }

    // How it ended where all threads have ended.
    fn whole_ending(&self) -> Last
        ensures { Tells self.now (ending_of result)
            (λ plan k. whole_ending k.run.state.history) }
    {
        if self.world.machine().has_reversal() {
            Last::Reversed
        } else {
            Last::Done
        }
    }
}

// So many turns, or fewer where the run comes to its end before.
fn make_turns(course: &mut Course<'_>, turns: u32)
    ensures plan { course.new.world.plan ≡ course.old.world.plan }
    ensures chains { course.new.world.chains ≡ course.old.world.chains }
    ensures turns { IsCourse course.old (start_course course.old.world.plan)
        → IsCourse course.new (course_after course.old.world.plan turns) }
{
    let mut left = turns;
    while 0 < left && course.go_on().is_some() {
        left -= 1;
        left -= course.pass_sleepers(left);
    }
}

// Who hasn't ended.
fn going_in(world: &World<'_>) -> ThreadSet
    ensures { (r : run.Run) (t : ℕ) → Represents world.now r
        → has_bit t result.bits ≡ is_going world.now.plan r t }
{
    let mut going = ThreadSet::none();
    for t in 0..world.threads() {
        if !world.has_ended(ThreadNo(t)) {
            going.put(ThreadNo(t));
        }
    }
    going
}

// Who is known to sleep behind the turn of a thread, which may sleep now, and may have woken another.
fn asleep_behind(asleep: ThreadSet, t: ThreadNo, sleeps: bool, woken: Option<ThreadNo>) -> ThreadSet
    requires thread { t.0 < 32 }
    requires woken { IfSome woken (λ u. u.0 < 32) }
    ensures own { has_bit t.0 result.bits ≡ true
        → (has_bit t.0 asleep.bits ≡ true) ⊎ (sleeps ≡ true) }
    ensures others { (u : ℕ) → u ≢ t.0 → has_bit u result.bits ≡ true
        → (has_bit u asleep.bits ≡ true) × IfSome woken (λ w. w.0 ≢ u) }
{
    let mut behind = asleep;
    if sleeps {
        behind.put(t);
    }
    if let Some(u) = woken {
        behind.take_out(u);
    }
    behind
}
