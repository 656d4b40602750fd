//! The actions of a running thread that takes, tries or releases a lock. What a take calls is inlined: as calls they
//! hand events and answers on through memory, which costs as much as the steps.
ghost use Rattle.std.specs.Prelude.{◌≡◌, ◌+◌, ◌≤◌, ◌<◌, length, map, take, Some, MatchResult};
ghost use Rattle.lock_model.specs.Operations.{IsProper};
ghost use Rattle.lock_model.specs.Plans.{lock_kind, lock_class, config_of};
ghost use Rattle.lock_model.specs.declared.plan.Mode as modes;
ghost use Rattle.lock_model.specs.declared.plan.Op.TheVariants.{Take, Try, Release};
ghost use Rattle.lock_model.specs.Words.{word_of, IsWellFormed, admits, is_plain};
ghost use Rattle.lock_state.specs.State.{State};
ghost use Rattle.lock_state.specs.Run.{Run};
ghost use Rattle.run_laws.specs.OnTrack.{IsAtOperation, BeginsTake, first_against};
ghost use Rattle.witness_orders.specs.Graph.{numbers_of};
ghost use Rattle.step_machine.specs.Represents.{Represents};
ghost use Rattle.step_machine.specs.Steps.{HasKey, ChangesProgress, KeepsBooks, with_released};
ghost use Rattle.step_world.specs.Runs.{HasRun, HasState, IsRunOf, MakesAction, KeepsWhereIdle, IsGain, IsTake, Follows, MayGiveBack, GivesBack, MayUnlock, Unlocks, IsGivingUp, IsAdmission, answer_of};

use crate::turns::Made;
use lock_model::limits::HELD;
use lock_model::{
    ClassNo, Event, Held, Kind, LockNo, Mode, Plan, Reversal, StepKind, ThreadNo, Turn,
};
use lock_words::{admits, is_drop, is_plain};
use step_machine::Machine;

/// A take's first turn checks the order of its lock. From that turn on the lock is taken.
pub fn take_in_order(machine: &mut Machine, plan: &Plan, t: ThreadNo, l: LockNo, mode: Mode) -> Made
    requires proper { IsProper plan.now }
    requires thread { t.0 < length plan.now.threads }
    requires run { HasRun plan.now machine.old
        (λ r. IsAtOperation plan.now r t.0 (Some (Take l mode))) }
    ensures makes { MakesAction plan.now t.0 machine.old machine.new result
        (λ r. IsAtOperation plan.now r t.0 (Some (Take l mode))) }
    ensures unchanged { KeepsWhereIdle (answer_of result) machine.old machine.new }
{
    if machine.threads[usize::from(t.0)].wants {
        take(machine, plan, t, l, mode, Event::Locked { l, mode })
    } else {
        begin_take(machine, plan, t, l, mode)
    }
}

// The first turn of a take: the lock is admitted behind those that the thread holds, and taken; or it is refused.
fn begin_take(machine: &mut Machine, plan: &Plan, t: ThreadNo, l: LockNo, mode: Mode) -> Made
    requires proper { IsProper plan.now }
    requires thread { t.0 < length plan.now.threads }
    requires run { HasRun plan.now machine.old (λ r. BeginsTake plan.now r t.0 l mode) }
    ensures makes { MakesAction plan.now t.0 machine.old machine.new result
        (λ r. BeginsTake plan.now r t.0 l mode) }
    ensures unchanged { KeepsWhereIdle (answer_of result) machine.old machine.new }
{
    match admit(machine, plan, t, l) {
        Ok(()) => take(machine, plan, t, l, mode, Event::Locked { l, mode }),
        Err(reversal) => {
            machine.refuse(t, l, reversal.held);
            Made::Does(Turn::Did(StepKind::Note))
        }
    }
}

// Admits a lock behind those that the thread holds, unless the class of one of them forbids it: the first that does is
// told, and nothing changes.
fn admit(machine: &mut Machine, plan: &Plan, t: ThreadNo, l: LockNo) -> Result<(), Reversal>
    requires proper { IsProper plan.now }
    requires thread { t.0 < length plan.now.threads }
    requires run { HasRun plan.now machine.old
        (λ r. (mode : modes.Mode) × BeginsTake plan.now r t.0 l mode) }
    ensures { MatchResult result
        (λ _. (r : Run) (mode : modes.Mode) → IsRunOf plan.now machine.old r
        → BeginsTake plan.now r t.0 l mode → IsAdmission plan.now r t.0 l machine.new)
        (λ reversal. (machine.new ≡ machine.old) × ((r : Run) → IsRunOf plan.now machine.old r
        → first_against plan.now r t.0 l ≡ Some reversal.held.0)) }
{
    let held = &machine.threads[usize::from(t.0)].held;
    let mut classes = [ClassNo(0); HELD];
    put_classes(plan, held, &mut classes);
    let held = &classes[..held.len()];
    let class = class_of(plan, l);
    machine.orders.check(held, class)?;
    machine.admit(t, held, class);
    Ok(())
}

// Writes the classes of held locks, in order of acquisition.
fn put_classes(plan: &Plan, held: &[Held], classes: &mut [ClassNo])
    requires { length held.now ≤ length classes.old }
    ensures { numbers_of (take (length held.now) classes.new)
        ≡ map (λ h. lock_class plan.now h.l.0) held.now }
{
    for (i, held) in held.iter().enumerate() {
        classes[i] = class_of(plan, held.l);
    }
}

// The class of a lock.
fn class_of(plan: &Plan, l: LockNo) -> ClassNo
    ensures { result.0 ≡ lock_class plan.now l.0 }
{
    match plan.locks.as_slice().get(usize::from(l.0)) {
        Some(lock) => lock.class,
        None => ClassNo(0),
    }
}

/// A thread gains a lock where its word admits the mode, and notes that by the event; else it blocks. So it takes a
/// lock, and takes it back after a wait.
#[inline(always)]
pub fn take(
    machine: &mut Machine,
    plan: &Plan,
    t: ThreadNo,
    l: LockNo,
    mode: Mode,
    event: Event,
) -> Made
    requires proper { IsProper plan.now }
    requires thread { t.0 < length plan.now.threads }
    requires run { HasRun plan.now machine.old (λ r. IsTake plan.now r t.0 l mode event) }
    requires key { HasKey machine.old event }
    ensures makes { MakesAction plan.now t.0 machine.old machine.new result
        (λ r. IsTake plan.now r t.0 l mode event) }
    ensures unchanged { KeepsWhereIdle (answer_of result) machine.old machine.new }
{
    if is_admitted(machine, plan, l, mode) {
        gain_or_claim(machine, plan, t, l, mode, false, event)
    } else {
        machine.block(t, l, mode, plan.lock_kind(l));
        Made::Does(Turn::Did(StepKind::Enter))
    }
}

/// A try gains the lock where its word admits the mode. Else it notes the word, and the thread goes on behind its
/// block, at the operation of that number.
pub fn try_lock(
    machine: &mut Machine,
    plan: &Plan,
    t: ThreadNo,
    l: LockNo,
    mode: Mode,
    past: u32,
) -> Made
    requires proper { IsProper plan.now }
    requires thread { t.0 < length plan.now.threads }
    requires run { HasRun plan.now machine.old
        (λ r. IsAtOperation plan.now r t.0 (Some (Try l mode past))) }
    ensures makes { MakesAction plan.now t.0 machine.old machine.new result
        (λ r. IsAtOperation plan.now r t.0 (Some (Try l mode past))) }
    ensures unchanged { KeepsWhereIdle (answer_of result) machine.old machine.new }
{
    if is_admitted(machine, plan, l, mode) {
        gain_or_claim(machine, plan, t, l, mode, true, Event::Tried { l, mode })
    } else {
        let seen = word_at(machine, plan, l);
        machine.stamp(t, Event::Busy { l, seen });
        Made::Skips(past)
    }
}

// A thread gains a lock whose word admits the mode, and notes it. Where the gain isn't plain, it claims the turnstile
// of those who wait.
#[inline(always)]
fn gain_or_claim(
    machine: &mut Machine,
    plan: &Plan,
    t: ThreadNo,
    l: LockNo,
    mode: Mode,
    by_try: bool,
    event: Event,
) -> Made
    requires proper { IsProper plan.now }
    requires thread { t.0 < length plan.now.threads }
    requires run { HasRun plan.now machine.old
        (λ r. IsGain plan.now r t.0 l mode by_try event) }
    requires key { HasKey machine.old event }
    ensures makes { MakesAction plan.now t.0 machine.old machine.new result
        (λ r. IsGain plan.now r t.0 l mode by_try event) }
    ensures unchanged { KeepsWhereIdle (answer_of result) machine.old machine.new }
{
    if gains_plainly(machine, plan, l, mode) {
        machine.gain(t, l, mode, by_try);
        machine.stamp(t, event);
        Made::Ends(StepKind::Gain)
    } else {
        machine.claim(t, l, by_try);
        machine.stamp(t, event);
        Made::Ends(StepKind::Claim)
    }
}

/// A release is noted, and the lock given back.
pub fn release(machine: &mut Machine, plan: &Plan, t: ThreadNo, l: LockNo) -> Made
    requires proper { IsProper plan.now }
    requires thread { t.0 < length plan.now.threads }
    requires run { HasRun plan.now machine.old
        (λ r. IsAtOperation plan.now r t.0 (Some (Release l))) }
    ensures makes { MakesAction plan.now t.0 machine.old machine.new result
        (λ r. IsAtOperation plan.now r t.0 (Some (Release l))) }
    ensures unchanged { KeepsWhereIdle (answer_of result) machine.old machine.new }
{
    Made::Ends(unlock(machine, plan, t, l))
}

/// A thread that was cut gives back the lock that it gained last.
pub fn give_last_back(machine: &mut Machine, plan: &Plan, t: ThreadNo) -> Turn
    requires proper { IsProper plan.now }
    requires thread { t.0 < length plan.now.threads }
    requires run { HasRun plan.now machine.old (λ r. IsGivingUp plan.now r t.0) }
    ensures follows { Follows plan.now t.0 machine.old machine.new result
        (λ r. IsGivingUp plan.now r t.0) }
    ensures unchanged { KeepsWhereIdle result machine.old machine.new }
{
    match machine.threads[usize::from(t.0)].held.last() {
        Some(held) => {
            let l = held.l;
            Turn::Did(unlock(machine, plan, t, l))
        }
        None => Turn::Idle,
    }
}

// A thread notes that it releases a lock, in the mode in which it holds that, and gives it back.
fn unlock(machine: &mut Machine, plan: &Plan, t: ThreadNo, l: LockNo) -> StepKind
    requires may { HasState plan.now machine.old
        (λ s. (mode : modes.Mode) × MayUnlock (config_of plan.now) s t.0 l mode) }
    requires room { 1 ≤ machine.old.log.spare }
    ensures steps { Unlocks plan.now machine.old machine.new t.0 l result }
    ensures progress { ChangesProgress machine.old machine.new t.0 (with_released l.0) }
    ensures places { machine.new.tables.places ≡ machine.old.tables.places }
    ensures room { length machine.new.log.entries + machine.new.log.spare
        ≡ length machine.old.log.entries + machine.old.log.spare }
{
    let mode = machine.threads[usize::from(t.0)].mode_held(l);
    machine.stamp(t, Event::Unlocked { l, mode });
    give_back(machine, plan, t, l)
}

/// A thread gives a lock back in the mode in which it holds it: where another holder stays or no waiter is shown by a
/// drop, and else by an open, for which waiters are taken off, to be woken.
#[inline(always)]
pub fn give_back(machine: &mut Machine, plan: &Plan, t: ThreadNo, l: LockNo) -> StepKind
    requires may { HasState plan.now machine.old
        (λ s. (mode : modes.Mode) × MayGiveBack (config_of plan.now) s t.0 l.0 mode) }
    ensures step { GivesBack plan.now machine.old machine.new t.0 l.0 result }
    ensures progress { ChangesProgress machine.old machine.new t.0 (with_released l.0) }
    ensures books { KeepsBooks machine.old machine.new }
{
    if is_drop(word_at(machine, plan, l)) {
        let mode = machine.threads[usize::from(t.0)].mode_held(l);
        machine.drop_lock(t, l, mode);
        StepKind::Drop
    } else {
        machine.open(t, l, plan.lock_kind(l));
        StepKind::OpenUp
    }
}

// Whether the word of a lock admits a thread in the mode,
fn is_admitted(machine: &Machine, plan: &Plan, l: LockNo, mode: Mode) -> bool
    requires lock { l.0 < length plan.now.locks }
    requires mutex { lock_kind plan.now l.0 ≡ Kind.Mtx → mode ≡ Mode.Excl }
    requires run { HasRun plan.now machine.now (λ r. Unit) }
    ensures { (r : Run) → IsRunOf plan.now machine.now r
        → result ≡ admits (lock_kind plan.now l.0) (r.state.word l.0) mode }
{
    admits(plan.lock_kind(l), word_at(machine, plan, l), mode)
}

// and whether its gain is plain then.
fn gains_plainly(machine: &Machine, plan: &Plan, l: LockNo, mode: Mode) -> bool
    requires lock { l.0 < length plan.now.locks }
    requires run { HasRun plan.now machine.now (λ r. Unit) }
    ensures { (r : Run) → IsRunOf plan.now machine.now r
        → result ≡ is_plain (lock_kind plan.now l.0) (r.state.word l.0) mode }
{
    is_plain(plan.lock_kind(l), word_at(machine, plan, l), mode)
}

// The word of a lock.
#[tactic(auto, using(crate::proofs::ActionsOfLocks::words))]
fn word_at(machine: &Machine, plan: &Plan, l: LockNo) -> u64
    requires lock { l.0 < length plan.now.locks }
    requires shows { HasState plan.now machine.now (λ s. Unit) }
    ensures word { (s : State) → Represents (config_of plan.now) machine.now s
        → word_of result ≡ s.word l.0 }
    ensures well_formed { IsWellFormed (word_of result) }
{
    machine.words[usize::from(l.0)]
}
