//! A take in the section of the lock's chain, as the end of `__mtx_lock_sleep` in FreeBSD's kern_mutex.c with the begin
//! of `turnstile_wait` of its subr_turnstile.c, `__rw_wlock_hard` and `__rw_rlock_hard` of its kern_rwlock.c, and
//! `_sx_xlock_hard` and `_sx_slock_hard` of its kern_sx.c: it gains the lock there where its word admits that, or else
//! it comes to stand on the lock's queue. That is a turnstile, or the sleep queue of an sx lock. It never waits.
ghost use Rattle.std.specs.Prelude.{◌≡◌, ◌⊎◌, ◌<◌, length, true, false, IfNone, IfSome, IfOk, IfErr};
ghost use Rattle.lock_model.specs.Words.{word_of, is_turnstile};
ghost use Rattle.lock_model.specs.declared.plan.Kind.TheVariants.{Sx};
ghost use Rattle.lock_model.specs.declared.plan.QueueName.{QueueName as Queue};
ghost use Rattle.lock_objects.specs.Represents.{walk_of};
ghost use Rattle.lock_state.specs.Steps.Items.{is_bound};
ghost use Rattle.lock_laws.specs.Words.{CanBeSeen};
ghost use Rattle.floor_table.specs.Descriptions.{config_in};
ghost use Rattle.floor_table.specs.Steps.{MakesEach};
ghost use Rattle.floor_table.specs.Views.{Runs, StandsOn, seeing};
ghost use Rattle.lock_floor.specs.declared.calls.TakeAt.TheVariants.{ComesIn, Contends};
ghost use Rattle.lock_floor.specs.Passes.{IsOf, IsGoing};
ghost use Rattle.lock_calls.specs.Choices.{course};
ghost use Rattle.lock_calls.specs.Sections.{HasRecordAndChain};
ghost use Rattle.lock_calls.specs.declared.courses.Course.TheVariants.{Plainly, ByClaim, MustWait};
ghost use Rattle.lock_calls.specs.Steps.{IsCovered, gives_both};
ghost use Rattle.lock_calls.specs.Takes.{IsUnderAcquiring, TakeEnd, TakesOn};
ghost use Rattle.lock_calls.specs.Waiting.{kept_of, CanAcquire, HasGained, IsThere, Saw, GainsStep, EntersStep, MissesThere, with_none_out};

use crate::courses::{Course, course_of};
use lock_floor::{Floor, Pass, TakeAt};
use lock_model::{Held, Kind, LockNo, Mode, QueueName};
use prio_lending::Walk;

/// Comes to the section with the lock's chain out: takes the own record, if it is at home, is ready for the queue, and
/// looks. Answers where it stands then.
pub fn come_in(floor: &Floor, pass: &mut Pass, l: LockNo, mode: Mode) -> TakeAt
    requires own { IsOf floor.now pass.old }
    requires one_chain { floor.now.description.chains ≡ 1 }
    requires under_way { IsUnderAcquiring floor.now.description l mode ComesIn pass.old.view }
    ensures own { IsOf floor.now pass.new }
    ensures on { TakesOn floor.now.description l mode ComesIn result pass.old.view pass.new.view }
{
    let who = pass.thread();
    if !floor.try_take_rec(pass, who) {
        return TakeAt::ComesIn;
    }
    floor.ready(pass, QueueName::Lock(l), true);
    TakeAt::Contends(floor.look(pass, l))
}

/// Contends for the lock in that section, where it saw this word last: it gains it (`None`), or comes to stand on its
/// queue, or its exchange misses. Else it answers where it stands then.
pub fn contend(floor: &Floor, pass: &mut Pass, l: LockNo, mode: Mode, seen: u64) -> Option<TakeAt>
    requires own { IsOf floor.now pass.old }
    requires one_chain { floor.now.description.chains ≡ 1 }
    requires under_way { IsUnderAcquiring floor.now.description l mode (Contends seen) pass.old.view }
    ensures own { IsOf floor.now pass.new }
    ensures gained { IfNone result (HasGained l mode pass.old.view pass.new.view) }
    ensures end { IfNone result
        (TakeEnd floor.now.description l mode (Contends seen) pass.old.view pass.new.view) }
    ensures on { IfSome result (λ to. TakesOn floor.now.description l mode (Contends seen) to
        pass.old.view pass.new.view) }
{
    match attempt_there(floor, pass, l, mode, seen) {
        Ok(None) => {
            floor.ready(pass, QueueName::Lock(l), false);
            give_both(floor, pass, l);
            None
        }
        Ok(Some(walk)) => {
            give_both(floor, pass, l);
            Some(TakeAt::Walks(walk))
        }
        Err(found) => Some(TakeAt::Contends(found)),
    }
}

// One exchange in that section, from the word that was seen there last: a gain where that admits the mode (`None`),
// plainly or by a claim, or else an enter. `Err` has the word that stands there, where it is another.
fn attempt_there(
    floor: &Floor,
    pass: &mut Pass,
    l: LockNo,
    mode: Mode,
    seen: u64,
) -> Result<Option<Walk>, u64>
    requires own { IsOf floor.now pass.old }
    requires covered { IsCovered floor.now.description l.0 mode }
    requires there { IsThere floor.now.description l.0 pass.old.view }
    requires calling { CanAcquire floor.now.description (kept_of pass.old.view) }
    requires saw { Saw l.0 (word_of seen) pass.old.view }
    requires seen_so { CanBeSeen ((config_in floor.now.description).kind l.0) (word_of seen) }
    ensures own { IsOf floor.now pass.new }
    ensures gained { IfOk result (λ settled. IfNone settled
        (GainsStep floor.now.description l mode pass.old.view pass.new.view)) }
    ensures entered { IfOk result (λ settled. IfSome settled (λ walk.
        EntersStep floor.now.description l.0 mode (walk_of walk) pass.old.view pass.new.view)) }
    ensures missed { IfErr result
        (λ found. MissesThere floor.now.description l.0 seen found pass.old.view pass.new.view) }
{
    match course_of(floor.kind(l), seen, mode) {
        Course::Plainly => gain_there(floor, pass, l, mode, seen),
        Course::ByClaim => claim_there(floor, pass, l, mode, seen),
        Course::MustWait => enter_there(floor, pass, l, mode, seen),
    }
}

// A gain from a word that admits the mode plainly.
fn gain_there(
    floor: &Floor,
    pass: &mut Pass,
    l: LockNo,
    mode: Mode,
    seen: u64,
) -> Result<Option<Walk>, u64>
    requires own { IsOf floor.now pass.old }
    requires covered { IsCovered floor.now.description l.0 mode }
    requires there { IsThere floor.now.description l.0 pass.old.view }
    requires calling { CanAcquire floor.now.description (kept_of pass.old.view) }
    requires saw { Saw l.0 (word_of seen) pass.old.view }
    requires seen_so { CanBeSeen ((config_in floor.now.description).kind l.0) (word_of seen) }
    requires course { course ((config_in floor.now.description).kind l.0) (word_of seen) mode
        ≡ Plainly }
    ensures own { IsOf floor.now pass.new }
    ensures gained { IfOk result (λ settled. IfNone settled
        (GainsStep floor.now.description l mode pass.old.view pass.new.view)) }
    ensures entered { IfOk result (λ settled. IfSome settled (λ walk.
        EntersStep floor.now.description l.0 mode (walk_of walk) pass.old.view pass.new.view)) }
    ensures missed { IfErr result
        (λ found. MissesThere floor.now.description l.0 seen found pass.old.view pass.new.view) }
{
    let hold = Held {
        l,
        mode,
        by_try: false,
    };
    match floor.gain(pass, hold, seen) {
        Ok(()) => Ok(None),
        Err(found) => Err(found),
    }
}

// A claim, from the free word of a reader-writer lock that shows waiters.
fn claim_there(
    floor: &Floor,
    pass: &mut Pass,
    l: LockNo,
    mode: Mode,
    seen: u64,
) -> Result<Option<Walk>, u64>
    requires own { IsOf floor.now pass.old }
    requires covered { IsCovered floor.now.description l.0 mode }
    requires there { IsThere floor.now.description l.0 pass.old.view }
    requires calling { CanAcquire floor.now.description (kept_of pass.old.view) }
    requires saw { Saw l.0 (word_of seen) pass.old.view }
    requires seen_so { CanBeSeen ((config_in floor.now.description).kind l.0) (word_of seen) }
    requires course { course ((config_in floor.now.description).kind l.0) (word_of seen) mode
        ≡ ByClaim }
    ensures own { IsOf floor.now pass.new }
    ensures gained { IfOk result (λ settled. IfNone settled
        (GainsStep floor.now.description l mode pass.old.view pass.new.view)) }
    ensures entered { IfOk result (λ settled. IfSome settled (λ walk.
        EntersStep floor.now.description l.0 mode (walk_of walk) pass.old.view pass.new.view)) }
    ensures missed { IfErr result
        (λ found. MissesThere floor.now.description l.0 seen found pass.old.view pass.new.view) }
{
    match floor.claim(pass, l, false, seen) {
        Ok(()) => Ok(None),
        Err(found) => Err(found),
    }
}

// An enter from a word that doesn't admit the mode, on the queue that a lock of its kind has.
fn enter_there(
    floor: &Floor,
    pass: &mut Pass,
    l: LockNo,
    mode: Mode,
    seen: u64,
) -> Result<Option<Walk>, u64>
    requires own { IsOf floor.now pass.old }
    requires covered { IsCovered floor.now.description l.0 mode }
    requires there { IsThere floor.now.description l.0 pass.old.view }
    requires calling { CanAcquire floor.now.description (kept_of pass.old.view) }
    requires saw { Saw l.0 (word_of seen) pass.old.view }
    requires seen_so { CanBeSeen ((config_in floor.now.description).kind l.0) (word_of seen) }
    requires course { course ((config_in floor.now.description).kind l.0) (word_of seen) mode
        ≡ MustWait }
    ensures own { IsOf floor.now pass.new }
    ensures gained { IfOk result (λ settled. IfNone settled
        (GainsStep floor.now.description l mode pass.old.view pass.new.view)) }
    ensures entered { IfOk result (λ settled. IfSome settled (λ walk.
        EntersStep floor.now.description l.0 mode (walk_of walk) pass.old.view pass.new.view)) }
    ensures missed { IfErr result
        (λ found. MissesThere floor.now.description l.0 seen found pass.old.view pass.new.view) }
{
    match floor.kind(l) {
        Kind::Mtx | Kind::Rw => stand_there(floor, pass, l, mode, seen),
        Kind::Sx => lie_there(floor, pass, l, mode, seen),
    }
}

// The same on a turnstile: a walk begins where the lock has an owner.
fn stand_there(
    floor: &Floor,
    pass: &mut Pass,
    l: LockNo,
    mode: Mode,
    seen: u64,
) -> Result<Option<Walk>, u64>
    requires own { IsOf floor.now pass.old }
    requires covered { IsCovered floor.now.description l.0 mode }
    requires turnstile { is_turnstile ((config_in floor.now.description).kind l.0) ≡ true }
    requires there { IsThere floor.now.description l.0 pass.old.view }
    requires calling { CanAcquire floor.now.description (kept_of pass.old.view) }
    requires saw { Saw l.0 (word_of seen) pass.old.view }
    requires seen_so { CanBeSeen ((config_in floor.now.description).kind l.0) (word_of seen) }
    requires course { course ((config_in floor.now.description).kind l.0) (word_of seen) mode
        ≡ MustWait }
    ensures own { IsOf floor.now pass.new }
    ensures gained { IfOk result (λ settled. IfNone settled
        (GainsStep floor.now.description l mode pass.old.view pass.new.view)) }
    ensures entered { IfOk result (λ settled. IfSome settled (λ walk.
        EntersStep floor.now.description l.0 mode (walk_of walk) pass.old.view pass.new.view)) }
    ensures missed { IfErr result
        (λ found. MissesThere floor.now.description l.0 seen found pass.old.view pass.new.view) }
{
    match floor.enter(pass, l, mode, seen) {
        Ok(()) => match lock_words::owner_of(seen) {
            Some(_) => Ok(Some(Walk::AtLock(l))),
            None => Ok(Some(Walk::None)),
        },
        Err(found) => Err(found),
    }
}

// The same on the sleep queue of an sx lock: nothing is lent, and no walk begins.
fn lie_there(
    floor: &Floor,
    pass: &mut Pass,
    l: LockNo,
    mode: Mode,
    seen: u64,
) -> Result<Option<Walk>, u64>
    requires own { IsOf floor.now pass.old }
    requires covered { IsCovered floor.now.description l.0 mode }
    requires sleeps { (config_in floor.now.description).kind l.0 ≡ Sx }
    requires there { IsThere floor.now.description l.0 pass.old.view }
    requires calling { CanAcquire floor.now.description (kept_of pass.old.view) }
    requires saw { Saw l.0 (word_of seen) pass.old.view }
    requires seen_so { CanBeSeen ((config_in floor.now.description).kind l.0) (word_of seen) }
    requires course { course ((config_in floor.now.description).kind l.0) (word_of seen) mode
        ≡ MustWait }
    ensures own { IsOf floor.now pass.new }
    ensures gained { IfOk result (λ settled. IfNone settled
        (GainsStep floor.now.description l mode pass.old.view pass.new.view)) }
    ensures entered { IfOk result (λ settled. IfSome settled (λ walk.
        EntersStep floor.now.description l.0 mode (walk_of walk) pass.old.view pass.new.view)) }
    ensures missed { IfErr result
        (λ found. MissesThere floor.now.description l.0 seen found pass.old.view pass.new.view) }
{
    match floor.enter_sleep(pass, l, mode, seen) {
        Ok(()) => Ok(Some(Walk::None)),
        Err(found) => Err(found),
    }
}

/// Gives the own record back, which was taken last, and then the lock's chain.
pub fn give_both(floor: &Floor, pass: &mut Pass, l: LockNo)
    requires own { IsOf floor.now pass.old }
    requires lock { l.0 < length floor.now.description.locks }
    requires both { HasRecordAndChain floor.now.description l.0 pass.old.view }
    requires settled { (pass.old.view.pose ≡ Runs)
        ⊎ ((q : Queue) × (pass.old.view.pose ≡ StandsOn q)) }
    requires unbound { is_bound pass.old.view.share.doing.round ≡ false }
    requires going { IsGoing pass.old.view }
    ensures own { IsOf floor.now pass.new }
    ensures view { pass.new.view ≡ seeing pass.new.view.seen (with_none_out pass.old.view) }
    ensures steps { MakesEach floor.now.description
        (gives_both floor.now.description pass.old.view.thread l.0)
        pass.old.view pass.new.view }
{
    let who = pass.thread();
    floor.give_rec(pass, who);
    floor.give_chain(pass, QueueName::Lock(l));
}
