//! A try of a lock in a mode, part by part. As `__rw_try_rlock_int` of FreeBSD's kern_rwlock.c does
//! it, a word that changed and still admits the mode is tried again; and a free word that shows
//! waiters is claimed under the lock's chain, as `__rw_wlock_hard` does it. A try ends with the
//! lock, or with a word that doesn't admit the mode. It never sleeps, and no part of it waits.
ghost use Rattle.std.specs.Prelude.{ℕ, ◌≡◌, ◌≤◌, true, IfNone, IfSome, IfOk, IfErr};
ghost use Rattle.lock_model.specs.Words.{word_of, IsWellFormed, admits};
ghost use Rattle.lock_model.specs.declared.numbers.LockNo.{LockNo as Lock};
ghost use Rattle.lock_model.specs.declared.plan.Kind.TheVariants as kinds;
ghost use Rattle.lock_model.specs.declared.plan.Mode.{Mode as InMode};
ghost use Rattle.lock_model.specs.declared.plan.Mode.TheVariants.{Excl};
ghost use Rattle.floor_table.specs.Descriptions.{config_in};
ghost use Rattle.lock_floor.specs.declared.calls.Call.TheVariants as calls;
ghost use Rattle.lock_floor.specs.declared.calls.TryAt.TheVariants.{Tries, ComesIn, Decides};
ghost use Rattle.lock_floor.specs.declared.calls.TryAt.{TryAt as Place};
ghost use Rattle.lock_floor.specs.Passes.{IsOf, IsReady};
ghost use Rattle.lock_calls.specs.Choices.{course};
ghost use Rattle.lock_calls.specs.Steps.{IsCovered, MayTake};
ghost use Rattle.lock_calls.specs.Rounds.{LooksOn, HasSeen};
ghost use Rattle.lock_calls.specs.Tries.{as_tried, tries_left, SeeksByTry, IsDeciding, IsUnderTry, IsInTry, HasTried, HasFoundBusy, GainsAt, FindsBusyAt, GainsThere, TriesOn, HasBegunTry, GoesOnTrying};
ghost use Rattle.lock_calls.specs.Waiting.{kept_of, IsCalling, HasSpun, SpinsThenGains, MissesThere};

use crate::blocking::give_both;
use crate::courses::{Course, course_of};
use crate::spinning::FREE;
use lock_floor::{Call, Floor, Pass, TryAt};
use lock_model::{Event, Held, Kind, LockNo, Mode, QueueName};

/// What comes of a part of a try.
#[derive(Clone, Copy, Debug, PartialEq, Eq)]
pub enum TryNext {
    /// The lock was gained. That is noted, and the pass is at rest.
    Gained,
    /// The lock's word was that one, which doesn't admit the mode. That is noted, and the pass is
    /// at rest.
    Busy(u64),
    /// Nothing yet: go on with the try, maybe after a pause.
    Again,
}

/// How often a try looks before it takes the lock's chain, its first exchange among these. Where it
/// sees that it can it tries, and an exchange that misses is a look as well: so it makes at most
/// 100 looks before.
const LOOKS: u32 = 50;

/// Begins a try of a lock in a mode, which the lock may have. It makes one exchange: `Gained` comes where that gained
/// the lock, `Busy` where it found a word that doesn't admit the mode, and `Again` where the word that it found admits
/// the mode: others read, or another thread came and went.
pub fn begin_try(floor: &Floor, pass: &mut Pass, l: LockNo, mode: Mode) -> TryNext
    requires ready { IsReady floor.now pass.old }
    requires may { MayTake floor.now.description l.0 mode pass.old.view }
    ensures own { IsOf floor.now pass.new }
    ensures begun { HasBegunTry floor.now.description l mode result pass.old pass.new }
{
    let hold = Held {
        l,
        mode,
        by_try: true,
    };
    match floor.seek_gain(pass, hold, FREE) {
        Ok(()) => {
            floor.stamp(pass, Event::Tried { l, mode });
            pass.set_call(Call::None);
            TryNext::Gained
        }
        Err(found) => match looks_left(floor.kind(l), found, mode, LOOKS) {
            Some(left) => {
                pass.set_call(Call::Try {
                    l,
                    mode,
                    at: TryAt::Tries(left),
                });
                TryNext::Again
            }
            None => {
                floor.stamp(pass, Event::Busy { l, seen: found });
                pass.set_call(Call::None);
                TryNext::Busy(found)
            }
        },
    }
}

/// Goes on with the try that the pass is in the middle of. In its round it looks, and tries where
/// it sees that it can gain the lock plainly, at most 100 times in all. Then, or where it can gain
/// the lock by a claim alone, it takes the lock's chain and its own record, looks there, and gains
/// the lock, plainly or by a claim. `Busy` comes only where a look saw a word that doesn't admit
/// the mode.
pub fn go_on_trying(floor: &Floor, pass: &mut Pass) -> TryNext
    requires own { IsOf floor.now pass.old }
    requires under_way { IsInTry floor.now.description pass.old }
    ensures own { IsOf floor.now pass.new }
    ensures went { (l : Lock) (mode : InMode) (at : Place) → pass.old.call ≡ calls.Try l mode at
        → GoesOnTrying floor.now.description l mode at result pass.old pass.new }
{
    match pass.call() {
        Call::Try { l, mode, at } => go_on(floor, pass, l, mode, at),
        Call::None | Call::Take { .. } | Call::Release { .. } => unreachable!(),
    }
}

// Goes on with a try of that lock, which stands there.
fn go_on(floor: &Floor, pass: &mut Pass, l: LockNo, mode: Mode, at: TryAt) -> TryNext
    requires own { IsOf floor.now pass.old }
    requires under_way { IsUnderTry floor.now.description l mode at pass.old.view }
    ensures own { IsOf floor.now pass.new }
    ensures went { GoesOnTrying floor.now.description l mode at result pass.old pass.new }
{
    match go_on_at(floor, pass, l, mode, at) {
        Ok(Some(to)) => {
            pass.set_call(Call::Try { l, mode, at: to });
            TryNext::Again
        }
        Ok(None) => {
            pass.set_call(Call::None);
            TryNext::Gained
        }
        Err(seen) => {
            pass.set_call(Call::None);
            TryNext::Busy(seen)
        }
    }
}

// From a place of the try on. Answers where the try stands then: nowhere, if the lock was gained.
// `Err` has the word of a busy lock.
fn go_on_at(
    floor: &Floor,
    pass: &mut Pass,
    l: LockNo,
    mode: Mode,
    at: TryAt,
) -> Result<Option<TryAt>, u64>
    requires own { IsOf floor.now pass.old }
    requires under_way { IsUnderTry floor.now.description l mode at pass.old.view }
    ensures own { IsOf floor.now pass.new }
    ensures tried { IfOk result (λ to. IfNone to
        (HasTried floor.now.description l mode pass.old.view pass.new.view)) }
    ensures gains { IfOk result (λ to. IfNone to
        (GainsAt floor.now.description l mode at pass.old.view pass.new.view)) }
    ensures on { IfOk result (λ to. IfSome to
        (λ next. TriesOn floor.now.description l mode at next pass.old.view pass.new.view)) }
    ensures busy { IfErr result
        (λ seen. HasFoundBusy floor.now.description l mode seen pass.old.view pass.new.view) }
    ensures finds { IfErr result
        (λ seen. FindsBusyAt floor.now.description l mode seen at pass.old.view pass.new.view) }
{
    match at {
        TryAt::Tries(left) => {
            if left == 0 {
                Ok(Some(come(floor, pass, l, mode)))
            } else {
                try_in_round(floor, pass, l, mode, left)
            }
        }
        TryAt::ComesIn => Ok(Some(come_in(floor, pass, l, mode))),
        TryAt::Decides(seen) => decide(floor, pass, l, mode, seen),
    }
}

// Looks at the lock in the try's round, where it may do so so many times more, and tries where it
// sees that it can gain the lock plainly.
fn try_in_round(
    floor: &Floor,
    pass: &mut Pass,
    l: LockNo,
    mode: Mode,
    left: u32,
) -> Result<Option<TryAt>, u64>
    requires own { IsOf floor.now pass.old }
    requires some_left { 1 ≤ left }
    requires under_way { IsUnderTry floor.now.description l mode (Tries left) pass.old.view }
    ensures own { IsOf floor.now pass.new }
    ensures tried { IfOk result (λ to. IfNone to
        (HasTried floor.now.description l mode pass.old.view pass.new.view)) }
    ensures gains { IfOk result (λ to. IfNone to
        (GainsAt floor.now.description l mode (Tries left) pass.old.view pass.new.view)) }
    ensures on { IfOk result (λ to. IfSome to (λ next.
        TriesOn floor.now.description l mode (Tries left) next pass.old.view pass.new.view)) }
    ensures busy { IfErr result
        (λ seen. HasFoundBusy floor.now.description l mode seen pass.old.view pass.new.view) }
    ensures finds { IfErr result
        (λ seen. FindsBusyAt floor.now.description l mode seen (Tries left)
        pass.old.view pass.new.view) }
{
    match attempt(floor, pass, l, mode) {
        Ok(()) => {
            floor.stamp(pass, Event::Tried { l, mode });
            Ok(None)
        }
        Err(seen) => match looks_left(floor.kind(l), seen, mode, left) {
            Some(rest) => Ok(Some(TryAt::Tries(rest))),
            None => {
                floor.stamp(pass, Event::Busy { l, seen });
                Err(seen)
            }
        },
    }
}

// Looks at the lock in the try's round, and tries where the word admits the mode plainly. `Err` has
// the word that it saw last.
fn attempt(floor: &Floor, pass: &mut Pass, l: LockNo, mode: Mode) -> Result<(), u64>
    requires own { IsOf floor.now pass.old }
    requires covered { IsCovered floor.now.description l.0 mode }
    requires calling { IsCalling floor.now.description (kept_of pass.old.view) }
    requires may { SeeksByTry l.0 pass.old.view }
    requires room { pass.old.view.share.doing.looks ≤ 98 }
    ensures own { IsOf floor.now pass.new }
    ensures gained { IfOk result (λ _. SpinsThenGains floor.now.description (as_tried l mode) 1
        pass.old.view pass.new.view) }
    ensures word { IfErr result (λ seen. IsWellFormed (word_of seen)) }
    ensures seen { IfErr result (λ seen. HasSeen l.0 (word_of seen) pass.new.view) }
    ensures spun { IfErr result (λ seen. (n : ℕ)
        × LooksOn floor.now.description l.0 mode n (word_of seen) pass.old.view pass.new.view
        × HasSpun floor.now.description l.0 n pass.old.view pass.new.view) }
    ensures looked { IfErr result (λ _. pass.old.view.share.doing.looks_in_all
        ≤ pass.new.view.share.doing.looks_in_all) }
{
    let seen = floor.look(pass, l);
    match course_of(floor.kind(l), seen, mode) {
        Course::Plainly => {
            let hold = Held {
                l,
                mode,
                by_try: true,
            };
            match floor.gain(pass, hold, seen) {
                Ok(()) => Ok(()),
                Err(found) => Err(found),
            }
        }
        Course::ByClaim | Course::MustWait => Err(seen),
    }
}

// How many looks a try has left behind one that saw the word, of so many: none, where it can gain
// the lock by a claim alone. `None` comes exactly where the word doesn't admit the mode.
fn looks_left(kind: Kind, seen: u64, mode: Mode, left: u32) -> Option<u32>
    requires well_formed { IsWellFormed (word_of seen) }
    requires mutex { kind ≡ kinds.Mtx → mode ≡ Excl }
    requires some_left { 1 ≤ left }
    ensures { result ≡ tries_left (course kind (word_of seen) mode) left }
{
    match course_of(kind, seen, mode) {
        Course::Plainly => Some(left - 1),
        Course::ByClaim => Some(0),
        Course::MustWait => None,
    }
}

// Takes the lock's chain in the try's round, if it is at home. Answers where the try stands then.
fn come(floor: &Floor, pass: &mut Pass, l: LockNo, mode: Mode) -> TryAt
    requires own { IsOf floor.now pass.old }
    requires under_way { IsUnderTry floor.now.description l mode (Tries 0) pass.old.view }
    ensures own { IsOf floor.now pass.new }
    ensures on { TriesOn floor.now.description l mode (Tries 0) result pass.old.view pass.new.view }
{
    if floor.try_take_chain(pass, QueueName::Lock(l)) {
        TryAt::ComesIn
    } else {
        TryAt::Tries(0)
    }
}

// With the lock's chain out, takes the own record, if it is at home, and looks. Answers where the
// try stands then.
fn come_in(floor: &Floor, pass: &mut Pass, l: LockNo, mode: Mode) -> TryAt
    requires own { IsOf floor.now pass.old }
    requires under_way { IsUnderTry floor.now.description l mode ComesIn pass.old.view }
    ensures own { IsOf floor.now pass.new }
    ensures on { TriesOn floor.now.description l mode ComesIn result pass.old.view pass.new.view }
{
    let who = pass.thread();
    if !floor.try_take_rec(pass, who) {
        return TryAt::ComesIn;
    }
    TryAt::Decides(floor.look(pass, l))
}

// Decides the try in the section of the lock's chain, where it saw this word last: it gains the
// lock, or finds it busy, or its exchange misses. Behind the first two it gives back what it has
// out, and notes what it found.
fn decide(
    floor: &Floor,
    pass: &mut Pass,
    l: LockNo,
    mode: Mode,
    seen: u64,
) -> Result<Option<TryAt>, u64>
    requires own { IsOf floor.now pass.old }
    requires under_way { IsUnderTry floor.now.description l mode (Decides seen) pass.old.view }
    ensures own { IsOf floor.now pass.new }
    ensures tried { IfOk result (λ to. IfNone to
        (HasTried floor.now.description l mode pass.old.view pass.new.view)) }
    ensures gains { IfOk result (λ to. IfNone to
        (GainsAt floor.now.description l mode (Decides seen) pass.old.view pass.new.view)) }
    ensures on { IfOk result (λ to. IfSome to (λ next.
        TriesOn floor.now.description l mode (Decides seen) next pass.old.view pass.new.view)) }
    ensures busy { IfErr result
        (λ word. HasFoundBusy floor.now.description l mode word pass.old.view pass.new.view) }
    ensures finds { IfErr result (λ word.
        FindsBusyAt floor.now.description l mode word (Decides seen) pass.old.view pass.new.view) }
{
    match course_of(floor.kind(l), seen, mode) {
        Course::Plainly | Course::ByClaim => match gain_there(floor, pass, l, mode, seen) {
            Ok(()) => {
                give_both(floor, pass, l);
                floor.stamp(pass, Event::Tried { l, mode });
                Ok(None)
            }
            Err(found) => Ok(Some(TryAt::Decides(found))),
        },
        Course::MustWait => {
            give_both(floor, pass, l);
            floor.stamp(pass, Event::Busy { l, seen });
            Err(seen)
        }
    }
}

// Gains the lock in that section from a word that admits the mode: plainly, or else by a claim.
// `Err` has the word that stands there, where it is another.
fn gain_there(floor: &Floor, pass: &mut Pass, l: LockNo, mode: Mode, seen: u64) -> Result<(), u64>
    requires own { IsOf floor.now pass.old }
    requires covered { IsCovered floor.now.description l.0 mode }
    requires calling { IsCalling floor.now.description (kept_of pass.old.view) }
    requires deciding { IsDeciding floor.now.description l.0 seen pass.old.view }
    requires admitted { admits ((config_in floor.now.description).kind l.0) (word_of seen) mode
        ≡ true }
    ensures own { IsOf floor.now pass.new }
    ensures gained { IfOk result
        (λ _. GainsThere floor.now.description l mode pass.old.view pass.new.view) }
    ensures missed { IfErr result
        (λ found. MissesThere floor.now.description l.0 seen found pass.old.view pass.new.view) }
{
    if lock_words::is_plain(floor.kind(l), seen, mode) {
        let hold = Held {
            l,
            mode,
            by_try: true,
        };
        match floor.gain(pass, hold, seen) {
            Ok(()) => Ok(()),
            Err(found) => Err(found),
        }
    } else {
        match floor.claim(pass, l, true, seen) {
            Ok(()) => Ok(()),
            Err(found) => Err(found),
        }
    }
}
