//! A take before it has the lock's chain, as the exchange of `__mtx_lock_flags` and the spinning at the head of
//! `__mtx_lock_sleep` in FreeBSD's kern_mutex.c: it makes one exchange where it holds nothing, or two of a lock that
//! can be shared, and behind the check of its lock's order it looks in an acquiring round, and tries again where it
//! sees that the lock can be gained; in the end it takes the chain. It never waits.
ghost use Rattle.std.specs.Prelude.{ℕ, ◌≡◌, ◌≢◌, ◌≤◌, ◌+◌, ⊤, [], ◌∷◌, true, false, IfNone, IfSome, IfOk, IfErr};
ghost use Rattle.lock_model.specs.Words.{word_of, IsWellFormed};
ghost use Rattle.lock_model.specs.declared.event.Event.TheVariants as event;
ghost use Rattle.lock_model.specs.declared.plan.Kind.TheVariants as kinds;
ghost use Rattle.lock_model.specs.declared.plan.Mode.TheVariants.{Excl};
ghost use Rattle.lock_state.specs.Steps.{Stamps};
ghost use Rattle.floor_table.specs.Descriptions.{config_in};
ghost use Rattle.floor_table.specs.Steps.{MayMake, Makes};
ghost use Rattle.floor_table.specs.Views.{seeing};
ghost use Rattle.lock_floor.specs.declared.calls.TakeAt.TheVariants.{Spins};
ghost use Rattle.lock_floor.specs.Passes.{IsOf};
ghost use Rattle.lock_floor.specs.Views.{entry_by, stamped};
ghost use Rattle.lock_calls.specs.Choices.{course};
ghost use Rattle.lock_calls.specs.declared.courses.Course.TheVariants.{Plainly};
ghost use Rattle.lock_calls.specs.Steps.{IsCovered, as_taken};
ghost use Rattle.lock_calls.specs.Rounds.{AsksOwner, LooksOn};
ghost use Rattle.lock_calls.specs.Takes.{IsUnderAcquiring, LeavesLooks, TakeEnd, TakesOn};
ghost use Rattle.lock_calls.specs.Waiting.{MayGain, IsSeeking, HasGained, HasGainedFirst, HasMissed, HasSpun, SpinsThenGains};

use crate::courses::{Course, course_of};
use lock_floor::{Floor, Pass, TakeAt};
use lock_model::{Event, Held, Kind, LockNo, Mode, QueueName};

/// The word of a lock that nobody holds or waits for.
pub const FREE: u64 = 0;

/// How often a thread looks after the first look of its round, or behind a sleep. Where it sees that it can it tries,
/// and an exchange that misses is a look as well: so from the begin or a sleep to the taking of the chain a take makes
/// at most 100 looks, with its first exchanges before the round, which are two at most.
pub const LOOKS: u32 = 48;

/// Gains a lock by an exchange from the free word, where the thread holds no lock; or, of a lock that can be shared, by
/// a second one, from the word that the first found, where that admits the mode plainly: as a reader does where others
/// read. `false` comes only where the thread holds a lock, or its exchanges missed: then they were looks. The lock's
/// order is to be checked then.
pub fn begin(floor: &Floor, pass: &mut Pass, l: LockNo, mode: Mode) -> bool
    requires own { IsOf floor.now pass.old }
    requires covered { IsCovered floor.now.description l.0 mode }
    requires may { MayGain floor.now.description l.0 pass.old.view }
    ensures own { IsOf floor.now pass.new }
    ensures gained { result ≡ true
        → HasGainedFirst floor.now.description l mode pass.old.view pass.new.view }
    ensures bare { result ≡ true → pass.old.view.share.held ≡ [] }
    ensures missed { result ≡ false
        → HasMissed floor.now.description l.0 mode pass.old.view pass.new.view }
{
    if !pass.held().is_empty() {
        return false;
    }
    match floor.gain_first(pass, l, mode, FREE) {
        Ok(()) => true,
        Err(found) => {
            if !exchanges_again(floor.kind(l), found, mode) {
                return false;
            }
            match floor.gain_first(pass, l, mode, found) {
                Ok(()) => true,
                Err(_) => false,
            }
        }
    }
}

// Whether a take whose first exchange found that word makes a second one: of a lock that can be shared, where the word
// admits the mode plainly.
fn exchanges_again(kind: Kind, found: u64, mode: Mode) -> bool
    requires well_formed { IsWellFormed (word_of found) }
    requires mutex { kind ≡ kinds.Mtx → mode ≡ Excl }
    ensures again { result ≡ true
        → (kind ≢ kinds.Mtx) × (course kind (word_of found) mode ≡ Plainly) }
    ensures enough { result ≡ false → kind ≢ kinds.Mtx
        → course kind (word_of found) mode ≢ Plainly }
{
    match kind {
        Kind::Mtx => false,
        Kind::Rw | Kind::Sx => match course_of(kind, found, mode) {
            Course::Plainly => true,
            Course::ByClaim | Course::MustWait => false,
        },
    }
}

/// Looks at a lock in a round of it, where it may do so so many times more, and tries where it sees that it can gain it
/// plainly (`None`: then it is gained). Else it answers where it stands then: some words it need not look at again.
pub fn spin(floor: &Floor, pass: &mut Pass, l: LockNo, mode: Mode, left: u32) -> Option<TakeAt>
    requires own { IsOf floor.now pass.old }
    requires some_left { 1 ≤ left }
    requires under_way { IsUnderAcquiring floor.now.description l mode (Spins left) pass.old.view }
    ensures own { IsOf floor.now pass.new }
    ensures gained { IfNone result (HasGained l mode pass.old.view pass.new.view) }
    ensures end { IfNone result
        (TakeEnd floor.now.description l mode (Spins left) pass.old.view pass.new.view) }
    ensures on { IfSome result (λ to. TakesOn floor.now.description l mode (Spins left) to
        pass.old.view pass.new.view) }
{
    match attempt(floor, pass, l, mode) {
        Ok(()) => None,
        Err(seen) => Some(TakeAt::Spins(looks_left(floor, pass, l, mode, seen, left))),
    }
}

/// Takes the lock's chain in its round, if it is at home. Answers where it stands then.
pub fn come(floor: &Floor, pass: &mut Pass, l: LockNo, mode: Mode) -> TakeAt
    requires own { IsOf floor.now pass.old }
    requires under_way { IsUnderAcquiring floor.now.description l mode (Spins 0) pass.old.view }
    ensures own { IsOf floor.now pass.new }
    ensures on { TakesOn floor.now.description l mode (Spins 0) result pass.old.view pass.new.view }
{
    if floor.try_take_chain(pass, QueueName::Lock(l)) {
        TakeAt::ComesIn
    } else {
        TakeAt::Spins(0)
    }
}

/// Notes that the lock was taken. Answers the ticket of the entry.
pub fn note_taken(floor: &Floor, pass: &mut Pass, l: LockNo, mode: Mode) -> u32
    requires own { IsOf floor.now pass.old }
    requires room { 1 ≤ pass.old.view.spare }
    requires may { MayMake floor.now.description pass.old.view (λ s. ⊤)
        (Stamps pass.old.view.thread (event.Locked l mode) ∷ []) }
    ensures own { IsOf floor.now pass.new }
    ensures view { pass.new.view ≡ seeing pass.new.view.seen
        (stamped (config_in floor.now.description) pass.old.view
        (entry_by pass.old.view.thread result (event.Locked l mode))) }
    ensures step { Makes floor.now.description
        (Stamps pass.old.view.thread (event.Locked l mode) ∷ []) pass.old.view pass.new.view }
{
    floor.stamp(pass, Event::Locked { l, mode })
}

// Looks at a lock in a round of it, and tries where the word admits the mode plainly. `Err` has the word that it saw
// last.
fn attempt(floor: &Floor, pass: &mut Pass, l: LockNo, mode: Mode) -> Result<(), u64>
    requires own { IsOf floor.now pass.old }
    requires covered { IsCovered floor.now.description l.0 mode }
    requires may { IsSeeking l.0 pass.old.view }
    requires room { pass.old.view.share.doing.looks ≤ 98 }
    ensures own { IsOf floor.now pass.new }
    ensures gained { IfOk result (λ _. SpinsThenGains floor.now.description (as_taken l mode) 1
        pass.old.view pass.new.view) }
    ensures word { IfErr result (λ seen. IsWellFormed (word_of seen)) }
    ensures spun { IfErr result (λ seen. (n : ℕ)
        × LooksOn floor.now.description l.0 mode n (word_of seen) pass.old.view pass.new.view
        × HasSpun floor.now.description l.0 n pass.old.view pass.new.view) }
{
    let seen = floor.look(pass, l);
    match course_of(floor.kind(l), seen, mode) {
        Course::Plainly => {
            let hold = Held {
                l,
                mode,
                by_try: false,
            };
            match floor.gain(pass, hold, seen) {
                Ok(()) => Ok(()),
                Err(found) => Err(found),
            }
        }
        Course::ByClaim | Course::MustWait => Err(seen),
    }
}

/// How many looks a thread has left behind one that saw the word, of so many. Where it can gain the lock by a claim
/// alone it looks no more, but goes to the lock's chain; nor does it where that is a mutex whose owner is queued, since
/// who stands on a queue himself won't release it soon.
pub fn looks_left(
    floor: &Floor,
    pass: &mut Pass,
    l: LockNo,
    mode: Mode,
    seen: u64,
    left: u32,
) -> u32
    requires own { IsOf floor.now pass.old }
    requires covered { IsCovered floor.now.description l.0 mode }
    requires word { IsWellFormed (word_of seen) }
    requires some_left { 1 ≤ left }
    ensures own { IsOf floor.now pass.new }
    ensures leaves { LeavesLooks floor.now.description
        ((config_in floor.now.description).kind l.0) mode (word_of seen) left result
        pass.old.view pass.new.view }
{
    let kind = floor.kind(l);
    match course_of(kind, seen, mode) {
        Course::ByClaim => 0,
        Course::Plainly | Course::MustWait => match kind {
            Kind::Mtx => {
                if owner_is_queued(floor, pass, seen) {
                    0
                } else {
                    left - 1
                }
            }
            Kind::Rw | Kind::Sx => left - 1,
        },
    }
}

// Finds out whether the owner that a word names is queued.
fn owner_is_queued(floor: &Floor, pass: &mut Pass, seen: u64) -> bool
    requires own { IsOf floor.now pass.old }
    requires word { IsWellFormed (word_of seen) }
    ensures own { IsOf floor.now pass.new }
    ensures asks { AsksOwner floor.now.description (word_of seen) result
        pass.old.view pass.new.view }
{
    match lock_words::owner_of(seen) {
        Some(owner) => floor.find_queued(pass, owner),
        None => false,
    }
}
