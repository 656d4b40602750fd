//! A release in the section of the lock's chain, as `__mtx_unlock_sleep` of FreeBSD's kern_mutex.c with
//! `turnstile_broadcast` of its subr_turnstile.c, and `_sx_xunlock_hard` and `_sx_sunlock_hard` of its kern_sx.c: those
//! who wait are taken off the lock's queue, a turnstile or the sleep queue of an sx lock. It never waits.
ghost use Rattle.std.specs.Prelude.{◌≡◌, ◌<◌, length, true, false, IfOk, IfErr};
ghost use Rattle.lock_model.specs.Words.{word_of, is_drop, is_turnstile};
ghost use Rattle.lock_model.specs.declared.plan.Kind.TheVariants.{Sx};
ghost use Rattle.floor_table.specs.Descriptions.{config_in};
ghost use Rattle.lock_floor.specs.declared.calls.ReleaseAt.TheVariants.{ComesTo, ComesIn, Frees};
ghost use Rattle.lock_floor.specs.Passes.{IsOf};
ghost use Rattle.lock_calls.specs.Releases.{IsReleasing, ReleasesOn};
ghost use Rattle.lock_calls.specs.Waiting.{MayLetGo, IsOwn, LetsGo, MissesOwn};

use crate::blocking::give_both;
use lock_floor::{Floor, Pass, ReleaseAt};
use lock_model::{Kind, LockNo, Mode, QueueName};

/// Takes the chain of a lock, if it is at home. Answers where the release stands then.
pub fn come_to(floor: &Floor, pass: &mut Pass, l: LockNo, mode: Mode) -> ReleaseAt
    requires own { IsOf floor.now pass.old }
    requires lock { l.0 < length floor.now.description.locks }
    requires there { IsReleasing floor.now.description l.0 mode ComesTo pass.old.view }
    ensures own { IsOf floor.now pass.new }
    ensures on { ReleasesOn floor.now.description l mode ComesTo result
        pass.old.view pass.new.view }
{
    if floor.try_take_chain(pass, QueueName::Lock(l)) {
        ReleaseAt::ComesIn
    } else {
        ReleaseAt::ComesTo
    }
}

/// With the chain out, takes the own record, if it is at home, and looks. Answers where the release stands then.
pub fn come_in(floor: &Floor, pass: &mut Pass, l: LockNo, mode: Mode) -> ReleaseAt
    requires own { IsOf floor.now pass.old }
    requires lock { l.0 < length floor.now.description.locks }
    requires there { IsReleasing floor.now.description l.0 mode ComesIn pass.old.view }
    ensures own { IsOf floor.now pass.new }
    ensures on { ReleasesOn floor.now.description l mode ComesIn result
        pass.old.view pass.new.view }
{
    let who = pass.thread();
    if !floor.try_take_rec(pass, who) {
        return ReleaseAt::ComesIn;
    }
    ReleaseAt::Frees(floor.look(pass, l))
}

/// Lets the lock go in that section, where its word is still the one that was seen, and gives the own record and
/// the chain back. Answers where the release stands then.
pub fn let_go(floor: &Floor, pass: &mut Pass, l: LockNo, mode: Mode, seen: u64) -> ReleaseAt
    requires own { IsOf floor.now pass.old }
    requires lock { l.0 < length floor.now.description.locks }
    requires there { IsReleasing floor.now.description l.0 mode (Frees seen) pass.old.view }
    ensures own { IsOf floor.now pass.new }
    ensures on { ReleasesOn floor.now.description l mode (Frees seen) result
        pass.old.view pass.new.view }
{
    match free(floor, pass, l, mode, seen) {
        Ok(()) => {
            give_both(floor, pass, l);
            ReleaseAt::Wakes
        }
        Err(found) => ReleaseAt::Frees(found),
    }
}

// Lets the lock go in that section, where its word is still the one that was seen. It is one exchange: an open where
// waiters are shown, or else a drop.
fn free(floor: &Floor, pass: &mut Pass, l: LockNo, mode: Mode, seen: u64) -> Result<(), u64>
    requires own { IsOf floor.now pass.old }
    requires lock { l.0 < length floor.now.description.locks }
    requires may { MayLetGo floor.now.description l.0 mode pass.old.view }
    requires seen { IsOwn pass.old.view.thread mode seen }
    ensures own { IsOf floor.now pass.new }
    ensures lets { IfOk result
        (λ _. LetsGo floor.now.description l.0 mode pass.old.view pass.new.view) }
    ensures missed { IfErr result
        (λ found. MissesOwn floor.now.description l.0 mode seen found
        pass.old.view pass.new.view) }
{
    if lock_words::is_drop(seen) {
        free_by_drop(floor, pass, l, mode, seen)
    } else {
        free_by_open(floor, pass, l, mode, seen)
    }
}

// The same where no waiters are shown.
fn free_by_drop(floor: &Floor, pass: &mut Pass, l: LockNo, mode: Mode, seen: u64) -> Result<(), u64>
    requires own { IsOf floor.now pass.old }
    requires lock { l.0 < length floor.now.description.locks }
    requires may { MayLetGo floor.now.description l.0 mode pass.old.view }
    requires seen { IsOwn pass.old.view.thread mode seen }
    requires drop { is_drop (word_of seen) ≡ true }
    ensures own { IsOf floor.now pass.new }
    ensures lets { IfOk result
        (λ _. LetsGo floor.now.description l.0 mode pass.old.view pass.new.view) }
    ensures missed { IfErr result
        (λ found. MissesOwn floor.now.description l.0 mode seen found
        pass.old.view pass.new.view) }
{
    match floor.put_down(pass, l, mode, seen) {
        Ok(()) => Ok(()),
        Err(found) => Err(found),
    }
}

// The same where waiters are shown, who are taken off.
fn free_by_open(floor: &Floor, pass: &mut Pass, l: LockNo, mode: Mode, seen: u64) -> Result<(), u64>
    requires own { IsOf floor.now pass.old }
    requires lock { l.0 < length floor.now.description.locks }
    requires may { MayLetGo floor.now.description l.0 mode pass.old.view }
    requires seen { IsOwn pass.old.view.thread mode seen }
    requires opens { is_drop (word_of seen) ≡ false }
    ensures own { IsOf floor.now pass.new }
    ensures lets { IfOk result
        (λ _. LetsGo floor.now.description l.0 mode pass.old.view pass.new.view) }
    ensures missed { IfErr result
        (λ found. MissesOwn floor.now.description l.0 mode seen found
        pass.old.view pass.new.view) }
{
    match floor.kind(l) {
        Kind::Mtx | Kind::Rw => open_turnstile(floor, pass, l, mode, seen),
        Kind::Sx => open_sleepers(floor, pass, l, mode, seen),
    }
}

// The same off a turnstile: what they lent goes home.
fn open_turnstile(
    floor: &Floor,
    pass: &mut Pass,
    l: LockNo,
    mode: Mode,
    seen: u64,
) -> Result<(), u64>
    requires own { IsOf floor.now pass.old }
    requires lock { l.0 < length floor.now.description.locks }
    requires turnstile { is_turnstile ((config_in floor.now.description).kind l.0) ≡ true }
    requires may { MayLetGo floor.now.description l.0 mode pass.old.view }
    requires seen { IsOwn pass.old.view.thread mode seen }
    requires opens { is_drop (word_of seen) ≡ false }
    ensures own { IsOf floor.now pass.new }
    ensures lets { IfOk result
        (λ _. LetsGo floor.now.description l.0 mode pass.old.view pass.new.view) }
    ensures missed { IfErr result
        (λ found. MissesOwn floor.now.description l.0 mode seen found
        pass.old.view pass.new.view) }
{
    match floor.open_up(pass, l, seen) {
        Ok(()) => Ok(()),
        Err(found) => Err(found),
    }
}

// The same off the sleep queue of an sx lock.
fn open_sleepers(
    floor: &Floor,
    pass: &mut Pass,
    l: LockNo,
    mode: Mode,
    seen: u64,
) -> Result<(), u64>
    requires own { IsOf floor.now pass.old }
    requires lock { l.0 < length floor.now.description.locks }
    requires sleeps { (config_in floor.now.description).kind l.0 ≡ Sx }
    requires may { MayLetGo floor.now.description l.0 mode pass.old.view }
    requires seen { IsOwn pass.old.view.thread mode seen }
    requires opens { is_drop (word_of seen) ≡ false }
    ensures own { IsOf floor.now pass.new }
    ensures lets { IfOk result
        (λ _. LetsGo floor.now.description l.0 mode pass.old.view pass.new.view) }
    ensures missed { IfErr result
        (λ found. MissesOwn floor.now.description l.0 mode seen found
        pass.old.view pass.new.view) }
{
    match floor.open_sleep(pass, l, seen) {
        Ok(()) => Ok(()),
        Err(found) => Err(found),
    }
}
