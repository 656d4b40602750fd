//! How a take has the order of its lock checked, as `__mtx_lock_flags` of FreeBSD's kern_mutex.c calls
//! `witness_checkorder` of its subr_witness.c. A thread that holds nothing made its first exchanges before that:
//! nothing can be refused it. It never waits.
ghost use Rattle.std.specs.Prelude.{IfNone, IfSome, IfOk, IfErr};
ghost use Rattle.lock_model.specs.Words.{word_of, IsWellFormed};
ghost use Rattle.lock_floor.specs.declared.calls.TakeAt.TheVariants.{Checks};
ghost use Rattle.lock_floor.specs.Passes.{IsOf};
ghost use Rattle.lock_calls.specs.Steps.{IsCovered, as_taken};
ghost use Rattle.lock_calls.specs.Takes.{IsUnderTake, TakeEnd, TakesOn, IsRefused};
ghost use Rattle.lock_calls.specs.Waiting.{MaySeek, GainsAtOnce, HasBegun, HasGained};

use crate::spinning::{FREE, LOOKS, looks_left};
use lock_floor::{Floor, Pass, TakeAt};
use lock_model::{Event, Held, LockNo, Mode, Reversal};

/// Has the order of a lock checked, if the class graph is at home. Where it is admitted, a round of the lock begins
/// by an exchange, which gains it (`None`: then that is still to be noted) or is the round's first look, behind which
/// it asks, of a mutex, whether the owner is queued. Else it answers where the take stands then: some words it need not
/// look at again. `Err` comes exactly where the class of a held lock forbids that of the lock: that is noted.
pub fn check(
    floor: &Floor,
    pass: &mut Pass,
    l: LockNo,
    mode: Mode,
) -> Result<Option<TakeAt>, Reversal>
    requires own { IsOf floor.now pass.old }
    requires under_way { IsUnderTake floor.now.description l mode Checks pass.old.view }
    ensures own { IsOf floor.now pass.new }
    ensures gained { IfOk result (λ to. IfNone to
        (HasGained l mode pass.old.view pass.new.view)) }
    ensures end { IfOk result (λ to. IfNone to
        (TakeEnd floor.now.description l mode Checks pass.old.view pass.new.view)) }
    ensures on { IfOk result (λ to. IfSome to
        (λ at. TakesOn floor.now.description l mode Checks at pass.old.view pass.new.view)) }
    ensures refused { IfErr result
        (λ r. IsRefused floor.now.description l r pass.old.view pass.new.view) }
{
    match floor.try_order(pass, l) {
        None => Ok(Some(TakeAt::Checks)),
        Some(Ok(())) => match seek(floor, pass, l, mode) {
            Ok(()) => Ok(None),
            Err(found) => {
                let left = looks_left(floor, pass, l, mode, found, LOOKS + 1);
                Ok(Some(TakeAt::Spins(left)))
            }
        },
        Some(Err(reversal)) => {
            floor.stamp(
                pass,
                Event::Reversed {
                    l,
                    held: reversal.held,
                },
            );
            Err(reversal)
        }
    }
}

// Begins a round of a lock, the order of which is checked, by an exchange. `Err` comes only where another thread was
// faster: then it was the first look of the round, and has the word that it saw.
fn seek(floor: &Floor, pass: &mut Pass, l: LockNo, mode: Mode) -> Result<(), u64>
    requires own { IsOf floor.now pass.old }
    requires covered { IsCovered floor.now.description l.0 mode }
    requires may { MaySeek l.0 pass.old.view }
    ensures own { IsOf floor.now pass.new }
    ensures gained { IfOk result
        (λ _. GainsAtOnce floor.now.description (as_taken l mode) pass.old.view pass.new.view) }
    ensures word { IfErr result (λ found. IsWellFormed (word_of found)) }
    ensures begun { IfErr result (λ found. HasBegun floor.now.description l.0 (word_of found)
        pass.old.view pass.new.view) }
{
    let hold = Held {
        l,
        mode,
        by_try: false,
    };
    match floor.seek_gain(pass, hold, FREE) {
        Ok(()) => Ok(()),
        Err(found) => Err(found),
    }
}
