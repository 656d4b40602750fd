//! The sentence of a turn that changes who waits or who has lent.
ghost use Rattle.std.specs.Prelude.{◌≡◌, ◌++◌, IfOk, OnOk};
ghost use Rattle.run_chart.specs.Runs.{of_turn, IsTurnOf};
ghost use Rattle.run_chart.specs.Turns.{said_of, sentence_shown};

use crate::adding::push_some;
use crate::lookup::{blocked_on, event_in, loan_in, lock_named, refused_in, went_behind};
use crate::naming::{Asked, Sought, first_lock, those};
use crate::rows::{TurnOf, named_by, thread_in};
use chart_layout::{Saying, Sentence};
use lock_model::{QueueName, Sequence, StepKind, Turn};
use run_tracks::Walk;
use std::alloc::{AllocError, Global};

/// Adds the sentence of a turn, where there is something to say.
pub fn push_sentence(
    alloc: Global,
    sentences: &mut Vec<Sentence>,
    at: &TurnOf<'_>,
    answer: Turn,
) -> Result<(), AllocError>
    requires { IsTurnOf at.now }
    ensures { OnOk result (sentences.new.items
        ≡ sentences.old.items ++ of_turn sentence_shown at.now answer) }
{
    let (turn, thread) = (at.turn, at.who);
    let saying = said(alloc, at, answer)?;
    push_some(
        sentences,
        saying.map(|saying| Sentence {
            turn,
            thread,
            saying,
        }),
    )
}

// What is said of it by its answer.
fn said(alloc: Global, at: &TurnOf<'_>, answer: Turn) -> Result<Option<Saying>, AllocError>
    requires { IsTurnOf at.now }
    ensures { IfOk result (λ saying. saying ≡ of_turn said_of at.now answer) }
{
    match answer {
        Turn::Did(StepKind::Enter) => waits(alloc, at),
        Turn::Did(StepKind::Lend) => Ok(lends(at)),
        Turn::Did(StepKind::Shift) => Ok(sorts(at)),
        Turn::Did(StepKind::Claim) => Ok(claims(at)),
        Turn::Did(StepKind::OpenUp) => frees(alloc, at),
        Turn::Did(StepKind::Add) => Ok(sleeps(at)),
        Turn::Did(StepKind::Wake) => wakes(alloc, at),
        Turn::Did(StepKind::Note) => Ok(refused(at)),
        Turn::Did(
            StepKind::Gain | StepKind::Drop | StepKind::Mark | StepKind::Resume | StepKind::WalkEnd,
        )
        | Turn::Idle
        | Turn::Ended => Ok(None),
    }
}

fn waits(alloc: Global, at: &TurnOf<'_>) -> Result<Option<Saying>, AllocError>
    requires { IsTurnOf at.now }
    ensures { IfOk result (λ saying. saying ≡ of_turn said_of at.now (Turn.Did StepKind.Enter)) }
{
    let Some(lock) = blocked_on(at) else {
        return Ok(None);
    };
    Ok(Some(Saying::Waits {
        lock,
        holders: Sequence::from_vec(those(alloc, at, Asked::Holds(lock))?),
        behind: went_behind(at, lock),
    }))
}

fn lends(at: &TurnOf<'_>) -> Option<Saying>
    requires { IsTurnOf at.now }
    ensures { result ≡ of_turn said_of at.now (Turn.Did StepKind.Lend) }
{
    let loan = loan_in(at)?;
    if loan.before.0 == loan.prio.0 {
        return None;
    }
    Some(Saying::Lends {
        to: loan.to,
        lock: loan.lock,
        before: loan.before,
        prio: loan.prio,
        goes_on: thread_in(at, at.turn + 1, at.who).walk != Walk::None,
    })
}

fn sorts(at: &TurnOf<'_>) -> Option<Saying>
    requires { IsTurnOf at.now }
    ensures { result ≡ of_turn said_of at.now (Turn.Did StepKind.Shift) }
{
    match thread_in(at, at.turn, at.who).walk {
        Walk::AtThread(other) => {
            let lock = lock_named(named_by(at, at.turn, other))?;
            Some(Saying::Sorts { other, lock })
        }
        Walk::None | Walk::AtLock(_) => None,
    }
}

fn claims(at: &TurnOf<'_>) -> Option<Saying>
    requires { IsTurnOf at.now }
    ensures { result ≡ of_turn said_of at.now (Turn.Did StepKind.Claim) }
{
    Some(Saying::Claims {
        lock: first_lock(at, Sought::Gained)?,
        before: thread_in(at, at.turn, at.who).effective,
        prio: thread_in(at, at.turn + 1, at.who).effective,
    })
}

fn frees(alloc: Global, at: &TurnOf<'_>) -> Result<Option<Saying>, AllocError>
    requires { IsTurnOf at.now }
    ensures { IfOk result (λ saying. saying ≡ of_turn said_of at.now (Turn.Did StepKind.OpenUp)) }
{
    let Some(lock) = first_lock(at, Sought::GivenUp) else {
        return Ok(None);
    };
    let takes_off = those(alloc, at, Asked::Leaves(QueueName::Lock(lock)))?;
    Ok(Some(Saying::Frees {
        lock,
        before: thread_in(at, at.turn, at.who).effective,
        prio: thread_in(at, at.turn + 1, at.who).effective,
        takes_off: Sequence::from_vec(takes_off),
    }))
}

fn sleeps(at: &TurnOf<'_>) -> Option<Saying>
    requires { IsTurnOf at.now }
    ensures { result ≡ of_turn said_of at.now (Turn.Did StepKind.Add) }
{
    let chan = event_in(at)?.fell_asleep()?;
    let lock = at.plan.chans.as_slice().get(usize::from(chan.0))?.lock;
    Some(Saying::Sleeps { chan, lock })
}

fn wakes(alloc: Global, at: &TurnOf<'_>) -> Result<Option<Saying>, AllocError>
    requires { IsTurnOf at.now }
    ensures { IfOk result (λ saying. saying ≡ of_turn said_of at.now (Turn.Did StepKind.Wake)) }
{
    let Some(chan) = event_in(at).and_then(|event| event.woken_chan()) else {
        return Ok(None);
    };
    let takes_off = those(alloc, at, Asked::Leaves(QueueName::Chan(chan)))?;
    Ok(Some(Saying::Wakes {
        chan,
        takes_off: Sequence::from_vec(takes_off),
    }))
}

fn refused(at: &TurnOf<'_>) -> Option<Saying>
    requires { IsTurnOf at.now }
    ensures { result ≡ of_turn said_of at.now (Turn.Did StepKind.Note) }
{
    let (lock, held) = refused_in(at)?;
    Some(Saying::Refused {
        lock,
        held,
        holds: first_lock(at, Sought::OfClass(held)),
    })
}
