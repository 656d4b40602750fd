//! The arrows of a turn: whom its thread lent to, woke, blocked on or blocked behind, and who held what it was refused.
ghost use Rattle.std.specs.Prelude.{◌≡◌, ◌++◌, OnOk};
ghost use Rattle.run_chart.specs.Runs.{of_turn, IsTurnOf};
ghost use Rattle.run_chart.specs.Turns.{arrows_shown, arrows_to};

use crate::lookup::{blocked_on, loan_in, refused_in, went_behind};
use crate::naming::{Asked, those};
use crate::rows::TurnOf;
use chart_layout::{Arrow, ArrowKind};
use lock_model::{StepKind, ThreadNo, Turn};
use std::alloc::{AllocError, Global};

/// Adds the arrows of a turn.
pub fn push_arrows(
    alloc: Global,
    arrows: &mut Vec<Arrow>,
    at: &TurnOf<'_>,
    answer: Turn,
) -> Result<(), AllocError>
    requires { IsTurnOf at.now }
    ensures { OnOk result (arrows.new.items
        ≡ arrows.old.items ++ of_turn arrows_shown at.now answer) }
{
    match answer {
        Turn::Did(StepKind::Lend) => push_loan(arrows, at),
        Turn::Did(StepKind::Mark) => {
            let woken = those(alloc, at, Asked::WakesUp)?;
            push_to(arrows, at, ArrowKind::Wakes, &woken)
        }
        Turn::Did(StepKind::Enter) => push_blocks(alloc, arrows, at),
        Turn::Did(StepKind::Note) => push_refusals(alloc, arrows, at),
        Turn::Did(
            StepKind::Gain
            | StepKind::Claim
            | StepKind::Drop
            | StepKind::OpenUp
            | StepKind::Resume
            | StepKind::Shift
            | StepKind::WalkEnd
            | StepKind::Add
            | StepKind::Wake,
        )
        | Turn::Idle
        | Turn::Ended => Ok(()),
    }
}

// To the owner of the lock at which its walk stood.
fn push_loan(arrows: &mut Vec<Arrow>, at: &TurnOf<'_>) -> Result<(), AllocError>
    requires { IsTurnOf at.now }
    ensures { OnOk result (arrows.new.items
        ≡ arrows.old.items ++ of_turn arrows_shown at.now (Turn.Did StepKind.Lend)) }
{
    if let Some(loan) = loan_in(at) {
        let (before, prio) = (loan.before, loan.prio);
        push_to(arrows, at, ArrowKind::Lends { before, prio }, &[loan.to])?;
    }
    Ok(())
}

// To the writer behind which it blocked, or else to each that holds the lock.
fn push_blocks(alloc: Global, arrows: &mut Vec<Arrow>, at: &TurnOf<'_>) -> Result<(), AllocError>
    requires { IsTurnOf at.now }
    ensures { OnOk result (arrows.new.items
        ≡ arrows.old.items ++ of_turn arrows_shown at.now (Turn.Did StepKind.Enter)) }
{
    let Some(l) = blocked_on(at) else {
        return Ok(());
    };
    match went_behind(at, l) {
        Some(writer) => push_to(arrows, at, ArrowKind::Behind, &[writer]),
        None => {
            let held_by = those(alloc, at, Asked::Holds(l))?;
            push_to(arrows, at, ArrowKind::BlockedOn, &held_by)
        }
    }
}

// To each that holds the lock that it was refused.
fn push_refusals(alloc: Global, arrows: &mut Vec<Arrow>, at: &TurnOf<'_>) -> Result<(), AllocError>
    requires { IsTurnOf at.now }
    ensures { OnOk result (arrows.new.items
        ≡ arrows.old.items ++ of_turn arrows_shown at.now (Turn.Did StepKind.Note)) }
{
    let Some((l, _)) = refused_in(at) else {
        return Ok(());
    };
    let held_by = those(alloc, at, Asked::Holds(l))?;
    push_to(arrows, at, ArrowKind::Refused, &held_by)
}

fn push_to(
    arrows: &mut Vec<Arrow>,
    at: &TurnOf<'_>,
    kind: ArrowKind,
    tos: &[ThreadNo],
) -> Result<(), AllocError>
    ensures { OnOk result (arrows.new.items
        ≡ arrows.old.items ++ arrows_to at.now.turn kind at.now.who.0 tos.now) }
{
    for to in tos {
        arrows.push(Arrow {
            turn: at.turn,
            kind,
            from: at.who,
            to: *to,
        })?;
    }
    Ok(())
}
