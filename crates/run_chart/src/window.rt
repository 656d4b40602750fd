//! What the turns of a window show, one behind the other.
ghost use Rattle.std.specs.Prelude.{◌≡◌, ◌≤◌, length, IfOk};
ghost use Rattle.run_chart.specs.Runs.{IsRunOf};
ghost use Rattle.run_chart.specs.Turns.{arrows_shown, in_turns, mark_shown, sentence_shown};

use crate::arrows::push_arrows;
use crate::marks::push_mark;
use crate::rows::{TurnOf, turn_at};
use crate::saying::push_sentence;
use chart_layout::{Arrow, Sentence, TurnMark};
use lock_model::Plan;
use run_tracks::Rows;
use std::alloc::{AllocError, Global};

/// What turns show.
#[derive(Drop)]
pub struct TurnsShown {
    pub marks: Vec<TurnMark>,
    pub arrows: Vec<Arrow>,
    pub sentences: Vec<Sentence>,
}

/// What the turns between the rows `from..=to` show.
#[tactic(auto, using(crate::proofs::Told::turn_of, crate::proofs::Turns::no_turns))]
pub fn turns(
    alloc: Global,
    plan: &Plan,
    rows: &Rows,
    from: u32,
    to: u32,
) -> Result<TurnsShown, AllocError>
    requires run { IsRunOf plan.now rows.now }
    requires in_order { from ≤ to }
    requires within { to ≤ length rows.now.turns }
    ensures marks { IfOk result (λ shown.
        shown.marks.items ≡ in_turns mark_shown plan.now from to) }
    ensures arrows { IfOk result (λ shown.
        shown.arrows.items ≡ in_turns arrows_shown plan.now from to) }
    ensures sentences { IfOk result (λ shown.
        shown.sentences.items ≡ in_turns sentence_shown plan.now from to) }
{
    let mut marks = Vec::new(alloc);
    let mut arrows = Vec::new(alloc);
    let mut sentences = Vec::new(alloc);
    for turn in from..to {
        let row = turn_at(rows, turn);
        let at = TurnOf {
            plan,
            rows,
            turn,
            who: row.who,
        };
        push_mark(&mut marks, &at, row.answer)?;
        push_arrows(alloc, &mut arrows, &at, row.answer)?;
        push_sentence(alloc, &mut sentences, &at, row.answer)?;
    }
    Ok(TurnsShown {
        marks,
        arrows,
        sentences,
    })
}
