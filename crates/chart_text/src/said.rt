//! What a chart says of each turn, by the turn's number.
ghost use Rattle.std.specs.Prelude.{◌≡◌, ◌==◌, ◌++◌, ℕ, List, [], if◌then◌else◌, codes, decimal, flat_map, IfOk, OnOk};
ghost use Rattle.lock_model.specs.Text.{thread_name};
ghost use Rattle.chart_text.specs.Lines.{said_by, said_of, told_by, told_words, words_at};

use chart_layout::{Arrow, ArrowKind, Chart, Sentence};
use chart_words::{push_named, push_prio, push_saying, push_words};
use lock_model::{Plan, Prio, ThreadNo};
use std::alloc::{AllocError, Global};
use std::collections::HashMap;

/// What is said of turns, of those of which something is.
pub type Said = HashMap<u32, Vec<u8>>;

/// What a chart says of each turn.
pub fn said_by_turn(alloc: Global, plan: &Plan, chart: &Chart) -> Result<Said, AllocError>
    ensures { IfOk result (λ said. (n : ℕ)
        → words_at said n ≡ said_of plan.now chart.now n) }
{
    let mut said = HashMap::new(alloc);
    add_each(alloc, &mut said, plan, chart.sentences.as_slice())?;
    add_each(alloc, &mut said, plan, chart.arrows.as_slice())?;
    Ok(said)
}

/// What is said of a turn.
pub fn words_of(said: &Said, turn: u32) -> &[u8]
    ensures { result.now ≡ words_at said.now turn }
{
    match said.get(&turn) {
        Some(words) => words,
        None => &[],
    }
}

/// What says something of a turn.
trait Says {
    ghost use Rattle.lock_model.specs.declared.plan.Plan.{Plan};

    /// What it says of the turn of a number.
    ghost words: { Plan → ℕ → Self → List ℕ };

    /// Puts that behind what is said of its turn.
    fn add(&self, alloc: Global, said: &mut Said, plan: &Plan) -> Result<(), AllocError>
        ensures { OnOk result ((n : ℕ) → words_at said.new n
            ≡ words_at said.old n ++ words plan.now n self.now) };
}

fn add_each<T: Says>(
    alloc: Global,
    said: &mut Said,
    plan: &Plan,
    each: &[T],
) -> Result<(), AllocError>
    ensures { OnOk result ((n : ℕ) → words_at said.new n
        ≡ words_at said.old n ++ flat_map (T.words plan.now n) each.now) }
{
    for one in each {
        one.add(alloc, said, plan)?;
    }
    Ok(())
}

/// A sentence, without the name of its thread.
impl Says for Sentence {
    ghost words = { said_by };

    fn add(&self, alloc: Global, said: &mut Said, plan: &Plan) -> Result<(), AllocError> {
        let mut words = Vec::from_slice(alloc, b":")?;
        push_saying(&mut words, plan, &self.saying)?;
        add(alloc, said, self.turn, &words)
    }
}

/// Whom a turn woke, or to whom it lent where that changed nothing.
impl Says for Arrow {
    ghost words = { told_by };

    fn add(&self, alloc: Global, said: &mut Said, plan: &Plan) -> Result<(), AllocError> {
        let mut words = Vec::new(alloc);
        push_told(&mut words, plan, self.kind, self.to)?;
        add(alloc, said, self.turn, &words)
    }
}

fn push_told(
    out: &mut Vec<u8>,
    plan: &Plan,
    kind: ArrowKind,
    to: ThreadNo,
) -> Result<(), AllocError>
    ensures { OnOk result (out.new.items ≡ out.old.items ++ told_words plan.now kind to) }
{
    match kind {
        ArrowKind::Lends { before, prio } => {
            if before.0 == prio.0 {
                push_idle_words(out, plan, prio, to)
            } else {
                Ok(())
            }
        }
        ArrowKind::Wakes => push_named(out, b": wakes ", plan.thread_name(to)),
        ArrowKind::BlockedOn | ArrowKind::Behind | ArrowKind::Refused => Ok(()),
    }
}

fn push_idle_words(
    out: &mut Vec<u8>,
    plan: &Plan,
    prio: Prio,
    to: ThreadNo,
) -> Result<(), AllocError>
    ensures { OnOk result (out.new.items
        ≡ out.old.items ++ codes ": lends to " ++ thread_name plan.now to.0
        ++ codes ", which runs as " ++ decimal prio.0 ++ codes " already") }
{
    push_named(out, b": lends to ", plan.thread_name(to))?;
    push_prio(out, b", which runs as ", prio)?;
    push_words(out, b" already")
}

// Puts words behind what is said of a turn.
fn add(alloc: Global, said: &mut Said, turn: u32, words: &[u8]) -> Result<(), AllocError>
    ensures { OnOk result ((n : ℕ) → words_at said.new n
        ≡ words_at said.old n ++ (if turn == n then words.now else [])) }
{
    let mut all = said.remove(&turn).unwrap_or(Vec::new(alloc));
    all.extend_from_slice(words)?;
    said.insert(turn, all)?;
    Ok(())
}
