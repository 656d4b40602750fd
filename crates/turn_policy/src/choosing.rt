//! Whom a policy chooses between two turns of a world.
ghost use Rattle.std.specs.Prelude.{◌≡◌, ◌<◌, ◌≤◌, ◌&&◌, ℕ, suc, [], length, nat_le, option_map, MatchOption, IfSome};
ghost use Rattle.std.specs.List.{All, find, list_all};
ghost use Rattle.std.specs.Vec.{vec_capacity};
ghost use Rattle.lock_model.specs.Operations.{IsProper};
ghost use Rattle.lock_model.specs.declared.plan.Plan as plans;
ghost use Rattle.lock_objects.specs.Represents.{wait_of};
ghost use Rattle.lock_state.specs.Run.{Run};
ghost use Rattle.step_world.specs.Worlds.{Represents};
ghost use Rattle.turn_policy.specs.Choosing.{AreCandidates, AreOfPlan, IsBehindDraws, gathered, is_gathered, is_queued, threads_in};
ghost use Rattle.turn_policy.specs.Policies.{choice, contenders, drawn_from, most_important, priority_of, ran_last};

use crate::policy::Policy;
use lock_model::{Prio, ThreadNo};
use rand_core::utils::NextWord;
use rand_xoshiro::SplitMix64;
use step_world::{Wait, World};

/// A thread that may be given the next turn, and its priority.
#[derive(Clone, Copy, Debug)]
pub struct Candidate {
    pub thread: ThreadNo,
    pub priority: Prio,
}

/// Whom the policy chooses, by who had the last turn. For one that draws, the generator makes a draw. Among the
/// candidates there is room for all threads.
pub fn choose(
    world: &World<'_>,
    policy: Policy,
    last: Option<ThreadNo>,
    random: &mut SplitMix64,
    candidates: &mut Vec<Candidate>,
) -> Option<ThreadNo>
    requires proper { IsProper world.now.plan }
    requires room { length world.now.plan.threads ≤ vec_capacity candidates.old }
    ensures choice { (r : Run) (n : ℕ) → Represents world.now r → IsBehindDraws policy n random.old
        → option_map (λ t. t.0) result
        ≡ choice policy world.now.plan r (option_map (λ t. t.0) last) n }
    ensures draws { (n : ℕ) → IsBehindDraws policy n random.old
        → IsBehindDraws policy (suc n) random.new }
    ensures thread { IfSome result (λ t. t.0 < length world.now.plan.threads) }
    ensures room { vec_capacity candidates.new ≡ vec_capacity candidates.old }
{
    match policy {
        Policy::Priority { heeds_loans } => {
            put_contenders(world, heeds_loans, candidates);
            most_important(last, candidates)
        }
        Policy::Chance { .. } => {
            gather(world, false, true, candidates);
            drawn_from(candidates, random.next_word())
        }
    }
}

// Those that owe something where there are some, and else all that have neither ended nor are idle.
fn put_contenders(world: &World<'_>, heeds_loans: bool, candidates: &mut Vec<Candidate>)
    requires proper { IsProper world.now.plan }
    requires room { length world.now.plan.threads ≤ vec_capacity candidates.old }
    ensures contenders { (r : Run) → Represents world.now r
        → AreCandidates heeds_loans r (contenders world.now.plan r) candidates.new.items }
    ensures threads { AreOfPlan world.now.plan candidates.new.items }
    ensures room { vec_capacity candidates.new ≡ vec_capacity candidates.old }
{
    gather(world, true, heeds_loans, candidates);
    if candidates.is_empty() {
        gather(world, false, heeds_loans, candidates);
    }
}

// Those that have neither ended nor are idle, by number, or only those of them that owe something; each with the
// priority that is looked at.
fn gather(world: &World<'_>, owing_only: bool, heeds_loans: bool, candidates: &mut Vec<Candidate>)
    requires proper { IsProper world.now.plan }
    requires room { length world.now.plan.threads ≤ vec_capacity candidates.old }
    ensures gathered { (r : Run) → Represents world.now r
        → AreCandidates heeds_loans r (gathered owing_only world.now.plan r) candidates.new.items }
    ensures threads { AreOfPlan world.now.plan candidates.new.items }
    ensures room { vec_capacity candidates.new ≡ vec_capacity candidates.old }
{
    candidates.clear();
    for t in 0..world.threads() {
        let thread = ThreadNo(t);
        if is_gathered(world, owing_only, thread) {
            let priority = priority_of(world, heeds_loans, thread);
            candidates.push_reserved(Candidate { thread, priority });
        }
    }
}

// Whether a thread has neither ended nor is idle, and owes something where only such ones are wanted.
fn is_gathered(world: &World<'_>, owing_only: bool, t: ThreadNo) -> bool
    requires proper { IsProper world.now.plan }
    requires thread { t.0 < length world.now.plan.threads }
    ensures { (r : Run) → Represents world.now r
        → result ≡ is_gathered owing_only world.now.plan r t.0 }
{
    if world.has_ended(t) {
        return false;
    }
    if world.owes(t) {
        return true;
    }
    !owing_only && !is_queued(world.wait(t))
}

fn is_queued(wait: Wait) -> bool
    ensures { result ≡ is_queued (wait_of wait) }
{
    match wait {
        Wait::Queued => true,
        Wait::Running | Wait::Woken(_) => false,
    }
}

// A thread's effective priority, or its base priority where loans aren't heeded.
fn priority_of(world: &World<'_>, heeds_loans: bool, t: ThreadNo) -> Prio
    requires thread { t.0 < length world.now.plan.threads }
    ensures { (r : Run) → Represents world.now r
        → result.0 ≡ priority_of heeds_loans r.state t.0 }
{
    let (base, effective) = world.priorities(t);
    if heeds_loans { effective } else { base }
}

// The one of the least priority: of equals the one that ran last, and else the first.
fn most_important(last: Option<ThreadNo>, candidates: &[Candidate]) -> Option<ThreadNo>
    ensures choice { (priority : ℕ → ℕ)
        → All (λ c. c.priority.0 ≡ priority c.thread.0) candidates.now → option_map (λ t. t.0) result
        ≡ most_important priority (option_map (λ t. t.0) last) (threads_in candidates.now) }
    ensures thread { (plan : plans.Plan) → AreOfPlan plan candidates.now
        → IfSome result (λ t. t.0 < length plan.threads) }
{
    let least = least(candidates)?;
    let ran_last = last_of_least(last, least, candidates).copied();
    let found = ran_last.or(first_of_least(least, candidates).copied())?;
    Some(found.thread)
}

// The least priority. There is none exactly where there are no candidates.
fn least(candidates: &[Candidate]) -> Option<Prio>
    ensures { MatchOption result (candidates.now ≡ []) (λ least. (n : ℕ)
        → nat_le n least.0 ≡ list_all (λ c. nat_le n c.priority.0) candidates.now) }
{
    let (first, others) = candidates.split_first()?;
    let mut least = first.priority;
    for candidate in others {
        least = Prio(least.0.min(candidate.priority.0));
    }
    Some(least)
}

// The one that ran last, if its priority is the least.
fn last_of_least(
    last: Option<ThreadNo>,
    least: Prio,
    candidates: &[Candidate],
) -> Option<&Candidate>
    ensures { option_map (λ c. c.now) result
        ≡ find (λ c. nat_le c.priority.0 least.0
        && ran_last (option_map (λ t. t.0) last) c.thread.0) candidates.now }
{
    candidates
        .iter()
        .find(|c| c.priority.0 <= least.0 && ran_last(last, c.thread))
}

// The first whose priority is the least.
fn first_of_least(least: Prio, candidates: &[Candidate]) -> Option<&Candidate>
    ensures { option_map (λ c. c.now) result
        ≡ find (λ c. nat_le c.priority.0 least.0) candidates.now }
{
    candidates.iter().find(|c| c.priority.0 <= least.0)
}

// Whether the thread had the last turn.
fn ran_last(last: Option<ThreadNo>, t: ThreadNo) -> bool
    ensures { result ≡ ran_last (option_map (λ t. t.0) last) t.0 }
{
    match last {
        Some(u) => t.0 == u.0,
        None => false,
    }
}

// The one at the place that a draw says, modulo their number.
fn drawn_from(candidates: &[Candidate], draw: u64) -> Option<ThreadNo>
    ensures choice { option_map (λ t. t.0) result ≡ drawn_from (threads_in candidates.now) draw }
    ensures thread { (plan : plans.Plan) → AreOfPlan plan candidates.now
        → IfSome result (λ t. t.0 < length plan.threads) }
{
    if candidates.is_empty() {
        return None;
    }
    let place = (draw % candidates.len() as u64) as usize;
    Some(candidates[place].thread)
}
