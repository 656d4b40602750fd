//! The schedule that a policy makes of a plan.
ghost use Rattle.std.specs.Prelude.{◌≡◌, ◌<◌, ◌≤◌, ◌++◌, ◌∷◌, [], length, Err, IfOk, OnOk};
ghost use Rattle.std.specs.List.{All};
ghost use Rattle.lock_model.specs.Limits.{most_scheduled};
ghost use Rattle.lock_model.specs.Operations.{IsProper};
ghost use Rattle.step_world.specs.Worlds.{Represents};
ghost use Rattle.turn_policy.specs.Choosing.{IsBehindDraws};
ghost use Rattle.turn_policy.specs.Schedules.{IsPlanned, IsTooLong, run_by};
ghost use Rattle.turn_policy.specs.declared.planning.Unplanned.TheVariants.{Memory};

use crate::choosing::choose;
use crate::policy::Policy;
use lock_model::limits::{DEFAULT_CHAINS, SCHEDULE};
use lock_model::{Plan, ThreadNo};
use rand_core::SeedableRng;
use rand_xoshiro::SplitMix64;
use std::alloc::{AllocError, Global};
use step_world::World;

/// Why there is no schedule.
#[derive(Clone, Copy, Debug, PartialEq, Eq)]
pub enum Unplanned {
    /// It would have more entries than a script may have, which are 100,000.
    TooLong,
    /// Memory was wanting.
    Memory,
}

impl From<AllocError> for Unplanned {
    ghost from_gives = { λ _ e. e ≡ Memory };

    fn from(_e: AllocError) -> Unplanned {
        Unplanned::Memory
    }
}

/// The schedule that the policy makes of a plan, which some script gives: what the plan's own says comes first, and
/// behind it the turns that the policy chose, until all threads have ended or are idle.
///
/// ```
/// let turns = schedule_by(alloc, &plan, Policy::Priority { heeds_loans: true })?;
/// ```
pub fn schedule_by(alloc: Global, plan: &Plan, policy: Policy) -> Result<Vec<ThreadNo>, Unplanned>
    requires proper { IsProper plan.now }
    ensures planned { IfOk result (λ ts. IsPlanned policy plan.now ts.items) }
    ensures threads { IfOk result (λ ts. All (λ t. t.0 < length plan.now.threads) ts.items) }
    ensures few { IfOk result (λ ts. length ts.items ≤ most_scheduled) }
    ensures too_long { result ≡ Err Unplanned.TooLong → IsTooLong policy plan.now }
{
    let mut world = World::make(alloc, plan, DEFAULT_CHAINS)?;
    make_turns(&mut world, plan.schedule.as_slice());
    turns_behind(alloc, &mut world, plan, policy)
}

// The turns of the plan's schedule, which the world has made, and behind them those that the policy chooses.
fn turns_behind(
    alloc: Global,
    world: &mut World<'_>,
    plan: &Plan,
    policy: Policy,
) -> Result<Vec<ThreadNo>, Unplanned>
    requires proper { IsProper plan.now }
    requires plan { world.old.plan ≡ plan.now }
    requires made { Represents world.old (run_by plan.now plan.now.schedule) }
    ensures planned { IfOk result (λ ts. IsPlanned policy plan.now ts.items) }
    ensures threads { IfOk result (λ ts. All (λ t. t.0 < length plan.now.threads) ts.items) }
    ensures few { IfOk result (λ ts. length ts.items ≤ most_scheduled) }
    ensures too_long { result ≡ Err Unplanned.TooLong → IsTooLong policy plan.now }
{
    let mut turns = Vec::from_slice(alloc, plan.schedule.as_slice())?;
    let mut candidates = Vec::with_capacity(alloc, plan.threads.as_slice().len())?;
    let mut random = SplitMix64::seed_from_u64(u64::from(seed_of(policy)));
    while let Some(t) = choose(
        world,
        policy,
        turns.last().copied(),
        &mut random,
        &mut candidates,
    ) {
        if turns.len() >= SCHEDULE {
            return Err(Unplanned::TooLong);
        }
        push_turn(&mut turns, t)?;
        world.turn(t);
    }
    Ok(turns)
}

// Makes these turns from the begin of a run.
fn make_turns(world: &mut World<'_>, turns: &[ThreadNo])
    requires threads { All (λ t. t.0 < length world.old.plan.threads) turns.now }
    ensures plan { world.new.plan ≡ world.old.plan }
    ensures turns { Represents world.old (run_by world.old.plan [])
        → Represents world.new (run_by world.old.plan turns.now) }
{
    for t in turns {
        world.turn(*t);
    }
}

fn push_turn(turns: &mut Vec<ThreadNo>, t: ThreadNo) -> Result<(), AllocError>
    ensures { OnOk result (turns.new.items ≡ turns.old.items ++ t ∷ []) }
{
    turns.push(t)?;
    Ok(())
}

// With which seed the generator begins. A policy that doesn't draw needs none.
#[tactic(auto, unfolding(crate::specs::Chance::state_behind))]
fn seed_of(policy: Policy) -> u32
    ensures { IsBehindDraws policy 0 result }
{
    match policy {
        Policy::Priority { .. } => 0,
        Policy::Chance { seed } => seed,
    }
}
