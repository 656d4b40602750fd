//! The actions of a thread with a lending walk.
ghost use Rattle.std.specs.Prelude.{◌≡◌, ◌<◌, true, length, Some, IfSome, option_map, is_some, MatchOption};
ghost use Rattle.lock_state.specs.Facts.{Lawful};
ghost use Rattle.lock_model.specs.Operations.{IsProper};
ghost use Rattle.lock_model.specs.Config.{Config};
ghost use Rattle.lock_state.specs.State.{State, AtLock, AtThread};
ghost use Rattle.lock_model.specs.Plans.{config_of};
ghost use Rattle.lock_model.specs.Queues.{lock_queue, names_turnstile};
ghost use Rattle.lock_model.specs.Words.{is_turnstile};
ghost use Rattle.step_machine.specs.Represents.{Represents};
ghost use Rattle.step_world.specs.Runs.{HasRun, Follows, KeepsWhereIdle, IsNowhere, StandsAt};

use lock_model::{Kind, LockNo, Plan, QueueName, StepKind, ThreadNo, Turn};
use step_machine::Machine;

/// A walk at a lock lends to the lock's owner, or ends where there is none or nobody waits.
pub fn walk_at_lock(machine: &mut Machine, plan: &Plan, t: ThreadNo, l: LockNo) -> Turn
    requires proper { IsProper plan.now }
    requires thread { t.0 < length plan.now.threads }
    requires run { HasRun plan.now machine.old (λ r. r.state.walk t.0 ≡ AtLock l.0) }
    ensures follows { Follows plan.now t.0 machine.old machine.new result
        (λ r. r.state.walk t.0 ≡ AtLock l.0) }
    ensures unchanged { KeepsWhereIdle result machine.old machine.new }
{
    match owner_at(machine, l) {
        Some(owner) => {
            let on_turnstile = turnstile_named(machine, plan, owner).is_some();
            machine.lend_to(t, l, owner, on_turnstile);
            Turn::Did(StepKind::Lend)
        }
        None => {
            machine.end_walk(t);
            Turn::Did(StepKind::WalkEnd)
        }
    }
}

// The owner of the turnstile that is lent to a mutex or an rw lock.
#[tactic(auto, using(crate::proofs::ActionsOfWalks::owner_at, crate::proofs::ActionsOfWalks::no_owner_at))]
fn owner_at(machine: &Machine, l: LockNo) -> Option<ThreadNo>
    ensures { (c : Config) (s : State) → Represents c machine.now s → Lawful c s
        → is_turnstile (c.kind l.0) ≡ true
        → option_map (λ o. o.0) result ≡ s.owner (lock_queue l.0) }
{
    match machine.chain.find(QueueName::Lock(l)) {
        Some(head) => head.owner(),
        None => None,
    }
}

/// A walk at a thread sorts that one anew where it waits for a lock, and else ends.
pub fn walk_at_thread(machine: &mut Machine, plan: &Plan, t: ThreadNo, o: ThreadNo) -> Turn
    requires proper { IsProper plan.now }
    requires thread { t.0 < length plan.now.threads }
    requires run { HasRun plan.now machine.old (λ r. r.state.walk t.0 ≡ AtThread o.0) }
    ensures follows { Follows plan.now t.0 machine.old machine.new result
        (λ r. r.state.walk t.0 ≡ AtThread o.0) }
    ensures unchanged { KeepsWhereIdle result machine.old machine.new }
{
    match stands_at(machine, plan, o) {
        Some((l, owned)) => {
            machine.sort_anew(t, o, l, owned);
            Turn::Did(StepKind::Shift)
        }
        None => {
            machine.end_walk(t);
            Turn::Did(StepKind::WalkEnd)
        }
    }
}

// The lock on whose turnstile a thread stands, and whether the turnstile has an owner.
#[tactic(auto, using(crate::proofs::ActionsOfWalks::none_stands_at))]
fn stands_at(machine: &Machine, plan: &Plan, o: ThreadNo) -> Option<(LockNo, bool)>
    ensures { (s : State) → Represents (config_of plan.now) machine.now s
        → Lawful (config_of plan.now) s
        → MatchOption result (IsNowhere (config_of plan.now) s o.0)
        (λ found. StandsAt (config_of plan.now) s o.0 found.0.0 found.1) }
{
    let l = turnstile_named(machine, plan, o)?;
    let head = machine.chain.find(QueueName::Lock(l))?;
    head.waits(o).then_some((l, head.owner().is_some()))
}

// The lock whose turnstile a thread's record names.
fn turnstile_named(machine: &Machine, plan: &Plan, o: ThreadNo) -> Option<LockNo>
    ensures named { (s : State) → Represents (config_of plan.now) machine.now s
        → Lawful (config_of plan.now) s
        → IfSome result (λ l. s.blocked_on o.0 ≡ Some (lock_queue l.0)) }
    ensures turnstile { (s : State) → Represents (config_of plan.now) machine.now s
        → Lawful (config_of plan.now) s
        → is_some result ≡ names_turnstile (config_of plan.now) (s.blocked_on o.0) }
{
    match blocked_on(machine, o)? {
        QueueName::Lock(l) => match plan.lock_kind(l) {
            Kind::Mtx | Kind::Rw => Some(l),
            Kind::Sx => None,
        },
        QueueName::Chan(_) => None,
    }
}

// The queue that a thread's record names. There is none where the plan has no such thread.
#[tactic(auto, using(crate::proofs::ActionsOfWalks::named_at, crate::proofs::ActionsOfWalks::none_named_at))]
fn blocked_on(machine: &Machine, o: ThreadNo) -> Option<QueueName>
    ensures { (c : Config) (s : State) → Represents c machine.now s → Lawful c s
        → result ≡ s.blocked_on o.0 }
{
    match machine.threads.as_slice().get(usize::from(o.0)) {
        Some(thread) => thread.record.on(),
        None => None,
    }
}
