//! A thread goes to stand on a turnstile, as in `turnstile_wait` of FreeBSD's subr_turnstile.c.
ghost use Rattle.std.specs.Prelude.{◌≡◌, ℕ, [], Some, IsSome, IfSome, option_map};
ghost use Rattle.lock_model.specs.Config.{Config};
ghost use Rattle.lock_model.specs.Words.{owner_of};
ghost use Rattle.lock_model.specs.Queues.{lock_queue, side_of};
ghost use Rattle.lock_model.specs.declared.plan.Mode.{Mode as AMode};
ghost use Rattle.lock_state.specs.State.{State};
ghost use Rattle.lock_state.specs.Steps.Turnstiles.{after_enter};
ghost use Rattle.turnstile_core.specs.Seen.{idle, IsEmpty};
ghost use Rattle.turnstile_core.specs.Changes.{name_of};
ghost use Rattle.chain_table.specs.Chains.{head_of};
ghost use Rattle.chain_table.specs.Objects.{behind};
ghost use Rattle.lock_objects.specs.Represents.{RepresentsQueues, RepresentsRecord, queue_in, record_in};
ghost use Rattle.lock_objects.specs.Enters.{CanStand, CanLend, waiter_of, record_entered, head_entered, chain_entered};

use chain_table::Chain;
use lock_model::{LockNo, Prio, QueueName, Side, ThreadNo};
use thread_records::ThreadRec;
use turnstile_core::{Turnstile, Waiter};

/// A thread stands on a side of a lock's turnstile, and its record names the lock's queue. Its own turnstile becomes
/// the lock's where the lock has none, with that owner, or with none where the lock is held shared; and it goes to the
/// free list of the lock's where that has one.
pub fn enter(
    chain: &mut Chain<Turnstile>,
    rec: &mut ThreadRec,
    l: LockNo,
    side: Side,
    owner: Option<ThreadNo>,
)
    requires own { IsSome rec.old.turnstile }
    requires may { CanStand rec.old.thread (head_of (lock_queue l.0) chain.old) }
    ensures record { rec.new ≡ record_entered l.0 rec.old }
    ensures chain { (x : ℕ) → rec.old.turnstile ≡ Some x → chain.new
        ≡ chain_entered l.0 side x (option_map (λ t. t.0) owner) (waiter_of rec.old) chain.old }
    ensures queues { (c : Config) (s : State) (t : ℕ) (mode : AMode) (x : ℕ) → side ≡ side_of mode
        → option_map (λ t. t.0) owner ≡ owner_of (s.word l.0).holder → CanLend c s t l.0 x
        → RepresentsRecord rec.old (record_in s t)
        → RepresentsQueues c chain.old (queue_in s) s.loan_home
        → RepresentsQueues c chain.new (queue_in (after_enter s t l.0 mode x))
        (after_enter s t l.0 mode x).loan_home }
    ensures its_record { (s : State) (t : ℕ) (mode : AMode) (x : ℕ)
        → RepresentsRecord rec.old (record_in s t)
        → RepresentsRecord rec.new (record_in (after_enter s t l.0 mode x) t) }
{
    let prio = rec.eff();
    let (own, node) = rec.lend_turnstile();
    rec.set_on(Some(QueueName::Lock(l)));
    let there = chain.unplace(QueueName::Lock(l));
    let head = with_waiter(there, own, node, l, prio, side, owner);
    chain.place(head);
}

// The turnstile of a lock with one waiter more: the thread's own where none is there.
fn with_waiter(
    there: Option<Box<Turnstile>>,
    mut own: Box<Turnstile>,
    node: Box<Waiter>,
    l: LockNo,
    prio: Prio,
    side: Side,
    owner: Option<ThreadNo>,
) -> Box<Turnstile>
    requires own { own.value ≡ idle own.value.contents.number }
    requires empty { IsEmpty node.value }
    requires may { CanStand node.value.place.thread (option_map (λ b. b.value) there) }
    requires named { IfSome there (λ b. name_of b.value.contents ≡ Some (lock_queue l.0)) }
    requires bare { IfSome there (λ b. behind b.value ≡ []) }
    ensures head { result.value ≡ head_entered l.0 side own.value.contents.number
        (option_map (λ t. t.0) owner) (record { thread = node.value.place.thread; kept = prio.0 })
        (option_map (λ b. b.value) there) }
    ensures named { name_of result.value.contents ≡ Some (lock_queue l.0) }
    ensures bare { behind result.value ≡ [] }
{
    match there {
        None => {
            own.begin(l, node, prio, side);
            if let Some(owner) = owner {
                own.claim(owner);
            }
            own
        }
        Some(mut head) => {
            head.wait(own, node, prio, side);
            head
        }
    }
}
