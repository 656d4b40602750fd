//! Waiters are taken off a turnstile, as in `turnstile_broadcast` of FreeBSD's subr_turnstile.c.
ghost use Rattle.std.specs.Prelude.{◌≡◌, ℕ, IsSome, IfSome, IsSomeAnd, map};
ghost use Rattle.std.specs.List.{All};
ghost use Rattle.lock_model.specs.Config.{Config};
ghost use Rattle.lock_model.specs.Words.{side_woken};
ghost use Rattle.lock_model.specs.Queues.{lock_queue};
ghost use Rattle.lock_state.specs.State.{State};
ghost use Rattle.lock_state.specs.Steps.Turnstiles.{after_open};
ghost use Rattle.chain_table.specs.Chains.{head_of};
ghost use Rattle.lock_objects.specs.Represents.{RepresentsQueues, RepresentsRecord, queue_in, record_in, mark_of};
ghost use Rattle.lock_objects.specs.Opens.{CanOpen, CanRelease, record_opened, woken_of, chain_opened};

use crate::put_back::put_back;
use chain_table::Chain;
use lock_model::{LockNo, QueueName, Side};
use prio_lending::settle_release;
use thread_records::ThreadRec;
use turnstile_core::{Taken, Turnstile};

/// A thread that releases a lock takes all waiters of a side off the lock's turnstile, each with the turnstile that it
/// takes back. What they lent the thread goes home. The turnstile has no owner any more, and stays where others wait on
/// it; else the last of those taken has it.
pub fn open(chain: &mut Chain<Turnstile>, rec: &mut ThreadRec, l: LockNo, side: Side) -> Taken
    requires { IsSomeAnd (head_of (lock_queue l.0) chain.old) (CanOpen l.0 side rec.old) }
    ensures record { rec.new ≡ record_opened l.0 rec.old }
    ensures chain { IfSome (head_of (lock_queue l.0) chain.old) (λ h.
        chain.new ≡ chain_opened l.0 side rec.old h chain.old) }
    ensures woken { IfSome (head_of (lock_queue l.0) chain.old) (λ h.
        result ≡ woken_of l.0 side rec.old h.contents) }
    ensures queues { (c : Config) (s : State) (t : ℕ) → side ≡ side_woken (c.kind l.0) (s.word l.0)
        → CanRelease c s t l.0 → RepresentsRecord rec.old (record_in s t)
        → RepresentsQueues c chain.old (queue_in s) s.loan_home
        → RepresentsQueues c chain.new (queue_in (after_open c s t l.0))
        (after_open c s t l.0).loan_home }
    ensures its_record { (c : Config) (s : State) (t : ℕ) → CanRelease c s t l.0
        → RepresentsRecord rec.old (record_in s t)
        → RepresentsRecord rec.new (record_in (after_open c s t l.0) t) }
    ensures marks { (c : Config) (s : State) (t : ℕ) → side ≡ side_woken (c.kind l.0) (s.word l.0)
        → CanRelease c s t l.0 → RepresentsRecord rec.old (record_in s t)
        → RepresentsQueues c chain.old (queue_in s) s.loan_home
        → (map (mark_of (lock_queue l.0)) result ≡ (after_open c s t l.0).marked t)
        × All (λ p. IsSome p.object) result }
{
    let Some(mut head) = chain.unplace(QueueName::Lock(l)) else {
        return Taken::empty();
    };
    settle_release(&mut head, rec, l);
    let woken = head.broadcast(side);
    put_back(chain, head, woken)
}
