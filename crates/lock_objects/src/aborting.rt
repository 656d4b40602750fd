//! A sleeper is taken off a sleep queue without a signal, whoever it is, as in `sleepq_abort` of FreeBSD's
//! subr_sleepqueue.c.
ghost use Rattle.std.specs.Prelude.{◌≡◌, true, [], ◌∷◌, IsSome, IfSome, IsSomeAnd, map};
ghost use Rattle.std.specs.List.{All};
ghost use Rattle.lock_model.specs.Config.{Config};
ghost use Rattle.lock_model.specs.Queues.{Waiter, ByAbort, dealt};
ghost use Rattle.lock_model.specs.declared.plan.Side.{Side};
ghost use Rattle.lock_state.specs.State.{State};
ghost use Rattle.lock_state.specs.Steps.SleepQueues.{by_abort};
ghost use Rattle.sleep_queues.specs.Changes.{waits};
ghost use Rattle.chain_table.specs.Chains.{head_of};
ghost use Rattle.lock_objects.specs.Aborts.{IsSleeper, aborted_from, chain_aborted, aborted};
ghost use Rattle.lock_objects.specs.Represents.{RepresentsSleepers, mark_by, sleepers_in};
ghost use Rattle.lock_objects.specs.Sleeps.{ChangesSleepers};

use crate::put_back::put_back;
use chain_table::Chain;
use lock_model::{QueueName, ThreadNo};
use sleep_queues::{SleepQueue, SleepTaken};

/// Takes a thread off a sleep queue, on which it sleeps, with the sleep queue that it takes back. The sleep queue stays
/// where others sleep on it; else the thread has it.
pub fn abort(chain: &mut Chain<SleepQueue>, q: QueueName, t: ThreadNo) -> SleepTaken
    requires { IsSomeAnd (head_of q chain.old) (λ h. waits t.0 h.contents ≡ true) }
    ensures woken { IfSome (head_of q chain.old) (λ h. result ≡ aborted_from t.0 h.contents) }
    ensures chain { IfSome (head_of q chain.old) (λ h.
        chain.new ≡ chain_aborted q t.0 h chain.old) }
    ensures queues { (c : Config) (s n : State) (side : Side) (w : Waiter) → w.thread ≡ t.0
        → IsSleeper c s q side w → ChangesSleepers s n q (aborted side w)
        → RepresentsSleepers c chain.old (sleepers_in s)
        → RepresentsSleepers c chain.new (sleepers_in n) }
    ensures marks { (c : Config) (s : State) (side : Side) (w : Waiter) → w.thread ≡ t.0
        → IsSleeper c s q side w → RepresentsSleepers c chain.old (sleepers_in s)
        → (map (mark_by ByAbort q) result ≡ by_abort (dealt q (w ∷ []) (s.free_list q) (s.head q)))
        × All (λ p. IsSome p.object) result }
{
    let Some(mut head) = chain.unplace(q) else {
        unreachable!()
    };
    let Some(woken) = head.remove(t) else {
        unreachable!()
    };
    put_back(chain, head, woken)
}
