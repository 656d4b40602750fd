//! A thread goes to stand on the sleep queue of an sx lock or of a channel, and sleepers are taken off it, as in
//! `sleepq_add`, `sleepq_signal` and `sleepq_broadcast` of FreeBSD's subr_sleepqueue.c.
ghost use Rattle.std.specs.Prelude.{◌≡◌, ◌≢◌, ◌<◌, ◌^◌, ℕ, [], Some, None, false, IsSome, IfSome, option_map, map};
ghost use Rattle.std.specs.List.{All};
ghost use Rattle.lock_model.specs.Config.{Config};
ghost use Rattle.lock_model.specs.Queues.{is_turnstile_queue, list_of, taken_off, dealt};
ghost use Rattle.lock_state.specs.State.{State};
ghost use Rattle.lock_state.specs.Steps.LockWords.{bits_of_threads};
ghost use Rattle.sleep_queues.specs.Seen.{idle, IsEmpty};
ghost use Rattle.sleep_queues.specs.Changes.{waiters, all_waiters, without_woken, AreTaken};
ghost use Rattle.chain_table.specs.Chains.{head_of};
ghost use Rattle.chain_table.specs.Objects.{behind};
ghost use Rattle.lock_objects.specs.Enters.{CanStand};
ghost use Rattle.lock_objects.specs.Sleeps.{IsBalanced, ChangesSleepers, sleeper_of, record_asleep, head_asleep, chain_asleep, slept, woken_of, chain_woken, woken};
ghost use Rattle.lock_objects.specs.Represents.{RepresentsSleepers, RepresentsRecord, RecordColumns, sleepers_in, mark_of};

use crate::put_back::put_back;
use chain_table::Chain;
use lock_model::{Prio, QueueName, Side};
use sleep_queues::{SleepQueue, SleepTaken, Sleeper};
use thread_records::ThreadRec;

/// A thread stands at the tail of a side of a sleep queue, by its base priority, and its record names the queue. Its
/// own sleep queue becomes that of the lock or channel where this has none, and goes to the free list of it where it
/// has one.
pub fn fall_asleep(chain: &mut Chain<SleepQueue>, rec: &mut ThreadRec, q: QueueName, side: Side)
    requires own { IsSome rec.old.sleep_queue }
    requires may { CanStand rec.old.thread (head_of q chain.old) }
    ensures record { rec.new ≡ record_asleep q rec.old }
    ensures chain { (x : ℕ) → rec.old.sleep_queue ≡ Some x
        → chain.new ≡ chain_asleep q side x (sleeper_of rec.old) chain.old }
    ensures queues { (c : Config) (s n : State) (x : ℕ) → rec.old.sleep_queue ≡ Some x
        → is_turnstile_queue c q ≡ false → IsBalanced (sleepers_in s q)
        → ChangesSleepers s n q (slept side x (sleeper_of rec.old))
        → RepresentsSleepers c chain.old (sleepers_in s)
        → RepresentsSleepers c chain.new (sleepers_in n) }
    ensures its_record { (a : RecordColumns) → RepresentsRecord rec.old a
        → RepresentsRecord rec.new (record a { sleep_queue = None; blocked_on = Some q }) }
{
    let prio = rec.base();
    let (own, node) = rec.lend_sleepq();
    rec.set_on(Some(q));
    let there = chain.unplace(q);
    let head = with_sleeper(there, own, node, q, prio, side);
    chain.place(head);
}

// The sleep queue of a lock or channel with one sleeper more: the thread's own where none is there.
fn with_sleeper(
    there: Option<Box<SleepQueue>>,
    mut own: Box<SleepQueue>,
    node: Box<Sleeper>,
    q: QueueName,
    prio: Prio,
    side: Side,
) -> Box<SleepQueue>
    requires own { own.value ≡ idle own.value.contents.number }
    requires empty { IsEmpty node.value }
    requires may { CanStand node.value.place.thread (option_map (λ b. b.value) there) }
    requires named { IfSome there (λ b. b.value.contents.own.name ≡ Some q) }
    requires bare { IfSome there (λ b. behind b.value ≡ []) }
    ensures head { result.value ≡ head_asleep q side own.value.contents.number
        (record { thread = node.value.place.thread; kept = prio.0 })
        (option_map (λ b. b.value) there) }
    ensures named { result.value.contents.own.name ≡ Some q }
    ensures bare { behind result.value ≡ [] }
{
    match there {
        None => {
            own.begin(q, node, prio, side);
            own
        }
        Some(mut head) => {
            head.add(own, node, prio, side);
            head
        }
    }
}

/// Takes sleepers of a side off a sleep queue, the best or all, each with the sleep queue that it takes back. The sleep
/// queue stays where others sleep on it; else the last of those taken has it. Where none is there nobody is taken.
pub fn take_off(chain: &mut Chain<SleepQueue>, q: QueueName, side: Side, all: bool) -> SleepTaken
    requires { IfSome (head_of q chain.old) (λ h. all_waiters h.contents ≢ []) }
    ensures woken { result ≡ woken_of all side (head_of q chain.old) }
    ensures chain { chain.new ≡ chain_woken q all side (head_of q chain.old) chain.old }
    ensures queues { (c : Config) (s n : State) → is_turnstile_queue c q ≡ false
        → IsBalanced (sleepers_in s q) → ChangesSleepers s n q (woken all side)
        → RepresentsSleepers c chain.old (sleepers_in s)
        → RepresentsSleepers c chain.new (sleepers_in n) }
    ensures marks { (c : Config) (s : State) → is_turnstile_queue c q ≡ false
        → IsBalanced (sleepers_in s q) → RepresentsSleepers c chain.old (sleepers_in s)
        → (map (mark_of q) result ≡ dealt q (taken_off all (list_of side (s.lists q)))
        (s.free_list q) (s.head q)) × All (λ p. IsSome p.object) result }
{
    let Some(mut head) = chain.unplace(q) else {
        return SleepTaken::empty();
    };
    let woken = taken_by(&mut head, side, all);
    put_back(chain, head, woken)
}

// Those who are taken off a sleep queue that stands out of its chain.
fn taken_by(head: &mut SleepQueue, side: Side, all: bool) -> SleepTaken
    ensures taken { AreTaken (taken_off all (waiters side head.old.contents)) head.old.contents
        head.new.contents result }
    ensures contents { head.new.contents ≡ without_woken all side head.old.contents }
    ensures next { head.new.next ≡ head.old.next }
{
    if all {
        return head.broadcast(side);
    }
    match head.signal(side) {
        Some(woken) => woken,
        None => SleepTaken::empty(),
    }
}

/// The threads of those that were taken off a sleep queue, as a set of bits.
pub fn bits_of(woken: &SleepTaken) -> u64
    requires { bits_of_threads (map (λ p. p.thread) woken.now) < 2 ^ 64 }
    ensures { result ≡ bits_of_threads (map (λ p. p.thread) woken.now) }
{
    let mut bits = 0;
    let mut at = woken.first();
    while let Some(node) = at {
        bits += 1_u64 << node.thread().0;
        at = node.behind();
    }
    bits
}
