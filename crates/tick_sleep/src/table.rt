//! The sleep queues: one of each thread, at home with the thread's node while it doesn't sleep, and else lent to a key.
//! They are made once. From then on they move by `begin`, `add`, `signal`, `broadcast` and `remove` as the sleep queues
//! of subr_sleepqueue.c do, and no memory is taken.
ghost use Rattle.std.specs.Prelude.{◌≡◌, ◌<◌, ◌≤◌, ◌+◌, ◌||◌, ◌==◌, ◌++◌, ◌∷◌, [], ℕ, true, false, None, Some, length, nat_lt, option_map, if◌then◌else◌, IfOk, IfSome, IsSomeAnd};
ghost use Rattle.lock_model.specs.Counts.{is_empty, one};
ghost use Rattle.lock_model.specs.Queues.{times_waiting};
ghost use Rattle.sleep_queues.specs.Seen.{idle, IsEmpty};
ghost use Rattle.sleep_queues.specs.Lists.{LastHasNone, with_last};
ghost use Rattle.sleep_queues.specs.Changes.{all_waiters, AreTaken};
ghost use Rattle.chain_table.specs.Chains.{head_of};
ghost use Rattle.chain_table.specs.Objects.{behind};
ghost use Rattle.tick_sleep.specs.Limits.{most_sleepers};
ghost use Rattle.tick_sleep.specs.Tables.{lying, is_home, times_home, times_lent, made_table, CanJoin, head_joined, off, staying, left_by, homes_with, CanGoHome, first_thread, first_place, Wakes};

use crate::who::Who;
use chain_table::Chain;
use lock_model::{ChanNo, Prio, QueueName, Side, ThreadNo};
use sleep_queues::{SleepQueue, SleepTaken, Sleeper};
use std::alloc::{AllocError, Global};
use std::marker::Model;
use wait_objects::{Home, Sleeping};

/// The sleep queues that are lent, and each thread's own where it is at home.
#[derive(Drop)]
pub(crate) struct SleepTable {
    chain: Chain<SleepQueue>,
    homes: Vec<Home<Sleeping>>,
}

impl Model for SleepTable {
    ghost use Rattle.tick_sleep.specs.Tables.{Table, IsSound};

    ghost Value = { Table };

    ghost view = { λ a. record { chain = a.chain; homes = a.homes.items } };

    ghost invariant = { λ a. IsSound (record { chain = a.chain; homes = a.homes.items }) };
}

impl SleepTable {
    /// So many threads, each with its sleep queue at home.
    pub(crate) fn make(alloc: Global, threads: usize) -> Result<SleepTable, AllocError>
        requires { threads ≤ most_sleepers }
        ensures { IfOk result (λ a. a ≡ made_table threads) }
    {
        let mut homes = Vec::with_capacity(alloc, threads)?;
        for t in 0..threads {
            let t = ThreadNo(t as u8);
            homes.push(Home::of(SleepQueue::make(alloc, t)?, Sleeper::make(alloc, t)?))?;
        }
        Ok(SleepTable {
            chain: Chain::empty(),
            homes,
        })
    }

    /// A thread that has its sleep queue at home lies on a key, behind the others.
    pub(crate) fn lie_down(&mut self, t: ThreadNo, key: u8, prio: Prio)
        requires home { is_home t.0 self.old ≡ true }
        ensures queues { (k : ℕ) → lying k self.new ≡ (if key == k
            then lying k self.old ++ (record { thread = t.0; kept = prio.0 }) ∷ []
            else lying k self.old) }
        ensures homes { (u : ℕ) → is_home u self.new
            ≡ (if t.0 == u then false else is_home u self.old) }
        ensures size { length self.new.homes ≡ length self.old.homes }
    {
        let q = QueueName::Chan(ChanNo(key));
        let (own, node) = self.homes[usize::from(t.0)].lend();
        let there = self.chain.unplace(q);
        let head = with_sleeper(there, own, node, q, prio);
        self.chain.place(head);
    }

    /// Some of those that lie on a key get up: they have a sleep queue at home again. It tells the first of them, if
    /// there is one.
    pub(crate) fn wake(&mut self, key: u8, who: Who) -> Option<ThreadNo>
        ensures first { option_map (λ t. t.0) result ≡ first_thread (off who (lying key self.old)) }
        ensures woken { Wakes self.old self.new key who }
    {
        let mut head = self.chain.unplace(QueueName::Chan(ChanNo(key)))?;
        let taken = taken_by(&mut head, who);
        let taken = put_back(&mut self.chain, head, taken);
        let first = first_of(&taken);
        go_home(&mut self.homes, taken);
        first
    }

    /// Each sleep queue is in exactly one place: at the home of a thread, the head of a key, or on the free list of
    /// one.
    pub(crate) fn one_place_each(&self)
        ensures { (x : ℕ) → times_home x self.now.homes + times_lent x self.now.chain
            ≡ one (nat_lt x (length self.now.homes)) }
    {
        let _homes = &self.homes;
    }
}

// The sleep queue of a key with one sleeper more: the thread's own where none is there.
fn with_sleeper(
    there: Option<Box<SleepQueue>>,
    mut own: Box<SleepQueue>,
    node: Box<Sleeper>,
    q: QueueName,
    prio: Prio,
) -> Box<SleepQueue>
    requires own { own.value ≡ idle own.value.contents.number }
    requires empty { IsEmpty node.value }
    requires may { CanJoin node.value.place.thread (option_map (λ b. b.value) there) }
    requires named { IfSome there (λ b. b.value.contents.own.name ≡ Some q) }
    requires bare { IfSome there (λ b. behind b.value ≡ []) }
    ensures head { result.value ≡ head_joined q own.value.contents.number
        (record { thread = node.value.place.thread; kept = prio.0 })
        (option_map (λ b. b.value) there) }
    ensures named { result.value.contents.own.name ≡ Some q }
    ensures bare { behind result.value ≡ [] }
{
    match there {
        None => {
            own.begin(q, node, prio, Side::X);
            own
        }
        Some(mut head) => {
            head.add(own, node, prio, Side::X);
            head
        }
    }
}

// Those who are taken off a sleep queue that stands out of its chain.
fn taken_by(head: &mut SleepQueue, who: Who) -> SleepTaken
    requires { head.old.contents.shared ≡ [] }
    ensures taken { AreTaken (off who head.old.contents.exclusive) head.old.contents
        head.new.contents result }
    ensures contents { head.new.contents ≡ left_by who head.old.contents }
    ensures next { head.new.next ≡ head.old.next }
{
    let taken = match who {
        Who::Best => head.signal(Side::X),
        Who::All => Some(head.broadcast(Side::X)),
        Who::Thread(t) => head.remove(t),
    };
    match taken {
        Some(taken) => taken,
        None => SleepTaken::empty(),
    }
}

// The sleep queue goes with the last of those that were taken off it where nobody sleeps on it any more, and else back
// into the chain.
fn put_back(
    chain: &mut Chain<SleepQueue>,
    head: Box<SleepQueue>,
    mut taken: SleepTaken,
) -> SleepTaken
    requires last { all_waiters head.value.contents ≡ [] → LastHasNone taken }
    requires absent { IsSomeAnd head.value.contents.own.name (λ q. head_of q chain.old ≡ None) }
    requires bare { head.value.next ≡ [] }
    ensures taken { result ≡ (if is_empty (all_waiters head.value.contents)
        then with_last head.value.contents.number taken else taken) }
    ensures chain { IfSome head.value.contents.own.name (λ q.
        chain.new ≡ (if is_empty (all_waiters head.value.contents) then chain.old
        else (q, head.value) ∷ chain.old)) }
    ensures free { all_waiters head.value.contents ≡ [] → head.value.contents.free ≡ [] }
{
    if head.is_empty() {
        taken.fill_last(head);
    } else {
        chain.place(head);
    }
    taken
}

// The thread of the first of those that were taken off.
fn first_of(taken: &SleepTaken) -> Option<ThreadNo>
    ensures { option_map (λ t. t.0) result ≡ first_place taken.now }
{
    Some(taken.first()?.thread())
}

// Each of those that were taken off has its node at home again, with the sleep queue that it took back.
fn go_home(homes: &mut Vec<Home<Sleeping>>, mut taken: SleepTaken)
    requires { CanGoHome taken homes.old.items }
    ensures { homes.new.items ≡ homes_with taken homes.old.items }
{
    while let Some(node) = taken.pop() {
        homes[usize::from(node.thread().0)].take_back(node);
    }
}
