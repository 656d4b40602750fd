//! How a thread that came to stand on a turnstile lends its priority along the chain of owners, as `propagate_priority`
//! of FreeBSD's subr_turnstile.c does. It goes hop by hop: from a lock to the owner of its turnstile, which is lent the
//! best priority of those who wait, and from an owner that stands on a turnstile itself to the lock for which that one
//! waits, where it is sorted anew. A hop takes the chain of turnstiles and then one record, works on both where nobody
//! else can see them, commits the work by one atomic step, and gives both back. No call waits, and none takes memory.
ghost use Rattle.std.specs.Prelude.{◌≡◌, ◌≢◌, ℕ, ◌<◌, ◌^◌, ⊤, true, false, None, Some, [], ◌∷◌, option_map, is_some, IfNone, IfSome, IsSomeAnd};
ghost use Rattle.std.specs.Box.{with_value};
ghost use Rattle.atomic_table.specs.Table.{Allows, rest};
ghost use Rattle.chain_table.specs.Chains.{head_of};
ghost use Rattle.lock_model.specs.Queues.{lock_queue, names_turnstile};
ghost use Rattle.lock_model.specs.Words.{is_turnstile};
ghost use Rattle.lock_objects.specs.Hops.{CanHop};
ghost use Rattle.lock_objects.specs.Represents.{walk_of};
ghost use Rattle.lock_state.specs.State.{NoWalk, AtLock, AtThread};
ghost use Rattle.lock_state.specs.Steps.{Step, Lends, EndsWalk};
ghost use Rattle.lock_state.specs.Steps.Items.{RecordOf};
ghost use Rattle.turnstile_core.specs.Changes.{waits};
ghost use Rattle.floor_table.specs.Descriptions.{config_in};
ghost use Rattle.floor_table.specs.declared.slot.Slot.TheVariants.{Record, Turnstiles};
ghost use Rattle.floor_table.specs.Places.{spot, latch_line};
ghost use Rattle.floor_table.specs.Rule.{FloorHolds};
ghost use Rattle.floor_table.specs.Steps.{MayMake, Makes};
ghost use Rattle.floor_table.specs.Views.{seeing};
ghost use Rattle.lock_floor.specs.Latches.{FindsOut, Takes};
ghost use Rattle.lock_floor.specs.Passes.{IsOf};
ghost use Rattle.lock_floor.specs.Walks.{CanWalk, HasTurnstilesOut, HopsOn, NeedsRecord, turnstiles, turnstiles_place, owner_of_head, IsStepAtThread, MayLendTo, MaySort, StepsInHop, hopped, IsLentTo, StandsNowhere, IsSorted};

use crate::floor::FloorOf;
use crate::pass::Pass;
use chain_table::Chain;
use floor_table::{Board, Description, FloorSeat, Law, Slot, Tells, View, latch_spot, load};
use lock_model::{Kind, LockNo, QueueName, ThreadNo};
use lock_objects::{lend_to_owner, sort_anew};
use prio_lending::Walk;
use std::marker::Brand;
use thread_records::ThreadRec;
use turnstile_core::Turnstile;

impl FloorOf<Slot, View, Description, Law> {
    /// Takes the chain of turnstiles for a hop of the thread's walk, if it is at home. The thread has nothing out yet.
    /// `false` comes only where another thread had the chain out at a moment between the pass's last step and this
    /// call's return.
    pub fn try_take_turnstiles(&self, pass: &mut Pass) -> bool
        requires own { IsOf self.now pass.old }
        requires may { CanWalk self.now.description pass.old.view }
        ensures own { IsOf self.now pass.new }
        ensures out { result ≡ true → Takes self.now.description turnstiles
            (turnstiles_place self.now.description) pass.old.view pass.new.view }
        ensures in_hop { result ≡ true
            → HasTurnstilesOut self.now.description pass.new.view }
        ensures left { result ≡ false → pass.new.view
            ≡ seeing pass.new.view.seen pass.old.view }
        ensures elsewhere { result ≡ false
            → FindsOut self.now.description turnstiles pass.old.view pass.new.view }
    {
        let chain = self.turnstiles_slot();
        self.try_take(pass, chain)
    }

    /// Makes the rest of a hop of the thread's walk, for which it has the chain of turnstiles out. Where the walk is,
    /// `there` tells, and the answer tells where it is then: nowhere, if it has ended; the thread has nothing out then.
    /// `None` comes only where another thread had the record out that the hop needs (at a lock that of the owner of its
    /// turnstile, at a thread that one's), at a moment between the pass's last step and this call's return, or the pass
    /// itself has it. It never waits.
    pub fn try_hop(&self, pass: &mut Pass, there: Walk) -> Option<Walk>
        requires own { IsOf self.now pass.old }
        requires in_hop { HasTurnstilesOut self.now.description pass.old.view }
        requires there { walk_of there ≡ pass.old.view.share.doing.walk }
        requires under_way { pass.old.view.share.doing.walk ≢ NoWalk }
        ensures own { IsOf self.now pass.new }
        ensures hop { IfSome result (λ walk.
            HopsOn self.now.description (walk_of walk) pass.old.view pass.new.view) }
        ensures left { IfNone result (pass.new.view
            ≡ seeing pass.new.view.seen pass.old.view) }
        ensures elsewhere { IfNone result ((o : ℕ)
            × NeedsRecord self.now.description o pass.old.view
            × FindsOut self.now.description (RecordOf o) pass.old.view pass.new.view) }
    {
        match there {
            Walk::None => unreachable!(),
            Walk::AtLock(l) => self.hop_at_lock(pass, l),
            Walk::AtThread(o) => self.hop_at_thread(pass, o),
        }
    }

    // The same at a lock: the owner of its turnstile is lent to, or the walk ends where there is none.
    fn hop_at_lock(&self, pass: &mut Pass, l: LockNo) -> Option<Walk>
        requires own { IsOf self.now pass.old }
        requires in_hop { HasTurnstilesOut self.now.description pass.old.view }
        requires there { pass.old.view.share.doing.walk ≡ AtLock l.0 }
        ensures own { IsOf self.now pass.new }
        ensures hop { IfSome result (λ walk.
            HopsOn self.now.description (walk_of walk) pass.old.view pass.new.view) }
        ensures left { IfNone result (pass.new.view
            ≡ seeing pass.new.view.seen pass.old.view) }
        ensures elsewhere { IfNone result ((o : ℕ)
            × NeedsRecord self.now.description o pass.old.view
            × FindsOut self.now.description (RecordOf o) pass.old.view pass.new.view) }
    {
        let chain = self.turnstiles_slot();
        match self.owner_at(pass, chain, l) {
            Some(o) => {
                if !self.try_take_rec(pass, o) {
                    return None;
                }
                let walk = self.lend(pass, l, o);
                self.give_rec(pass, o);
                self.give(pass, chain);
                Some(walk)
            }
            None => {
                self.end_walk(pass);
                self.give(pass, chain);
                Some(Walk::None)
            }
        }
    }

    // The same at a thread: it is sorted anew where it stands on a turnstile, or else the walk ends.
    fn hop_at_thread(&self, pass: &mut Pass, o: ThreadNo) -> Option<Walk>
        requires own { IsOf self.now pass.old }
        requires in_hop { HasTurnstilesOut self.now.description pass.old.view }
        requires there { pass.old.view.share.doing.walk ≡ AtThread o.0 }
        ensures own { IsOf self.now pass.new }
        ensures hop { IfSome result (λ walk.
            HopsOn self.now.description (walk_of walk) pass.old.view pass.new.view) }
        ensures left { IfNone result (pass.new.view
            ≡ seeing pass.new.view.seen pass.old.view) }
        ensures elsewhere { IfNone result ((o : ℕ)
            × NeedsRecord self.now.description o pass.old.view
            × FindsOut self.now.description (RecordOf o) pass.old.view pass.new.view) }
    {
        if !self.try_take_rec(pass, o) {
            return None;
        }
        let chain = self.turnstiles_slot();
        let walk = self.sort(pass, o);
        self.give_rec(pass, o);
        self.give(pass, chain);
        Some(walk)
    }

    // Lends to the owner of a lock's turnstile, whose record was taken last, and before it the chain. It is one atomic
    // step, and never waits.
    fn lend(&self, pass: &mut Pass, l: LockNo, o: ThreadNo) -> Walk
        requires own { IsOf self.now pass.old }
        requires may { MayLendTo self.now.description l.0 o.0 pass.old.view }
        ensures own { IsOf self.now pass.new }
        ensures step { (h : ℕ) × StepsInHop self.now.description o.0
            (Lends pass.old.view.thread l.0 o.0 h) (walk_of result) pass.old.view pass.new.view }
    {
        let (own, chain) = (usize::from(o.0), self.turnstiles_slot());
        let walk = lend_out(
            &self.board,
            &self.description,
            &mut pass.seat,
            own,
            chain,
            l,
        );
        lent::<Brand>(&self.board, &mut pass.seat, chain, l, o, walk);
        walk
    }

    // Sorts a thread anew where it stands on a turnstile, whose record was taken last, and before it the chain; or the
    // walk ends. It is one atomic step, and never waits.
    fn sort(&self, pass: &mut Pass, o: ThreadNo) -> Walk
        requires own { IsOf self.now pass.old }
        requires may { MaySort self.now.description o.0 pass.old.view }
        ensures own { IsOf self.now pass.new }
        ensures step { (step : Step) × IsStepAtThread pass.old.view.thread o.0 step
            × StepsInHop self.now.description o.0 step (walk_of result)
            pass.old.view pass.new.view }
    {
        let (own, chain) = (usize::from(o.0), self.turnstiles_slot());
        let sorted = sort_out(&self.board, &self.description, &mut pass.seat, own, chain);
        match sorted {
            Some((l, walk)) => {
                shifted::<Brand>(&self.board, &mut pass.seat, chain, l, o, walk);
                walk
            }
            None => {
                ended::<Brand>(&self.board, &mut pass.seat, chain);
                Walk::None
            }
        }
    }

    // Ends the walk, which is at a lock whose turnstile has no owner, where the chain was taken last. It is one atomic
    // step, and never waits.
    fn end_walk(&self, pass: &mut Pass)
        requires own { IsOf self.now pass.old }
        requires one_chain { self.now.description.chains ≡ 1 }
        requires may { MayMake self.now.description pass.old.view (λ s. ⊤)
            (EndsWalk pass.old.view.thread ∷ []) }
        ensures own { IsOf self.now pass.new }
        ensures view { pass.new.view ≡ seeing pass.new.view.seen
            (hopped pass.old.view NoWalk pass.old.view.out) }
        ensures step { Makes self.now.description (EndsWalk pass.old.view.thread ∷ [])
            pass.old.view pass.new.view }
    {
        let chain = self.turnstiles_slot();
        ended::<Brand>(&self.board, &mut pass.seat, chain);
    }

    // The owner of a lock's turnstile, in the chain that was taken last.
    fn owner_at(&self, pass: &mut Pass, chain: usize, l: LockNo) -> Option<ThreadNo>
        requires own { IsOf self.now pass.old }
        requires last { (x : _)
            × (pass.old.view.out ≡ (chain, Turnstiles x) ∷ rest pass.old.view.out) }
        ensures same { pass.new ≡ pass.old }
        ensures owner { (x : _)
            → pass.old.view.out ≡ (chain, Turnstiles x) ∷ rest pass.old.view.out
            → option_map (λ t. t.0) result ≡ owner_of_head (head_of (lock_queue l.0) x) }
    {
        match pass.seat.slot_mut(&self.board.shared, chain) {
            Slot::Turnstiles(turnstiles) => match turnstiles.find(QueueName::Lock(l)) {
                Some(head) => head.owner(),
                None => None,
            },
            Slot::Record(_) | Slot::Cell(_) | Slot::SleepQueues(_) | Slot::Graph(_) =>
                unreachable!(),
        }
    }

    // Where the chain of turnstiles lies.
    fn turnstiles_slot(&self) -> usize
        ensures { result ≡ turnstiles_place self.now.description }
    {
        self.description.threads.as_slice().len() + self.description.keys.as_slice().len()
    }
}

// Lends to the owner of a lock's turnstile: in its record, which was taken last, and in the chain before it.
fn lend_out(
    board: &Board,
    floor: &Description,
    seat: &mut FloorSeat,
    own: usize,
    at: usize,
    l: LockNo,
) -> Walk
    requires own { seat.old.table_id ≡ board.now.shared.table_id }
    requires out { (b : _) × (chain : _)
        × (seat.old.me.1 ≡ (own, Record b) ∷ (at, Turnstiles chain) ∷ [])
        × IsSomeAnd (head_of (lock_queue l.0) chain) (CanHop l.0 b.value) }
    ensures own { seat.new.table_id ≡ seat.old.table_id }
    ensures view { seat.new.me.0 ≡ seat.old.me.0 }
    ensures out { (b : _) (chain : _)
        → seat.old.me.1 ≡ (own, Record b) ∷ (at, Turnstiles chain) ∷ []
        → (m : _) × (new : _)
        × (seat.new.me.1 ≡ (own, Record (with_value b m)) ∷ (at, Turnstiles new) ∷ [])
        × IsLentTo floor.now l.0 result b.value m chain new }
{
    // the record moves out, so that the chain can change beside it
    let mut first = board.shared.exchange(seat, own, Slot::Cell(None));
    seat.turn();
    let Slot::Record(rec) = &mut first else {
        unreachable!()
    };
    let Slot::Turnstiles(chain) = seat.slot_mut(&board.shared, at) else {
        unreachable!()
    };
    let walk = lend_in(floor, chain, rec, l);
    seat.turn();
    board.shared.exchange(seat, own, first);
    walk
}

// Lends to the owner of the turnstile that a lock has in the chain.
fn lend_in(
    floor: &Description,
    chain: &mut Chain<Turnstile>,
    owner: &mut ThreadRec,
    l: LockNo,
) -> Walk
    requires { IsSomeAnd (head_of (lock_queue l.0) chain.old) (CanHop l.0 owner.old) }
    ensures { IsLentTo floor.now l.0 result owner.old owner.new chain.old chain.new }
{
    let on_turnstile = turnstile_named(floor, owner.on()).is_some();
    lend_to_owner(chain, owner, l, on_turnstile)
}

// Sorts the thread of the record, which was taken last, anew in the chain before it, where it stands on a turnstile
// there. Answers for which lock it waits there, and where the walk goes on.
fn sort_out(
    board: &Board,
    floor: &Description,
    seat: &mut FloorSeat,
    own: usize,
    at: usize,
) -> Option<(LockNo, Walk)>
    requires own { seat.old.table_id ≡ board.now.shared.table_id }
    requires out { (b : _) × (chain : _)
        × (seat.old.me.1 ≡ (own, Record b) ∷ (at, Turnstiles chain) ∷ []) }
    ensures own { seat.new.table_id ≡ seat.old.table_id }
    ensures view { seat.new.me.0 ≡ seat.old.me.0 }
    ensures some { IfSome result (λ r. (b : _) (chain : _)
        → seat.old.me.1 ≡ (own, Record b) ∷ (at, Turnstiles chain) ∷ []
        → (new : _) × (seat.new.me.1 ≡ (own, Record b) ∷ (at, Turnstiles new) ∷ [])
        × IsSorted floor.now r.0.0 r.1 b.value chain new) }
    ensures none { IfNone result ((b : _) (chain : _)
        → seat.old.me.1 ≡ (own, Record b) ∷ (at, Turnstiles chain) ∷ []
        → (seat.new.me.1 ≡ seat.old.me.1) × StandsNowhere floor.now b.value chain) }
{
    let first = board.shared.exchange(seat, own, Slot::Cell(None));
    seat.turn();
    let Slot::Record(rec) = &first else {
        unreachable!()
    };
    let Slot::Turnstiles(chain) = seat.slot_mut(&board.shared, at) else {
        unreachable!()
    };
    let sorted = sort_in(floor, chain, rec);
    seat.turn();
    board.shared.exchange(seat, own, first);
    sorted
}

// Sorts a thread anew where it stands on a turnstile of the chain. Answers for which lock it waits there, and where the
// walk goes on.
fn sort_in(
    floor: &Description,
    chain: &mut Chain<Turnstile>,
    rec: &ThreadRec,
) -> Option<(LockNo, Walk)>
    ensures some { IfSome result (λ r. IsSorted floor.now r.0.0 r.1 rec.now chain.old chain.new) }
    ensures none { IfNone result ((chain.new ≡ chain.old)
        × StandsNowhere floor.now rec.now chain.old) }
{
    let l = turnstile_named(floor, rec.on())?;
    let owned = owned_where(chain, rec.thread(), l)?;
    Some((l, sort_anew(chain, rec, l, owned)))
}

// Whether the turnstile of a lock has an owner, where the thread waits there.
fn owned_where(chain: &Chain<Turnstile>, o: ThreadNo, l: LockNo) -> Option<bool>
    ensures some { IfSome result (λ owned. IsSomeAnd (head_of (lock_queue l.0) chain.now) (λ h.
        (waits o.0 h.contents ≡ true) × (owned ≡ is_some h.contents.own.owner))) }
    ensures none { IfNone result (IfSome (head_of (lock_queue l.0) chain.now) (λ h.
        waits o.0 h.contents ≡ false)) }
{
    let head = chain.find(QueueName::Lock(l))?;
    if head.waits(o) {
        Some(head.owner().is_some())
    } else {
        None
    }
}

// The lock whose turnstile a record names. A lock that the floor doesn't have counts as a mutex (`config_in`).
fn turnstile_named(floor: &Description, on: Option<QueueName>) -> Option<LockNo>
    ensures named { IfSome result (λ l. (on ≡ Some (lock_queue l.0))
        × (is_turnstile ((config_in floor.now).kind l.0) ≡ true)) }
    ensures turnstile { is_some result ≡ names_turnstile (config_in floor.now) on }
{
    match on? {
        QueueName::Lock(l) => match kind_in(floor, l) {
            Kind::Mtx | Kind::Rw => Some(l),
            Kind::Sx => None,
        },
        QueueName::Chan(_) => None,
    }
}

// The kind of a lock.
fn kind_in(floor: &Description, l: LockNo) -> Kind
    ensures { result ≡ (config_in floor.now).kind l.0 }
{
    match floor.locks.as_slice().get(usize::from(l.0)) {
        Some(lock) => lock.kind,
        None => Kind::Mtx,
    }
}

// Reads the latch of the chain, by which the owner of a lock's turnstile was lent to, and the walk went on.
fn lent<J: Tells>(
    board: &Board,
    seat: &mut FloorSeat,
    at: usize,
    _l: LockNo,
    _o: ThreadNo,
    _walk: Walk,
)
    requires own { seat.old.table_id ≡ board.now.shared.table_id }
    requires slot { at < 2 ^ 32 }
    requires within { spot (latch_line at) < board.now.shared.table_id.words }
    requires may { Allows (FloorHolds board.now.shared.key) board.now.shared.table_id.slots
        seat.old.id seat.old.me (spot (latch_line at)) (λ n. n) (J.told seat.old.me) }
    ensures own { seat.new.table_id ≡ seat.old.table_id }
    ensures told { (n : ℕ) × J.told seat.old.me n seat.new.me }
{
    load::<J>(board, seat, latch_spot(at));
}

// The same, by which a thread was sorted anew.
fn shifted<J: Tells>(
    board: &Board,
    seat: &mut FloorSeat,
    at: usize,
    _l: LockNo,
    _o: ThreadNo,
    _walk: Walk,
)
    requires own { seat.old.table_id ≡ board.now.shared.table_id }
    requires slot { at < 2 ^ 32 }
    requires within { spot (latch_line at) < board.now.shared.table_id.words }
    requires may { Allows (FloorHolds board.now.shared.key) board.now.shared.table_id.slots
        seat.old.id seat.old.me (spot (latch_line at)) (λ n. n) (J.told seat.old.me) }
    ensures own { seat.new.table_id ≡ seat.old.table_id }
    ensures told { (n : ℕ) × J.told seat.old.me n seat.new.me }
{
    load::<J>(board, seat, latch_spot(at));
}

// The same, by which the walk ended.
fn ended<J: Tells>(board: &Board, seat: &mut FloorSeat, at: usize)
    requires own { seat.old.table_id ≡ board.now.shared.table_id }
    requires slot { at < 2 ^ 32 }
    requires within { spot (latch_line at) < board.now.shared.table_id.words }
    requires may { Allows (FloorHolds board.now.shared.key) board.now.shared.table_id.slots
        seat.old.id seat.old.me (spot (latch_line at)) (λ n. n) (J.told seat.old.me) }
    ensures own { seat.new.table_id ≡ seat.old.table_id }
    ensures told { (n : ℕ) × J.told seat.old.me n seat.new.me }
{
    load::<J>(board, seat, latch_spot(at));
}
