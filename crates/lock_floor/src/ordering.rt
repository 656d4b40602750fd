//! The order in which locks are taken, as `witness_checkorder` of FreeBSD's subr_witness.c checks it. A blocking call
//! takes the class graph, checks its lock behind those that the thread holds, and gives the graph back: with the lock
//! admitted, and so wanted, or with a refusal to note. The graph is taken and given back by one atomic step each, and
//! the call never waits and takes no memory.
ghost use Rattle.std.specs.Prelude.{◌≡◌, ◌<◌, ◌≤◌, ◌^◌, true, false, None, Some, [], ◌∷◌, length, map, take, option_map, IfNone, IfSome, IfOk, IfErr};
ghost use Rattle.std.specs.Box.{with_value};
ghost use Rattle.std.specs.List.{All};
ghost use Rattle.atomic_table.specs.Table.{Allows, rest};
ghost use Rattle.lock_state.specs.Steps.{TakesItem};
ghost use Rattle.lock_state.specs.Steps.Items.{ClassGraph};
ghost use Rattle.witness_orders.specs.Graph.{numbers_of};
ghost use Rattle.floor_table.specs.Descriptions.{config_in};
ghost use Rattle.floor_table.specs.declared.slot.Slot.TheVariants.{Graph};
ghost use Rattle.floor_table.specs.Places.{spot, latch_line, graph_place};
ghost use Rattle.floor_table.specs.Rule.{FloorHolds};
ghost use Rattle.floor_table.specs.Steps.{MayMake};
ghost use Rattle.floor_table.specs.Views.{seeing};
ghost use Rattle.lock_floor.specs.Latches.{FindsOut, Takes};
ghost use Rattle.lock_floor.specs.Ordering.{MayOrder, HasGraph, IsVerdict, Settles, ChecksOrder};
ghost use Rattle.lock_floor.specs.Passes.{IsOf};

use crate::floor::FloorOf;
use crate::latches::give_latch;
use crate::pass::Pass;
use floor_table::{Board, Description, FloorSeat, Law, Slot, Tells, View};
use lock_model::limits::HELD;
use lock_model::{ClassNo, Held, LockNo, Reversal};
use std::marker::Brand;

impl FloorOf<Slot, View, Description, Law> {
    /// Checks the order of a lock, which a blocking call is about to take, behind the locks that the thread holds, if
    /// the class graph is at home. It never waits: `None` comes only where another thread had the graph out at a moment
    /// between the pass's last step and this call's return. `Err` comes exactly where the class of a held lock forbids
    /// that of the lock by the graph as this call found it, and names the first such class in order of acquisition: it
    /// is to be noted. Else the thread wants the lock then, and the graph has an edge to its class from that of each
    /// held lock.
    pub fn try_order(&self, pass: &mut Pass, l: LockNo) -> Option<Result<(), Reversal>>
        requires own { IsOf self.now pass.old }
        requires lock { l.0 < length self.now.description.locks }
        requires first { pass.old.view.out ≡ [] }
        requires may { MayOrder self.now.description l.0 pass.old.view }
        ensures own { IsOf self.now pass.new }
        ensures left { IfNone result (pass.new.view ≡ seeing pass.new.view.seen pass.old.view) }
        ensures elsewhere { IfNone result
            (FindsOut self.now.description ClassGraph pass.old.view pass.new.view) }
        ensures admitted { IfSome result (λ checked. IfOk checked
            (λ _. ChecksOrder self.now.description l.0 None pass.old.view pass.new.view)) }
        ensures refused { IfSome result (λ checked. IfErr checked (λ r.
            ChecksOrder self.now.description l.0 (Some r.held.0) pass.old.view pass.new.view)) }
        ensures wanted { IfSome result (λ checked. IfErr checked (λ r.
            r.wanted.0 ≡ (config_in self.now.description).class l.0)) }
    {
        if !self.try_take_graph(pass) {
            return None;
        }
        match self.settle(pass, l) {
            None => Some(Ok(())),
            Some(held) => Some(Err(Reversal {
                held,
                wanted: self.class(l),
            })),
        }
    }

    // Takes the class graph, if it is at home. `false` comes only where another thread had it out meanwhile.
    fn try_take_graph(&self, pass: &mut Pass) -> bool
        requires own { IsOf self.now pass.old }
        requires may { MayMake self.now.description pass.old.view (λ s. s.graph_with ≡ None)
            (TakesItem pass.old.view.thread ClassGraph ∷ []) }
        ensures own { IsOf self.now pass.new }
        ensures out { result ≡ true → Takes self.now.description ClassGraph
            (graph_place self.now.description) pass.old.view pass.new.view }
        ensures left { result ≡ false → pass.new.view
            ≡ seeing pass.new.view.seen pass.old.view }
        ensures elsewhere { result ≡ false
            → FindsOut self.now.description ClassGraph pass.old.view pass.new.view }
    {
        let slot = self.graph_slot();
        self.try_take(pass, slot)
    }

    // Checks the order of a lock in that graph, which alone is out, and gives it back, by one atomic step. Answers the
    // class of a held lock that forbids it.
    fn settle(&self, pass: &mut Pass, l: LockNo) -> Option<ClassNo>
        requires own { IsOf self.now pass.old }
        requires lock { l.0 < length self.now.description.locks }
        requires may { MayOrder self.now.description l.0 pass.old.view }
        requires graph { HasGraph self.now.description pass.old.view }
        ensures own { IsOf self.now pass.new }
        ensures settles { Settles self.now.description l.0 (option_map (λ k. k.0) result)
            pass.old.view pass.new.view }
    {
        let mut classes = [ClassNo(0); HELD];
        self.put_classes(&pass.held, &mut classes);
        let held = &classes[..pass.held.len()];
        let slot = self.graph_slot();
        let against = learn(&self.board, &mut pass.seat, slot, held, self.class(l));
        give_graph::<Brand>(&self.board, &mut pass.seat, slot, l, against);
        against
    }

    // Where the class graph lies.
    fn graph_slot(&self) -> usize
        ensures { result ≡ graph_place self.now.description }
    {
        self.description.threads.as_slice().len()
            + self.description.keys.as_slice().len()
            + 2 * self.description.chains as usize
    }

    // Writes the classes of held locks, in order of acquisition.
    fn put_classes(&self, held: &[Held], classes: &mut [ClassNo])
        requires locks { All (λ h. h.l.0 < length self.now.description.locks) held.now }
        requires room { length held.now ≤ length classes.old }
        ensures { numbers_of (take (length held.now) classes.new)
            ≡ map (λ h. (config_in self.now.description).class h.l.0) held.now }
    {
        for (i, held) in held.iter().enumerate() {
            classes[i] = self.class(held.l);
        }
    }
}

// Checks the order of a class in the graph that was taken last, and learns it where it is admitted. Answers the class
// that forbids it.
fn learn(
    board: &Board,
    seat: &mut FloorSeat,
    slot: usize,
    held: &[ClassNo],
    wanted: ClassNo,
) -> Option<ClassNo>
    requires own { seat.old.table_id ≡ board.now.shared.table_id }
    requires graph { (b : _) × (seat.old.me.1 ≡ (slot, Graph b) ∷ rest seat.old.me.1)
        × All (λ h. h.0 < b.value.classes) held.now × (wanted.0 < b.value.classes) }
    ensures own { seat.new.table_id ≡ seat.old.table_id }
    ensures view { seat.new.me.0 ≡ seat.old.me.0 }
    ensures verdict { (b : _) → seat.old.me.1 ≡ (slot, Graph b) ∷ rest seat.old.me.1
        → (graph : _) × (seat.new.me.1 ≡ (slot, Graph (with_value b graph)) ∷ rest seat.old.me.1)
        × IsVerdict (numbers_of held.now) wanted.0 (option_map (λ k. k.0) result) b.value graph }
{
    match seat.slot_mut(&board.shared, slot) {
        Slot::Graph(orders) => match orders.check(held, wanted) {
            Ok(()) => {
                orders.admit(held, wanted);
                None
            }
            Err(reversal) => Some(reversal.held),
        },
        Slot::Record(_) | Slot::Cell(_) | Slot::Turnstiles(_) | Slot::SleepQueues(_) =>
            unreachable!(),
    }
}

// Gives the class graph back, where a lock was admitted in it, or a class forbids the lock.
fn give_graph<J: Tells>(
    board: &Board,
    seat: &mut FloorSeat,
    slot: usize,
    _l: LockNo,
    _against: Option<ClassNo>,
)
    requires own { seat.old.table_id ≡ board.now.shared.table_id }
    requires slot { slot < 2 ^ 32 }
    requires within { spot (latch_line slot) < board.now.shared.table_id.words }
    requires may { Allows (FloorHolds board.now.shared.key) board.now.shared.table_id.slots
        seat.old.id seat.old.me (spot (latch_line slot)) (λ _. 0)
        (λ _. J.told seat.old.me 0) }
    ensures own { seat.new.table_id ≡ seat.old.table_id }
    ensures told { J.told seat.old.me 0 seat.new.me }
{
    give_latch::<J>(board, seat, slot);
}
