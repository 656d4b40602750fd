//! Changes and reads of the locks' tables by a thread at rest. Each call takes the value at a key out of its home,
//! makes one entry, and gives the value back. None takes memory. A try never waits; a call that waits is a loop over
//! its try.
ghost use Rattle.std.specs.Prelude.{◌≡◌, ◌≢◌, ◌≤◌, ◌↔◌, true, ◌∷◌, IfErr, IfNone, IfOk, IfSome};
ghost use Rattle.std.specs.List.{Contains};
ghost use Rattle.atomic_table.specs.Table.{rest};
ghost use Rattle.lock_model.specs.Holds.{NotHeld, Holds};
ghost use Rattle.lock_model.specs.Operations.{hold_in};
ghost use Rattle.lock_model.specs.declared.event.Event.TheVariants.{Got};
ghost use Rattle.lock_model.specs.declared.plan.Mode.TheVariants.{Excl};
ghost use Rattle.lock_state.specs.Steps.Items.{CellOf};
ghost use Rattle.floor_table.specs.declared.slot.Slot.TheVariants.{Cell};
ghost use Rattle.floor_table.specs.Steps.{MakesEach};
ghost use Rattle.floor_table.specs.Views.{seeing};
ghost use Rattle.lock_floor.specs.Cells.{IsCellAt, IsCellOf};
ghost use Rattle.lock_floor.specs.Changes.{event_of};
ghost use Rattle.lock_floor.specs.Latches.{FindsOut};
ghost use Rattle.lock_floor.specs.Passes.{IsOf, IsReady, MakesEntry, with_item};

use crate::floor::FloorOf;
use crate::latches::Out;
use crate::pass::Pass;
use crossbeam_utils::Backoff;
use floor_table::{Description, Law, Slot, View};
use lock_model::{Event, LockNo};
use std::sync::Wait;

/// What a change makes of the value at a key of a lock's table.
#[derive(Clone, Copy, Debug, PartialEq, Eq)]
pub enum Change {
    /// It is this.
    Set(u64),
    /// It is greater by this, modulo 2^64. Where the key is absent it was 0.
    Add(u64),
}

impl Change {
    // The entry that says so.
    fn event(self, l: LockNo, key: u64) -> Event
        ensures { result ≡ event_of l key self }
    {
        match self {
            Change::Set(value) => Event::Set { l, key, value },
            Change::Add(amount) => Event::Added { l, key, amount },
        }
    }
}

/// A cell of a lock's table, which was found by its key: for edits and reads of one search.
#[derive(Clone, Copy, Debug, PartialEq, Eq)]
pub struct TableCell {
    /// The lock.
    pub l: LockNo,
    /// The key.
    pub key: u64,
    /// Where its value lies in the floor's table. `has_cell` says whether it does.
    pub slot: usize,
}

impl FloorOf<Slot, View, Description, Law> {
    /// The cell at a key of a lock's table. `None` comes exactly where the key isn't one of the floor's.
    pub fn find_cell(&self, l: LockNo, key: u64) -> Option<TableCell>
        ensures some { IfSome result (λ cell. IsCellAt self.now.description l key cell) }
        ensures none { IfNone result (Contains self.now.description.keys (l.0, key) → ⊥) }
    {
        match self.description.keys.as_slice().binary_search(&(l.0, key)) {
            Ok(i) => {
                let slot = self.description.threads.as_slice().len() + i;
                Some(TableCell { l, key, slot })
            }
            Err(_) => None,
        }
    }

    /// Whether a cell is one of the floor's: it may have been found on another.
    pub fn has_cell(&self, cell: TableCell) -> bool
        ensures { (result ≡ true) ↔ IsCellOf self.now.description cell }
    {
        let first = self.description.threads.as_slice().len();
        if cell.slot < first {
            return false;
        }
        match self.description.keys.as_slice().get(cell.slot - first) {
            Some(at) => at.0 == cell.l.0 && at.1 == cell.key,
            None => false,
        }
    }

    /// Changes the value of a cell of the table of a lock that is held exclusively, if the value is at home. `Err`
    /// comes only where another thread had it out at a moment between the pass's last step and this call's return.
    pub fn try_edit(&self, pass: &mut Pass, cell: TableCell, change: Change) -> Result<(), Out>
        requires ready { IsReady self.now pass.old }
        requires cell { IsCellOf self.now.description cell }
        requires held { hold_in pass.old.view.share.held cell.l.0 ≡ Holds Excl }
        requires room { 1 ≤ pass.old.view.spare }
        ensures ready { IsReady self.now pass.new }
        ensures entry { IfOk result (λ _. MakesEntry self.now.description
            (event_of cell.l cell.key change)
            pass.old.view.share.held pass.old.view pass.new.view) }
        ensures steps { IfOk result (λ _. MakesEach self.now.description
            (with_item pass.old.view.thread (CellOf cell.l.0 cell.key)
            (event_of cell.l cell.key change)) pass.old.view pass.new.view) }
        ensures left { IfErr result (λ _. pass.new.view
            ≡ seeing pass.new.view.seen pass.old.view) }
        ensures elsewhere { IfErr result (λ _. FindsOut self.now.description
            (CellOf cell.l.0 cell.key) pass.old.view pass.new.view) }
    {
        if !self.try_take(pass, cell.slot) {
            return Err(Out);
        }
        self.stamp_change(pass, cell.slot, change.event(cell.l, cell.key));
        self.give(pass, cell.slot);
        Ok(())
    }

    /// Changes the value of a cell of the table of a lock that is held exclusively. It waits while another thread has
    /// the value out.
    pub fn edit_cell<R: Wait>(&self, rt: &R, pass: &mut Pass, cell: TableCell, change: Change)
        requires ready { IsReady self.now pass.old }
        requires cell { IsCellOf self.now.description cell }
        requires held { hold_in pass.old.view.share.held cell.l.0 ≡ Holds Excl }
        requires room { 1 ≤ pass.old.view.spare }
        ensures ready { IsReady self.now pass.new }
        ensures entry { MakesEntry self.now.description (event_of cell.l cell.key change)
            pass.old.view.share.held pass.old.view pass.new.view }
        ensures steps { MakesEach self.now.description
            (with_item pass.old.view.thread (CellOf cell.l.0 cell.key)
            (event_of cell.l cell.key change)) pass.old.view pass.new.view }
    {
        let backoff = Backoff::new();
        for _ in rt.forever() {
            match self.try_edit(pass, cell, change) {
                Ok(()) => return,
                // it spins for a while, and then lets the system run whoever has it
                Err(Out) => backoff.snooze(),
            }
        }
        unreachable!()
    }

    /// Changes the value at a key of the table of a lock that is held exclusively. The key is one of the floor's. It
    /// waits while another thread has the value out.
    pub fn edit<R: Wait>(&self, rt: &R, pass: &mut Pass, l: LockNo, key: u64, change: Change)
        requires ready { IsReady self.now pass.old }
        requires held { hold_in pass.old.view.share.held l.0 ≡ Holds Excl }
        requires named { Contains self.now.description.keys (l.0, key) }
        requires room { 1 ≤ pass.old.view.spare }
        ensures ready { IsReady self.now pass.new }
        ensures entry { MakesEntry self.now.description (event_of l key change)
            pass.old.view.share.held pass.old.view pass.new.view }
        ensures steps { MakesEach self.now.description
            (with_item pass.old.view.thread (CellOf l.0 key) (event_of l key change))
            pass.old.view pass.new.view }
    {
        match self.find_cell(l, key) {
            Some(cell) => self.edit_cell(rt, pass, cell, change),
            None => unreachable!(),
        }
    }

    /// The value of a cell of the table of a lock that is held, if it is at home; `None` comes exactly where the key is
    /// absent. `Err` comes only where another thread had it out at a moment between the pass's last step and this
    /// call's return.
    pub fn try_read(&self, pass: &mut Pass, cell: TableCell) -> Result<Option<u64>, Out>
        requires ready { IsReady self.now pass.old }
        requires cell { IsCellOf self.now.description cell }
        requires held { hold_in pass.old.view.share.held cell.l.0 ≢ NotHeld }
        requires room { 1 ≤ pass.old.view.spare }
        ensures ready { IsReady self.now pass.new }
        ensures entry { IfOk result (λ found. MakesEntry self.now.description
            (Got cell.l cell.key found)
            pass.old.view.share.held pass.old.view pass.new.view) }
        ensures steps { IfOk result (λ found. MakesEach self.now.description
            (with_item pass.old.view.thread (CellOf cell.l.0 cell.key)
            (Got cell.l cell.key found)) pass.old.view pass.new.view) }
        ensures left { IfErr result (λ _. pass.new.view
            ≡ seeing pass.new.view.seen pass.old.view) }
        ensures elsewhere { IfErr result (λ _. FindsOut self.now.description
            (CellOf cell.l.0 cell.key) pass.old.view pass.new.view) }
    {
        if !self.try_take(pass, cell.slot) {
            return Err(Out);
        }
        let found = self.value(pass, cell.slot);
        let (l, key) = (cell.l, cell.key);
        self.stamp(pass, Event::Got { l, key, found });
        self.give(pass, cell.slot);
        Ok(found)
    }

    /// The value of a cell of the table of a lock that is held. `None` comes exactly where the key is absent. It waits
    /// while another thread has the value out.
    pub fn read_cell<R: Wait>(&self, rt: &R, pass: &mut Pass, cell: TableCell) -> Option<u64>
        requires ready { IsReady self.now pass.old }
        requires cell { IsCellOf self.now.description cell }
        requires held { hold_in pass.old.view.share.held cell.l.0 ≢ NotHeld }
        requires room { 1 ≤ pass.old.view.spare }
        ensures ready { IsReady self.now pass.new }
        ensures entry { MakesEntry self.now.description (Got cell.l cell.key result)
            pass.old.view.share.held pass.old.view pass.new.view }
        ensures steps { MakesEach self.now.description
            (with_item pass.old.view.thread (CellOf cell.l.0 cell.key)
            (Got cell.l cell.key result)) pass.old.view pass.new.view }
    {
        let backoff = Backoff::new();
        for _ in rt.forever() {
            match self.try_read(pass, cell) {
                Ok(found) => return found,
                // as an edit waits
                Err(Out) => backoff.snooze(),
            }
        }
        unreachable!()
    }

    /// The value at a key of the table of a lock that is held. The key is one of the floor's. `None` comes exactly
    /// where the key is absent. It waits while another thread has the value out.
    pub fn read<R: Wait>(&self, rt: &R, pass: &mut Pass, l: LockNo, key: u64) -> Option<u64>
        requires ready { IsReady self.now pass.old }
        requires held { hold_in pass.old.view.share.held l.0 ≢ NotHeld }
        requires named { Contains self.now.description.keys (l.0, key) }
        requires room { 1 ≤ pass.old.view.spare }
        ensures ready { IsReady self.now pass.new }
        ensures entry { MakesEntry self.now.description (Got l key result)
            pass.old.view.share.held pass.old.view pass.new.view }
        ensures steps { MakesEach self.now.description
            (with_item pass.old.view.thread (CellOf l.0 key) (Got l key result))
            pass.old.view pass.new.view }
    {
        match self.find_cell(l, key) {
            Some(cell) => self.read_cell(rt, pass, cell),
            None => unreachable!(),
        }
    }

    // What the cell has that was taken last.
    fn value(&self, pass: &mut Pass, slot: usize) -> Option<u64>
        requires own { IsOf self.now pass.old }
        requires last { (x : _) × (pass.old.view.out ≡ (slot, Cell x) ∷ rest pass.old.view.out) }
        ensures same { pass.new ≡ pass.old }
        ensures value { pass.old.view.out ≡ (slot, Cell result) ∷ rest pass.old.view.out }
    {
        match pass.seat.slot_mut(&self.board.shared, slot) {
            Slot::Cell(value) => *value,
            Slot::Record(_) | Slot::Turnstiles(_) | Slot::SleepQueues(_) | Slot::Graph(_) =>
                unreachable!(),
        }
    }
}
