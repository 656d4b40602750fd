//! The priorities of a thread at rest, and its end. A call about priorities takes the thread's record out of its home,
//! makes one entry, and gives the record back. None takes memory. A try never waits; a call that waits is a loop over
//! its try.
ghost use Rattle.std.specs.Prelude.{◌≡◌, ◌≤◌, true, None, Some, [], ◌∷◌, IfErr, IfOk};
ghost use Rattle.atomic_table.specs.Table.{rest};
ghost use Rattle.lock_model.specs.declared.event.Event.TheVariants.{Base, Shown};
ghost use Rattle.lock_state.specs.State.{is_parked};
ghost use Rattle.lock_state.specs.Steps.Items.{RecordOf};
ghost use Rattle.floor_table.specs.declared.slot.Slot.TheVariants.{Record};
ghost use Rattle.floor_table.specs.Places.{slot_of};
ghost use Rattle.floor_table.specs.Steps.{MakesEach};
ghost use Rattle.floor_table.specs.Views.{Runs, seeing};
ghost use Rattle.lock_floor.specs.Latches.{FindsOut};
ghost use Rattle.lock_floor.specs.Passes.{IsOf, IsReady, MakesEntry, with_item};

use crate::floor::FloorOf;
use crate::latches::Out;
use crate::pass::Pass;
use crossbeam_utils::Backoff;
use floor_table::{Description, Law, Slot, View};
use lock_model::{Event, Prio};
use std::sync::Wait;

impl FloorOf<Slot, View, Description, Law> {
    /// Sets the thread's base priority, if its record is at home. `Err` comes only where another thread had it out at a
    /// moment between the pass's last step and this call's return.
    pub fn try_set_base(&self, pass: &mut Pass, prio: Prio) -> Result<(), Out>
        requires ready { IsReady self.now pass.old }
        requires room { 1 ≤ pass.old.view.spare }
        ensures ready { IsReady self.now pass.new }
        ensures entry { IfOk result (λ _. MakesEntry self.now.description (Base prio)
            pass.old.view.share.held pass.old.view pass.new.view) }
        ensures steps { IfOk result (λ _. MakesEach self.now.description
            (with_item pass.old.view.thread (RecordOf pass.old.view.thread) (Base prio))
            pass.old.view pass.new.view) }
        ensures left { IfErr result (λ _. pass.new.view
            ≡ seeing pass.new.view.seen pass.old.view) }
        ensures elsewhere { IfErr result (λ _. FindsOut self.now.description
            (RecordOf pass.old.view.thread) pass.old.view pass.new.view) }
    {
        let slot = self.record_slot(pass);
        if !self.try_take(pass, slot) {
            return Err(Out);
        }
        self.stamp_change(pass, slot, Event::Base { prio });
        self.give(pass, slot);
        Ok(())
    }

    /// Sets the thread's base priority. It waits while another thread has the record out.
    pub fn set_base<R: Wait>(&self, rt: &R, pass: &mut Pass, prio: Prio)
        requires ready { IsReady self.now pass.old }
        requires room { 1 ≤ pass.old.view.spare }
        ensures ready { IsReady self.now pass.new }
        ensures entry { MakesEntry self.now.description (Base prio)
            pass.old.view.share.held pass.old.view pass.new.view }
        ensures steps { MakesEach self.now.description
            (with_item pass.old.view.thread (RecordOf pass.old.view.thread) (Base prio))
            pass.old.view pass.new.view }
    {
        let backoff = Backoff::new();
        for _ in rt.forever() {
            match self.try_set_base(pass, prio) {
                Ok(()) => return,
                // it spins for a while, and then lets the system run whoever has it
                Err(Out) => backoff.snooze(),
            }
        }
        unreachable!()
    }

    /// The thread's base and effective priority, if its record is at home. `Err` comes only where another thread had it
    /// out at a moment between the pass's last step and this call's return.
    pub fn try_show(&self, pass: &mut Pass) -> Result<(Prio, Prio), Out>
        requires ready { IsReady self.now pass.old }
        requires room { 1 ≤ pass.old.view.spare }
        ensures ready { IsReady self.now pass.new }
        ensures entry { IfOk result (λ prios. MakesEntry self.now.description
            (Shown prios.0 prios.1) pass.old.view.share.held pass.old.view pass.new.view) }
        ensures steps { IfOk result (λ prios. MakesEach self.now.description
            (with_item pass.old.view.thread (RecordOf pass.old.view.thread)
            (Shown prios.0 prios.1)) pass.old.view pass.new.view) }
        ensures left { IfErr result (λ _. pass.new.view
            ≡ seeing pass.new.view.seen pass.old.view) }
        ensures elsewhere { IfErr result (λ _. FindsOut self.now.description
            (RecordOf pass.old.view.thread) pass.old.view pass.new.view) }
    {
        let slot = self.record_slot(pass);
        if !self.try_take(pass, slot) {
            return Err(Out);
        }
        let (base, eff) = self.priorities(pass, slot);
        self.stamp(pass, Event::Shown { base, eff });
        self.give(pass, slot);
        Ok((base, eff))
    }

    /// The thread's base and effective priority. It waits while another thread has the record out.
    pub fn show<R: Wait>(&self, rt: &R, pass: &mut Pass) -> (Prio, Prio)
        requires ready { IsReady self.now pass.old }
        requires room { 1 ≤ pass.old.view.spare }
        ensures ready { IsReady self.now pass.new }
        ensures entry { MakesEntry self.now.description (Shown result.0 result.1)
            pass.old.view.share.held pass.old.view pass.new.view }
        ensures steps { MakesEach self.now.description
            (with_item pass.old.view.thread (RecordOf pass.old.view.thread) (Shown result.0 result.1))
            pass.old.view pass.new.view }
    {
        let backoff = Backoff::new();
        for _ in rt.forever() {
            match self.try_show(pass) {
                Ok(prios) => return prios,
                // as a new base waits
                Err(Out) => backoff.snooze(),
            }
        }
        unreachable!()
    }

    /// Finishes a pass whose thread has ended: it counted itself among those that have, and out of those that are
    /// awake, and holds nothing and takes nothing. The pass makes no step any more.
    pub fn finish(&self, pass: &mut Pass)
        requires own { IsOf self.now pass.old }
        requires ended { pass.old.view.share.doing.has_ended ≡ true }
        requires counted { is_parked pass.old.view.share.doing.phase ≡ true }
        requires runs { pass.old.view.pose ≡ Runs }
        requires nothing_out { pass.old.view.out ≡ [] }
        requires takes_nothing { pass.old.view.share.doing.taking ≡ None }
        requires unheld { pass.old.view.share.held ≡ [] }
        ensures { pass.new ≡ record pass.old { finished = true } }
    {
        pass.finished = true;
    }

    // Where the thread's own record lies.
    fn record_slot(&self, pass: &Pass) -> usize
        requires { IsOf self.now pass.now }
        ensures { slot_of self.now.description (RecordOf pass.now.view.thread) ≡ Some result }
    {
        usize::from(pass.who.0)
    }

    // The base and the effective priority in the record that was taken last.
    fn priorities(&self, pass: &mut Pass, slot: usize) -> (Prio, Prio)
        requires own { IsOf self.now pass.old }
        requires last { (b : _) × (pass.old.view.out ≡ (slot, Record b) ∷ rest pass.old.view.out) }
        ensures same { pass.new ≡ pass.old }
        ensures shown { (b : _) → pass.old.view.out ≡ (slot, Record b) ∷ rest pass.old.view.out
            → (result.0.0 ≡ b.value.base) × (result.1.0 ≡ b.value.effective) }
    {
        match pass.seat.slot_mut(&self.board.shared, slot) {
            Slot::Record(rec) => (rec.base(), rec.eff()),
            Slot::Cell(_) | Slot::Turnstiles(_) | Slot::SleepQueues(_) | Slot::Graph(_) =>
                unreachable!(),
        }
    }
}
