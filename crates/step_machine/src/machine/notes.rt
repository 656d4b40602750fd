//! Entries of the history.
ghost use Rattle.std.specs.Prelude.{◌≡◌, ◌≤◌, ◌<◌, ◌+◌, length};
ghost use Rattle.lock_history.specs.Books.{HasRoom};
ghost use Rattle.lock_model.specs.History.{edited};
ghost use Rattle.lock_model.specs.Takes.{has_reversal};
ghost use Rattle.lock_state.specs.Steps.{Stamps};
ghost use Rattle.lock_state.specs.Steps.LockWords.{MayStamp};
ghost use Rattle.step_machine.specs.Noted.{IsNoted};
ghost use Rattle.step_machine.specs.Steps.{May, Makes, KeepsProgress, HasKey};

use super::Machine;
use lock_history::Tables;
use lock_model::{Entry, Event, OfTable, ThreadNo};

impl Machine {
    /// Makes an entry with the next ticket, and what the entry says of a table, of the thread's base priority, of a
    /// wait of the thread, or of its being cut. It is inlined, since each call knows the kind of its event.
    #[inline(always)]
    pub fn stamp(&mut self, t: ThreadNo, event: Event)
        requires may { May self.old (λ c s. MayStamp c s t.0 event) }
        requires room { 1 ≤ self.old.log.spare }
        requires key { HasKey self.old event }
        ensures step { Makes self.old self.new (Stamps t.0 event) }
        ensures progress { KeepsProgress self.old self.new }
        ensures places { self.new.tables.places ≡ self.old.tables.places }
        ensures room { length self.new.log.entries + self.new.log.spare
            ≡ length self.old.log.entries + self.old.log.spare }
    {
        self.edit(t, event);
        let ticket = self.log.len();
        self.log.put(Entry {
            ticket,
            thread: t,
            event,
        });
    }

    /// Whether a take was refused.
    pub fn has_reversal(&self) -> bool
        ensures { result ≡ has_reversal self.now.log.entries }
    {
        self.log.as_slice().iter().any(|e| e.event.is_reversal())
    }

    // Changes what an event changes beside the history.
    #[inline(always)]
    fn edit(&mut self, t: ThreadNo, event: Event)
        requires thread { t.0 < length self.old.threads.items }
        requires key { HasKey self.old event }
        ensures tables { self.new.tables
            ≡ record self.old.tables { present = edited event self.old.tables.present } }
        ensures threads { IsNoted event t.0 self.old.threads.items self.new.threads.items }
        ensures others { self.new
            ≡ record self.old { threads = self.new.threads; tables = self.new.tables } }
    {
        edit_tables(&mut self.tables, event);
        let thread = &mut self.threads[usize::from(t.0)];
        thread.waits_on = event.fell_asleep();
        thread.cut = event.is_reversal() || thread.cut;
        if let Some(prio) = event.new_base() {
            thread.record.set_base(prio);
        }
    }
}

// Makes the change that an event says of a table. One that changes no table costs a test, and no call.
#[inline(always)]
fn edit_tables(tables: &mut Tables, event: Event)
    requires { HasRoom tables.old.places event }
    ensures { tables.new ≡ record tables.old { present = edited event tables.old.present } }
{
    match event.at_table() {
        OfTable::SetsTo { .. } | OfTable::AddsTo { .. } => tables.edit(event).unwrap(),
        OfTable::NoTable | OfTable::Reads { .. } => {}
    }
}
