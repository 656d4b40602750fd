//! One pass over a history. It keeps the sections that are open, by lock and by thread.
ghost use Rattle.std.specs.Prelude.{◌≡◌, [], ℕ, ◌+◌, ◌^◌, ◌<◌, ◌≤◌, length, map, take, sum_by, slice_index_or, IfOk, OnOk};
ghost use Rattle.std.specs.List.{All};
ghost use Rattle.lock_model.specs.Operations.{IsProper};
ghost use Rattle.lock_history.specs.Tickets.{InOrder};
ghost use Rattle.hold_profile.specs.Counting.{IsCounted, IsNoted, Fits, line_after, no_line, lasted, line_in_end, most_entries};
ghost use Rattle.hold_profile.specs.Profiles.{profile_of};

use crate::events::{AtLock, at_lock};
use crate::held::{no_locks, note_held};
use crate::lines::{LockLine, Profile};
use crate::orders::{count_pairs, lines_of, no_pairs};
use crate::tally::{Tally, note_lock};
use lock_model::{Entry, LockNo, Plan, Sequence};
use std::alloc::{AllocError, Global};

/// What was counted of a history's entries so far.
#[derive(Drop)]
pub struct Counting {
    /// By lock, what was counted of it, and its sections that are open.
    pub locks: Vec<Tally>,
    /// By thread, the locks of its sections that are open, in the order in which they began.
    pub held: Vec<Vec<LockNo>>,
    /// By the class of a lock that was gained and then by that of one that was held, how often.
    pub orders: Vec<Vec<u32>>,
}

impl Counting {
    /// Nothing yet.
    pub fn make(alloc: Global, plan: &Plan) -> Result<Counting, AllocError>
        ensures { IfOk result (IsCounted plan.now []) }
    {
        Ok(Counting {
            locks: no_tallies(alloc, plan.locks.as_slice().len())?,
            held: no_locks(alloc, plan.threads.as_slice().len())?,
            orders: no_pairs(alloc, plan.classes.as_slice().len())?,
        })
    }

    /// Counts the entry at a place of a history, those before it being counted.
    pub fn enter(&mut self, plan: &Plan, history: &[Entry], place: usize) -> Result<(), AllocError>
        requires counted { IsCounted plan.now (take place history.now) self.old }
        requires within { place < length history.now }
        requires few { length history.now ≤ most_entries }
        requires tickets { InOrder history.now }
        requires threads { All (λ e. e.thread.0 < length plan.now.threads) history.now }
        ensures { OnOk result (IsCounted plan.now (take (place + 1) history.now) self.new) }
    {
        let entry = history[place];
        match at_lock(plan, entry.event) {
            Some((l, what)) => self.note(plan, l, what, entry),
            None => Ok(()),
        }
    }

    // Counts an entry, of a lock.
    fn note(&mut self, plan: &Plan, l: LockNo, what: AtLock, entry: Entry) -> Result<(), AllocError>
        requires thread { entry.thread.0 < length self.old.held.items }
        requires since { (d : _) → l.0 < length self.old.locks.items
            → All (λ o. o.since ≤ entry.ticket)
            (slice_index_or self.old.locks.items l.0 d).sections.items }
        requires fits { (d : _) → l.0 < length self.old.locks.items
            → Fits (line_after what entry.thread.0 entry.ticket
            (slice_index_or self.old.locks.items l.0 d).sections.items
            (slice_index_or self.old.locks.items l.0 d).line) }
        requires room { (d : _) → l.0 < length self.old.locks.items
            → length (slice_index_or self.old.locks.items l.0 d).sections.items + 1 < 2 ^ 32 }
        requires pairs { (b : ℕ) (d f : _) → b < length self.old.orders.items
            → All (λ n. n + length (slice_index_or self.old.held.items entry.thread.0 f).items
            < 2 ^ 32) (slice_index_or self.old.orders.items b d).items }
        ensures { OnOk result (IsNoted plan.now what l entry self.old self.new) }
    {
        count_pairs(
            &mut self.orders,
            plan,
            self.held.as_slice(),
            l,
            what,
            entry.thread,
        );
        note_held(&mut self.held, l, what, entry.thread)?;
        note_lock(&mut self.locks, l, what, entry.thread, entry.ticket)
    }

    /// The profile of the history that was counted.
    pub fn finish(
        self,
        alloc: Global,
        plan: &Plan,
        history: &[Entry],
    ) -> Result<Profile, AllocError>
        requires proper { IsProper plan.now }
        requires counted { IsCounted plan.now history.now self }
        requires few { length history.now ≤ most_entries }
        requires tickets { InOrder history.now }
        ensures { IfOk result (λ x. x ≡ profile_of plan.now history.now) }
    {
        let locks = lines_in(alloc, self.locks.as_slice(), history.len() as u32)?;
        let classes = plan.classes.as_slice().len() as u8;
        let orders = lines_of(alloc, self.orders.as_slice(), classes)?;
        Ok(Profile {
            locks: Sequence::from_vec(locks),
            orders: Sequence::from_vec(orders),
        })
    }
}

fn no_tallies(alloc: Global, n: usize) -> Result<Vec<Tally>, AllocError>
    ensures len { IfOk result (λ tallies. length tallies.items ≡ n) }
    ensures line { IfOk result (λ tallies. (l : ℕ) (d : Tally) → l < n
        → (slice_index_or tallies.items l d).line ≡ no_line) }
    ensures sections { IfOk result (λ tallies. (l : ℕ) (d : Tally) → l < n
        → (slice_index_or tallies.items l d).sections.items ≡ []) }
{
    let mut tallies = Vec::new(alloc);
    for _ in 0..n {
        tallies.push(Tally::none(alloc))?;
    }
    Ok(tallies)
}

// The line of each lock, where the history has so many entries.
fn lines_in(alloc: Global, tallies: &[Tally], entries: u32) -> Result<Vec<LockLine>, AllocError>
    requires since { All (λ x. All (λ o. o.since ≤ entries) x.sections.items) tallies.now }
    requires total { All (λ x. x.line.total + sum_by (lasted entries) x.sections.items < 2 ^ 64)
        tallies.now }
    ensures { IfOk result (λ lines. lines.items ≡ map (line_in_end entries) tallies.now) }
{
    let mut lines = Vec::new(alloc);
    for tally in tallies {
        lines.push(tally.finish(entries))?;
    }
    Ok(lines)
}
