//! What steps say of the state in which they are made, and of the one behind it: a look finds the word that the lock
//! has then (and what that can be, where the thread doesn't hold the lock), a try that fails finds its item out then,
//! and reads and changes of locks' tables act on what all entries with earlier tickets leave. Sleepers fit the history.
ghost use Rattle.std.specs.Prelude.{◌≡◌, ◌≢◌, ◌≤◌, ◌⊎◌, ℕ, Bool, true, List, [], ◌∷◌, length, Option, None, Some, IsSome};
ghost use Rattle.std.specs.declared.alloc.Global.{Global};
ghost use Rattle.std.specs.declared.boxed.Box.{Box};
ghost use Rattle.lock_laws.specs.Words.{CanBeSeen};
ghost use Rattle.lock_model.specs.History.{value_at};
ghost use Rattle.lock_model.specs.Holds.{NotHeld};
ghost use Rattle.lock_model.specs.Operations.{hold_in};
ghost use Rattle.lock_model.specs.declared.event.Event.{Event};
ghost use Rattle.lock_model.specs.declared.event.Event.TheVariants.{Got};
ghost use Rattle.lock_model.specs.declared.numbers.LockNo.{LockNo};
ghost use Rattle.lock_model.specs.Law.{is_asleep, is_named};
ghost use Rattle.lock_model.specs.Queues.{Mark, BySignal, chan_queue, stands};
ghost use Rattle.lock_state.specs.State.{State, Queued};
ghost use Rattle.lock_state.specs.Steps.{Step, Looks, Stamps, Marks, Resumes, after_all};
ghost use Rattle.lock_state.specs.Steps.Items.{Item, RecordOf};
ghost use Rattle.lock_state.specs.Steps.LockWords.{table_after};
ghost use Rattle.floor_table.specs.Descriptions.{config_in};
ghost use Rattle.floor_table.specs.declared.description.Description.{Description};
ghost use Rattle.floor_table.specs.Past.{LeadsTo};
ghost use Rattle.floor_table.specs.Steps.{Makes};
ghost use Rattle.floor_table.specs.Represents.{IsPosed};
ghost use Rattle.floor_table.specs.Views.{Knowledge, Pose, is_off_queues};
ghost use Rattle.floor_table.specs.declared.slot.Slot.TheVariants.{Record};
ghost use Rattle.lock_floor.specs.declared.tables.Change.{Change};
ghost use Rattle.lock_floor.specs.Changes.{event_of, cell_after};
ghost use Rattle.lock_floor.specs.Latches.{FindsOut, Takes};
ghost use Rattle.lock_floor.specs.Marks.{LacksObject};
ghost use Rattle.lock_floor.specs.Views.{entry_by};
ghost use Rattle.sleep_laws.specs.Sleepers.{IsWithChannel, WasAborted, by_chain};
ghost use Rattle.thread_records.specs.declared.record.ThreadRec.{ThreadRec};

/// Steps that were made behind the same steps were made in the same state.
pub fn steps_lead_to_one_state()
    ensures { (floor : Description) (steps others : List Step) (u v x y : Knowledge)
        (m : Makes floor steps u v) (k : Makes floor others x y)
        → m.past ≡ k.past → m.state ≡ k.state }
{}

/// A look finds the word that the lock has at that very moment: in the state to which all steps lead that were made
/// before it. Behind it the thread has seen these and its look, and where it looks again before anybody makes another
/// step, it finds the same word.
pub fn looks_find_words()
    ensures word { (floor : Description) (l : ℕ) (counts : Bool) (old new : Knowledge)
        (m : Makes floor (Looks old.thread l counts ∷ []) old new)
        → new.share.doing.last_look ≡ Some (record { lock = l; word = m.state.word l }) }
    ensures seen { (floor : Description) (l : ℕ) (counts : Bool) (old new : Knowledge)
        (m : Makes floor (Looks old.thread l counts ∷ []) old new)
        → new.seen ≡ Looks old.thread l counts ∷ m.past }
    ensures again { (floor : Description) (l : ℕ) (first second : Bool) (u v w : Knowledge)
        (m : Makes floor (Looks u.thread l first ∷ []) u v)
        (k : Makes floor (Looks v.thread l second ∷ []) v w)
        → k.past ≡ v.seen → w.share.doing.last_look ≡ v.share.doing.last_look }
{}

/// A look at a lock that the thread doesn't hold finds a word which such a thread can see: it may share the lock beside
/// those who do, a free mutex shows no waiters, and a mutex isn't shared.
pub fn looks_find_words_of_others()
    ensures { (floor : Description) (l : ℕ) (counts : Bool) (old new : Knowledge)
        (m : Makes floor (Looks old.thread l counts ∷ []) old new)
        → hold_in old.share.held l ≡ NotHeld
        → CanBeSeen ((config_in floor).kind l) (m.state.word l) }
{}

/// A try that fails finds the item out at that very moment: in the state to which all steps lead that its seat has seen
/// then. It is out with another thread, where the seat has nothing out itself.
pub fn tries_find_takers()
    ensures seen { (floor : Description) (i : Item) (old new : Knowledge)
        (f : FindsOut floor i old new) → new.seen ≡ f.moment.past }
    ensures other { (floor : Description) (i : Item) (old new : Knowledge)
        (f : FindsOut floor i old new) → old.out ≡ [] → f.taker ≢ old.thread }
{}

/// A thread that stands on no queue, as its seat knows, finds in its own record its turnstile and its sleep queue, and
/// no queue named.
pub fn own_records_are_whole()
    ensures turnstile { (floor : Description) (old new : Knowledge) (b : Box ThreadRec Global)
        (k : Takes floor (RecordOf old.thread) old.thread old new) → k.value ≡ Record b
        → is_off_queues old.pose ≡ true → IsSome b.value.turnstile }
    ensures sleep_queue { (floor : Description) (old new : Knowledge) (b : Box ThreadRec Global)
        (k : Takes floor (RecordOf old.thread) old.thread old new) → k.value ≡ Record b
        → is_off_queues old.pose ≡ true → IsSome b.value.sleep_queue }
    ensures nowhere { (floor : Description) (old new : Knowledge) (b : Box ThreadRec Global)
        (k : Takes floor (RecordOf old.thread) old.thread old new) → k.value ≡ Record b
        → is_off_queues old.pose ≡ true → b.value.on ≡ None }
{}

/// A thread finds in the record of the first of its marked list that it is that thread's, and that its object is away.
pub fn marked_records_lack_objects()
    ensures { (floor : Description) (old new : Knowledge) (m : Mark) (ms : List Mark)
        (b : Box ThreadRec Global) (k : Takes floor (RecordOf m.thread) m.thread old new)
        → old.share.doing.marked ≡ m ∷ ms → k.value ≡ Record b
        → LacksObject (config_in floor) m b.value }
{}

/// Who is marked stood on that queue until then: its wait word said Queued, and its record named the queue.
pub fn marks_wake_the_queued()
    ensures { (floor : Description) (m : Mark) (ms : List Mark) (old new : Knowledge)
        (k : Makes floor (Marks old.thread m ms ∷ []) old new)
        → (k.state.wait m.thread ≡ Queued) × (k.state.blocked_on m.thread ≡ Some m.queue) }
{}

/// A mark leaves what every seat knows of where its thread is: that of the thread which is woken, and of each other.
pub fn marks_leave_poses()
    ensures { (floor : Description) (m : Mark) (ms : List Mark) (old new : Knowledge)
        (k : Makes floor (Marks old.thread m ms ∷ []) old new) (u : ℕ) (p : Pose)
        → IsPosed p (k.state.wait u) (k.state.blocked_on u)
        → IsPosed p ((after_all (config_in floor) k.state (Marks old.thread m ms ∷ [])).wait u)
        ((after_all (config_in floor) k.state (Marks old.thread m ms ∷ [])).blocked_on u) }
{}

/// An entry of a thread gets as its ticket the number of those before it: it stands behind them in the history, and
/// behind the thread's own in its log.
pub fn entries_are_next()
    ensures history { (floor : Description) (e : Event) (old new : Knowledge)
        (m : Makes floor (Stamps old.thread e ∷ []) old new)
        → (after_all (config_in floor) m.state (Stamps old.thread e ∷ [])).history
        ≡ entry_by old.thread (length m.state.history) e ∷ m.state.history }
    ensures log { (floor : Description) (e : Event) (old new : Knowledge)
        (m : Makes floor (Stamps old.thread e ∷ []) old new)
        → new.share.log
        ≡ entry_by old.thread (length m.state.history) e ∷ old.share.log }
{}

/// A read finds at its key what all entries with earlier tickets leave there.
pub fn reads_find_changes()
    ensures { (floor : Description) (l : LockNo) (key : ℕ) (found : Option ℕ) (old new : Knowledge)
        (m : Makes floor (Stamps old.thread (Got l key found) ∷ []) old new)
        → found ≡ value_at m.state.history l.0 key }
{}

/// A change acts on what all entries with earlier tickets leave at its key, and on that key alone: the tables behind it
/// are what the history behind it leaves.
pub fn changes_act_on_changes()
    ensures tables { (floor : Description) (l : LockNo) (key : ℕ) (change : Change)
        (old new : Knowledge)
        (m : Makes floor (Stamps old.thread (event_of l key change) ∷ []) old new)
        → (after_all (config_in floor) m.state
        (Stamps old.thread (event_of l key change) ∷ [])).table
        ≡ table_after (event_of l key change) m.state.table }
    ensures value { (floor : Description) (l : LockNo) (key : ℕ) (change : Change)
        (old new : Knowledge)
        (m : Makes floor (Stamps old.thread (event_of l key change) ∷ []) old new)
        → (after_all (config_in floor) m.state
        (Stamps old.thread (event_of l key change) ∷ [])).table l.0 key
        ≡ cell_after (event_of l key change) (value_at m.state.history l.0 key) }
    ensures others { (floor : Description) (l : LockNo) (key : ℕ) (change : Change)
        (old new : Knowledge)
        (m : Makes floor (Stamps old.thread (event_of l key change) ∷ []) old new)
        (k other : ℕ) → (k ≡ l.0 → other ≢ key)
        → (after_all (config_in floor) m.state
        (Stamps old.thread (event_of l key change) ∷ [])).table k other
        ≡ m.state.table k other }
    ensures replay { (floor : Description) (l : LockNo) (key : ℕ) (change : Change)
        (old new : Knowledge)
        (m : Makes floor (Stamps old.thread (event_of l key change) ∷ []) old new) (k other : ℕ)
        → (after_all (config_in floor) m.state
        (Stamps old.thread (event_of l key change) ∷ [])).table k other
        ≡ value_at (after_all (config_in floor) m.state
        (Stamps old.thread (event_of l key change) ∷ [])).history k other }
{}

/// Who stands on a channel's queue, in a state to which steps of a floor's threads lead, sleeps there in the history:
/// its newest entry is that of the sleep, and no waking names it since. It wants no lock.
pub fn standing_threads_sleep()
    ensures asleep { (floor : Description) (past : List Step) (s : State) (t d : ℕ)
        → LeadsTo floor past s → 1 ≤ stands t (s.lists (chan_queue d))
        → is_asleep s.history d t ≡ true }
    ensures wants { (floor : Description) (past : List Step) (s : State) (t d : ℕ)
        → LeadsTo floor past s → 1 ≤ stands t (s.lists (chan_queue d)) → s.wanted t ≡ None }
{}

/// Conversely, who sleeps on a channel in the history stands on its queue, or has the chain out in which that stands,
/// or is in the marked list of a thread that has it out, or was aborted, and has yet to note that.
pub fn sleeping_threads_stand()
    ensures { (floor : Description) (past : List Step) (s : State) (t d : ℕ)
        → LeadsTo floor past s → is_asleep s.history d t ≡ true
        → WasAborted (config_in floor) s t ⊎ IsWithChannel (by_chain floor.chains s) s t d }
{}

/// Who runs again that a signal woke off a channel was named by a waking since its newest entry, that of its sleep.
pub fn woken_sleepers_were_named()
    ensures { (floor : Description) (d : ℕ) (old new : Knowledge)
        (m : Makes floor (Resumes old.thread (chan_queue d) BySignal ∷ []) old new)
        → is_named m.state.history old.thread ≡ true }
{}
