//! Busy words: where a thread's look or entry says that another thread held a lock, such a thread has a section of the
//! lock in the history, or holds the lock and has yet to note that.

ghost use Rattle.std.specs.Prelude.{◌≡◌, ℕ, ◌<◌, List, [], true};
ghost use Rattle.lock_model.specs.Config.{Config};
ghost use Rattle.lock_state.specs.State.{State, start_state};
ghost use Rattle.lock_state.specs.Facts.{Lawful};
ghost use Rattle.lock_state.specs.Steps.{Step, May, MayAll, after, after_all};
ghost use Rattle.lock_model.specs.BusyWords.{BusyIsExplained, is_had_by_another};
ghost use Rattle.busy_laws.specs.Holders.{BusyWordsFit, NobodyHasToBegin, has_another, has_or_begins};

/// At the start no thread has looked at a lock,
pub fn busy_words_begin()
    ensures { (c : Config) → BusyWordsFit c (start_state c) }
{}

/// each step that may be made keeps that busy words fit who holds locks,
pub fn steps_keep_busy_words()
    ensures { (c : Config) (s : State) (step : Step)
        → May c s step → Lawful c s → BusyWordsFit c s → BusyWordsFit c (after c s step) }
{}

/// and so does each list of such steps, as that of a turn.
pub fn lists_keep_busy_words()
    ensures { (c : Config) (s : State) (steps : List Step)
        → MayAll c s steps → Lawful c s → BusyWordsFit c s → BusyWordsFit c (after_all c s steps) }
{}

/// A word that shows another thread's hold is explained while it is so: its holder has a section of the lock in the
/// history, or has yet to note the entry that begins it.
pub fn held_words_have_holders()
    ensures { (c : Config) (s : State) (t l : ℕ) → Lawful c s → BusyWordsFit c s
        → has_another (s.held t l) (s.word l).holder ≡ true
        → is_had_by_another c (has_or_begins c s.held s.has_begun s.history) t l (s.word l).holder
        ≡ true }
{}

/// Where nobody has a section left to begin, the whole history keeps the part of the law that speaks of busy words.
pub fn busy_is_explained()
    ensures { (c : Config) (s : State) → BusyWordsFit c s → NobodyHasToBegin s
        → BusyIsExplained c s.history }
{}

/// So it is where all threads have given back what they held.
pub fn nobody_begins_where_nobody_holds()
    ensures { (c : Config) (s : State) → Lawful c s
        → ((t : ℕ) → t < c.threads → s.held_locks t ≡ []) → NobodyHasToBegin s }
{}
