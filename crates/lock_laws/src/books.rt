//! Tables and the history.

ghost use Rattle.std.specs.Prelude.{◌≡◌, ◌≢◌, ℕ, false, List};
ghost use Rattle.lock_model.specs.Config.{Config};
ghost use Rattle.lock_state.specs.State.{State};
ghost use Rattle.lock_model.specs.Holds.{Holds, NotHeld};
ghost use Rattle.lock_model.specs.History.{value_at, open_in, sections_in, entries_of};
ghost use Rattle.lock_state.specs.Facts.{Lawful};
ghost use Rattle.lock_state.specs.Steps.LockWords.{after_stamp, changes_base, changes_table, changes_sections};
ghost use Rattle.lock_model.specs.declared.plan.Mode.{Mode};
ghost use Rattle.lock_model.specs.declared.plan.Mode.TheVariants.{Excl};
ghost use Rattle.lock_model.specs.declared.event.Event.{Event};
ghost use Rattle.lock_model.specs.declared.event.Entry.{Entry};

/// The table of a lock is what the history leaves: the fold of its edits in the order of their tickets.
pub fn tables_replay()
    ensures { (c : Config) (s : State) (l k : ℕ)
        → Lawful c s → s.table l k ≡ value_at s.history l k }
{}

/// Where a thread holds a lock exclusively, nobody else holds it.
pub fn holders_exclude()
    ensures { (c : Config) (s : State) (t u l : ℕ)
        → Lawful c s → s.held t l ≡ Holds Excl → s.held u l ≢ NotHeld → t ≡ u }
{}

/// The section of a lock that a thread has open behind a history is the one behind its own entries.
pub fn sections_are_own()
    ensures { (c : Config) (history : List Entry) (t l : ℕ)
        → open_in c history t l ≡ open_in c (entries_of history t) t l }
{}

/// A stamp changes only what its event says: all priorities stay where the event changes no base,
pub fn stamps_keep_priorities()
    ensures base { (c : Config) (s : State) (t : ℕ) (e : Event)
        → changes_base e ≡ false → (after_stamp c s t e).base ≡ s.base }
    ensures effective { (c : Config) (s : State) (t : ℕ) (e : Event)
        → changes_base e ≡ false → (after_stamp c s t e).effective ≡ s.effective }
{}

/// all tables where it changes none,
pub fn stamps_keep_tables()
    ensures { (c : Config) (s : State) (t : ℕ) (e : Event)
        → changes_table e ≡ false → (after_stamp c s t e).table ≡ s.table }
{}

/// and all sections where it begins and ends none.
pub fn stamps_keep_sections()
    ensures { (c : Config) (s : State) (t : ℕ) (e : Event) (u l : ℕ) → changes_sections e ≡ false
        → sections_in c (after_stamp c s t e).history u l ≡ sections_in c s.history u l }
{}
