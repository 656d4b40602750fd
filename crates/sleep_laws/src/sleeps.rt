//! Sleepers: who sleeps on a channel in the history stands on its queue, or was aborted, and each waking names the
//! sleepers whom it should: it passes over aborted ones alone. On a running floor the thread that has a channel's chain
//! out is at work on it; in a scheduled run the thread that has the turn is, and between turns nobody.

ghost use Rattle.std.specs.Prelude.{◌≡◌, ◌≢◌, ◌≤◌, ◌⊎◌, ℕ, List, Option, true, false, None};
ghost use Rattle.lock_model.specs.Config.{Config};
ghost use Rattle.lock_model.specs.Law.{WakingsNameSleepers, is_asleep, is_passed_over};
ghost use Rattle.lock_model.specs.Queues.{chan_queue, stands};
ghost use Rattle.lock_state.specs.State.{State, start_state};
ghost use Rattle.lock_state.specs.Facts.{Lawful};
ghost use Rattle.lock_state.specs.Steps.{Step, MayAll, IsFloorStep, after_all};
ghost use Rattle.sleep_laws.specs.Sleepers.{SleepersFit, AsksOfSleepersAll, HaltNobody, IsWithChannel, WasAborted, by_chain, by_turn, nobody, off};

/// At the start nobody sleeps,
pub fn sleepers_begin()
    ensures { (at_work : ℕ → Option ℕ) (c : Config) → SleepersFit at_work c (start_state c) }
{}

/// and each step of a thread of the floor keeps the sleepers' facts.
pub fn sleepers_keep()
    ensures { (chains : ℕ) (c : Config) (s n : State)
        → IsFloorStep chains c s n → Lawful c s
        → SleepersFit (by_chain chains s) c s → SleepersFit (by_chain chains n) c n }
{}

/// So do the steps of a turn of a scheduled run, each of which asks of sleepers what it must, and none of which sets
/// the halt word; in the turn its thread is at work on all channels.
pub fn sleepers_keep_in_turns()
    ensures { (c : Config) (s : State) (t : ℕ) (steps : List Step)
        → MayAll c s steps → AsksOfSleepersAll (by_turn t) c s steps
        → HaltNobody steps → s.halted ≡ false → Lawful c s
        → SleepersFit nobody c s → SleepersFit (by_turn t) c (after_all c s steps) }
{}

/// Behind the turn nobody is at work, where its thread isn't on its way to a channel and has no wake to note.
pub fn sleepers_keep_between_turns()
    ensures { (c : Config) (s : State) (t : ℕ)
        → ((d : ℕ) → is_asleep s.history d t ≡ true → off c s t ≡ 0 → s.blocked_on t ≢ None)
        → s.unstamped t ≡ None
        → SleepersFit (by_turn t) c s → SleepersFit nobody c s }
{}

/// A thread on a channel's queue sleeps there in the history: its last entry is the Sleeps entry, and no waking names
/// it since. It wants no lock.
pub fn standing_threads_sleep()
    ensures asleep { (at_work : ℕ → Option ℕ) (c : Config) (s : State) (t d : ℕ)
        → Lawful c s → SleepersFit at_work c s
        → 1 ≤ stands t (s.lists (chan_queue d)) → is_asleep s.history d t ≡ true }
    ensures wants { (at_work : ℕ → Option ℕ) (c : Config) (s : State) (t d : ℕ)
        → Lawful c s → SleepersFit at_work c s
        → 1 ≤ stands t (s.lists (chan_queue d)) → s.wanted t ≡ None }
{}

/// Conversely, a thread that sleeps on a channel in the history stands on its queue, or is at work on it, or was taken
/// off by a thread that is at work on it and has yet to note that, or was aborted.
pub fn sleeping_threads_stand()
    ensures { (at_work : ℕ → Option ℕ) (c : Config) (s : State) (t d : ℕ)
        → Lawful c s → SleepersFit at_work c s
        → is_asleep s.history d t ≡ true
        → WasAborted c s t ⊎ IsWithChannel at_work s t d }
{}

/// A waking names only threads that sleep on its channel, one of one at most one, and a thread wakes up only where it
/// was named.
pub fn wakings_name_sleepers()
    ensures { (at_work : ℕ → Option ℕ) (c : Config) (s : State)
        → SleepersFit at_work c s → WakingsNameSleepers c s.history }
{}

/// A waking of all names each sleeper that wasn't aborted, and one of one names a sleeper before which no other of
/// these goes: whom it passes over was aborted, and has yet to note that.
pub fn wakings_pass_over_aborted()
    ensures { (at_work : ℕ → Option ℕ) (c : Config) (s : State) (t : ℕ)
        → SleepersFit at_work c s → is_passed_over c s.history t ≡ true → WasAborted c s t }
{}
