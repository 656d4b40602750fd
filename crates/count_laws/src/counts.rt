//! Counting: each thread counts itself out before it parks, and is counted in before it is woken. So where a counting
//! out leaves nobody, every other thread has ended or stands on a queue, and no wake is under way.

ghost use Rattle.std.specs.Prelude.{◌≡◌, ◌⊎◌, ◌≤◌, ℕ, suc, ◌+◌, ◌<◌, true, false};
ghost use Rattle.lock_model.specs.Config.{Config};
ghost use Rattle.lock_state.specs.State.{State, start_state, is_finder};
ghost use Rattle.lock_state.specs.Facts.{LawfulFloor, Counted};
ghost use Rattle.lock_state.specs.Facts.Counts.{own_term, times_counted_in, wakes_under_way};
ghost use Rattle.lock_state.specs.Steps.{Step, FitsFloor, KeepsCount, after};
ghost use Rattle.count_laws.specs.Standing.{StandsOnQueue};

/// At the start all threads are counted,
pub fn counts_begin()
    ensures { (c : Config) → Counted c (start_state c) }
{}

/// and each step of a running floor that keeps the count keeps the facts of counting.
pub fn steps_keep_counts()
    ensures { (chains : ℕ) (c : Config) (s : State) (step : Step)
        → FitsFloor chains c s step → KeepsCount s step → LawfulFloor c s
        → Counted c s → Counted c (after c s step) }
{}

/// A thread's term is 1 where it counts of itself, which it does unless it is parked, and 1 more for a wake that is
/// under way. There is one such wake at most.
pub fn terms_are_small()
    ensures term { (c : Config) (s : State) (t : ℕ) → Counted c s
        → suc (times_counted_in c s.counted_in t)
        ≡ s.counted_out t + own_term (s.phase t) + wakes_under_way c s.wait s.counting t }
    ensures wakes { (c : Config) (s : State) (t : ℕ) → LawfulFloor c s → Counted c s
        → wakes_under_way c s.wait s.counting t ≤ 1 }
{}

/// While there is a finder, each thread that hasn't ended stands on a queue: nobody is awake, woken, or in a marked
/// list.
pub fn finders_are_alone()
    ensures { (c : Config) (s : State) (f t : ℕ) → LawfulFloor c s → Counted c s
        → is_finder (s.phase f) ≡ true → t < c.threads → s.has_ended t ≡ false
        → StandsOnQueue s t }
{}
