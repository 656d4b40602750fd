//! Halts: a thread whose counting out left nobody awake may halt those that sleep. At that moment each thread had
//! ended, or slept on a channel, or waited for a lock of which another had an open section, and the history goes on to
//! tell so.

ghost use Rattle.std.specs.Prelude.{◌≡◌, ◌⊎◌, ℕ, ◌<◌, Option, true};
ghost use Rattle.lock_model.specs.Config.{Config};
ghost use Rattle.lock_model.specs.Halts.{HaltsAreHonest, is_sleeping, waits_for_another};
ghost use Rattle.lock_state.specs.State.{State, start_state, is_finder};
ghost use Rattle.lock_state.specs.Facts.{Lawful, LawfulFloor, Counted, Ordered, Explained};
ghost use Rattle.lock_state.specs.Steps.{Step, FitsFloor, KeepsToOrder, after};
ghost use Rattle.sleep_laws.specs.Sleepers.{SleepersFit};

/// At the start no halt needs a cause,
pub fn halts_begin()
    ensures { (c : Config) → Explained c (start_state c) }
{}

/// and each step of a running floor that keeps to the order that was admitted keeps halts explained, where its threads
/// are counted and its sleepers fit the entries.
pub fn steps_keep_causes()
    ensures { (at_work : ℕ → Option ℕ) (chains : ℕ) (c : Config) (s : State) (step : Step)
        → LawfulFloor c s → Counted c s → Ordered c s → SleepersFit at_work c s → Explained c s
        → FitsFloor chains c s step → KeepsToOrder c s step → Explained c (after c s step) }
{}

/// While there is a finder, each thread has ended, or sleeps on a channel in the history, or takes a lock of which
/// another has an open section there.
pub fn finders_are_honest()
    ensures { (at_work : ℕ → Option ℕ) (c : Config) (s : State) (f t : ℕ)
        → LawfulFloor c s → Counted c s → Ordered c s → SleepersFit at_work c s → Explained c s
        → is_finder (s.phase f) ≡ true → t < c.threads
        → (s.has_ended t ≡ true) ⊎ ((is_sleeping s.history t ≡ true)
        ⊎ (waits_for_another c s.history t (s.taking t) ≡ true)) }
{}

/// So the history keeps the part of the law that speaks of the causes of halts.
pub fn halts_are_honest()
    ensures { (c : Config) (s : State) → Lawful c s → Explained c s → HaltsAreHonest c s.history }
{}
