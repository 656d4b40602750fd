//! What a running floor keeps beside: its threads make each step under the guards of a floor, with what they have
//! out and what they have seen.

ghost use Rattle.std.specs.Prelude.{◌≡◌, ◌≤◌, ◌⊎◌, ℕ};
ghost use Rattle.lock_model.specs.Config.{Config};
ghost use Rattle.lock_state.specs.State.{State, start_state};
ghost use Rattle.lock_state.specs.Facts.{Lawful, LawfulFloor};
ghost use Rattle.lock_state.specs.Steps.{Step, May, HasSeen, after, IsReachable, IsFloorStep, EndsRound};
ghost use Rattle.lock_laws.specs.Rounds.{IsBoundTo, LawfulRounds, FirstExchangesAreFew};
ghost use Rattle.lock_laws.specs.Signals.{TurnstilesSignal};

/// The state at the start of a plan is one of a running floor,
pub fn floors_begin()
    ensures { (c : Config) → LawfulFloor c (start_state c) }
{}

/// and each step of a thread of the floor keeps it so.
pub fn floor_steps_keep()
    ensures { (chains : ℕ) (c : Config) (s n : State)
        → IsFloorStep chains c s n → LawfulFloor c s → LawfulFloor c n }
{}

/// A thread that took its lock's chain in a blocking call's round has the chain out, and who is in a round acts:
/// at the start nobody is in one,
pub fn rounds_begin()
    ensures { (chains : ℕ) (c : Config) → LawfulRounds chains c (start_state c) }
{}

/// and each step of the floor keeps it so.
pub fn rounds_keep_their_chain()
    ensures { (chains : ℕ) (c : Config) (s n : State)
        → IsFloorStep chains c s n → Lawful c s
        → LawfulRounds chains c s → LawfulRounds chains c n }
{}

/// Such a round goes on with each step, until the thread gains the lock or comes to stand on its queue. So its chain
/// goes home only after that.
pub fn rounds_end_with_their_lock()
    ensures { (chains : ℕ) (c : Config) (s : State) (step : Step) (t l : ℕ)
        → May c s step → HasSeen chains c s step → LawfulRounds chains c s
        → IsBoundTo s t l → IsBoundTo (after c s step) t l ⊎ EndsRound step t l }
{}

/// Who waits on a turnstile is taken off and woken by a signal alone: at the start nobody was,
pub fn signals_begin()
    ensures { (c : Config) → TurnstilesSignal c (start_state c) }
{}

/// and each step of the floor keeps it so.
pub fn signals_alone_wake()
    ensures { (chains : ℕ) (c : Config) (s n : State)
        → IsFloorStep chains c s n → TurnstilesSignal c s → TurnstilesSignal c n }
{}

/// Of a call at most two first exchanges miss before its acquiring round: at the start nobody has looked,
pub fn first_exchanges_begin()
    ensures { (c : Config) → FirstExchangesAreFew
        (start_state c).round (start_state c).wanted (start_state c).looks }
{}

/// and each step of the floor keeps it so.
pub fn first_exchanges_are_few()
    ensures { (chains : ℕ) (c : Config) (s n : State)
        → IsFloorStep chains c s n → FirstExchangesAreFew s.round s.wanted s.looks
        → FirstExchangesAreFew n.round n.wanted n.looks }
{}

/// At most 100 looks of a thread count in an acquiring round.
pub fn looks_are_few()
    ensures { (c : Config) (s : State) (t : ℕ) → IsReachable c s → s.looks t ≤ 100 }
{}
