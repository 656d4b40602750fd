//! The law of a history on a running floor, as far as it says nothing of operations.

ghost use Rattle.std.specs.Prelude.{ℕ, true};
ghost use Rattle.lock_model.specs.Config.{Config};
ghost use Rattle.lock_model.specs.Legal.{IsLegalSoFar};
ghost use Rattle.lock_state.specs.Facts.{LawfulFloor};
ghost use Rattle.lock_state.specs.State.{State};
ghost use Rattle.sleep_laws.specs.Sleepers.{SleepersFit, by_chain};

/// The history behind each step of a running floor is legal, as far as the law says nothing of operations: sections
/// exclude, edits and reads stand in sections, reads replay, wakings name sleepers, and what is shown is explained.
pub fn floors_are_legal_so_far()
    ensures { (chains : ℕ) (c : Config) (s : State) → LawfulFloor c s
        → SleepersFit (by_chain chains s) c s → IsLegalSoFar c true s.history }
{}
