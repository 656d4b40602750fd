//! What the definitions of policies mean: functions with empty bodies whose contracts are theorems.
ghost use Rattle.std.specs.Prelude.{◌≡◌, ◌≤◌, ◌<◌, ◌⊎◌, ◌↔◌, ℕ, Bool, true, List, [], length, Option, Some, None};
ghost use Rattle.lock_model.specs.Plans.{config_of};
ghost use Rattle.lock_model.specs.declared.numbers.ThreadNo.{ThreadNo};
ghost use Rattle.lock_model.specs.declared.plan.Plan.{Plan};
ghost use Rattle.lock_state.specs.Run.{Run, owes, turn_of};
ghost use Rattle.turn_policy.specs.Policies.{acts, choice, priority_of, runnable};
ghost use Rattle.turn_policy.specs.Schedules.{IsPlanned, with_schedule};
ghost use Rattle.turn_policy.specs.declared.policy.Policy as policies;
ghost use Rattle.turn_policy.specs.declared.policy.Policy.TheVariants.{Priority};

/// Nobody is chosen exactly where all threads have ended or are idle,
pub fn somebody_is_chosen()
    ensures { (policy : policies.Policy) (plan : Plan) (r : Run) (last : Option ℕ) (n : ℕ)
        → choice policy plan r last n ≡ None ↔ runnable plan r ≡ [] }
{}

/// and whoever is chosen is a thread of the plan that does something in its turn.
pub fn the_chosen_act()
    ensures { (policy : policies.Policy) (plan : Plan) (r : Run) (last : Option ℕ) (n t : ℕ)
        → choice policy plan r last n ≡ Some t
        → (t < length plan.threads) × (acts (turn_of plan r t).answer ≡ true) }
{}

/// Where priorities decide, one that owes something is chosen where there is any; of those that owe alike nobody is
/// more important than the chosen one; and of equals it is the one that ran last, and else the one with the lowest
/// number.
pub fn the_chosen_are_most_important()
    ensures owing { (heeds_loans : Bool) (plan : Plan) (r : Run) (last : Option ℕ) (n t u : ℕ)
        → choice (Priority heeds_loans) plan r last n ≡ Some t
        → u < length plan.threads → acts (turn_of plan r u).answer ≡ true
        → owes (config_of plan) r.state u ≡ true → owes (config_of plan) r.state t ≡ true }
    ensures least { (heeds_loans : Bool) (plan : Plan) (r : Run) (last : Option ℕ) (n t u : ℕ)
        → choice (Priority heeds_loans) plan r last n ≡ Some t
        → u < length plan.threads → acts (turn_of plan r u).answer ≡ true
        → owes (config_of plan) r.state u ≡ owes (config_of plan) r.state t
        → priority_of heeds_loans r.state t ≤ priority_of heeds_loans r.state u }
    ensures equals { (heeds_loans : Bool) (plan : Plan) (r : Run) (last : Option ℕ) (n t u : ℕ)
        → choice (Priority heeds_loans) plan r last n ≡ Some t
        → u < length plan.threads → acts (turn_of plan r u).answer ≡ true
        → owes (config_of plan) r.state u ≡ owes (config_of plan) r.state t
        → priority_of heeds_loans r.state u ≡ priority_of heeds_loans r.state t
        → (last ≡ Some t) ⊎ ((last ≡ Some u → ⊥) × (t ≤ u)) }
{}

/// A policy makes one schedule of a plan at most.
pub fn one_schedule_each()
    ensures { (policy : policies.Policy) (plan : Plan) (a b : List ThreadNo)
        → IsPlanned policy plan a → IsPlanned policy plan b → a ≡ b }
{}

/// A schedule that a policy made is whole: with it in place of its own, every policy leaves the plan as it is.
pub fn made_schedules_stay()
    ensures { (policy other : policies.Policy) (plan : Plan) (ts : List ThreadNo)
        → IsPlanned policy plan ts → IsPlanned other (with_schedule plan ts) ts }
{}
