//! What holds of every graph of lock orders that grows by admitted acquisitions.
ghost use Rattle.std.specs.Prelude.{ℕ, List};
ghost use Rattle.std.specs.List.{Contains};
ghost use Rattle.lock_model.specs.Orders.{Forbids, Reaches, HasNoCycle, HaveSameEdges, IsAdmitted, IsFirstToForbid, edges_behind};

/// A graph without a cycle has none behind an admitted acquisition.
pub fn admissions_bring_no_cycle()
    ensures { (es : List (ℕ × ℕ)) (held : List ℕ) (wanted : ℕ)
        → HasNoCycle es → IsAdmitted es held wanted
        → HasNoCycle (edges_behind es held wanted) }
{}

/// A path stays behind each acquisition, so what a held class forbids stays forbidden.
pub fn paths_only_grow()
    ensures { (es : List (ℕ × ℕ)) (held : List ℕ) (wanted a b : ℕ)
        → Reaches es a b → Reaches (edges_behind es held wanted) a b }
{}

/// Nothing is refused that is admitted, and a refusal names a held class that forbids the wanted
/// one.
pub fn refusals_have_their_cause()
    ensures exact { (es : List (ℕ × ℕ)) (held : List ℕ) (wanted first : ℕ)
        → IsFirstToForbid es held wanted first → IsAdmitted es held wanted → ⊥ }
    ensures held { (es : List (ℕ × ℕ)) (held : List ℕ) (wanted first : ℕ)
        → IsFirstToForbid es held wanted first → Contains held first }
    ensures forbids { (es : List (ℕ × ℕ)) (held : List ℕ) (wanted first : ℕ)
        → IsFirstToForbid es held wanted first → Forbids es first wanted }
{}

/// Two graphs with the same edges, in whatever order, give the same answers.
pub fn same_edges_answer_alike()
    ensures path { (es fs : List (ℕ × ℕ)) (a b : ℕ)
        → HaveSameEdges es fs → Reaches es a b → Reaches fs a b }
    ensures admits { (es fs : List (ℕ × ℕ)) (held : List ℕ) (wanted : ℕ)
        → HaveSameEdges es fs → IsAdmitted es held wanted → IsAdmitted fs held wanted }
    ensures refuses { (es fs : List (ℕ × ℕ)) (held : List ℕ) (wanted first : ℕ)
        → HaveSameEdges es fs → IsFirstToForbid es held wanted first
        → IsFirstToForbid fs held wanted first }
    ensures grows { (es fs : List (ℕ × ℕ)) (held : List ℕ) (wanted : ℕ) → HaveSameEdges es fs
        → HaveSameEdges (edges_behind es held wanted) (edges_behind fs held wanted) }
{}
