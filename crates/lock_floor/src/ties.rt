//! What is true of each floor and of each pass, as members of the rule of the table: so a floor is found to cross
//! threads, whatever lies in the slots. That a pass does is shown for the floor's own values.

use floor_table::{Description, Law, Slot, View};

/// What ties a floor to its table, and a pass to what its seat knows.
pub trait Ties<S, V, K> {
    ghost use Rattle.std.specs.Prelude.{ℕ, Bool};
    ghost use Rattle.std.specs.Global.{Vec};
    ghost use Rattle.atomic_table.specs.Table.{Me};
    ghost use Rattle.atomic_table.specs.Seated.{TableId};
    ghost use Rattle.lock_history.specs.Books.{Book};
    ghost use Rattle.lock_model.specs.declared.event.Held.{Held};
    ghost use Rattle.lock_objects.specs.declared.marked.Marked.{Marked};

    ghost laid: { K → TableId → K → Type 0 };

    ghost tied: { ℕ → Vec Held → Marked → Book → Bool → Me S V → Type 0 };
}

impl Ties<Slot, View, Description> for Law {
    ghost use Rattle.lock_floor.specs.Ties.{IsLaid, IsTied};

    ghost laid = { IsLaid };

    ghost tied = { IsTied };
}
