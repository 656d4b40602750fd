//! The table of a floor, and its rule.

use crate::description::Description;
use crate::slot::Slot;
use crate::view::View;
use atomic_table::{Seat, Table, TableRule};
use std::alloc::Global;

/// The rule of the table: between any two steps it represents a lawful state.
pub struct Law;

impl TableRule<Slot, View, Description> for Law {
    ghost use Rattle.floor_table.specs.Rule.{FloorHolds};
    ghost use Rattle.floor_table.specs.Views.{keeper};

    ghost holds = { FloorHolds };

    ghost first = { keeper };
}

/// The table. It is told once what it is made for, when it is made.
pub type Board = Table<Slot, View, Description, Law, Global>;

/// A seat at the table.
pub type FloorSeat = Seat<Slot, View>;
