//! The floor, which all its threads share.
ghost use Rattle.std.specs.Prelude.{◌≡◌, ◌<◌, length};
ghost use Rattle.floor_table.specs.Descriptions.{config_in};

use crate::ties::Ties;
use atomic_table::{Table, TableRule};
use floor_table::{Description, Law, Slot, View};
use lock_model::{ClassNo, Kind, LockNo};
use std::alloc::Global;
use std::marker::Model;

/// A floor over a table of any values, views and keys.
#[derive(Drop)]
pub struct FloorOf<S, V, K, P: TableRule<S, V, K> + Ties<S, V, K>> {
    pub(crate) board: Table<S, V, K, P, Global>,
    /// What it was made for, as the table was told.
    pub(crate) description: K,
}

impl<S, V, K, P: TableRule<S, V, K> + Ties<S, V, K>> Model for FloorOf<S, V, K, P> {
    ghost use Rattle.lock_floor.specs.Floors.{Floor};

    ghost Value = { Floor K };

    ghost view = { λ f. record {
      table = f.board.shared.table_id;
      description = f.board.shared.key;
    } };

    ghost invariant = { λ f. P.laid f.board.shared.key f.board.shared.table_id f.description };
}

/// A floor that was made for a description, which a plan may give.
pub type Floor = FloorOf<Slot, View, Description, Law>;

impl FloorOf<Slot, View, Description, Law> {
    /// The kind of a lock.
    pub fn kind(&self, l: LockNo) -> Kind
        requires { l.0 < length self.now.description.locks }
        ensures { result ≡ (config_in self.now.description).kind l.0 }
    {
        self.description.locks.as_slice()[usize::from(l.0)].kind
    }

    /// The class of a lock.
    pub fn class(&self, l: LockNo) -> ClassNo
        requires { l.0 < length self.now.description.locks }
        ensures { result.0 ≡ (config_in self.now.description).class l.0 }
    {
        self.description.locks.as_slice()[usize::from(l.0)].class
    }
}
