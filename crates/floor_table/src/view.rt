//! What a seat at a floor's table knows.

use std::marker::Model;

/// What a seat knows, for proofs alone: no value of it is made.
pub struct View;

impl Model for View {
    ghost use Rattle.floor_table.specs.Views.{Knowledge, nothing};

    ghost Value = { Knowledge };

    ghost view = { λ _. nothing };
}
