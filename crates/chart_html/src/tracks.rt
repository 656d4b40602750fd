//! Tracks: arrays of pairs, each a row and the value that holds from it on.
ghost use Rattle.std.specs.Prelude.{◌≡◌, ◌++◌, codes, OnOk};
ghost use Rattle.chart_escape.specs.Values.{number_bytes, Number};
ghost use Rattle.chart_html.specs.Tracks.{hold, pair, track};

use crate::items::{Known, Listed, push_items};
use chart_escape::{Piece, push_tokens};
use chart_words::push_words;
use lock_model::Mode;
use run_tracks::Track;
use std::alloc::AllocError;

/// Pushes a pair up to its value.
pub fn begin_pair(out: &mut Vec<u8>, row: u32) -> Result<(), AllocError>
    ensures { OnOk result (out.new.items
        ≡ out.old.items ++ codes "[" ++ number_bytes row ++ codes ",") }
{
    let row = Piece::Number(u64::from(row));
    push_tokens(out, &[Piece::Own("["), row, Piece::Own(",")])
}

/// A lock's word.
impl Listed for (u32, u64) {
    ghost value = { λ known n change. pair Number change };

    fn push(&self, out: &mut Vec<u8>, _known: &Known<'_>, _n: usize) -> Result<(), AllocError> {
        begin_pair(out, self.0)?;
        push_tokens(out, &[Piece::Number(self.1), Piece::Own("]")])
    }
}

/// How a lock is held: `x` where it is held alone, `s` where it is shared.
impl Listed for (u32, Option<Mode>) {
    ghost value = { λ known n change. pair hold change };

    fn push(&self, out: &mut Vec<u8>, _known: &Known<'_>, _n: usize) -> Result<(), AllocError> {
        begin_pair(out, self.0)?;
        match self.1 {
            Some(Mode::Excl) => push_words(out, b"\"x\"]"),
            Some(Mode::Shared) => push_words(out, b"\"s\"]"),
            None => push_words(out, b"\"\"]"),
        }
    }
}

impl Listed for Track<Option<Mode>> {
    ghost value = { λ known n changes. track hold changes };

    fn push(&self, out: &mut Vec<u8>, known: &Known<'_>, _n: usize) -> Result<(), AllocError> {
        push_items(out, b"", known, self.changes())
    }
}
