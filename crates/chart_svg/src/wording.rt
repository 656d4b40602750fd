//! Words of the picture, piece by piece.
ghost use Rattle.std.specs.Prelude.{◌≡◌, ◌++◌, ◌∷◌, decimal, OnOk};

use chart_words::push_words;
use lock_model::push_number;
use std::alloc::AllocError;

/// Whether memory was there for what is pushed or added.
pub type Pushed = Result<(), AllocError>;

/// Pushes words, and a number behind them: `turn 7`.
pub fn push_counted(out: &mut Vec<u8>, words: &[u8], n: u32) -> Pushed
    ensures { OnOk result (out.new.items ≡ out.old.items ++ words.now ++ 32 ∷ decimal n) }
{
    push_words(out, words)?;
    push_number(out, u64::from(n))
}
