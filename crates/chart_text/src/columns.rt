//! Words in columns of their own.
ghost use Rattle.std.specs.Prelude.{◌≡◌, ◌++◌, ◌∷◌, [], OnOk};
ghost use Rattle.chart_text.specs.Lines.{at_left, at_right, name_width, spaces};

use chart_words::push_words;
use lock_model::ThreadDecl;
use std::alloc::AllocError;

/// How wide the column of names is: as the longest of them, and not narrower than its head.
pub fn name_width(threads: &[ThreadDecl]) -> usize
    ensures { result ≡ name_width threads.now }
{
    let widths = threads.iter().map(|thread| thread.name.as_bytes().len());
    widths.fold(6, |widest: usize, width| widest.max(width))
}

/// Pushes a word at the right of a column so wide, and the space behind the column.
pub fn push_right(out: &mut Vec<u8>, width: usize, word: &[u8]) -> Result<(), AllocError>
    ensures { OnOk result (out.new.items ≡ out.old.items ++ at_right width word.now ++ 32 ∷ []) }
{
    push_spaces(out, width.saturating_sub(word.len()))?;
    push_words(out, word)?;
    push_words(out, b" ")
}

/// Pushes a word at the left of a column so wide.
pub fn push_left(out: &mut Vec<u8>, width: usize, word: &[u8]) -> Result<(), AllocError>
    ensures { OnOk result (out.new.items ≡ out.old.items ++ at_left width word.now) }
{
    push_words(out, word)?;
    push_spaces(out, width.saturating_sub(word.len()))
}

fn push_spaces(out: &mut Vec<u8>, n: usize) -> Result<(), AllocError>
    ensures { OnOk result (out.new.items ≡ out.old.items ++ spaces n) }
{
    for _ in 0..n {
        out.push(b' ')?;
    }
    Ok(())
}
