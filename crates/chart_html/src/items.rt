//! Arrays of the data. What stands in one says which value tells it, and pushes that: words of JSON, each with a number
//! or a text behind it, and arrays in it.
ghost use Rattle.std.specs.Prelude.{◌≡◌, ◌++◌, ℕ, OnOk};
ghost use Rattle.chart_escape.specs.Json.{json_string};
ghost use Rattle.chart_escape.specs.Values.{number_bytes, numbered, value_bytes, Value};

use chart_escape::{Piece, begin_line_item, push_tokens};
use chart_layout::Chart;
use chart_words::push_words;
use lock_model::Plan;
use run_tracks::Rows;
use std::alloc::AllocError;

/// Pushes words of JSON, and a number behind them.
pub fn push_with_number(out: &mut Vec<u8>, words: &'static str, n: u64) -> Result<(), AllocError>
    ensures { OnOk result (out.new.items ≡ out.old.items ++ (words.now ++ number_bytes n)) }
{
    push_tokens(out, &[Piece::Own(words), Piece::Number(n)])
}

/// Pushes words of JSON, and text behind them, as a string.
pub fn push_with_string(
    out: &mut Vec<u8>,
    words: &'static str,
    text: &[u8],
) -> Result<(), AllocError>
    ensures { OnOk result (out.new.items ≡ out.old.items ++ (words.now ++ json_string text.now)) }
{
    push_tokens(out, &[Piece::Own(words), Piece::Json(text)])
}

/// What items are told by: a plan, its run, and a chart of that.
#[derive(Clone, Copy)]
pub struct Known<'a> {
    pub plan: &'a Plan,
    pub rows: &'a Rows,
    pub chart: &'a Chart,
}

/// What stands in an array of the data.
pub trait Listed {
    ghost use Rattle.chart_html.specs.declared.items.Known.{Known};

    /// The value that tells the item of a number.
    ghost value: { Known → ℕ → Self → Value };

    /// Pushes it. It fails where memory runs out.
    fn push(&self, out: &mut Vec<u8>, known: &Known<'_>, n: usize) -> Result<(), AllocError>
        ensures { OnOk result (out.new.items
            ≡ out.old.items ++ value_bytes (value known.now n self.now)) };
}

/// Pushes an array behind its name, each item on a line of its own.
pub fn push_items<T: Listed>(
    out: &mut Vec<u8>,
    name: &[u8],
    known: &Known<'_>,
    items: &[T],
) -> Result<(), AllocError>
    ensures { OnOk result (out.new.items
        ≡ out.old.items ++ name.now ++ value_bytes (numbered (T.value known.now) items.now)) }
{
    push_words(out, name)?;
    push_words(out, b"[")?;
    for (i, item) in items.iter().enumerate() {
        begin_line_item(out, i == 0)?;
        item.push(out, known, i)?;
    }
    push_words(out, b"]")
}
