//! What a line of markup or JSON is made of.

ghost use Rattle.std.specs.Prelude.{◌≡◌, ◌++◌, decimal, true, OnOk};
ghost use Rattle.chart_escape.specs.Pieces.{pieces_bytes, tokens_bytes, written};
ghost use Rattle.chart_escape.specs.Reader.{behind_pieces, read, AddsElements, AreElements, IsBetweenTags};
ghost use Rattle.chart_escape.specs.Values.{number_bytes, separator};

use crate::markup::push_text;
use crate::quoted::push_json;
use lock_model::push_digits;
use std::alloc::AllocError;

/// A piece of a line.
///
/// ```
/// let title = [Piece::Own("<title>"), Piece::Text(text), Piece::Own("</title>")];
/// ```
#[derive(Clone, Copy, Debug)]
pub enum Piece<'a> {
    /// What the program itself writes, as it is.
    Own(&'static str),
    /// A number, in decimal.
    Number(u64),
    /// A number, or nothing.
    Optional(Option<u64>),
    /// Somebody else's text in markup: `push_text` writes it.
    Text(&'a [u8]),
    /// Somebody else's text as a JSON string: `push_json` writes it.
    Json(&'a [u8]),
}

/// Pushes pieces of JSON one behind the other. It fails where memory runs out.
///
/// ```
/// push_tokens(&mut out, &[Piece::Own("{\"title\":"), Piece::Json(title)])?;
/// ```
pub fn push_tokens(out: &mut Vec<u8>, pieces: &[Piece<'_>]) -> Result<(), AllocError>
    ensures { OnOk result (out.new.items ≡ out.old.items ++ tokens_bytes pieces.now) }
{
    push_all(out, pieces)
}

/// Pushes pieces of markup one behind the other, and tells where a reader is behind them.
#[tactic(auto, using(crate::proofs::Readings::pieces_read_on))]
pub fn push_pieces(out: &mut Vec<u8>, pieces: &[Piece<'_>]) -> Result<(), AllocError>
    ensures pushed { OnOk result (out.new.items ≡ out.old.items ++ pieces_bytes pieces.now) }
    ensures reads { OnOk result (read out.new.items
        ≡ behind_pieces (read out.old.items) pieces.now) }
{
    push_all(out, pieces)
}

/// The same for pieces that are whole elements and text, where a reader of markup is between tags.
#[tactic(auto, using(crate::proofs::Readings::adds))]
pub fn push_elements(out: &mut Vec<u8>, pieces: &[Piece<'_>]) -> Result<(), AllocError>
    requires between { IsBetweenTags out.old.items }
    requires whole { AreElements pieces.now }
    ensures pushed { OnOk result (out.new.items ≡ out.old.items ++ pieces_bytes pieces.now) }
    ensures reads { OnOk result (AddsElements out.old.items out.new.items) }
{
    push_pieces(out, pieces)
}

// Of either form.
fn push_all(out: &mut Vec<u8>, pieces: &[Piece<'_>]) -> Result<(), AllocError>
    ensures pushed { OnOk result (out.new.items ≡ out.old.items ++ pieces_bytes pieces.now) }
    ensures told { OnOk result (out.new.items ≡ out.old.items ++ tokens_bytes pieces.now) }
{
    for piece in pieces {
        push_piece(out, *piece)?;
    }
    Ok(())
}

fn push_piece(out: &mut Vec<u8>, piece: Piece<'_>) -> Result<(), AllocError>
    ensures pushed { OnOk result (out.new.items ≡ out.old.items ++ written decimal piece.entry) }
    ensures told { OnOk result (out.new.items ≡ out.old.items ++ written number_bytes piece.entry) }
{
    match piece {
        Piece::Own(text) => out.extend_from_slice(text.as_bytes()),
        Piece::Number(n) | Piece::Optional(Some(n)) => push_number(out, n),
        Piece::Optional(None) => Ok(()),
        Piece::Text(text) => push_text(out, text),
        Piece::Json(text) => push_json(out, text),
    }
}

#[tactic(auto, using(crate::proofs::Numbers::number_is_decimal))]
fn push_number(out: &mut Vec<u8>, n: u64) -> Result<(), AllocError>
    ensures pushed { OnOk result (out.new.items ≡ out.old.items ++ decimal n) }
    ensures told { OnOk result (out.new.items ≡ out.old.items ++ number_bytes n) }
{
    push_digits(out, n)
}

/// Pushes what stands before the item of an array that has a line of its own: a comma, but for the first, and the end
/// of the line before.
pub fn begin_line_item(out: &mut Vec<u8>, first: bool) -> Result<(), AllocError>
    ensures { OnOk result (out.new.items ≡ out.old.items ++ separator first true) }
{
    if first {
        out.extend_from_slice(b"\n")
    } else {
        out.extend_from_slice(b",\n")
    }
}
