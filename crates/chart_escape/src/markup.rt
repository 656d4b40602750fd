//! Text in XML and HTML. The five bytes that markup is made of are written as references, and the control bytes but
//! the line end, which XML doesn't allow, as blanks.

ghost use Rattle.std.specs.Prelude.{◌≡◌, ◌++◌, ◌∷◌, [], OnOk};
ghost use Rattle.chart_escape.specs.Markup.{escaped, markup_byte, StaysText};

use std::alloc::AllocError;

/// Pushes text, so that markup takes it for text: between tags, or in an attribute's quotes. It fails where memory runs
/// out.
///
/// ```
/// push_text(&mut out, b"a < b")?; // a &lt; b
/// ```
#[tactic(auto, using(crate::proofs::Readings::stays_text))]
pub fn push_text(out: &mut Vec<u8>, text: &[u8]) -> Result<(), AllocError>
    ensures pushed { OnOk result (out.new.items ≡ out.old.items ++ escaped text.now) }
    ensures stays_text { StaysText (escaped text.now) }
{
    for byte in text {
        out.extend_from_slice(written(*byte, &[*byte]))?;
    }
    Ok(())
}

// How a byte is written: as a reference or a blank, or else as it is.
fn written(byte: u8, itself: &[u8]) -> &[u8]
    requires { itself.now ≡ byte ∷ [] }
    ensures { result.now ≡ markup_byte byte }
{
    match byte {
        b'<' => b"&lt;",
        b'>' => b"&gt;",
        b'&' => b"&amp;",
        b'"' => b"&#34;",
        b'\'' => b"&#39;",
        b'\n' => itself,
        0..=31 | 127 => b" ",
        _ => itself,
    }
}
