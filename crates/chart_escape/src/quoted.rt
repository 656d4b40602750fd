//! Text as a JSON string. The quote and the backslash are written behind a backslash, and by their numbers the control
//! bytes and `<`, so that no `</script>` can stand in it.

ghost use Rattle.std.specs.Prelude.{◌≡◌, ◌<◌, ◌++◌, OnOk};
ghost use Rattle.std.specs.Char.{digit_char};
ghost use Rattle.chart_escape.specs.Json.{by_number, json_byte, json_string, HasNoTag, IsReadBack};

use std::alloc::AllocError;

/// Pushes text as a JSON string, with its quotes. It fails where memory runs out.
///
/// ```
/// push_json(&mut out, b"a < b")?; // "a \u003c b"
/// ```
#[tactic(auto, using(crate::proofs::Written::is_read_back, crate::proofs::Written::string_has_no_tag))]
pub fn push_json(out: &mut Vec<u8>, text: &[u8]) -> Result<(), AllocError>
    ensures pushed { OnOk result (out.new.items ≡ out.old.items ++ json_string text.now) }
    ensures read { IsReadBack text.now }
    ensures no_tag { HasNoTag (json_string text.now) }
{
    out.push(b'"')?;
    for byte in text {
        push_byte(out, *byte)?;
    }
    out.push(b'"')?;
    Ok(())
}

fn push_byte(out: &mut Vec<u8>, byte: u8) -> Result<(), AllocError>
    ensures { OnOk result (out.new.items ≡ out.old.items ++ json_byte byte) }
{
    match byte {
        b'"' => out.extend_from_slice(b"\\\""),
        b'\\' => out.extend_from_slice(b"\\\\"),
        0..=31 | b'<' => push_number(out, byte),
        32..=255 => out.extend_from_slice(&[byte]),
    }
}

// A byte by its number: `\u` and four hexadecimal digits.
fn push_number(out: &mut Vec<u8>, byte: u8) -> Result<(), AllocError>
    ensures { OnOk result (out.new.items ≡ out.old.items ++ by_number byte) }
{
    out.extend_from_slice(b"\\u00")?;
    out.extend_from_slice(&[digit(byte / 16), digit(byte % 16)])
}

fn digit(n: u8) -> u8
    requires { n < 16 }
    ensures { result ≡ digit_char n }
{
    if n < 10 { b'0' + n } else { b'a' + (n - 10) }
}
