//! Words as the table of options has them: there each option has one text.
ghost use Rattle.std.specs.Prelude.{◌≡◌, ◌++◌, ◌∷◌, [], flat_map, map, IfOk, OnOk};
ghost use Rattle.std.specs.String.{string_bytes};
ghost use Rattle.plan_command.specs.Forms.{spelled_out};

use std::alloc::{AllocError, Global};

/// The words, those spelled out that have to be.
pub fn spelled_out(alloc: Global, words: &[String]) -> Result<Vec<String>, AllocError>
    ensures { IfOk result (λ spelled. map string_bytes spelled.items
        ≡ flat_map spelled_out (map string_bytes words.now)) }
{
    let mut spelled = Vec::new(alloc);
    for word in words {
        push_spelled(alloc, &mut spelled, word)?;
    }
    Ok(spelled)
}

// One word.
fn push_spelled(alloc: Global, out: &mut Vec<String>, word: &str) -> Result<(), AllocError>
    ensures { OnOk result (map string_bytes out.new.items
        ≡ map string_bytes out.old.items ++ spelled_out word.now) }
{
    match word {
        "--without-loans" => push_text(alloc, out, "--without-loans=yes"),
        "chance" | "--by=chance" => {
            push_text(alloc, out, word)?;
            push_text(alloc, out, "--seed")
        }
        _ => push_text(alloc, out, word),
    }
}

fn push_text(alloc: Global, out: &mut Vec<String>, text: &str) -> Result<(), AllocError>
    ensures { OnOk result (map string_bytes out.new.items
        ≡ map string_bytes out.old.items ++ text.now ∷ []) }
{
    let text = String::from_str(alloc, text)?;
    out.push(text)?;
    Ok(())
}
