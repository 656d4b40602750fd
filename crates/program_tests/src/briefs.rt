//! Words, scripts and plans in brief, as the tables of this crate have them, and a text in pieces.
ghost use Rattle.std.specs.Prelude.{IfOk};
ghost use Rattle.lock_model.specs.Operations.{IsProper};

use lock_model::Plan;
use script_laws::scripts::scripts_have_proper_plans;
use script_read::read_script;
use std::alloc::{AllocError, Global};
use std::test::Fail;

/// The words that stand between blanks; `''` is the empty word, and `_` in a word stands for a blank.
pub(crate) fn words_of(alloc: Global, line: &str) -> Result<Vec<String>, AllocError> {
    let mut words = Vec::new(alloc);
    push_words(&mut words, alloc, line)?;
    Ok(words)
}

fn push_words(words: &mut Vec<String>, alloc: Global, line: &str) -> Result<(), AllocError> {
    for word in line.split_whitespace() {
        let word = if word == "''" { "" } else { word };
        words.push(word.replace(alloc, "_", " ")?)?;
    }
    Ok(())
}

/// A script in pieces, where `;` is the end of a line, and `[3 lock m#;unlock m+;]` stands for
/// `lock m0;unlock m1;lock m1;unlock m2;lock m2;unlock m3;`.
pub(crate) fn bytes_of(alloc: Global, pieces: &[&str]) -> Result<Vec<u8>, AllocError> {
    let mut script = String::new(alloc);
    push_pieces(&mut script, alloc, pieces)?;
    lines_of(alloc, &script)
}

fn push_pieces(script: &mut String, alloc: Global, pieces: &[&str]) -> Result<(), AllocError> {
    for piece in pieces {
        push_script(script, alloc, piece)?;
    }
    Ok(())
}

fn push_script(script: &mut String, alloc: Global, brief: &str) -> Result<(), AllocError> {
    for part in brief.split('[') {
        match part.split_once(']') {
            None => script.push_str(part)?,
            Some((repeated, behind)) => {
                push_repeated(script, alloc, repeated)?;
                script.push_str(behind)?;
            }
        }
    }
    Ok(())
}

// A text as often as the number in front of it says, with 0, 1 and so on for `#`, and the next number for `+`.
fn push_repeated(script: &mut String, alloc: Global, repeated: &str) -> Result<(), AllocError> {
    if let Some((times, text)) = repeated.split_once(' ') {
        for n in 0..times.parse::<u32>().unwrap_or(0) {
            push_numbered(script, alloc, text, n)?;
        }
    }
    Ok(())
}

fn push_numbered(
    script: &mut String,
    alloc: Global,
    text: &str,
    number: u32,
) -> Result<(), AllocError> {
    let numbered = with_number(alloc, text, "#", number)?;
    script.push_str(&with_number(alloc, &numbered, "+", number.saturating_add(1))?)
}

fn with_number(alloc: Global, text: &str, sign: &str, number: u32) -> Result<String, AllocError> {
    let digits = format!(in alloc; "{number}")?;
    text.replace(alloc, sign, &digits)
}

fn lines_of(alloc: Global, script: &str) -> Result<Vec<u8>, AllocError> {
    Ok(script.replace(alloc, ";", "\n")?.into_bytes())
}

/// The plan of a script.
pub(crate) fn plan_of(alloc: Global, pieces: &[&str]) -> Result<Plan, Fail>
    ensures { IfOk result IsProper }
{
    let bytes = bytes_of(alloc, pieces)?;
    plan_in(alloc, &bytes)
}

fn plan_in(alloc: Global, bytes: &[u8]) -> Result<Plan, Fail>
    ensures { IfOk result IsProper }
{
    scripts_have_proper_plans();
    match read_script(alloc, bytes) {
        Ok(plan) => Ok(plan),
        Err(_) => Err("the bytes are a script".into()),
    }
}

/// Whether a text is these pieces, one behind another.
pub(crate) fn is_joined(text: &[u8], pieces: &[&str]) -> bool {
    let mut left = text;
    for piece in pieces {
        match left.strip_prefix(piece.as_bytes()) {
            Some(rest) => left = rest,
            None => return false,
        }
    }
    left.is_empty()
}
