//! Lines and first words, as they are pushed onto a script's text.
ghost use Rattle.std.specs.Prelude.{◌≡◌, ◌++◌, map, OnOk};
ghost use Rattle.lock_model.specs.Text.{line_of, spaced};
ghost use Rattle.script_read.specs.Statements.{word};

use crate::statement::Verb;
use lock_model::push_word;
use std::alloc::AllocError;

/// A line of a first word and others.
pub fn push_line(out: &mut Vec<u8>, verb: Verb, words: &[&[u8]]) -> Result<(), AllocError>
    ensures { OnOk result (out.new.items
        ≡ out.old.items ++ line_of (word verb) (map (λ w. w.now) words.now)) }
{
    push_verb(out, verb)?;
    push_words(out, words)?;
    out.push(b'\n')?;
    Ok(())
}

fn push_words(out: &mut Vec<u8>, words: &[&[u8]]) -> Result<(), AllocError>
    ensures { OnOk result (out.new.items
        ≡ out.old.items ++ spaced (map (λ w. w.now) words.now)) }
{
    for text in words {
        push_word(out, text)?;
    }
    Ok(())
}

/// A first word.
pub fn push_verb(out: &mut Vec<u8>, verb: Verb) -> Result<(), AllocError>
    ensures { OnOk result (out.new.items ≡ out.old.items ++ word verb) }
{
    out.extend_from_slice(verb.word().as_bytes())
}
