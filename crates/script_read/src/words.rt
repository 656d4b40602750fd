//! Cutting a line into words, with one space between them.
ghost use Rattle.std.specs.Prelude.{◌≡◌, ◌∷◌, option_copied};
ghost use Rattle.lock_model.specs.Script.Lines.{words_of, is_same};
ghost use Rattle.lock_model.specs.Counts.{is_empty};
ghost use Rattle.std.specs.List.{list_any};
ghost use Rattle.script_read.specs.Reading.{words_behind};

use crate::lines::split_at_byte;

/// The first word, which may be empty, and what stands behind the space after it, if there is one.
pub fn cut_word(text: &[u8]) -> (&[u8], Option<&[u8]>)
    ensures { words_of text.now ≡ result.0.now ∷ words_behind (option_copied result.1) }
{
    match split_at_byte(text, b' ') {
        Some((word, rest)) => (word, Some(rest)),
        None => (text, None),
    }
}

/// Whether a word of the text is empty.
pub fn has_empty_word(text: &[u8]) -> bool
    ensures { result ≡ list_any is_empty (words_of text.now) }
{
    // Whether a word begins here.
    let mut begins = true;
    for b in text {
        if *b == b' ' && begins {
            return true;
        }
        begins = *b == b' ';
    }
    begins
}

/// Whether a word is that text.
pub fn is_word(word: &[u8], text: &str) -> bool
    ensures { result ≡ is_same word.now text.now }
{
    word == text.as_bytes()
}
