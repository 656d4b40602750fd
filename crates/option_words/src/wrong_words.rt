//! What is wrong with words that are no form of a command line, in a sentence for whoever wrote them. The words are
//! gone through by the table of options until one comes that no form goes on with. Whether they are a form is asked of
//! `read`, and of nothing here.

use crate::synopsis::{LongOption, Synopsis, ValueKind};
use std::alloc::{AllocError, Global};
use std::fmt::Display;

/// Of a word that isn't UTF-8.
pub fn no_text(alloc: Global) -> Result<Option<String>, AllocError> {
    said(alloc, format_args!("a word is no text in UTF-8"))
}

/// The first word that is wrong, or what is lacking behind the last; `None` where the words are a form of the table.
///
/// ```
/// let said = mistake(alloc, &SYNOPSIS, &["step", "--turns", "0"])?;
/// // `0` isn't a number from 1 to 1000000, behind `--turns`
/// ```
pub fn mistake<'w>(
    alloc: Global,
    synopsis: &Synopsis<'w>,
    words: &'w [String],
) -> Result<Option<String>, AllocError> {
    let mut walk = Walk {
        given: Vec::new(alloc),
        awaits: None,
        operand: None,
        is_over: false,
    };
    walk.through(alloc, synopsis, words)
}

// What the words so far have said.
#[derive(Drop)]
struct Walk<'w> {
    // The names of the options that were given a text.
    given: Vec<&'w str>,
    awaits: Option<LongOption<'w>>,
    operand: Option<&'w str>,
    // The word `--` has come.
    is_over: bool,
}

impl<'w> Walk<'w> {
    // Goes through all words, up to what is wrong with one or is lacking in the end.
    fn through(
        &mut self,
        alloc: Global,
        synopsis: &Synopsis<'w>,
        words: &'w [String],
    ) -> Result<Option<String>, AllocError> {
        for word in words {
            if let Some(said) = self.next(alloc, synopsis, word.as_str())? {
                return Ok(Some(said));
            }
        }
        self.lacking(alloc, synopsis)
    }

    // Goes on with a word, or tells what is wrong with it.
    fn next(
        &mut self,
        alloc: Global,
        synopsis: &Synopsis<'w>,
        word: &'w str,
    ) -> Result<Option<String>, AllocError> {
        if let Some(option) = self.awaits {
            self.awaits = None;
            self.behind_option(alloc, option, word)
        } else if self.is_over || !begins_option(word) {
            self.with_operand(alloc, synopsis, word)
        } else if word == "--" {
            self.is_over = true;
            Ok(None)
        } else {
            self.with_option(alloc, synopsis, word)
        }
    }

    // A word behind an option whose text is awaited.
    fn behind_option(
        &mut self,
        alloc: Global,
        option: LongOption<'w>,
        word: &'w str,
    ) -> Result<Option<String>, AllocError> {
        if begins_option(word) {
            behind_nothing(alloc, option, Some(word))
        } else {
            self.give(alloc, option, word)
        }
    }

    // A word that begins as an option does.
    fn with_option(
        &mut self,
        alloc: Global,
        synopsis: &Synopsis<'w>,
        word: &'w str,
    ) -> Result<Option<String>, AllocError> {
        match named_by(synopsis, word) {
            Some((option, Some(text))) => self.give(alloc, option, text),
            Some((option, None)) => {
                self.awaits = Some(option);
                Ok(None)
            }
            None => unknown(alloc, synopsis, word),
        }
    }

    // An option is given a text.
    fn give(
        &mut self,
        alloc: Global,
        option: LongOption<'w>,
        text: &'w str,
    ) -> Result<Option<String>, AllocError> {
        let name = option.name;
        if self.given.contains(&name) {
            return said(alloc, format_args!("`--{name}` stands twice"));
        }
        self.given.push(name)?;
        misfit(alloc, option, text)
    }

    // A word that is no option.
    fn with_operand(
        &mut self,
        alloc: Global,
        synopsis: &Synopsis<'w>,
        word: &'w str,
    ) -> Result<Option<String>, AllocError> {
        let program = synopsis.program;
        if synopsis.operands.is_empty() {
            return said(
                alloc,
                format_args!("`{word}` belongs to no option of {program}"),
            );
        }
        if let Some(first) = self.operand {
            return said(
                alloc,
                format_args!("`{word}` stands behind `{first}`, and one of them is enough"),
            );
        }
        if synopsis.operands.contains(&word) {
            self.operand = Some(word);
            return Ok(None);
        }
        no_operand(alloc, synopsis.operands, word)
    }

    // What is lacking behind the last word.
    fn lacking(
        &self,
        alloc: Global,
        synopsis: &Synopsis<'w>,
    ) -> Result<Option<String>, AllocError> {
        if let Some(option) = self.awaits {
            return behind_nothing(alloc, option, None);
        }
        if self.operand.is_none() && !synopsis.operands.is_empty() {
            let names = synopsis.operands.join(alloc, ", ")?;
            return said(alloc, format_args!("one of {names} is lacking"));
        }
        Ok(None)
    }
}

// Whether a word begins with a hyphen, and isn't one alone.
fn begins_option(word: &str) -> bool {
    word.starts_with('-') && word.len() > 1
}

// The option that a word names, and the text that stands behind a `=` in it.
fn named_by<'w>(
    synopsis: &Synopsis<'w>,
    word: &'w str,
) -> Option<(LongOption<'w>, Option<&'w str>)> {
    let named = word.strip_prefix("--")?;
    let (name, text) = match named.split_once('=') {
        Some((name, text)) => (name, Some(text)),
        None => (named, None),
    };
    Some((option_named(synopsis, name)?, text))
}

fn option_named<'w>(synopsis: &Synopsis<'w>, name: &str) -> Option<LongOption<'w>> {
    for option in synopsis.options {
        if option.name == name {
            return Some(*option);
        }
    }
    None
}

fn unknown(
    alloc: Global,
    synopsis: &Synopsis<'_>,
    word: &str,
) -> Result<Option<String>, AllocError> {
    let program = synopsis.program;
    said(alloc, format_args!("{program} has no option `{word}`"))
}

// No text stands behind an option, but a word that begins with a hyphen, or nothing.
fn behind_nothing(
    alloc: Global,
    option: LongOption<'_>,
    word: Option<&str>,
) -> Result<Option<String>, AllocError> {
    let (name, value) = (option.name, option.value_name);
    match (option.kind, word) {
        (ValueKind::AnyText, Some(word)) => said(
            alloc,
            format_args!(
                "`{word}` begins with a hyphen; as the {value} of `--{name}` it is written `--{name}={word}`"
            ),
        ),
        (ValueKind::AnyText | ValueKind::Number(_, _) | ValueKind::OneOf(_), _) => {
            said(
                alloc,
                format_args!("behind `--{name}` its {value} is lacking"),
            )
        }
    }
}

// Why an option doesn't take a text.
fn misfit(alloc: Global, option: LongOption<'_>, text: &str) -> Result<Option<String>, AllocError> {
    if fits(option.kind, text) {
        return Ok(None);
    }
    match option.kind {
        ValueKind::AnyText => Ok(None),
        ValueKind::Number(least, most) => no_number(alloc, option.name, least, most, text),
        ValueKind::OneOf(names) => none_of(alloc, option.name, names, text),
    }
}

// Whether a text is of that kind.
fn fits(kind: ValueKind<'_>, text: &str) -> bool {
    match kind {
        ValueKind::AnyText => true,
        ValueKind::Number(least, most) => match text.parse::<u32>() {
            Ok(number) => least <= number && number <= most,
            Err(_) => false,
        },
        ValueKind::OneOf(names) => names.contains(&text),
    }
}

fn no_number(
    alloc: Global,
    name: &str,
    least: u32,
    most: u32,
    text: &str,
) -> Result<Option<String>, AllocError> {
    said(
        alloc,
        format_args!("`{text}` isn't a number from {least} to {most}, behind `--{name}`"),
    )
}

fn none_of(
    alloc: Global,
    name: &str,
    names: &[&str],
    text: &str,
) -> Result<Option<String>, AllocError> {
    let names = names.join(alloc, ", ")?;
    said(
        alloc,
        format_args!("`{text}` is none of {names}, behind `--{name}`"),
    )
}

fn no_operand(alloc: Global, names: &[&str], word: &str) -> Result<Option<String>, AllocError> {
    let names = names.join(alloc, ", ")?;
    said(alloc, format_args!("`{word}` is none of {names}"))
}

// A sentence, as a text.
fn said<S: Display + Drop>(alloc: Global, sentence: S) -> Result<Option<String>, AllocError> {
    Ok(Some(sentence.to_string(alloc)?))
}
