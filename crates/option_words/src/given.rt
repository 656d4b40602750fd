//! What the words of a command line say, or why they weren't read.
ghost use Rattle.std.specs.Prelude.{◌≡◌, option_and_then, option_map};
ghost use Rattle.option_words.specs.Forms.{number_in, operand};
ghost use Rattle.option_words.specs.Words.{text_in};
ghost use Rattle.option_words.specs.declared.given.WordsError.TheVariants.{Memory};

use clap::ArgMatches;
use std::alloc::AllocError;

// The name under which the operand stands.
pub(crate) const OPERAND: &str = "=";

/// What a user asks for.
#[derive(Drop, Debug)]
pub enum Request<'a> {
    /// What these texts say.
    Texts(GivenTexts<'a>),
    /// The help, which is this text.
    Help(String),
}

/// The texts that the words give to the options and to the operand, each of the kind that the synopsis names.
#[derive(Drop, Debug)]
pub struct GivenTexts<'a> {
    pub(crate) matches: ArgMatches<'a>,
}

impl<'a> GivenTexts<'a> {
    /// The operand.
    pub fn operand(&self) -> Option<&'a str>
        ensures { option_map (λ word. word.now) result ≡ text_in self.now operand }
    {
        self.text(OPERAND)
    }

    /// The text that an option was given.
    pub fn text(&self, name: &str) -> Option<&'a str>
        ensures { option_map (λ text. text.now) result ≡ text_in self.now name.now }
    {
        self.matches.get_str(name)
    }

    /// The number that an option was given, where a u32 holds it.
    pub fn number(&self, name: &str) -> Option<u32>
        ensures { result ≡ option_and_then number_in (text_in self.now name.now) }
    {
        self.text(name)?.parse::<u32>().ok()
    }
}

/// Why the words weren't read.
#[derive(Clone, Copy, Debug, PartialEq, Eq)]
pub enum WordsError {
    /// They are no form of the command line.
    Usage,
    /// Memory was wanting.
    Memory,
}

impl From<AllocError> for WordsError {
    ghost from_gives = { λ _ e. e ≡ Memory };

    fn from(_e: AllocError) -> WordsError {
        WordsError::Memory
    }
}
