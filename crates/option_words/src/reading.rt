//! Reading the words of a command line by a table of options.
ghost use Rattle.std.specs.Prelude.{◌≡◌, map, Err, IfOk, None, Some};
ghost use Rattle.std.specs.String.{string_bytes};
ghost use Rattle.option_words.specs.Forms.{meaning_of};
ghost use Rattle.option_words.specs.Words.{AreTaken, meaning, table_of};

use crate::given::{GivenTexts, Request, WordsError};
use crate::help::help_text;
use crate::rule::rule;
use crate::synopsis::Synopsis;
use clap::error::ErrorKind;
use std::alloc::Global;

/// What the words ask for, without the program's name. `Usage` comes exactly where they are no form of the synopsis,
/// and `Memory` only for want of memory.
pub fn read<'a>(
    alloc: Global,
    synopsis: &Synopsis<'a>,
    words: &'a [String],
) -> Result<Request<'a>, WordsError>
    ensures asked { IfOk result (λ a.
        meaning_of (table_of synopsis.now) (map string_bytes words.entry.now) ≡ Some (meaning a)) }
    ensures kinds { IfOk result (AreTaken (table_of synopsis.now)) }
    ensures usage { result ≡ Err WordsError.Usage
        → meaning_of (table_of synopsis.now) (map string_bytes words.entry.now) ≡ None }
{
    match rule(alloc, synopsis)?.try_get_matches_from(words) {
        Ok(matches) => Ok(Request::Texts(GivenTexts { matches })),
        Err(e) => match e.kind() {
            ErrorKind::DisplayHelp => Ok(Request::Help(help_text(alloc, synopsis)?)),
            ErrorKind::OutOfMemory => Err(WordsError::Memory),
            _ => Err(WordsError::Usage),
        },
    }
}
