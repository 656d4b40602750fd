//! The help: what the program does, the form of its command line, and a line for each word that may stand there.

use crate::synopsis::Synopsis;
use std::alloc::{AllocError, Global};

/// The text of the help.
pub(crate) fn help_text(alloc: Global, synopsis: &Synopsis<'_>) -> Result<String, AllocError> {
    let mut text = String::new(alloc);
    if let Some(help) = synopsis.help {
        push_all(&mut text, &[help.about, "\n\nUsage: ", help.usage, "\n\n"])?;
    }
    for line in synopsis.lines {
        push_all(&mut text, &["  ", line, "\n"])?;
    }
    Ok(text)
}

fn push_all(text: &mut String, pieces: &[&str]) -> Result<(), AllocError> {
    for piece in pieces {
        text.push_str(piece)?;
    }
    Ok(())
}
