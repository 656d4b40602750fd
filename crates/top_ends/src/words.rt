//! The words of a command line, as the system gives them.
ghost use Rattle.std.specs.Prelude.{◌≡◌, drop};

use complaints::Status;
use std::env::Env;
use std::{env, io};

/// The words behind the program's name. One that is no text is no word of a form, so the status is then `Usage`.
pub fn given_words<R: AllocGlobal + Env>(rt: &R) -> Result<Vec<String>, Status> {
    let words = match env::args(rt) {
        Ok(words) => words,
        Err(e) if e.kind() == io::ErrorKind::OutOfMemory => return Err(Status::NoMemory),
        Err(_) => return Err(Status::Usage),
    };
    match words.collect::<Vec<String>>(rt.alloc()) {
        Ok(words) => Ok(behind_name(words)),
        Err(_) => Err(Status::NoMemory),
    }
}

// All words but the first, which is the program's name, in order.
fn behind_name(mut words: Vec<String>) -> Vec<String>
    ensures { result.items ≡ drop 1 words.items }
{
    if !words.is_empty() {
        words.remove(0);
    }
    words
}
