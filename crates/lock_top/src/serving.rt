//! What all commands share: the words and the bytes of the source are read; the text is made whole before its first
//! byte is written, and nothing is written where there is none. Where the bytes are no script, the text is the line of
//! their first fault.
ghost use Rattle.std.specs.Prelude.{◌≡◌, true, map, IfErr, IfOk, IfSome, IsSome, None, Some, []};
ghost use Rattle.std.specs.String.{string_bytes};
ghost use Rattle.command_line.specs.Forms.{is_form, words_of};
ghost use Rattle.command_line.specs.Ranges.{HasRanges};
ghost use Rattle.lock_io.specs.Faults.{Rose};
ghost use Rattle.lock_top.specs.Calls.{TellsForms, WritesOutput, WritesWhole};
ghost use Rattle.lock_top.specs.Output.{has_text, IsFaultOf, IsOutputSaid};
ghost use Rattle.top_ends.specs.Calls.{ReadsBytes, TellsFaults, Wrote};
ghost use Rattle.top_ends.specs.Statuses.{reads_all};

use command_line::{LockrunArgs, WordsError, read_words};
use complaints::Status;
use lock_history::print_fault;
use lock_io::{Sink, Source};
use script_read::ReadError;
use std::alloc::{AllocError, Global};
use top_ends::{read_bytes, write_text};

/// What a call leaves: how it ended, and what more is to be said of that.
#[derive(Drop, Debug)]
pub struct Served {
    pub status: Status,
    /// The bytes of the source, where they were read to their end.
    pub source: Option<Vec<u8>>,
    /// The text that was made, of which a sink that failed took a front; empty where none was made.
    pub text: Vec<u8>,
}

/// Reads the words, and the source to its end, and writes the text that the command makes of its bytes. It takes memory
/// until the text is made, and none from then on.
pub fn serve<
    S: Source,
    K: Sink,
    F: FnOnce(LockrunArgs, &[u8]) -> Result<(Status, Vec<u8>), ReadError>,
>(alloc: Global, words: &[String], source: &mut S, sink: &mut K, of_bytes: F) -> Served
    requires callable { (said : LockrunArgs) (bytes : _)
        → words_of (map string_bytes words.now) ≡ Some said → HasRanges said → F.pre of_bytes said bytes }
    requires answers { (said : LockrunArgs) (bytes : _) (r : _)
        → words_of (map string_bytes words.now) ≡ Some said → F.post of_bytes said bytes r
        → IfOk r (λ a. IsOutputSaid said bytes.now (a.0, a.1.items)) }
    requires refuses { (said : LockrunArgs) (bytes : _) (r : _)
        → words_of (map string_bytes words.now) ≡ Some said → F.post of_bytes said bytes r
        → IfErr r (IsFaultOf (IsOutputSaid said bytes.now)) }
    requires has_text { (said : LockrunArgs) (bytes : _) (r : _) → F.post of_bytes said bytes r
        → IfOk r (λ a. has_text a.0 ≡ true) }
    ensures forms { TellsForms (map string_bytes words.now) result.status (S.remaining source.old)
        (S.remaining source.new) }
    ensures reads { ReadsBytes result.status (S.remaining source.old) (S.remaining source.new) }
    ensures read_fault { TellsFaults result.status Status.ReadFault (S.faults source.old) (S.faults source.new) }
    ensures write_fault { TellsFaults result.status Status.WriteFault (K.faults sink.old) (K.faults sink.new) }
    ensures writes { WritesOutput (map string_bytes words.now) result.status (S.remaining source.old)
        (K.contents sink.old) (K.contents sink.new) }
    ensures complete { is_form (map string_bytes words.now) ≡ true
        → ¬ (Rose (S.faults source.old) (S.faults source.new)) → ¬ (Rose (K.faults sink.old) (K.faults sink.new))
        → WritesWhole result.status (S.remaining source.old) }
    ensures source { IfSome result.source
        (λ kept. IfSome (S.remaining source.old) (λ bytes. kept.items ≡ bytes)) }
    ensures kept { reads_all result.status ≡ true → IsSome result.source }
    ensures text { has_text result.status ≡ true
        → Wrote (K.contents sink.old) (K.contents sink.new) result.text.items }
{
    let said = match read_words(alloc, words) {
        Ok(said) => said,
        Err(WordsError::Usage) => return Served::unread(alloc, Status::Usage),
        Err(WordsError::Memory) => return Served::unread(alloc, Status::NoMemory),
    };
    let bytes = match read_bytes(alloc, source) {
        Ok(bytes) => bytes,
        Err(status) => return Served::unread(alloc, status),
    };
    match answer(alloc, said, &bytes, of_bytes) {
        Ok((status, text)) => Served {
            status: write_text(sink, status, &text),
            source: Some(bytes),
            text,
        },
        Err(_) => Served {
            status: Status::NoMemory,
            source: Some(bytes),
            text: Vec::new(alloc),
        },
    }
}

impl Served {
    /// What a call leaves that didn't read its source to the end.
    pub fn unread(alloc: Global, status: Status) -> Served
        ensures status { result.status ≡ status }
        ensures source { result.source ≡ None }
        ensures text { result.text.items ≡ [] }
    {
        Served {
            status,
            source: None,
            text: Vec::new(alloc),
        }
    }
}

// The status and the text of the bytes: those that the command makes of them, or the line of their first fault.
pub(crate) fn answer<F: FnOnce(LockrunArgs, &[u8]) -> Result<(Status, Vec<u8>), ReadError>>(
    alloc: Global,
    said: LockrunArgs,
    bytes: &[u8],
    of_bytes: F,
) -> Result<(Status, Vec<u8>), AllocError>
    requires callable { F.pre of_bytes said bytes }
    requires answers { (r : _) → F.post of_bytes said bytes r
        → IfOk r (λ a. IsOutputSaid said bytes.now (a.0, a.1.items)) }
    requires refuses { (r : _) → F.post of_bytes said bytes r
        → IfErr r (IsFaultOf (IsOutputSaid said bytes.now)) }
    requires has_text { (r : _) → F.post of_bytes said bytes r
        → IfOk r (λ a. has_text a.0 ≡ true) }
    ensures pair { IfOk result (λ a. IsOutputSaid said bytes.now (a.0, a.1.items)) }
    ensures has_text { IfOk result (λ a. has_text a.0 ≡ true) }
{
    match of_bytes(said, bytes) {
        Ok(made) => Ok(made),
        Err(ReadError::Script(fault)) => {
            let text = print_fault(alloc, fault.line, fault.code)?;
            Ok((Status::BadScript, text))
        }
        Err(ReadError::Memory(e)) => Err(e),
    }
}
