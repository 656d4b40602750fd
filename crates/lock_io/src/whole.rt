//! Reading a source to its end, and writing a whole text to a sink, at any source and any sink.
ghost use Rattle.std.specs.Prelude.{◌≡◌, ℕ, ◌+◌, ◌<◌, ◌≤◌, ◌++◌, length, drop, IfOk, IfSome, OnOk, OnErr, IsErrOf, vec_len};
ghost use Rattle.std.specs.Io.KnownBytes.{IsAtEnd};
ghost use Rattle.lock_io.specs.Faults.{Rose};
ghost use Rattle.lock_io.specs.Whole.{AddsFront, MatchFault, TakesFront, most_taken};

use crate::failed::Failed;
use crate::sink::Sink;
use crate::source::Source;
use std::alloc::{AllocError, Global};

/// Why a source wasn't read to its end.
///
/// ```
/// let why = ReadAllError::TooBig;
/// ```
#[derive(Clone, Copy, Debug, PartialEq, Eq)]
pub enum ReadAllError {
    /// Memory was wanting.
    Memory(AllocError),
    /// The source failed.
    Fault(Failed),
    /// The source has more bytes than the limit.
    TooBig,
}

// How many bytes are asked for at once, at most.
const PIECE: usize = 4096;

/// All bytes that the source has left, where they are at most `limit`. The reading stops at the first
/// byte beyond that, and the answer is then `TooBig`. `Fault` comes only where the source failed, and
/// `Memory` only where memory is wanting. At `TooBig` exactly `limit + 1` bytes were taken, and at most
/// `limit` at each other answer.
pub fn read_all<S: Source>(
    alloc: Global,
    source: &mut S,
    limit: usize,
) -> Result<Vec<u8>, ReadAllError>
    ensures bytes { IfOk result (λ text.
        IfSome (S.remaining source.old) (λ bytes. text.items ≡ bytes)) }
    ensures end { OnOk result (IsAtEnd (S.remaining source.new)) }
    ensures within { IfOk result (λ text. vec_len text ≤ limit) }

    ensures too_big { IsErrOf result ReadAllError.TooBig →
        IfSome (S.remaining source.old) (λ bytes. limit < length bytes) }
    ensures too_big_takes { IsErrOf result ReadAllError.TooBig → IfSome (S.remaining source.old)
        (λ bytes. S.remaining source.new ≡ Some (drop (limit + 1) bytes)) }

    // At each answer.
    ensures front { TakesFront (S.remaining source.old) (S.remaining source.new)
        (most_taken result limit) }
    ensures fault { MatchFault result (Rose (S.faults source.old) (S.faults source.new))
        (S.faults source.new ≡ S.faults source.old) }
    ensures never_falls { S.faults source.old ≤ S.faults source.new }
{
    let mut text = Vec::new(alloc);
    let mut piece = [0; PIECE];
    while text.len() <= limit {
        let wanted = (limit - text.len()).saturating_add(1).min(PIECE);
        // The room comes first, so that no byte is taken that can't be kept.
        text.reserve(wanted).map_err(ReadAllError::Memory)?;
        let taken = source
            .read(&mut piece[..wanted])
            .map_err(ReadAllError::Fault)?;
        if taken == 0 {
            return Ok(text);
        }
        text.extend_from_slice(&piece[..taken]).unwrap();
    }
    Err(ReadAllError::TooBig)
}

/// Writes the whole text and flushes. Each write is given all that wasn't taken yet. `Failed` comes
/// only where the sink failed, and what it took then is the front of the text.
pub fn write_all<K: Sink>(sink: &mut K, text: &[u8]) -> Result<(), Failed>
    ensures written { OnOk result
        (IfSome (K.contents sink.old) (λ held. K.contents sink.new ≡ Some (held ++ text.now))) }
    ensures front { AddsFront (K.contents sink.old) (K.contents sink.new) text.now }
    ensures fault { OnErr result (Rose (K.faults sink.old) (K.faults sink.new)) }
    ensures no_fault { OnOk result (K.faults sink.new ≡ K.faults sink.old) }
    ensures never_falls { K.faults sink.old ≤ K.faults sink.new }
{
    let mut written = 0;
    while written < text.len() {
        written += sink.write(&text[written..])?;
    }
    sink.flush()
}
