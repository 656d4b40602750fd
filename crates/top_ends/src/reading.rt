//! Reading the source of a call to its end.
ghost use Rattle.std.specs.Prelude.{◌≡◌, ◌+◌, ◌↔◌, true, IfErr, IfOk, IfSome, IsErrOf, OnOk};
ghost use Rattle.std.specs.Io.KnownBytes.{IsAtEnd};
ghost use Rattle.lock_io.specs.Faults.{Rose};
ghost use Rattle.lock_io.specs.Whole.{TakesFront};
ghost use Rattle.lock_model.specs.Limits.{most_bytes};
ghost use Rattle.top_ends.specs.Calls.{TookTooMany};
ghost use Rattle.top_ends.specs.Statuses.{tells_of_reading};

use complaints::Status;
use lock_io::{ReadAllError, Source, read_all};
use lock_model::limits::SCRIPT_BYTES;
use std::alloc::Global;

/// All bytes of the source, or the status that tells why they weren't read: `ReadFault`, `NoMemory` or `TooBig`.
pub fn read_bytes<S: Source>(alloc: Global, source: &mut S) -> Result<Vec<u8>, Status>
    ensures bytes { IfOk result (λ text.
        IfSome (S.remaining source.old) (λ bytes. text.items ≡ bytes)) }
    ensures read_whole { OnOk result (IsAtEnd (S.remaining source.new)) }
    ensures statuses { IfErr result (λ status. tells_of_reading status ≡ true) }
    ensures reads_at_most { TakesFront (S.remaining source.old) (S.remaining source.new) (most_bytes + 1) }
    ensures too_big { IfSome (S.remaining source.old) (λ bytes. IsErrOf result Status.TooBig
        ↔ TookTooMany bytes (S.remaining source.new)) }
    ensures fault { IsErrOf result Status.ReadFault → Rose (S.faults source.old) (S.faults source.new) }
    ensures no_fault { ¬ (IsErrOf result Status.ReadFault) → S.faults source.new ≡ S.faults source.old }
{
    match read_all(alloc, source, SCRIPT_BYTES) {
        Ok(bytes) => Ok(bytes),
        Err(ReadAllError::Memory(_)) => Err(Status::NoMemory),
        Err(ReadAllError::Fault(_)) => Err(Status::ReadFault),
        Err(ReadAllError::TooBig) => Err(Status::TooBig),
    }
}
