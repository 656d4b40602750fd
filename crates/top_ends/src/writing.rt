//! Writing the text of a call.
ghost use Rattle.std.specs.Prelude.{◌≡◌, ◌≢◌, ◌⊎◌};
ghost use Rattle.lock_io.specs.Faults.{Rose};
ghost use Rattle.lock_io.specs.Whole.{AddsFront};
ghost use Rattle.top_ends.specs.Calls.{Wrote};

use complaints::Status;
use lock_io::{Sink, write_all};

/// Writes the text, and answers its status, or `WriteFault` where the sink failed.
pub fn write_text<K: Sink>(sink: &mut K, status: Status, text: &[u8]) -> Status
    requires { status ≢ Status.WriteFault }
    ensures status { (result ≡ status) ⊎ (result ≡ Status.WriteFault) }
    ensures written { result ≢ Status.WriteFault → Wrote (K.contents sink.old) (K.contents sink.new) text.now }
    ensures front { AddsFront (K.contents sink.old) (K.contents sink.new) text.now }
    ensures fault { result ≡ Status.WriteFault → Rose (K.faults sink.old) (K.faults sink.new) }
    ensures no_fault { result ≢ Status.WriteFault → K.faults sink.new ≡ K.faults sink.old }
{
    match write_all(sink, text) {
        Ok(()) => status,
        Err(_) => Status::WriteFault,
    }
}
