//! How a call ends that writes nothing of a source that is no script.
ghost use Rattle.std.specs.Prelude.{◌≡◌, ◌≢◌, [], ◌⊎◌};
ghost use Rattle.lock_model.specs.Text.{fault_text};

use complaints::Status;
use lock_history::print_fault;
use script_read::ScriptFault;
use std::alloc::Global;

/// How a call ended.
#[derive(Drop, Debug)]
pub struct Ended {
    pub status: Status,
    /// At `BadScript` the line that tells of the script's first fault, as `lockrun` prints it; else nothing.
    pub fault: Vec<u8>,
}

impl Ended {
    /// An end with that status, which isn't `BadScript`.
    pub fn with(alloc: Global, status: Status) -> Ended
        requires { status ≢ Status.BadScript }
        ensures status { result.status ≡ status }
        ensures fault { result.fault.items ≡ [] }
    {
        Ended {
            status,
            fault: Vec::new(alloc),
        }
    }

    /// The end of a call whose source is no script, which has this fault, or `NoMemory`.
    pub fn by(alloc: Global, fault: ScriptFault) -> Ended
        ensures status { (result.status ≡ Status.BadScript) ⊎ (result.status ≡ Status.NoMemory) }
        ensures told { result.status ≡ Status.BadScript
            → result.fault.items ≡ fault_text fault.line fault.code }
        ensures none { result.status ≢ Status.BadScript → result.fault.items ≡ [] }
    {
        match print_fault(alloc, fault.line, fault.code) {
            Ok(line) => Ended {
                status: Status::BadScript,
                fault: line,
            },
            Err(_) => Ended::with(alloc, Status::NoMemory),
        }
    }
}
