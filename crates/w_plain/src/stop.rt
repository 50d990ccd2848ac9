//! Why a call stopped before it took its reduction.

use w_outside::Fault;

/// Why a call took no reduction.
#[derive(Clone, Copy, Debug, PartialEq, Eq)]
pub enum Stop {
    OutOfMemory,
    /// The sink failed.
    WriteFault,
}

ghost use Rattle.std.specs.Prelude.{◌≡◌};

impl Stop {
    /// The fault of a sink.
    pub fn of_fault(fault: Fault) -> Stop
        ensures { result ≡ Stop.WriteFault → fault ≡ Fault.Failed }
    {
        match fault {
            Fault::Failed => Stop::WriteFault,
            Fault::OutOfMemory => Stop::OutOfMemory,
        }
    }
}
