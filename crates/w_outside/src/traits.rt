//! The two traits, and their fault.
ghost use Rattle.std.specs.Prelude.{◌≡◌, List, ℕ, Option, IsErrOf};
ghost use Rattle.std.specs.Io.{ReadsAtMost};
ghost use Rattle.w_outside.specs.declared.traits.Fault.TheVariants.{OutOfMemory};
ghost use Rattle.w_outside.specs.Outside.{Known, HasCause, OpenLeaves, ReadGives, WriteTakes};

use std::alloc::{AllocError, AllocFailed};
use thiserror::Error;

/// Why a call on the outside failed.
#[derive(Clone, Copy, Debug, PartialEq, Eq, Error)]
pub enum Fault {
    #[error("the call failed")]
    Failed,
    #[error("out of memory")]
    OutOfMemory,
}

impl From<AllocError> for Fault {
    ghost from_gives = { λ _ e. e ≡ OutOfMemory };

    fn from(_: AllocError) -> Self {
        Fault::OutOfMemory
    }
}

impl<T: Drop> From<AllocFailed<T>> for Fault {
    ghost from_gives = { λ _ e. e ≡ OutOfMemory };

    fn from(_: AllocFailed<T>) -> Self {
        Fault::OutOfMemory
    }
}

/// Files, of which one at a time is open.
pub trait Inputs {
    /// What is told of each name.
    ghost file: { Self → List ℕ → Known };

    /// What is left to read of the file that is open, where that is told.
    ghost left: { Self → Option (List ℕ) };

    /// How often a call has failed. It stands still at its type's end.
    ghost faults: { Self → ℕ };

    /// Opens a file, in place of the one that was open. `false` says that there is no such file.
    fn open(&mut self, name: &str) -> Result<bool, Fault>
        ensures leaves { OpenLeaves (file self.old name.now) (left self.new) result }
        ensures names { (n : List ℕ) → file self.new n ≡ file self.old n }
        ensures cause { HasCause (faults self.old) (faults self.new) result };

    /// Reads the next bytes of the open file to the front of the buffer. 0 is the end.
    fn read(&mut self, buf: &mut [u8]) -> Result<usize, Fault>
        ensures bound { ReadsAtMost result buf.new }
        ensures gives { ReadGives (left self.old) (left self.new) buf.new result }
        ensures names { (n : List ℕ) → file self.new n ≡ file self.old n }
        ensures cause { HasCause (faults self.old) (faults self.new) result };
}

/// What bytes are written to.
pub trait Sink {
    /// The bytes that it holds, where that is told.
    ghost held: { Self → Option (List ℕ) };

    /// How often a call has failed. It stands still at its type's end.
    ghost faults: { Self → ℕ };

    /// Whether its calls take memory, which may run out.
    ghost allocates: { Type 0 };

    /// Takes a first part of the piece.
    fn write(&mut self, piece: &[u8]) -> Result<usize, Fault>
        ensures takes { WriteTakes (held self.old) (held self.new) piece.now result }
        ensures cause { HasCause (faults self.old) (faults self.new) result }
        ensures memory { IsErrOf result Fault.OutOfMemory → allocates };
}
