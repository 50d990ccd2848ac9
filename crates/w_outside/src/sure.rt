//! Files and sinks in memory that never fail.
ghost use Rattle.std.specs.Prelude.{◌≡◌, ℕ, List, [], drop, length, Some, IfOk, IsErrOf, ⊤};
ghost use Rattle.std.specs.Io.{ReadsAtMost};
ghost use Rattle.w_outside.specs.Outside.{HasCause, OpenLeaves, ReadGives, ReadsWhole, WriteTakes};
ghost use Rattle.w_outside.specs.Files.{known_in, bytes_at};

use crate::files::Files;
use crate::{Fault, Inputs, Sink};
use std::alloc::{AllocError, Global};

/// Files in memory.
#[derive(Drop)]
pub struct SureInputs {
    files: Files,
}

impl SureInputs {
    /// Pairs of a name and its bytes, of which the first with a name counts.
    pub fn new(_alloc: Global, files: Vec<(String, Vec<u8>)>) -> Result<SureInputs, AllocError>
        ensures file { IfOk result (λ r. (n : List ℕ) → ⟦<SureInputs as Inputs>⟧.file r n ≡ known_in files.items n) }
        ensures left { IfOk result (λ r. ⟦<SureInputs as Inputs>⟧.left r ≡ Some []) }
    {
        Ok(SureInputs {
            files: Files::new(files),
        })
    }
}

impl Inputs for SureInputs {
    ghost file = { λ s. known_in s.files.files.items };

    ghost left = { λ s. Some (drop s.files.at (bytes_at s.files.files.items s.files.place)) };

    ghost faults = { λ _. 0 };

    fn open(&mut self, name: &str) -> Result<bool, Fault>
        ensures leaves { OpenLeaves (⟦<SureInputs as Inputs>⟧.file self.old name.now) (⟦<SureInputs as Inputs>⟧.left self.new) result }
        ensures names { (n : List ℕ) → ⟦<SureInputs as Inputs>⟧.file self.new n ≡ ⟦<SureInputs as Inputs>⟧.file self.old n }
        ensures cause { HasCause (⟦<SureInputs as Inputs>⟧.faults self.old) (⟦<SureInputs as Inputs>⟧.faults self.new) result }
        ensures memory { IsErrOf result Fault.OutOfMemory → ⊥ }
    {
        if self.files.open(name) {
            Ok(true)
        } else {
            Ok(false)
        }
    }

    fn read(&mut self, buf: &mut [u8]) -> Result<usize, Fault>
        ensures bound { ReadsAtMost result buf.new }
        ensures gives { ReadGives (⟦<SureInputs as Inputs>⟧.left self.old) (⟦<SureInputs as Inputs>⟧.left self.new) buf.new result }
        // It gives as much as the buffer takes, or all that is left.
        ensures whole { ReadsWhole (⟦<SureInputs as Inputs>⟧.left self.old) buf.new result }
        ensures names { (n : List ℕ) → ⟦<SureInputs as Inputs>⟧.file self.new n ≡ ⟦<SureInputs as Inputs>⟧.file self.old n }
        ensures cause { HasCause (⟦<SureInputs as Inputs>⟧.faults self.old) (⟦<SureInputs as Inputs>⟧.faults self.new) result }
        ensures memory { IsErrOf result Fault.OutOfMemory → ⊥ }
    {
        Ok(self.files.read(buf))
    }
}

/// A sink in memory.
#[derive(Drop)]
pub struct SureSink {
    bytes: Vec<u8>,
}

impl SureSink {
    /// An empty sink.
    pub fn new(alloc: Global) -> Result<SureSink, AllocError>
        ensures { IfOk result (λ r. ⟦<SureSink as Sink>⟧.held r ≡ Some []) }
    {
        Ok(SureSink {
            bytes: Vec::new(alloc),
        })
    }

    /// The bytes that were taken.
    pub fn held(&self) -> &[u8]
        ensures { ⟦<SureSink as Sink>⟧.held self.now ≡ Some result.now }
    {
        self.bytes.as_slice()
    }

    /// Lets the bytes go. Their room is kept.
    pub fn clear(&mut self)
        ensures { ⟦<SureSink as Sink>⟧.held self.new ≡ Some [] }
    {
        self.bytes.clear();
    }
}

impl Sink for SureSink {
    ghost held = { λ s. Some s.bytes.items };

    ghost faults = { λ _. 0 };

    ghost allocates = { ⊤ };

    fn write(&mut self, piece: &[u8]) -> Result<usize, Fault>
        ensures takes { WriteTakes (⟦<SureSink as Sink>⟧.held self.old) (⟦<SureSink as Sink>⟧.held self.new) piece.now result }
        ensures cause { HasCause (⟦<SureSink as Sink>⟧.faults self.old) (⟦<SureSink as Sink>⟧.faults self.new) result }
        ensures memory { IsErrOf result Fault.OutOfMemory → ⟦<SureSink as Sink>⟧.allocates }
        // It takes whole pieces.
        ensures whole { IfOk result (λ n. n ≡ length piece.now) }
    {
        self.bytes.extend_from_slice(piece)?;
        Ok(piece.len())
    }
}
