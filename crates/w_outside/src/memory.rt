//! Files and sinks in memory, of which chosen calls fail.
ghost use Rattle.std.specs.Prelude.{◌≡◌, ◌↔◌, ◌+◌, ◌-◌, ◌^◌, ◌<◌, ◌≤◌, ◌++◌, ℕ, List, [], drop, take, min, length, ⊤, Some, IfOk, IsErrOf, Contains};
ghost use Rattle.std.specs.Io.{ReadsAtMost};
ghost use Rattle.w_outside.specs.Outside.{HasCause, OpenLeaves, ReadGives, ReadsWhole, WriteTakes};
ghost use Rattle.w_outside.specs.Files.{known_in, bytes_at};
ghost use Rattle.w_outside.specs.FaultPlans.{input_failing, input_calls, sink_failing, sink_calls};

use crate::fault_plan::FaultPlan;
use crate::files::Files;
use crate::{Fault, Inputs, Sink};
use std::alloc::{AllocError, Global};

/// Files in memory. The calls of `open` and `read` are counted together, from 0, and those in a list fail.
#[derive(Drop)]
pub struct MemInputs {
    files: Files,
    plan: FaultPlan,
}

impl MemInputs {
    /// Pairs of a name and its bytes, of which the first with a name counts, and the numbers of the calls that fail.
    pub fn new(
        _alloc: Global,
        files: Vec<(String, Vec<u8>)>,
        fails: Vec<u64>,
    ) -> Result<MemInputs, AllocError>
        ensures file { IfOk result (λ r. (n : List ℕ) → ⟦<MemInputs as Inputs>⟧.file r n ≡ known_in files.items n) }
        ensures left { IfOk result (λ r. ⟦<MemInputs as Inputs>⟧.left r ≡ Some []) }
        ensures faults { IfOk result (λ r. ⟦<MemInputs as Inputs>⟧.faults r ≡ 0) }
        ensures failing { IfOk result (λ r. input_failing r ≡ fails.items) }
        ensures calls { IfOk result (λ r. input_calls r ≡ 0) }
    {
        Ok(MemInputs {
            files: Files::new(files),
            plan: FaultPlan::new(fails),
        })
    }
}

impl Inputs for MemInputs {
    ghost file = { λ s. known_in s.files.files.items };

    ghost left = { λ s. Some (drop s.files.at (bytes_at s.files.files.items s.files.place)) };

    ghost faults = { λ s. s.plan.faults };

    fn open(&mut self, name: &str) -> Result<bool, Fault>
        ensures leaves { OpenLeaves (⟦<MemInputs as Inputs>⟧.file self.old name.now) (⟦<MemInputs as Inputs>⟧.left self.new) result }
        ensures names { (n : List ℕ) → ⟦<MemInputs as Inputs>⟧.file self.new n ≡ ⟦<MemInputs as Inputs>⟧.file self.old n }
        ensures cause { HasCause (⟦<MemInputs as Inputs>⟧.faults self.old) (⟦<MemInputs as Inputs>⟧.faults self.new) result }
        ensures memory { IsErrOf result Fault.OutOfMemory → ⊥ }
        // It fails exactly where the list has the call's number.
        ensures fails { IsErrOf result Fault.Failed ↔ Contains (input_failing self.old) (input_calls self.old) }
        ensures calls { input_calls self.new ≡ min (input_calls self.old + 1) (2 ^ 64 - 1) }
        ensures failing { input_failing self.new ≡ input_failing self.old }
    {
        if self.plan.call_fails() {
            self.files.close();
            return Err(Fault::Failed);
        }
        if self.files.open(name) {
            Ok(true)
        } else {
            Ok(false)
        }
    }

    fn read(&mut self, buf: &mut [u8]) -> Result<usize, Fault>
        ensures bound { ReadsAtMost result buf.new }
        ensures gives { ReadGives (⟦<MemInputs as Inputs>⟧.left self.old) (⟦<MemInputs as Inputs>⟧.left self.new) buf.new result }
        // It gives as much as the buffer takes, or all that is left.
        ensures whole { ReadsWhole (⟦<MemInputs as Inputs>⟧.left self.old) buf.new result }
        ensures names { (n : List ℕ) → ⟦<MemInputs as Inputs>⟧.file self.new n ≡ ⟦<MemInputs as Inputs>⟧.file self.old n }
        ensures cause { HasCause (⟦<MemInputs as Inputs>⟧.faults self.old) (⟦<MemInputs as Inputs>⟧.faults self.new) result }
        ensures memory { IsErrOf result Fault.OutOfMemory → ⊥ }
        // It fails exactly where the list has the call's number.
        ensures fails { IsErrOf result Fault.Failed ↔ Contains (input_failing self.old) (input_calls self.old) }
        ensures calls { input_calls self.new ≡ min (input_calls self.old + 1) (2 ^ 64 - 1) }
        ensures failing { input_failing self.new ≡ input_failing self.old }
    {
        if self.plan.call_fails() {
            return Err(Fault::Failed);
        }
        Ok(self.files.read(buf))
    }
}

/// A sink in memory. Its calls are counted from 0, and those in a list fail.
#[derive(Drop)]
pub struct MemSink {
    bytes: Vec<u8>,
    plan: FaultPlan,
}

impl MemSink {
    /// An empty sink, and the numbers of the calls that fail.
    pub fn new(alloc: Global, fails: Vec<u64>) -> Result<MemSink, AllocError>
        ensures held { IfOk result (λ r. ⟦<MemSink as Sink>⟧.held r ≡ Some []) }
        ensures faults { IfOk result (λ r. ⟦<MemSink as Sink>⟧.faults r ≡ 0) }
        ensures failing { IfOk result (λ r. sink_failing r ≡ fails.items) }
        ensures calls { IfOk result (λ r. sink_calls r ≡ 0) }
    {
        Ok(MemSink {
            bytes: Vec::new(alloc),
            plan: FaultPlan::new(fails),
        })
    }

    /// The bytes that were taken.
    pub fn held(&self) -> &[u8]
        ensures { ⟦<MemSink as Sink>⟧.held self.now ≡ Some result.now }
    {
        self.bytes.as_slice()
    }
}

impl Sink for MemSink {
    ghost held = { λ s. Some s.bytes.items };

    ghost faults = { λ s. s.plan.faults };

    ghost allocates = { ⊤ };

    fn write(&mut self, piece: &[u8]) -> Result<usize, Fault>
        ensures takes { WriteTakes (⟦<MemSink as Sink>⟧.held self.old) (⟦<MemSink as Sink>⟧.held self.new) piece.now result }
        ensures cause { HasCause (⟦<MemSink as Sink>⟧.faults self.old) (⟦<MemSink as Sink>⟧.faults self.new) result }
        ensures memory { IsErrOf result Fault.OutOfMemory → ⟦<MemSink as Sink>⟧.allocates }
        // It takes whole pieces.
        ensures whole { IfOk result (λ n. n ≡ length piece.now) }
        // It fails exactly where the list has the call's number.
        ensures fails { IsErrOf result Fault.Failed ↔ Contains (sink_failing self.old) (sink_calls self.old) }
        ensures calls { sink_calls self.new ≡ min (sink_calls self.old + 1) (2 ^ 64 - 1) }
        ensures failing { sink_failing self.new ≡ sink_failing self.old }
    {
        if self.plan.call_fails() {
            return Err(Fault::Failed);
        }
        self.bytes.extend_from_slice(piece)?;
        Ok(piece.len())
    }
}
