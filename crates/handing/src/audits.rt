//! Audits of traces in memory.
ghost use Rattle.std.specs.Prelude.{◌≡◌, ◌≤◌, ◌⊎◌, codes, IfOk};
ghost use Rattle.w_outside.specs.Outside.{Grew, Rose, holds};
ghost use Rattle.w_machine.specs.Position.{most_reductions};
ghost use Rattle.replies.specs.Answer.{AuditedGives, BytesGive, OnBytes};
ghost use Rattle.replies.specs.Stop.{Gives};
ghost use Rattle.runs.specs.Delivery.{Replies};
ghost use Rattle.handing.specs.Handed.{Hands};

use crate::handing::hand_over;
use fronts::FrontSink;
use replies::{Output, Status, Stop};
use runs::deliver;
use std::alloc::{AllocError, Global};
use traces::audit;
use w_outside::{Fault, Inputs, Sink, SureInputs};

// Two files in memory, of these names.
fn two_files(alloc: Global, module: &[u8], trace: &[u8]) -> Result<SureInputs, AllocError>
    ensures module { IfOk result (λ files. ⟦<SureInputs as Inputs>⟧.file files (codes "m") ≡ holds «module».now) }
    ensures trace { IfOk result (λ files. ⟦<SureInputs as Inputs>⟧.file files (codes "t") ≡ holds trace.now) }
{
    let first = (
        String::from_str(alloc, "m")?,
        Vec::from_slice(alloc, module)?,
    );
    let second = (
        String::from_str(alloc, "t")?,
        Vec::from_slice(alloc, trace)?,
    );
    SureInputs::new(alloc, vec![in alloc; first, second]?)
}

// The audit of a trace by the run of the module that bytes are a spelling of.
fn audit_bytes(alloc: Global, bytes: &[u8], trace: &[u8], steps: u64) -> Result<Output, Stop>
    requires { steps ≤ most_reductions }
    ensures { Gives (OnBytes (BytesGive (AuditedGives steps (holds trace.now))) bytes.now) result }
{
    let mut files = two_files(alloc, bytes, trace)?;
    let answer = audit(alloc, &mut files, "m", "t", steps);
    drop(files);
    answer
}

// Answers with the audit.
fn respond<O: Sink, E: Sink>(
    alloc: Global,
    bytes: &[u8],
    trace: &[u8],
    steps: u64,
    out: &mut O,
    err: &mut E,
) -> Result<Status, Fault>
    requires { steps ≤ most_reductions }
    ensures replies { Replies (OnBytes (BytesGive (AuditedGives steps (holds trace.now))) bytes.now) result
        (Grew (O.held out.old) (O.held out.new)) (Grew (E.held err.old) (E.held err.new))
        (Rose (O.faults out.old) (O.faults out.new) ⊎ Rose (E.faults err.old) (E.faults err.new)) }
{
    let answer = audit_bytes(alloc, bytes, trace, steps);
    deliver(answer, out, err)
}

/// Audits a trace in memory by the run of the module that bytes in memory are a spelling of, for so many steps, and hands the answer over as
/// `hand_answer` does.
pub fn hand_audit(
    alloc: Global,
    bytes: &[u8],
    trace: &[u8],
    steps: u64,
    out: &mut [u8],
    out_length: &mut u64,
    err: &mut [u8],
    err_length: &mut u64,
) -> Status
    requires { steps ≤ most_reductions }
    ensures { Hands (OnBytes (BytesGive (AuditedGives steps (holds trace.now))) bytes.now) result
        (record { out = out.old; out_length = out_length.old; err = err.old; err_length = err_length.old })
        (record { out = out.new; out_length = out_length.new; err = err.new; err_length = err_length.new }) }
{
    let mut written = FrontSink::new(alloc, out.len());
    let mut told = FrontSink::new(alloc, err.len());
    let status = match respond(alloc, bytes, trace, steps, &mut written, &mut told) {
        Ok(status) => status,
        // no write fails
        Err(_) => Status::OutOfMemory,
    };
    hand_over(status, &written, &told, out, out_length, err, err_length)
}
