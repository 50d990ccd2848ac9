//! The program on bytes in memory, for a caller that goes on.
ghost use Rattle.std.specs.Prelude.{◌≡◌, ◌⊎◌, ◌≤◌};
ghost use Rattle.w_outside.specs.Outside.{Grew, Rose};
ghost use Rattle.words.specs.Request.{IsWithinSteps};
ghost use Rattle.replies.specs.Answer.{ActionGives, OnBytes};
ghost use Rattle.runs.specs.Delivery.{Answered, Stopped, Replies};
ghost use Rattle.runs.specs.Leaving.{Leaves};

use crate::finishing::Process;
use crate::program::act;
use intake::{INPUT_LIMIT, Input};
use replies::{Output, Status, Stop, refuse};
use runs::deliver;
use std::alloc::Global;
use w_outside::{Fault, Sink};
use words::Action;

// The answer to bytes. What a run prints goes to out; the answer is what is left to write.
fn answer_to_bytes<O: Sink>(
    alloc: Global,
    action: Action,
    bytes: &[u8],
    out: &mut O,
) -> Result<Output, Stop>
    requires { IsWithinSteps action }
    ensures leaves { Leaves (OnBytes (ActionGives action) bytes.now) result
        (Grew (O.held out.old) (O.held out.new)) (Rose (O.faults out.old) (O.faults out.new)) }
    ensures later { O.faults out.old ≤ O.faults out.new }
{
    if bytes.len() > INPUT_LIMIT {
        return Err(refuse(alloc, b"limit input\n", Status::Limit));
    }
    let input = Input::of_slice(alloc, action.takes(), bytes)?;
    act(alloc, action, input, Process::GoesOn, out)
}

// Answers to bytes.
fn respond_to_bytes<O: Sink, E: Sink>(
    alloc: Global,
    action: Action,
    bytes: &[u8],
    out: &mut O,
    err: &mut E,
) -> Result<Status, Fault>
    requires { IsWithinSteps action }
    ensures replies { Replies (OnBytes (ActionGives action) bytes.now) result
        (Grew (O.held out.old) (O.held out.new)) (Grew (E.held err.old) (E.held err.new))
        (Rose (O.faults out.old) (O.faults out.new) ⊎ Rose (E.faults err.old) (E.faults err.new)) }
    ensures later { (O.faults out.old ≤ O.faults out.new) × (E.faults err.old ≤ E.faults err.new) }
{
    let left = answer_to_bytes(alloc, action, bytes, out);
    deliver(left, out, err)
}

/// Does with bytes in memory what `command` does with a file that holds them, and says how it ended.
pub fn command_on_bytes<O: Sink, E: Sink>(
    alloc: Global,
    action: Action,
    bytes: &[u8],
    out: &mut O,
    err: &mut E,
) -> Status
    requires { IsWithinSteps action }
    // With any status but a write fault and want of memory, the answer was written, and the status is its own.
    ensures answered { Answered result (OnBytes (ActionGives action) bytes.now)
        (Grew (O.held out.old) (O.held out.new)) (Grew (E.held err.old) (E.held err.new)) }
    // With these two, a first part of it, and nothing more.
    ensures stopped { Stopped result (OnBytes (ActionGives action) bytes.now)
        (Grew (O.held out.old) (O.held out.new)) (Grew (E.held err.old) (E.held err.new)) }
    // A write fault comes only where a sink counted one.
    ensures write_fault { result ≡ Status.WriteFault
        → Rose (O.faults out.old) (O.faults out.new) ⊎ Rose (E.faults err.old) (E.faults err.new) }
    ensures later { (O.faults out.old ≤ O.faults out.new) × (E.faults err.old ≤ E.faults err.new) }
{
    match respond_to_bytes(alloc, action, bytes, out, err) {
        Ok(status) => status,
        Err(Fault::Failed) => Status::WriteFault,
        Err(Fault::OutOfMemory) => Status::OutOfMemory,
    }
}
