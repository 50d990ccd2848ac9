//! Steps of a run, and what it printed and came to.
ghost use Rattle.std.specs.Prelude.{◌≡◌, ◌≢◌, Err, None, Some, IfErr, IsTrue, is_some, IfOk};
ghost use Rattle.w_machine.specs.RunStop.{stopped_in};
ghost use Rattle.replies.specs.Pieces.{joined};
ghost use Rattle.handles.specs.HeldRuns.{CountsGive, HasResultLines, ReadGives, ResultsGive, StepGives, Tells};

use crate::handle::{Handle, put, take};
use crate::held_run::HeldRun;
use handing::{hand_pieces, hand_stop};
use replies::{Origin, Status, refuse};
use runs::{limit_refusal, result_lines, trap_refusal};
use std::alloc::{AllocError, Global};
use w_machine::Outcome;

/// Why no step was taken.
#[derive(Clone, Copy)]
pub enum NoStep {
    /// The handle holds no run.
    NoRun,
    /// With those that were taken, more than 2^40 reductions were asked for.
    TooManySteps,
}

/// How many reductions a run took, and how many continuations it made, consumed, and has left.
#[derive(Clone, Copy)]
pub struct Counts {
    pub taken: u64,
    pub made: u64,
    pub consumed: u64,
    pub live: u64,
}

// Tells how a step ended.
fn tell(alloc: Global, outcome: Outcome, err: &mut [u8], err_length: &mut u64) -> Status
    ensures { Tells (stopped_in outcome) result err.old err.new err_length.new }
{
    *err_length = 0;
    let stop = match outcome {
        Outcome::Ended => return Status::Done,
        Outcome::Running => refuse(alloc, b"running\n", Status::Running),
        Outcome::Limit(name) => limit_refusal(alloc, name),
        Outcome::Trapped(trap) => trap_refusal(alloc, Origin::Module, trap),
        Outcome::WriteFault => return Status::WriteFault,
        Outcome::OutOfMemory => return Status::OutOfMemory,
    };
    hand_stop(alloc, stop, err, err_length)
}

/// Lets the run take so many reductions at most, and says how it stands: `Status::Running` where it goes on, and else what the command ends
/// with. What the command writes on err then goes there; what the reductions print is read by `read`. `Status::OutOfMemory`: memory ran out,
/// in the run or for that line. A run that has ended, trapped or passed a limit takes none, and answers the same again.
pub fn step(
    alloc: Global,
    handle: &mut Handle,
    steps: u64,
    err: &mut [u8],
    err_length: &mut u64,
) -> Result<Status, NoStep>
    ensures { StepGives handle.old.run steps result handle.new.run err.old err.new err_length.new }
{
    *err_length = 0;
    let mut run = match take(alloc, handle) {
        Some(run) => run,
        None => return Err(NoStep::NoRun),
    };
    let stepped = run.step(steps);
    put(alloc, handle, run);
    match stepped {
        Some(outcome) => Ok(tell(alloc, outcome, err, err_length)),
        None => Err(NoStep::TooManySteps),
    }
}

/// Reads the first of what the run printed and wasn't read, as many bytes as a buffer takes, and says how many. `None`: the handle holds no
/// run.
pub fn read(alloc: Global, handle: &mut Handle, buffer: &mut [u8]) -> Option<usize>
    ensures { ReadGives handle.old.run result handle.new.run buffer.old buffer.new }
{
    let mut run = take(alloc, handle)?;
    let count = run.unread.read(buffer);
    put(alloc, handle, run);
    Some(count)
}

// The results of a run as lines, where it has ended.
fn lines_of(alloc: Global, run: &HeldRun) -> Result<Vec<Vec<u8>>, AllocError>
    ensures { IfOk result (λ lines. HasResultLines run.now.machine (joined lines.items)) }
{
    result_lines(alloc, run.machine.results())
}

/// Hands over the results of the run as lines, as the command writes them; none where it hasn't ended. `Status::Done`, or
/// `Status::OutOfMemory`, with which nothing is handed over. `None`: the handle holds no run.
pub fn results(
    alloc: Global,
    handle: &mut Handle,
    out: &mut [u8],
    out_length: &mut u64,
) -> Option<Status>
    ensures { ResultsGive handle.old.run result handle.new.run out.old out.new out_length.new }
{
    *out_length = 0;
    let run = take(alloc, handle)?;
    let lines = lines_of(alloc, &run);
    put(alloc, handle, run);
    match lines {
        Ok(lines) if hand_pieces(alloc, lines.as_slice(), out, out_length) => Some(Status::Done),
        _ => Some(Status::OutOfMemory),
    }
}

/// How many reductions the run took, and how many continuations it made, consumed, and has left. `None`: the handle holds no run.
pub fn count(alloc: Global, handle: &mut Handle) -> Option<Counts>
    ensures counts { CountsGive handle.old.run result }
    ensures same { handle.new.run ≡ handle.old.run }
{
    let run = take(alloc, handle)?;
    let counts = Counts {
        taken: run.machine.taken(),
        made: run.machine.made(),
        consumed: run.machine.consumed(),
        live: run.machine.live(),
    };
    put(alloc, handle, run);
    Some(counts)
}

/// Lets the run go, and says whether the handle held one.
pub fn end(alloc: Global, handle: &mut Handle) -> bool
    ensures empty { handle.new.run ≡ None }
    ensures held { result ≡ is_some handle.old.run }
{
    match take(alloc, handle) {
        Some(run) => {
            drop(run);
            true
        }
        None => false,
    }
}
