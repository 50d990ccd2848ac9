//! Why there is no output.
ghost use Rattle.std.specs.Prelude.{◌≡◌, ◌∷◌, ◌++◌, [], IfOk, OnOk};
ghost use Rattle.replies.specs.Pieces.{joined};
ghost use Rattle.replies.specs.Status.{code_of};
ghost use Rattle.replies.specs.Answer.{file_text as the_file_text};
ghost use Rattle.replies.specs.Stop.{Ends, IsOfFile, Refuses, WritesMore};
ghost use Rattle.replies.specs.declared.stop.Stop.TheVariants.{OutOfMemory};

use crate::lines::file_text;
use crate::output::Output;
use crate::status::Status;
use std::alloc::{AllocError, Global};

/// Lines that are written to err, each as one piece, and the status that goes with them.
#[derive(Drop)]
pub struct Refusal {
    pub lines: Vec<Vec<u8>>,
    pub status: Status,
}

/// Why an action gives no output.
#[derive(Drop)]
pub enum Stop {
    /// It is refused.
    Refused(Refusal),
    /// Out could not be written.
    WriteFault,
    /// Memory ran out.
    OutOfMemory,
}

impl From<AllocError> for Stop {
    ghost from_gives = { λ _ e. e ≡ OutOfMemory };

    fn from(_: AllocError) -> Self {
        Stop::OutOfMemory
    }
}

// A line more.
fn push_line(lines: &mut Vec<Vec<u8>>, line: Vec<u8>) -> Result<(), AllocError>
    ensures { OnOk result (lines.new.items ≡ lines.old.items ++ line ∷ []) }
{
    lines.push(line)?;
    Ok(())
}

impl Refusal {
    /// A refusal by one line.
    pub fn of_line(alloc: Global, line: Vec<u8>, status: Status) -> Result<Refusal, AllocError>
        ensures lines { IfOk result (λ refusal. joined refusal.lines.items ≡ line.items) }
        ensures status { IfOk result (λ refusal. refusal.status ≡ status) }
    {
        let mut lines = Vec::new(alloc);
        push_line(&mut lines, line)?;
        Ok(Refusal { lines, status })
    }

    // The refusal, told of the file of this number.
    fn of_file(self, alloc: Global, number: usize) -> Result<Refusal, AllocError>
        ensures lines { IfOk result (λ refusal. joined refusal.lines.items ≡ the_file_text number ++ joined self.lines.items) }
        ensures status { IfOk result (λ refusal. refusal.status ≡ self.status) }
    {
        let Refusal { mut lines, status } = self;
        let text = file_text(alloc, number)?;
        lines.insert(0, text)?;
        Ok(Refusal { lines, status })
    }
}

/// A refusal by a line that was made.
pub fn refuse_by(alloc: Global, line: Vec<u8>, status: Status) -> Stop
    requires { Ends status }
    ensures { Refuses (λ reply. reply ≡ record { out = []; err = line.items; status = code_of status }) result }
{
    match Refusal::of_line(alloc, line, status) {
        Ok(refusal) => Stop::Refused(refusal),
        Err(_) => Stop::OutOfMemory,
    }
}

/// A refusal by a line.
pub fn refuse(alloc: Global, line: &[u8], status: Status) -> Stop
    requires { Ends status }
    ensures { Refuses (λ reply. reply ≡ record { out = []; err = line.now; status = code_of status }) result }
{
    match Vec::from_slice(alloc, line) {
        Ok(line) => refuse_by(alloc, line, status),
        Err(_) => Stop::OutOfMemory,
    }
}

/// A refusal, told of the file of this number among several.
pub fn in_file(alloc: Global, number: usize, stop: Stop) -> Stop
    ensures { IsOfFile number stop result }
{
    match stop {
        Stop::Refused(refusal) => match refusal.of_file(alloc, number) {
            Ok(refusal) => Stop::Refused(refusal),
            Err(_) => Stop::OutOfMemory,
        },
        Stop::WriteFault => Stop::WriteFault,
        Stop::OutOfMemory => Stop::OutOfMemory,
    }
}

/// An answer that writes a line more to err.
pub fn with_err(answer: Result<Output, Stop>, line: Vec<u8>) -> Result<Output, Stop>
    ensures { WritesMore line.items answer result }
{
    match answer {
        Ok(mut output) => {
            push_line(&mut output.err, line)?;
            Ok(output)
        }
        Err(Stop::Refused(mut refusal)) => {
            push_line(&mut refusal.lines, line)?;
            Err(Stop::Refused(refusal))
        }
        Err(Stop::WriteFault) => Err(Stop::WriteFault),
        Err(Stop::OutOfMemory) => Err(Stop::OutOfMemory),
    }
}
