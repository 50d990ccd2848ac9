//! A file's bytes, up to the limit of an input.
ghost use Rattle.std.specs.Prelude.{◌≡◌, ◌+◌, ◌<◌, ◌≤◌, List, ℕ, Ok, OnOk, OnErr, IfOk, IsErrOf, length};
ghost use Rattle.std.specs.Io.KnownBytes.{IsAtEnd};
ghost use Rattle.w_outside.specs.Outside.{HasCause, Known, Rose, missing};
ghost use Rattle.intake.specs.InputFault.{input_fault_of};
ghost use Rattle.intake.specs.declared.input.InputFault.TheVariants.{OutOfMemory};
ghost use Rattle.replies.specs.Answer.{input_limit};
ghost use Rattle.intake.specs.Intake.{IsInputOf, IsReadTo, TakesIn, TakesMore};
ghost use Rattle.intake.specs.Reading.{MayHold, IsTooLong, ReadsPart, TakesPart};

use crate::intake::{Input, Intake};
use std::alloc::{AllocError, Global};
use thiserror::Error;
use w_outside::{Fault, Inputs};
use words::Takes;

/// The most bytes of a file that is read.
pub const INPUT_LIMIT: usize = 16_777_216;

/// Why a file was not read.
#[derive(Clone, Copy, Debug, PartialEq, Eq, Error)]
pub enum InputFault {
    #[error("no such file")]
    Missing,
    #[error("the file is too long")]
    TooLong,
    #[error("reading failed")]
    Failed,
    #[error("out of memory")]
    OutOfMemory,
}

impl From<Fault> for InputFault {
    ghost from_gives = { λ fault e. e ≡ input_fault_of fault };

    fn from(fault: Fault) -> Self {
        match fault {
            Fault::Failed => InputFault::Failed,
            Fault::OutOfMemory => InputFault::OutOfMemory,
        }
    }
}

impl From<AllocError> for InputFault {
    ghost from_gives = { λ _ e. e ≡ OutOfMemory };

    fn from(_: AllocError) -> Self {
        InputFault::OutOfMemory
    }
}

// Reads the next bytes, at most so many, and takes them in.
fn read_more<F: Inputs>(
    alloc: Global,
    files: &mut F,
    takes: Takes,
    intake: &mut Intake,
    buffer: &mut [u8; 4096],
    most: usize,
) -> Result<usize, Fault>
    requires some { 0 < most }
    requires room { most ≤ 4096 }
    ensures most { IfOk result (λ n. n ≤ most) }
    ensures more { IfOk result (TakesMore takes intake.old intake.new (F.left files.old) (F.left files.new)) }
    ensures end { result ≡ Ok 0 → IsAtEnd (F.left files.new) }
    ensures err { OnErr result (TakesPart most (F.left files.old) (F.left files.new)) }
    ensures names { (n : List ℕ) → F.file files.new n ≡ F.file files.old n }
    ensures cause { HasCause (F.faults files.old) (F.faults files.new) result }
{
    let part = &mut buffer[..most];
    let count = files.read(part)?;
    intake.take(alloc, takes, &part[..count])?;
    Ok(count)
}

// Reads what is left of a file, or one byte more than the limit, and takes it in as it is read.
fn read_all<F: Inputs>(
    alloc: Global,
    files: &mut F,
    takes: Takes,
    intake: &mut Intake,
) -> Result<(), InputFault>
    ensures bytes { OnOk result ((known : Known) → IsReadTo known (F.left files.old) takes intake.old 0
        → (b : List ℕ) × MayHold known b × (length b ≤ input_limit) × TakesIn takes intake.new b) }
    ensures missing { IsErrOf result InputFault.Missing → ⊥ }
    ensures too_long { IsErrOf result InputFault.TooLong → (known : Known) → IsReadTo known (F.left files.old) takes intake.old 0
        → IsTooLong known }
    ensures failed { IsErrOf result InputFault.Failed → Rose (F.faults files.old) (F.faults files.new) }
    ensures part { (known : Known) → IsReadTo known (F.left files.old) takes intake.old 0 → ReadsPart known (F.left files.new) result }
    ensures later { F.faults files.old ≤ F.faults files.new }
    ensures names { (n : List ℕ) → F.file files.new n ≡ F.file files.old n }
{
    let mut buffer = [0; 4096];
    let mut length = 0;
    while length <= INPUT_LIMIT {
        let most = (INPUT_LIMIT + 1 - length).min(4096);
        let count = read_more(alloc, files, takes, intake, &mut buffer, most)?;
        if count == 0 {
            return Ok(());
        }
        length += count;
    }
    Err(InputFault::TooLong)
}

/// Reads a whole file, or one byte more than the limit, and takes it in as it is read. It is read to its end also where its bytes are no
/// module, since what reading comes to goes first.
pub fn read_input<F: Inputs>(
    alloc: Global,
    files: &mut F,
    name: &str,
    takes: Takes,
) -> Result<Input, InputFault>
    ensures bytes { IfOk result (λ input. (b : List ℕ) × MayHold (F.file files.old name.now) b × (length b ≤ input_limit)
        × IsInputOf takes input b) }
    ensures missing { IsErrOf result InputFault.Missing → F.file files.old name.now ≡ missing }
    ensures too_long { IsErrOf result InputFault.TooLong → IsTooLong (F.file files.old name.now) }
    ensures failed { IsErrOf result InputFault.Failed → Rose (F.faults files.old) (F.faults files.new) }
    // Of a file whose bytes are told, it takes at most one byte more than the limit.
    ensures part { ReadsPart (F.file files.old name.now) (F.left files.new) result }
    ensures later { F.faults files.old ≤ F.faults files.new }
    ensures names { (n : List ℕ) → F.file files.new n ≡ F.file files.old n }
{
    if !files.open(name)? {
        return Err(InputFault::Missing);
    }
    let mut intake = Intake::new(alloc);
    match read_all(alloc, files, takes, &mut intake) {
        Ok(()) => Ok(intake.end(alloc, takes)?),
        Err(fault) => {
            drop(intake);
            Err(fault)
        }
    }
}
