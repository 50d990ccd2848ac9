//! Files that are read or refused.
ghost use Rattle.std.specs.Prelude.{◌≡◌, ◌≤◌, ℕ, List, IfOk, IfErr, length};
ghost use Rattle.w_outside.specs.Outside.{Rose};
ghost use Rattle.replies.specs.Answer.{input_limit};
ghost use Rattle.intake.specs.Intake.{IsInputOf};
ghost use Rattle.intake.specs.Reading.{FileRefusal, MayHold};
ghost use Rattle.replies.specs.Stop.{Refuses};

use crate::input::{InputFault, read_input};
use crate::intake::Input;
use replies::{Status, Stop, refuse};
use std::alloc::Global;
use w_outside::Inputs;
use words::Takes;

/// What a file is to what takes files.
pub fn open<F: Inputs>(
    alloc: Global,
    files: &mut F,
    name: &str,
    takes: Takes,
) -> Result<Input, Stop>
    ensures bytes { IfOk result (λ input. (b : List ℕ) × MayHold (F.file files.old name.now) b × (length b ≤ input_limit)
        × IsInputOf takes input b) }
    ensures refused { IfErr result (Refuses
        (FileRefusal (F.file files.old name.now) (Rose (F.faults files.old) (F.faults files.new)))) }
    ensures later { F.faults files.old ≤ F.faults files.new }
    ensures names { (n : List ℕ) → F.file files.new n ≡ F.file files.old n }
{
    match read_input(alloc, files, name, takes) {
        Ok(input) => Ok(input),
        Err(InputFault::TooLong) => Err(refuse(alloc, b"limit input\n", Status::Limit)),
        Err(InputFault::OutOfMemory) => Err(Stop::OutOfMemory),
        Err(InputFault::Failed) => Err(refuse(alloc, b"read fault\n", Status::ReadFault)),
        Err(InputFault::Missing) => Err(refuse(alloc, b"read fault\n", Status::ReadFault)),
    }
}
