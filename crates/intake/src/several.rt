//! Files of several, each a module.
ghost use Rattle.std.specs.Prelude.{◌≡◌, ◌≤◌, ℕ, List, IfOk, IfErr, length};
ghost use Rattle.w_outside.specs.Outside.{Rose, holds};
ghost use Rattle.w_rules.specs.Limits.{Within};
ghost use Rattle.w_rules.specs.Valid.{Valid};
ghost use Rattle.intake.specs.Intake.{IsModuleOf};
ghost use Rattle.intake.specs.Reading.{FileRefusalOr, MayBe, MayHold, ModuleFileRefusal};
ghost use Rattle.replies.specs.Answer.{in_file as told_of, input_limit, limit_input};
ghost use Rattle.replies.specs.Stop.{Refuses};

use crate::input::{INPUT_LIMIT, InputFault, read_input};
use crate::intake::Input;
use crate::module_intake::{ModuleIntake, judge_bytes};
use replies::{Status, Stop, in_file, refuse};
use std::alloc::Global;
use w_outside::Inputs;
use w_rules::Checked;
use words::Takes;

// A file that is too long.
fn too_long(alloc: Global, number: usize) -> Stop
    ensures { Refuses (λ reply. reply ≡ told_of number limit_input) result }
{
    in_file(
        alloc,
        number,
        refuse(alloc, b"limit input\n", Status::Limit),
    )
}

// The bytes of a file, taken in as those of a module.
fn open_module<F: Inputs>(
    alloc: Global,
    files: &mut F,
    name: &str,
    number: usize,
) -> Result<ModuleIntake, Stop>
    ensures bytes { IfOk result (λ intake. (b : List ℕ) × MayHold (F.file files.old name.now) b × (length b ≤ input_limit)
        × IsModuleOf intake b) }
    ensures refused { IfErr result (Refuses (FileRefusalOr (told_of number limit_input)
        (F.file files.old name.now) (Rose (F.faults files.old) (F.faults files.new)))) }
    ensures later { F.faults files.old ≤ F.faults files.new }
    ensures names { (n : List ℕ) → F.file files.new n ≡ F.file files.old n }
{
    match read_input(alloc, files, name, Takes::Modules) {
        Ok(Input::Module(intake)) => Ok(intake),
        Ok(Input::Script(_)) => unreachable!(),
        Ok(Input::Text(_)) => unreachable!(),
        Err(InputFault::TooLong) => Err(too_long(alloc, number)),
        Err(InputFault::OutOfMemory) => Err(Stop::OutOfMemory),
        Err(InputFault::Failed) => Err(refuse(alloc, b"read fault\n", Status::ReadFault)),
        Err(InputFault::Missing) => Err(refuse(alloc, b"read fault\n", Status::ReadFault)),
    }
}

/// The module of the file of this number among several, where it is valid and within its limits.
pub fn read_module<F: Inputs>(
    alloc: Global,
    files: &mut F,
    name: &str,
    number: usize,
) -> Result<Checked, Stop>
    ensures read { IfOk result (λ checked. MayBe (F.file files.old name.now) checked) }
    ensures within { IfOk result Within }
    ensures valid { IfOk result Valid }
    ensures refused { IfErr result (Refuses (ModuleFileRefusal number (F.file files.old name.now)
        (Rose (F.faults files.old) (F.faults files.new)))) }
    ensures later { F.faults files.old ≤ F.faults files.new }
    ensures names { (n : List ℕ) → F.file files.new n ≡ F.file files.old n }
{
    let intake = open_module(alloc, files, name, number)?;
    match intake.judge(alloc) {
        Ok(checked) => Ok(checked),
        Err(stop) => Err(in_file(alloc, number, stop)),
    }
}

/// The same of bytes in memory.
pub fn judge_file(alloc: Global, bytes: &[u8], number: usize) -> Result<Checked, Stop>
    ensures read { IfOk result (λ checked. MayBe (holds bytes.now) checked) }
    ensures within { IfOk result Within }
    ensures valid { IfOk result Valid }
    ensures refused { IfErr result (Refuses (ModuleFileRefusal number (holds bytes.now) ⊥)) }
{
    if bytes.len() > INPUT_LIMIT {
        return Err(too_long(alloc, number));
    }
    match judge_bytes(alloc, bytes) {
        Ok(checked) => Ok(checked),
        Err(stop) => Err(in_file(alloc, number, stop)),
    }
}
