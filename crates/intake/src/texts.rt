//! Texts of modules.
ghost use Rattle.std.specs.Prelude.{◌≡◌, ◌≤◌, IfOk, IfErr, length};
ghost use Rattle.w_rules.specs.Limits.{Within};
ghost use Rattle.w_rules.specs.Valid.{Valid};
ghost use Rattle.w_text.specs.Text.{Text};
ghost use Rattle.replies.specs.Answer.{TextRefusal, input_limit, wrong_text};
ghost use Rattle.replies.specs.Stop.{Refuses};

use crate::judging::accept;
use replies::{Status, Stop, refuse_by, wrong_line};
use std::alloc::Global;
use w_rules::Checked;
use w_text::{TextFault, asm};

// Why bytes are refused that are no text, by the number of a line.
fn wrong_refusal(alloc: Global, number: usize) -> Stop
    ensures { Refuses (λ reply. reply ≡ wrong_text number) result }
{
    match wrong_line(alloc, number) {
        Ok(line) => refuse_by(alloc, line, Status::BadText),
        Err(_) => Stop::OutOfMemory,
    }
}

/// The module of a text, where it is valid and within its limits.
pub fn judge_text(alloc: Global, bytes: &[u8]) -> Result<Checked, Stop>
    requires { length bytes.now ≤ input_limit }
    ensures read { IfOk result (λ checked. Text bytes.now checked) }
    ensures within { IfOk result Within }
    ensures valid { IfOk result Valid }
    ensures refused { IfErr result (Refuses (TextRefusal bytes.now)) }
{
    match asm(alloc, bytes) {
        Ok(candidate) => accept(alloc, candidate),
        Err(TextFault::Line(number)) => Err(wrong_refusal(alloc, number)),
        Err(TextFault::OutOfMemory) => Err(Stop::OutOfMemory),
    }
}
