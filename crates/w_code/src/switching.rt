//! Stack-switching instructions, and clauses of handlers (the explainer, binary format).
ghost use Rattle.std.specs.Prelude.{IfOk};
ghost use Rattle.w_leb.specs.Format.{ReadsAt};
ghost use Rattle.w_leb.specs.Formats.{table};
ghost use Rattle.w_syntax.specs.Tokens.{hdl};
ghost use Rattle.w_code.specs.Parts.{switchings};

use std::alloc::{AllocError, Global};
use w_fields::{Field, vec_at};
use w_leb::{read_byte, read_u32};
use w_syntax::{Clause, Op, SwitchingOp};

// The clause at a place.
#[tactic(auto, unfolding(w_syntax::specs::Tokens::hdl))]
fn clause_at(bytes: &[u8], at: usize) -> Option<(Clause, usize)>
    ensures { ReadsAt hdl.read bytes.now at result }
{
    let Some((tag, next)) = read_byte(bytes, at) else {
        return None;
    };
    if tag > 1 {
        return None;
    }
    let Some((suspended, next)) = read_u32(bytes, next) else {
        return None;
    };
    if tag == 1 {
        return Some((Clause::Switch(suspended), next));
    }
    let Some((label, next)) = read_u32(bytes, next) else {
        return None;
    };
    Some((Clause::Label(suspended, label), next))
}

/// A clause, as a kind of field (the explainer, binary format).
pub struct ClauseField;

impl Field for ClauseField {
    type Item = Clause;

    ghost format = { hdl };

    fn read(
        _alloc: Global,
        bytes: &[u8],
        at: usize,
    ) -> Result<Option<(Clause, usize)>, AllocError> {
        Ok(clause_at(bytes, at))
    }
}

/// The stack-switching instruction at a place.
pub(crate) fn switching_at(
    alloc: Global,
    bytes: &[u8],
    at: usize,
) -> Result<Option<(Op, usize)>, AllocError>
    ensures { IfOk result (ReadsAt (table switchings).read bytes.now at) }
{
    let Some((tag, next)) = read_byte(bytes, at) else {
        return Ok(None);
    };
    let Some((index, next)) = read_u32(bytes, next) else {
        return Ok(None);
    };
    match tag {
        0xE0 => return Ok(Some((Op::Switching(SwitchingOp::ContNew(index)), next))),
        0xE2 => return Ok(Some((Op::Switching(SwitchingOp::Suspend(index)), next))),
        0xE3 => {
            let Some((clauses, next)) = vec_at::<ClauseField>(alloc, bytes, next)? else {
                return Ok(None);
            };
            return Ok(Some((Op::Switching(SwitchingOp::Resume(index, clauses)), next)));
        }
        _ => {}
    }
    let Some((second, next)) = read_u32(bytes, next) else {
        return Ok(None);
    };
    match tag {
        0xE1 => Ok(Some((Op::Switching(SwitchingOp::ContBind(index, second)), next))),
        0xE6 => Ok(Some((Op::Switching(SwitchingOp::Switch(index, second)), next))),
        _ => Ok(None),
    }
}
