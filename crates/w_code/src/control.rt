//! Control instructions that hold no others (Core, binary format, control instructions).
ghost use Rattle.std.specs.Prelude.{IfOk};
ghost use Rattle.w_leb.specs.Format.{ReadsAt};
ghost use Rattle.w_syntax.specs.Tokens.{control_op};

use std::alloc::{AllocError, Global};
use w_fields::{IndexField, vec_at};
use w_leb::{read_byte, read_u32};
use w_syntax::ControlOp;

/// The control instruction at a place.
#[tactic(auto, unfolding(w_syntax::specs::Tokens::control_op))]
pub(crate) fn control_at(
    alloc: Global,
    bytes: &[u8],
    at: usize,
) -> Result<Option<(ControlOp, usize)>, AllocError>
    ensures { IfOk result (ReadsAt control_op.read bytes.now at) }
{
    let Some((tag, next)) = read_byte(bytes, at) else {
        return Ok(None);
    };
    match tag {
        0x00 => return Ok(Some((ControlOp::Unreachable, next))),
        0x01 => return Ok(Some((ControlOp::Nop, next))),
        0x0E => {
            let Some((labels, next)) = vec_at::<IndexField>(alloc, bytes, next)? else {
                return Ok(None);
            };
            let Some((label, next)) = read_u32(bytes, next) else {
                return Ok(None);
            };
            return Ok(Some((ControlOp::BrTable(labels, label), next)));
        }
        0x0F => return Ok(Some((ControlOp::Return, next))),
        _ => {}
    }
    let Some((index, next)) = read_u32(bytes, next) else {
        return Ok(None);
    };
    let control = match tag {
        0x0C => ControlOp::Br(index),
        0x0D => ControlOp::BrIf(index),
        0x10 => ControlOp::Call(index),
        0x11 | 0x13 => {
            let Some((table, next)) = read_u32(bytes, next) else {
                return Ok(None);
            };
            let call = if tag == 0x11 {
                ControlOp::CallIndirect(index, table)
            } else {
                ControlOp::ReturnCallIndirect(index, table)
            };
            return Ok(Some((call, next)));
        }
        0x12 => ControlOp::ReturnCall(index),
        0x14 => ControlOp::CallRef(index),
        0x15 => ControlOp::ReturnCallRef(index),
        0xD5 => ControlOp::BrOnNull(index),
        0xD6 => ControlOp::BrOnNonNull(index),
        _ => return Ok(None),
    };
    Ok(Some((control, next)))
}
