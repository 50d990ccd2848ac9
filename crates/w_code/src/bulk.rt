//! The instructions behind the byte FC, on pieces of memories and tables (Core, binary format, memory instructions and table
//! instructions).
ghost use Rattle.w_leb.specs.Format.{ReadsAt};
ghost use Rattle.w_syntax.specs.Tokens.{bulk};

use w_leb::read_u32;
use w_syntax::{MemoryOp, Op, TableOp};

/// The instruction whose number stands at a place.
#[tactic(auto, unfolding(w_syntax::specs::Tokens::bulk))]
pub(crate) fn bulk_at(bytes: &[u8], at: usize) -> Option<(Op, usize)>
    ensures { ReadsAt bulk.read bytes.now at result }
{
    let Some((number, next)) = read_u32(bytes, at) else {
        return None;
    };
    let Some((first, next)) = read_u32(bytes, next) else {
        return None;
    };
    match number {
        9 => return Some((Op::Memory(MemoryOp::DataDrop(first)), next)),
        11 => return Some((Op::Memory(MemoryOp::Fill(first)), next)),
        13 => return Some((Op::Table(TableOp::ElemDrop(first)), next)),
        15 => return Some((Op::Table(TableOp::Grow(first)), next)),
        16 => return Some((Op::Table(TableOp::Size(first)), next)),
        17 => return Some((Op::Table(TableOp::Fill(first)), next)),
        _ => {}
    }
    let Some((second, next)) = read_u32(bytes, next) else {
        return None;
    };
    match number {
        8 => Some((Op::Memory(MemoryOp::Init(first, second)), next)),
        10 => Some((Op::Memory(MemoryOp::Copy(first, second)), next)),
        12 => Some((Op::Table(TableOp::Init(first, second)), next)),
        14 => Some((Op::Table(TableOp::Copy(first, second)), next)),
        _ => None,
    }
}
