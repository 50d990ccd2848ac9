//! Memory instructions (Core, binary format, memory instructions).
ghost use Rattle.w_leb.specs.Format.{ReadsAt};
ghost use Rattle.w_leb.specs.Formats.{◌⇒◌};
ghost use Rattle.w_syntax.specs.Tokens.{memarg, memory_op};
ghost use Rattle.w_code.specs.Opcodes.{IsLoad, IsStore, Selects};

use w_leb::{read_byte, read_u32, read_u64};
use w_syntax::{LoadOp, MemArg, MemoryOp, StoreOp};

// The exponent of the alignment, and the offset.
#[tactic(auto, unfolding(w_syntax::specs::Tokens::memarg))]
fn memarg_at(bytes: &[u8], at: usize) -> Option<(MemArg, usize)>
    ensures { ReadsAt memarg.read bytes.now at result }
{
    let Some((align, next)) = read_u32(bytes, at) else {
        return None;
    };
    if align >= 64 {
        return None;
    }
    let Some((offset, next)) = read_u64(bytes, next) else {
        return None;
    };
    let align = align as u8;
    Some((
        MemArg {
            align,
            memory: 0,
            offset,
        },
        next,
    ))
}

// The load. Out of line it is looked up, where a jump would be guessed.
#[inline(never)]
#[tactic(auto, unfolding(w_syntax::specs::Tokens::memory_op))]
fn load_of(tag: u8) -> LoadOp
    requires { IsLoad tag }
    ensures { Selects memory_op tag (memarg ⇒ MemoryOp.Load result) }
{
    match tag {
        0x28 => LoadOp::I32Load,
        0x29 => LoadOp::I64Load,
        0x2C => LoadOp::I32Load8S,
        0x2D => LoadOp::I32Load8U,
        0x2E => LoadOp::I32Load16S,
        0x2F => LoadOp::I32Load16U,
        0x30 => LoadOp::I64Load8S,
        0x31 => LoadOp::I64Load8U,
        0x32 => LoadOp::I64Load16S,
        0x33 => LoadOp::I64Load16U,
        0x34 => LoadOp::I64Load32S,
        _ => LoadOp::I64Load32U,
    }
}

// The store.
#[inline(never)]
#[tactic(auto, unfolding(w_syntax::specs::Tokens::memory_op))]
fn store_of(tag: u8) -> StoreOp
    requires { IsStore tag }
    ensures { Selects memory_op tag (memarg ⇒ MemoryOp.Store result) }
{
    match tag {
        0x36 => StoreOp::I32Store,
        0x37 => StoreOp::I64Store,
        0x3A => StoreOp::I32Store8,
        0x3B => StoreOp::I32Store16,
        0x3C => StoreOp::I64Store8,
        0x3D => StoreOp::I64Store16,
        _ => StoreOp::I64Store32,
    }
}

/// The load, the store, or the instruction on the size of a memory at a place.
#[inline(always)]
#[tactic(auto, unfolding(w_syntax::specs::Tokens::memory_op))]
pub(crate) fn memory_op_at(bytes: &[u8], at: usize) -> Option<(MemoryOp, usize)>
    ensures { ReadsAt memory_op.read bytes.now at result }
{
    let Some((tag, next)) = read_byte(bytes, at) else {
        return None;
    };
    match tag {
        0x28..=0x29 | 0x2C..=0x35 => {
            let Some((memarg, next)) = memarg_at(bytes, next) else {
                return None;
            };
            Some((MemoryOp::Load(load_of(tag), memarg), next))
        }
        0x36..=0x37 | 0x3A..=0x3E => {
            let Some((memarg, next)) = memarg_at(bytes, next) else {
                return None;
            };
            Some((MemoryOp::Store(store_of(tag), memarg), next))
        }
        0x3F => {
            let Some((memory, next)) = read_u32(bytes, next) else {
                return None;
            };
            Some((MemoryOp::Size(memory), next))
        }
        0x40 => {
            let Some((memory, next)) = read_u32(bytes, next) else {
                return None;
            };
            Some((MemoryOp::Grow(memory), next))
        }
        _ => None,
    }
}
