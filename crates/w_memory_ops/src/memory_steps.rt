//! Memory instructions (Core, execution, memory instructions).
ghost use Rattle.std.specs.Prelude.{◌≡◌, true, [], IfOk, OnErr, OnOk};
ghost use Rattle.w_syntax.specs.declared.instructions.Instr.TheVariants as flat;
ghost use Rattle.w_syntax.specs.declared.instructions.Op.TheVariants as op;
ghost use Rattle.w_reduce.specs.Room.{takes_memory};
ghost use Rattle.w_stands.specs.Keeps.{KeepsAll};
ghost use Rattle.w_stands.specs.Steps.{MovesAt, Follows};

use crate::accesses::{load, store_number};
use crate::bulk::{copy, data_drop, fill, init};
use crate::sizes::{grow, size};
use std::alloc::AllocError;
use w_segment::Stack;
use w_stands::Did;
use w_syntax::{MemoryOp, Module};
use w_tables::Store;

/// One reduction of a memory instruction, or its trap (Core, execution, memory instructions). It fails only where a memory grows and that
/// is out of memory, and then all is as it was.
#[inline(always)]
pub fn memory(
    program: &Module,
    store: &mut Store,
    stack: &mut Stack,
    operation: MemoryOp,
) -> Result<Did, AllocError>
    requires moves { MovesAt (flat.Plain (op.Memory operation)) program.now store.old stack.old }
    ensures goes { IfOk result (λ did. Follows did program.now [] store.old stack.old store.new stack.new) }
    ensures keeps { OnOk result (KeepsAll store.old stack.old store.new stack.new) }
    ensures store { OnErr result (store.new ≡ store.old) }
    ensures stack { OnErr result (stack.new ≡ stack.old) }
    ensures takes { OnErr result (takes_memory (op.Memory operation) ≡ true) }
{
    match operation {
        MemoryOp::Load(operation, arg) => Ok(load(program, store, stack, operation, arg)),
        MemoryOp::Store(operation, arg) => Ok(store_number(program, store, stack, operation, arg)),
        MemoryOp::Size(index) => {
            size(program, store, stack, index);
            Ok(Did::Went)
        }
        MemoryOp::Grow(index) => {
            grow(program, store, stack, index)?;
            Ok(Did::Went)
        }
        MemoryOp::Init(segment, index) => Ok(init(program, store, stack, segment, index)),
        MemoryOp::DataDrop(segment) => {
            data_drop(program, store, stack, segment);
            Ok(Did::Went)
        }
        MemoryOp::Copy(written, read) => Ok(copy(program, store, stack, written, read)),
        MemoryOp::Fill(index) => Ok(fill(program, store, stack, index)),
    }
}
