//! The size of the memory, and growing (Core, execution, memory instructions).
ghost use Rattle.std.specs.Prelude.{◌≡◌, [], OnErr, OnOk};
ghost use Rattle.w_syntax.specs.declared.instructions.Instr.TheVariants as flat;
ghost use Rattle.w_syntax.specs.declared.instructions.Op.TheVariants as op;
ghost use Rattle.w_syntax.specs.declared.memory_instructions.MemoryOp.TheVariants as memory;
ghost use Rattle.w_stands.specs.Keeps.{KeepsAll};
ghost use Rattle.w_stands.specs.Steps.{MovesAt, Follows};
ghost use Rattle.w_stands.specs.declared.did.Did.TheVariants as did;

use std::alloc::AllocError;
use w_segment::Stack;
use w_stands::{i32_of, push_next, replace};
use w_syntax::Module;
use w_tables::Store;
use w_types::Value;

/// `memory.size`.
pub(crate) fn size(program: &Module, store: &Store, stack: &mut Stack, index: u32)
    requires moves { MovesAt (flat.Plain (op.Memory (memory.Size index))) program.now store.now stack.old }
    ensures goes { Follows did.Went program.now [] store.now stack.old store.now stack.new }
    ensures keeps { KeepsAll store.now stack.old store.now stack.new }
{
    let _program = program;
    push_next(stack, Value::I32(store.memory(index).size()));
}

/// `memory.grow`. It fails only when out of memory, and then all is as it was.
pub(crate) fn grow(
    program: &Module,
    store: &mut Store,
    stack: &mut Stack,
    index: u32,
) -> Result<(), AllocError>
    requires moves { MovesAt (flat.Plain (op.Memory (memory.Grow index))) program.now store.old stack.old }
    ensures goes { OnOk result (Follows did.Went program.now [] store.old stack.old store.new stack.new) }
    ensures keeps { OnOk result (KeepsAll store.old stack.old store.new stack.new) }
    ensures store { OnErr result (store.new ≡ store.old) }
    ensures stack { OnErr result (stack.new ≡ stack.old) }
{
    let _program = program;
    let pages = i32_of(stack.peek());
    let (memory, _) = store.memory_with(index, None);
    let answer = memory.grow(pages)?;
    replace(stack, 1, Value::I32(answer.cast_unsigned()));
    Ok(())
}
