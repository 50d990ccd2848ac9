//! Operations on many bytes, and on data segments (Core, execution, memory instructions).
ghost use Rattle.std.specs.Prelude.{[]};
ghost use Rattle.w_syntax.specs.declared.instructions.Instr.TheVariants as flat;
ghost use Rattle.w_syntax.specs.declared.instructions.Op.TheVariants as op;
ghost use Rattle.w_syntax.specs.declared.memory_instructions.MemoryOp.TheVariants as memory;
ghost use Rattle.w_stands.specs.Keeps.{KeepsAll};
ghost use Rattle.w_stands.specs.Steps.{MovesAt, Follows};
ghost use Rattle.w_stands.specs.declared.did.Did.TheVariants as did;

use crate::finishing::finish;
use w_segment::Stack;
use w_stands::{Did, drop_next, i32_of, top_three};
use w_syntax::Module;
use w_tables::Store;

/// `memory.init`, with the data segment and the memory, or its trap.
pub(crate) fn init(
    program: &Module,
    store: &mut Store,
    stack: &mut Stack,
    segment: u32,
    index: u32,
) -> Did
    requires moves { MovesAt (flat.Plain (op.Memory (memory.Init segment index))) program.now store.old stack.old }
    ensures goes { Follows result program.now [] store.old stack.old store.new stack.new }
    ensures keeps { KeepsAll store.old stack.old store.new stack.new }
{
    let _program = program;
    let (to, from, count) = top_three(stack);
    let (memory, bytes) = store.memory_with(index, Some(segment));
    let done = memory.init(bytes, i32_of(to), i32_of(from), i32_of(count));
    finish(stack, 3, done)
}

/// `data.drop`.
pub(crate) fn data_drop(program: &Module, store: &mut Store, stack: &mut Stack, segment: u32)
    requires moves { MovesAt (flat.Plain (op.Memory (memory.DataDrop segment))) program.now store.old stack.old }
    ensures goes { Follows did.Went program.now [] store.old stack.old store.new stack.new }
    ensures keeps { KeepsAll store.old stack.old store.new stack.new }
{
    let _program = program;
    store.data_drop(segment);
    drop_next(stack, 0);
}

/// `memory.copy`, with the memory that is written and the one that is read, or its trap.
pub(crate) fn copy(
    program: &Module,
    store: &mut Store,
    stack: &mut Stack,
    written: u32,
    read: u32,
) -> Did
    requires moves { MovesAt (flat.Plain (op.Memory (memory.Copy written read))) program.now store.old stack.old }
    ensures goes { Follows result program.now [] store.old stack.old store.new stack.new }
    ensures keeps { KeepsAll store.old stack.old store.new stack.new }
{
    let _program = program;
    let (to, from, count) = top_three(stack);
    let done = store.memory_copy(written, read, i32_of(to), i32_of(from), i32_of(count));
    finish(stack, 3, done)
}

/// `memory.fill`, or its trap.
pub(crate) fn fill(program: &Module, store: &mut Store, stack: &mut Stack, index: u32) -> Did
    requires moves { MovesAt (flat.Plain (op.Memory (memory.Fill index))) program.now store.old stack.old }
    ensures goes { Follows result program.now [] store.old stack.old store.new stack.new }
    ensures keeps { KeepsAll store.old stack.old store.new stack.new }
{
    let _program = program;
    let (to, value, count) = top_three(stack);
    let byte = (i32_of(value) % 256) as u8;
    let (memory, _) = store.memory_with(index, None);
    let done = memory.fill(i32_of(to), byte, i32_of(count));
    finish(stack, 3, done)
}
