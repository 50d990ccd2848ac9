//! Loads and stores (Core, execution, memory instructions).
ghost use Rattle.std.specs.Prelude.{[]};
ghost use Rattle.w_syntax.specs.declared.instructions.Instr.TheVariants as flat;
ghost use Rattle.w_syntax.specs.declared.instructions.Op.TheVariants as op;
ghost use Rattle.w_syntax.specs.declared.memory_instructions.MemoryOp.TheVariants as memory;
ghost use Rattle.w_stands.specs.Keeps.{KeepsAll};
ghost use Rattle.w_stands.specs.Steps.{MovesAt, Follows, Stays};

use crate::finishing::finish;
use crate::numbers::{address, extended, loaded_size, stored_bits, stored_size};
use w_reduce::Trap;
use w_segment::Stack;
use w_stands::{Did, i32_of, replace, top_two};
use w_syntax::{LoadOp, MemArg, Module, StoreOp};
use w_tables::Store;

/// A load, or its trap.
#[inline(always)]
pub fn load(
    program: &Module,
    store: &Store,
    stack: &mut Stack,
    operation: LoadOp,
    arg: MemArg,
) -> Did
    requires moves { MovesAt (flat.Plain (op.Memory (memory.Load operation arg))) program.now store.now stack.old }
    ensures goes { Follows result program.now [] store.now stack.old store.now stack.new }
    ensures keeps { KeepsAll store.now stack.old store.now stack.new }
    ensures stays { Stays stack.old stack.new }
{
    let _program = program;
    let memory = store.memory(arg.memory);
    let at = address(memory, i32_of(stack.peek()), arg.offset);
    match memory.load(at, loaded_size(operation)) {
        Some(number) => {
            replace(stack, 1, extended(operation, number));
            Did::Went
        }
        None => Did::Trapped(Trap::MemoryOutOfBounds),
    }
}

/// A store, or its trap.
#[inline(always)]
pub fn store_number(
    program: &Module,
    store: &mut Store,
    stack: &mut Stack,
    operation: StoreOp,
    arg: MemArg,
) -> Did
    requires moves { MovesAt (flat.Plain (op.Memory (memory.Store operation arg))) program.now store.old stack.old }
    ensures goes { Follows result program.now [] store.old stack.old store.new stack.new }
    ensures keeps { KeepsAll store.old stack.old store.new stack.new }
    ensures stays { Stays stack.old stack.new }
{
    let _program = program;
    let (base, value) = top_two(stack);
    let number = stored_bits(operation, value);
    let (memory, _) = store.memory_with(arg.memory, None);
    let at = address(memory, i32_of(base), arg.offset);
    let done = memory.store(at, stored_size(operation), number);
    finish(stack, 2, done)
}
