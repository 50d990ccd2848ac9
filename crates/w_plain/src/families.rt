//! Families of instructions that print nothing, each said in one way.
ghost use Rattle.std.specs.Prelude.{[]};
ghost use Rattle.w_syntax.specs.declared.instructions.Instr.TheVariants as flat;
ghost use Rattle.w_syntax.specs.declared.instructions.Op.TheVariants as op;
ghost use Rattle.w_syntax.specs.declared.memory_instructions.MemoryOp.TheVariants as memory;
ghost use Rattle.w_stands.specs.Steps.{MovesAt, Stays};
ghost use Rattle.w_plain.specs.Stepped.{HasStepped, Takes};

use std::alloc::AllocError;
use w_memory_ops::{load, memory, store_number};
use w_segment::Stack;
use w_stands::Did;
use w_syntax::{LoadOp, MemArg, MemoryOp, Module, NumericOp, ParametricOp, StoreOp, TableOp};
use w_table_ops::table;
use w_tables::Store;
use w_value_ops::{drop_operand, numeric, select};

/// A numeric instruction.
#[inline(always)]
#[tactic(auto, using(crate::proofs::Steps::alone))]
pub(crate) fn number(
    program: &Module,
    store: &mut Store,
    stack: &mut Stack,
    operation: NumericOp,
) -> Did
    requires moves { MovesAt (flat.Plain (op.Numeric operation)) program.now store.old stack.old }
    ensures step { Takes result program.now [] store.old stack.old store.new stack.new }
    ensures stays { Stays stack.old stack.new }
{
    let _store = store;
    numeric(program, stack, operation)
}

/// A load.
#[inline(always)]
pub(crate) fn loading(
    program: &Module,
    store: &mut Store,
    stack: &mut Stack,
    operation: LoadOp,
    argument: MemArg,
) -> Did
    requires moves { MovesAt (flat.Plain (op.Memory (memory.Load operation argument))) program.now store.old stack.old }
    ensures step { Takes result program.now [] store.old stack.old store.new stack.new }
    ensures stays { Stays stack.old stack.new }
{
    load(program, store, stack, operation, argument)
}

/// A store.
#[inline(always)]
pub(crate) fn storing(
    program: &Module,
    store: &mut Store,
    stack: &mut Stack,
    operation: StoreOp,
    argument: MemArg,
) -> Did
    requires moves { MovesAt (flat.Plain (op.Memory (memory.Store operation argument))) program.now store.old stack.old }
    ensures step { Takes result program.now [] store.old stack.old store.new stack.new }
    ensures stays { Stays stack.old stack.new }
{
    store_number(program, store, stack, operation, argument)
}

/// A memory instruction.
#[inline(always)]
#[tactic(auto, using(crate::proofs::Steps::may_take))]
pub(crate) fn in_memory(
    program: &Module,
    store: &mut Store,
    stack: &mut Stack,
    operation: MemoryOp,
) -> Result<Did, AllocError>
    requires moves { MovesAt (flat.Plain (op.Memory operation)) program.now store.old stack.old }
    ensures step { HasStepped result program.now store.old stack.old store.new stack.new }
{
    memory(program, store, stack, operation)
}

/// A table instruction.
#[inline(never)]
#[tactic(auto, using(crate::proofs::Steps::may_take))]
pub(crate) fn in_table(
    program: &Module,
    store: &mut Store,
    stack: &mut Stack,
    operation: TableOp,
) -> Result<Did, AllocError>
    requires moves { MovesAt (flat.Plain (op.Table operation)) program.now store.old stack.old }
    ensures step { HasStepped result program.now store.old stack.old store.new stack.new }
{
    table(program, store, stack, operation)
}

/// A parametric instruction.
#[inline(always)]
#[tactic(auto, using(crate::proofs::Steps::alone, crate::proofs::Steps::takes_alone))]
pub(crate) fn parametric(
    program: &Module,
    store: &mut Store,
    stack: &mut Stack,
    operation: &ParametricOp,
) -> Did
    requires moves { MovesAt (flat.Plain (op.Parametric operation.now)) program.now store.old stack.old }
    ensures step { Takes result program.now [] store.old stack.old store.new stack.new }
    ensures stays { Stays stack.old stack.new }
{
    let _store = store;
    match operation {
        ParametricOp::Drop => {
            drop_operand(program, stack);
            return Did::Went;
        }
        ParametricOp::Select | ParametricOp::SelectOf(_) => select(program, stack, operation),
    }
    Did::Went
}
