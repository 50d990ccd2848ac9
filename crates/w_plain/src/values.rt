//! Instructions on locals, globals and references.
ghost use Rattle.std.specs.Prelude.{[]};
ghost use Rattle.w_syntax.specs.declared.instructions.Instr.TheVariants as flat;
ghost use Rattle.w_syntax.specs.declared.instructions.Op.TheVariants as op;
ghost use Rattle.w_stands.specs.Steps.{MovesAt, Stays};
ghost use Rattle.w_plain.specs.Stepped.{Takes};

use w_segment::Stack;
use w_stands::Did;
use w_syntax::{Module, ReferenceOp, VariableOp};
use w_table_ops::{global_get, global_set};
use w_tables::Store;
use w_value_ops::{
    local_get, local_set, local_tee, ref_as_non_null, ref_func, ref_is_null, ref_null,
};

/// An instruction on a local or a global.
#[inline(always)]
#[tactic(auto, using(crate::proofs::Steps::alone, crate::proofs::Steps::takes_alone))]
pub(crate) fn variable(
    program: &Module,
    store: &mut Store,
    stack: &mut Stack,
    operation: VariableOp,
) -> Did
    requires moves { MovesAt (flat.Plain (op.Variable operation)) program.now store.old stack.old }
    ensures step { Takes result program.now [] store.old stack.old store.new stack.new }
    ensures stays { Stays stack.old stack.new }
{
    match operation {
        VariableOp::LocalGet(index) => {
            local_get(program, stack, index);
            Did::Went
        }
        VariableOp::LocalSet(index) => {
            local_set(program, stack, index);
            Did::Went
        }
        VariableOp::LocalTee(index) => {
            local_tee(program, stack, index);
            Did::Went
        }
        VariableOp::GlobalGet(index) => {
            global_get(program, store, stack, index);
            Did::Went
        }
        VariableOp::GlobalSet(index) => {
            global_set(program, store, stack, index);
            Did::Went
        }
    }
}

/// A reference instruction.
#[inline(never)]
#[tactic(auto, using(crate::proofs::Steps::alone, crate::proofs::Steps::takes_alone))]
pub(crate) fn reference(
    program: &Module,
    store: &mut Store,
    stack: &mut Stack,
    operation: ReferenceOp,
) -> Did
    requires moves { MovesAt (flat.Plain (op.Reference operation)) program.now store.old stack.old }
    ensures step { Takes result program.now [] store.old stack.old store.new stack.new }
{
    match operation {
        ReferenceOp::Null(heap) => {
            ref_null(program, stack, heap);
            Did::Went
        }
        ReferenceOp::IsNull => {
            ref_is_null(program, stack);
            Did::Went
        }
        ReferenceOp::Func(function) => {
            ref_func(program, store, stack, function);
            Did::Went
        }
        ReferenceOp::AsNonNull => ref_as_non_null(program, stack),
    }
}
