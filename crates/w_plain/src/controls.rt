//! Control instructions that hold no others.
ghost use Rattle.std.specs.Prelude.{◌≡◌, ◌≤◌, false, Err};
ghost use Rattle.w_syntax.specs.declared.instructions.Instr.TheVariants as flat;
ghost use Rattle.w_syntax.specs.declared.instructions.Op.TheVariants as op;
ghost use Rattle.w_syntax.specs.Packed.{control_of};
ghost use Rattle.w_outside.specs.Outside.{Rose};
ghost use Rattle.w_stands.specs.Keeps.{Keeps};
ghost use Rattle.w_stands.specs.Steps.{MovesAt, MovesAlone, FollowsAlone};
ghost use Rattle.w_plain.specs.Commonness.{is_call};
ghost use Rattle.w_plain.specs.Printing.{Printed};

use crate::calls::{call, tail_call};
use crate::program::KnownProgram;
use crate::stop::Stop;
use w_call_ops::{CallKind, callee_by_reference, callee_by_table};
use w_control_ops::{br, br_if, br_on_non_null, br_on_null, nop, return_, unreachable};
use w_outside::Sink;
use w_segment::Stack;
use w_stands::Did;
use w_syntax::{Module, ShortControlOp};
use w_tables::Store;

/// A control instruction that calls no function, and so looks at the stack alone.
#[inline(always)]
pub(crate) fn branching(program: &Module, stack: &mut Stack, operation: ShortControlOp) -> Did
    requires calls { is_call operation ≡ false }
    requires moves { MovesAlone (flat.Plain (op.Control (control_of operation))) program.now stack.old }
    ensures goes { FollowsAlone result program.now stack.old stack.new }
    ensures keeps { Keeps stack.old stack.new }
{
    match operation {
        ShortControlOp::Unreachable => return unreachable(program, stack),
        ShortControlOp::Nop => nop(program, stack),
        ShortControlOp::Br(label) => br(program, stack, label),
        ShortControlOp::BrIf(label) => br_if(program, stack, label),
        ShortControlOp::Return => return_(program, stack),
        ShortControlOp::BrOnNull(label) => br_on_null(program, stack, label),
        ShortControlOp::BrOnNonNull(label) => br_on_non_null(program, stack, label),
        _ => unreachable!(),
    }
    Did::Went
}

/// A control instruction that holds no list.
#[inline(always)]
#[tactic(auto, using(crate::proofs::Steps::alone, crate::proofs::Prints::printed_alone, crate::proofs::Prints::printed_trap, crate::proofs::Prints::call_calls, crate::proofs::Prints::call_tails))]
pub(crate) fn control<O: Sink>(
    program: KnownProgram,
    store: &mut Store,
    stack: &mut Stack,
    out: &mut O,
    operation: ShortControlOp,
) -> Result<Did, Stop>
    requires moves { MovesAt (flat.Plain (op.Control (control_of operation))) program.source.now store.old stack.old }
    ensures step { Printed result (O.held out.old) (O.held out.new) program.entry.source.now store.old stack.old store.new stack.new }
    ensures cause { result ≡ Err Stop.WriteFault → Rose (O.faults out.old) (O.faults out.new) }
    ensures later { O.faults out.old ≤ O.faults out.new }
{
    let source = program.source;
    match operation {
        ShortControlOp::Call(function) => call(program, store, stack, out, function, 0),
        ShortControlOp::CallIndirect(kind, table) => {
            match callee_by_table(
                source,
                program.runnable.classes(),
                program.functions,
                store,
                stack,
                CallKind::Nested,
                kind,
                table,
            ) {
                Ok(address) => call(program, store, stack, out, address, 1),
                Err(trap) => Ok(Did::Trapped(trap)),
            }
        }
        ShortControlOp::CallRef(kind) => {
            match callee_by_reference(source, store, stack, CallKind::Nested, kind) {
                Ok(address) => call(program, store, stack, out, address, 1),
                Err(trap) => Ok(Did::Trapped(trap)),
            }
        }
        ShortControlOp::ReturnCall(function) => tail_call(program, store, stack, out, function, 0),
        ShortControlOp::ReturnCallIndirect(kind, table) => {
            match callee_by_table(
                source,
                program.runnable.classes(),
                program.functions,
                store,
                stack,
                CallKind::Tail,
                kind,
                table,
            ) {
                Ok(address) => tail_call(program, store, stack, out, address, 1),
                Err(trap) => Ok(Did::Trapped(trap)),
            }
        }
        ShortControlOp::ReturnCallRef(kind) => {
            match callee_by_reference(source, store, stack, CallKind::Tail, kind) {
                Ok(address) => tail_call(program, store, stack, out, address, 1),
                Err(trap) => Ok(Did::Trapped(trap)),
            }
        }
        _ => Ok(branching(source, stack, operation)),
    }
}
