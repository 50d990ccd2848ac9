//! One reduction at an instruction, as a body keeps it.
ghost use Rattle.std.specs.Prelude.{◌≡◌, ◌≤◌, false, Err, Some};
ghost use Rattle.w_syntax.specs.declared.instructions.Instr.TheVariants as flat;
ghost use Rattle.w_syntax.specs.declared.instructions.Op.TheVariants as op;
ghost use Rattle.w_syntax.specs.Packed.{unpacked};
ghost use Rattle.w_outside.specs.Outside.{Rose};
ghost use Rattle.w_stands.specs.Steps.{MovesAt};
ghost use Rattle.w_plain.specs.Plainness.{switches_at};
ghost use Rattle.w_plain.specs.Printing.{Printed, widened};

use crate::controls::control;
use crate::program::KnownProgram;
use crate::rare::step_rare;
use crate::silent::{silent_packed, step_silent};
use crate::stop::Stop;
use std::alloc::AllocError;
use w_control_ops::br_table;
use w_outside::Sink;
use w_segment::Stack;
use w_stands::Did;
use w_syntax::{ControlOp, Instr, Op, PackedInstr, ShortControlOp};
use w_tables::Store;

// What a call that prints nothing came to, as one that may print.
#[inline(always)]
fn or_stop(outcome: Result<Did, AllocError>) -> Result<Did, Stop>
    ensures { result ≡ widened outcome }
{
    match outcome {
        Ok(did) => Ok(did),
        Err(_) => Err(Stop::OutOfMemory),
    }
}

// A control instruction that stands in a box.
#[tactic(auto, using(crate::proofs::Steps::alone, crate::proofs::Prints::printed_alone))]
fn control_op<O: Sink>(
    program: KnownProgram,
    store: &mut Store,
    stack: &mut Stack,
    out: &mut O,
    operation: &ControlOp,
) -> Result<Did, Stop>
    requires moves { MovesAt (flat.Plain (op.Control operation.now)) program.source.now store.old stack.old }
    ensures step { Printed result (O.held out.old) (O.held out.new) program.entry.source.now store.old stack.old store.new stack.new }
    ensures cause { result ≡ Err Stop.WriteFault → Rose (O.faults out.old) (O.faults out.new) }
    ensures later { O.faults out.old ≤ O.faults out.new }
{
    let short = match operation {
        ControlOp::BrTable(labels, last) => {
            br_table(program.source, stack, labels, *last);
            return Ok(Did::Went);
        }
        ControlOp::Unreachable => ShortControlOp::Unreachable,
        ControlOp::Nop => ShortControlOp::Nop,
        ControlOp::Br(label) => ShortControlOp::Br(*label),
        ControlOp::BrIf(label) => ShortControlOp::BrIf(*label),
        ControlOp::Return => ShortControlOp::Return,
        ControlOp::BrOnNull(label) => ShortControlOp::BrOnNull(*label),
        ControlOp::BrOnNonNull(label) => ShortControlOp::BrOnNonNull(*label),
        ControlOp::Call(function) => ShortControlOp::Call(*function),
        ControlOp::CallIndirect(kind, table) => ShortControlOp::CallIndirect(*kind, *table),
        ControlOp::CallRef(kind) => ShortControlOp::CallRef(*kind),
        ControlOp::ReturnCall(function) => ShortControlOp::ReturnCall(*function),
        ControlOp::ReturnCallIndirect(kind, table) => {
            ShortControlOp::ReturnCallIndirect(*kind, *table)
        }
        ControlOp::ReturnCallRef(kind) => ShortControlOp::ReturnCallRef(*kind),
    };
    control(program, store, stack, out, short)
}

// An instruction that stands in a box.
#[inline(never)]
#[tactic(auto, using(crate::proofs::Prints::printed_step))]
fn boxed_control_or_silent<O: Sink>(
    program: KnownProgram,
    store: &mut Store,
    stack: &mut Stack,
    out: &mut O,
    instr: &Instr,
) -> Result<Did, Stop>
    requires moves { MovesAt instr.now program.source.now store.old stack.old }
    requires plain { switches_at (Some instr.now) ≡ false }
    ensures step { Printed result (O.held out.old) (O.held out.new) program.entry.source.now store.old stack.old store.new stack.new }
    ensures cause { result ≡ Err Stop.WriteFault → Rose (O.faults out.old) (O.faults out.new) }
    ensures later { O.faults out.old ≤ O.faults out.new }
{
    match instr {
        Instr::Plain(Op::Control(operation)) => control_op(program, store, stack, out, operation),
        _ => or_stop(step_silent(program.source, store, stack, instr)),
    }
}

// An instruction that stands in a box: a `br_table` at once, and any other one apart.
#[inline(always)]
#[tactic(auto, using(crate::proofs::Steps::alone, crate::proofs::Prints::printed_alone))]
fn step_boxed<O: Sink>(
    program: KnownProgram,
    store: &mut Store,
    stack: &mut Stack,
    out: &mut O,
    operation: &Instr,
) -> Result<Did, Stop>
    requires moves { MovesAt operation.now program.source.now store.old stack.old }
    requires plain { switches_at (Some operation.now) ≡ false }
    ensures step { Printed result (O.held out.old) (O.held out.new) program.entry.source.now store.old stack.old store.new stack.new }
    ensures cause { result ≡ Err Stop.WriteFault → Rose (O.faults out.old) (O.faults out.new) }
    ensures later { O.faults out.old ≤ O.faults out.new }
{
    if let Instr::Plain(Op::Control(ControlOp::BrTable(labels, last))) = operation {
        br_table(program.source, stack, labels, *last);
        return Ok(Did::Went);
    }
    boxed_control_or_silent(program, store, stack, out, operation)
}

/// One reduction at the instruction where the stack stands, as a body keeps it.
#[inline(always)]
#[tactic(auto, using(crate::proofs::Prints::printed_step))]
pub(crate) fn instruction<O: Sink>(
    program: KnownProgram,
    store: &mut Store,
    stack: &mut Stack,
    out: &mut O,
    packed: &PackedInstr,
) -> Result<Did, Stop>
    requires moves { MovesAt (unpacked packed.now) program.source.now store.old stack.old }
    requires plain { switches_at (Some (unpacked packed.now)) ≡ false }
    ensures step { Printed result (O.held out.old) (O.held out.new) program.entry.source.now store.old stack.old store.new stack.new }
    ensures cause { result ≡ Err Stop.WriteFault → Rose (O.faults out.old) (O.faults out.new) }
    ensures later { O.faults out.old ≤ O.faults out.new }
{
    let source = program.source;
    match packed {
        PackedInstr::Control(operation) => control(program, store, stack, out, *operation),
        PackedInstr::Table(_) | PackedInstr::Memory(_) | PackedInstr::Reference(_) => {
            or_stop(step_rare(source, store, stack, packed))
        }
        PackedInstr::Switching(_) => unreachable!(),
        PackedInstr::Boxed(instr) => step_boxed(program, store, stack, out, instr),
        _ => or_stop(silent_packed(source, store, stack, packed)),
    }
}
