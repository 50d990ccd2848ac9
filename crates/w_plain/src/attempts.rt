//! Attempts at the commonest reductions, of which nothing but what each came to is answered.
ghost use Rattle.std.specs.Prelude.{◌≡◌, true, false, Some, option_map};
ghost use Rattle.w_syntax.specs.Packed.{unpacked};
ghost use Rattle.w_syntax.specs.declared.instructions.Instr.TheVariants as flat;
ghost use Rattle.w_syntax.specs.declared.instructions.Op.TheVariants as op;
ghost use Rattle.w_syntax.specs.declared.memory_instructions.MemoryOp.TheVariants as memory;
ghost use Rattle.w_segment.specs.declared.entry.Stage.TheVariants.{Body};
ghost use Rattle.w_stands.specs.Code.{instr_of};
ghost use Rattle.w_stands.specs.Steps.{MovesAt, Stays};
ghost use Rattle.w_plain.specs.Meets.{Applies};
ghost use Rattle.w_plain.specs.Plainness.{switches_at, calls_at};
ghost use Rattle.w_plain.specs.declared.progress.Progress.TheVariants as progress;
ghost use Rattle.w_plain.specs.Attempted.{Attempted, IsAttempt, goes_on, was_made, is_attempted_at};

use crate::blocks::{enter_block, enter_choice};
use crate::control_attempts::{attempt_boxed, control, move_of, progress_of};
use crate::exits::{leave_else, leave_end};
use crate::families::{loading, number, parametric, storing};
use crate::progress::Progress;
use crate::values::variable;
use w_call_ops::Callees;
use w_segment::Stack;
use w_syntax::{MemArg, Module, NumericOp, PackedInstr, ParametricOp};
use w_tables::Store;

// What a load or a store takes.
#[inline(always)]
fn argument_of(align: u8, memory: u32, offset: u64) -> MemArg
    ensures { result ≡ record { align = align; memory = memory; offset = offset } }
{
    MemArg {
        align,
        memory,
        offset,
    }
}

// Attempts the reduction at an instruction. One match over all of them looks at the instruction once.
#[inline(always)]
#[tactic(auto, using(crate::proofs::AttemptedReductions::common_attempt, crate::proofs::Ends::end_meets, crate::proofs::AttemptedReductions::rare_attempt, crate::proofs::AttemptedReductions::short_calls_none))]
fn at_instruction(
    program: &Module,
    runnable: &Callees,
    store: &mut Store,
    stack: &mut Stack,
    packed: &PackedInstr,
) -> Progress
    requires same { runnable.now ≡ program.now }
    requires moves { switches_at (Some (unpacked packed.now)) ≡ false → MovesAt (unpacked packed.now) program.now store.old stack.old }
    requires body { stack.old.stage ≡ Body }
    ensures attempt { IsAttempt result packed.now program.now store.old stack.old store.new stack.new }
{
    match packed {
        PackedInstr::Variable(operation) => progress_of(Ok(variable(
            program, store, stack, *operation,
        ))),
        PackedInstr::Drop => progress_of(Ok(parametric(
            program,
            store,
            stack,
            &ParametricOp::Drop,
        ))),
        PackedInstr::Select => progress_of(Ok(parametric(
            program,
            store,
            stack,
            &ParametricOp::Select,
        ))),
        PackedInstr::Load(operation, align, memory, offset) => {
            let argument = argument_of(*align, *memory, *offset);
            progress_of(Ok(loading(program, store, stack, *operation, argument)))
        }
        PackedInstr::Store(operation, align, memory, offset) => {
            let argument = argument_of(*align, *memory, *offset);
            progress_of(Ok(storing(program, store, stack, *operation, argument)))
        }
        PackedInstr::I32Const(value) => progress_of(Ok(number(
            program,
            store,
            stack,
            NumericOp::I32Const(*value),
        ))),
        PackedInstr::I64Const(value) => progress_of(Ok(number(
            program,
            store,
            stack,
            NumericOp::I64Const(*value),
        ))),
        PackedInstr::Eqz(kind) => progress_of(Ok(number(
            program,
            store,
            stack,
            NumericOp::Eqz(*kind),
        ))),
        PackedInstr::Compare(kind, operation) => {
            progress_of(Ok(number(program, store, stack, NumericOp::Compare(*kind, *operation))))
        }
        PackedInstr::Unary(kind, operation) => {
            progress_of(Ok(number(program, store, stack, NumericOp::Unary(*kind, *operation))))
        }
        PackedInstr::Binary(kind, operation) => {
            progress_of(Ok(number(program, store, stack, NumericOp::Binary(*kind, *operation))))
        }
        PackedInstr::Convert(operation) => {
            progress_of(Ok(number(program, store, stack, NumericOp::Convert(*operation))))
        }
        PackedInstr::Block(kind, block_type, end) => {
            progress_of(Ok(enter_block(program, store, stack, *kind, block_type.whole(), *end)))
        }
        PackedInstr::If(block_type, end) => {
            progress_of(Ok(enter_choice(program, store, stack, block_type.whole(), None, *end)))
        }
        PackedInstr::IfElse(block_type, otherwise, end) => {
            let otherwise = Some(*otherwise);
            progress_of(Ok(enter_choice(
                program,
                store,
                stack,
                block_type.whole(),
                otherwise,
                *end,
            )))
        }
        PackedInstr::Else => {
            let function = stack.func();
            let outcome = leave_else(program, store, stack);
            move_of(stack, function, outcome)
        }
        PackedInstr::End => {
            let function = stack.func();
            let outcome = leave_end(program, store, stack);
            move_of(stack, function, outcome)
        }
        PackedInstr::Control(operation) => control(program, runnable, store, stack, *operation),
        PackedInstr::Boxed(instr) => attempt_boxed(program, store, stack, instr),
        _ => Progress::NotAttempted,
    }
}

/// Attempts the reduction at the place in a body where the stack stands, where that is a common one that switches no stacks and prints
/// nothing (`is_attempted`): a number, a variable, a load or a store, a block, a branch, where a sequence ends, and the call of a function
/// of the module by its index. Where it wasn't taken all is as it was but for room: another call takes it, or tells why it is not taken.
/// Nothing is made in memory here, so that a run goes fastest by this. `found` is what `instr_at` finds there.
#[inline(always)]
#[tactic(auto, using(crate::proofs::AttemptedReductions::moves_at, crate::proofs::AttemptedReductions::ends_at, crate::proofs::AttemptedReductions::attempted_step, crate::proofs::AttemptedReductions::made, crate::proofs::AttemptedReductions::attempted_plain, crate::proofs::AttemptedReductions::calls_there))]
pub fn attempt(
    program: &Callees,
    store: &mut Store,
    stack: &mut Stack,
    found: Option<&PackedInstr>,
) -> Progress
    requires applies { switches_at (instr_of program.now stack.old.func stack.old.place) ≡ false → Applies program.now store.old stack.old }
    requires body { stack.old.stage ≡ Body }
    requires found { option_map (λ p. unpacked p.now) found ≡ instr_of program.now stack.old.func stack.old.place }
    ensures step { Attempted result program.now store.old stack.old store.new stack.new }
    // It is attempted exactly at what is common, and that switches no stacks.
    ensures made { was_made result ≡ is_attempted_at store.old.functions (option_map (λ p. p.now) found.entry) }
    ensures plain { was_made result ≡ true → switches_at (instr_of program.now stack.old.func stack.old.place) ≡ false }
    // Where it only went on, nothing is called there, and where it didn't move the stack stands in the body where it stood.
    ensures went { goes_on result ≡ true → calls_at (instr_of program.now stack.old.func stack.old.place) ≡ false }
    ensures stays { result ≡ progress.Went → Stays stack.old stack.new }
{
    let source = program.module();
    match found {
        Some(packed) => at_instruction(source, program, store, stack, packed),
        None => {
            let function = stack.func();
            let outcome = leave_end(source, store, stack);
            move_of(stack, function, outcome)
        }
    }
}
