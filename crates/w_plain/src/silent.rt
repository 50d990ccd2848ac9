//! Instructions that print nothing, where they stand in a box or weren't attempted.
ghost use Rattle.std.specs.Prelude.{◌≡◌, true, []};
ghost use Rattle.w_syntax.specs.Packed.{unpacked};
ghost use Rattle.w_syntax.specs.declared.instructions.Instr.TheVariants as flat;
ghost use Rattle.w_stands.specs.Steps.{MovesAt};
ghost use Rattle.w_plain.specs.Commonness.{is_silent};
ghost use Rattle.w_plain.specs.Stepped.{HasStepped, Takes};

use crate::blocks::{enter_block, enter_choice};
use crate::exits::{leave_else, leave_end};
use crate::families::{in_memory, in_table, number, parametric};
use crate::values::{reference, variable};
use std::alloc::AllocError;
use w_segment::Stack;
use w_stands::Did;
use w_syntax::{BlockType, Instr, Module, Op, PackedInstr};
use w_tables::Store;

// An instruction that holds no others.
fn silent_op(
    program: &Module,
    store: &mut Store,
    stack: &mut Stack,
    operation: &Op,
) -> Result<Did, AllocError>
    requires silent { is_silent (flat.Plain operation.now) ≡ true }
    requires moves { MovesAt (flat.Plain operation.now) program.now store.old stack.old }
    ensures step { HasStepped result program.now store.old stack.old store.new stack.new }
{
    match operation {
        Op::Parametric(operation) => Ok(parametric(program, store, stack, operation)),
        Op::Variable(operation) => Ok(variable(program, store, stack, *operation)),
        Op::Table(operation) => in_table(program, store, stack, *operation),
        Op::Memory(operation) => in_memory(program, store, stack, *operation),
        Op::Numeric(operation) => Ok(number(program, store, stack, *operation)),
        Op::Reference(operation) => Ok(reference(program, store, stack, *operation)),
        _ => unreachable!(),
    }
}

// An if, by the places of its else, where it has one, and of its end, which are numbers of 32 bits.
fn silent_if(
    program: &Module,
    store: &mut Store,
    stack: &mut Stack,
    block_type: BlockType,
    otherwise: Option<usize>,
    end: usize,
) -> Did
    requires moves { MovesAt (flat.If block_type otherwise end) program.now store.old stack.old }
    ensures step { Takes result program.now [] store.old stack.old store.new stack.new }
{
    let end = end as u32;
    match otherwise {
        None => enter_choice(program, store, stack, block_type, None, end),
        Some(otherwise) => {
            let otherwise = Some(otherwise as u32);
            enter_choice(program, store, stack, block_type, otherwise, end)
        }
    }
}

/// One reduction at such an instruction. It fails only where a memory or a table grows, when out of memory, and then all is as it was.
#[tactic(auto, using(crate::proofs::Ends::end_meets))]
pub(crate) fn step_silent(
    program: &Module,
    store: &mut Store,
    stack: &mut Stack,
    instr: &Instr,
) -> Result<Did, AllocError>
    requires silent { is_silent instr.now ≡ true }
    requires moves { MovesAt instr.now program.now store.old stack.old }
    ensures step { HasStepped result program.now store.old stack.old store.new stack.new }
{
    match instr {
        Instr::Plain(operation) => silent_op(program, store, stack, operation),
        Instr::Block(kind, block_type, end) => {
            let end = *end as u32;
            Ok(enter_block(program, store, stack, *kind, *block_type, end))
        }
        Instr::If(block_type, otherwise, end) => Ok(silent_if(
            program,
            store,
            stack,
            *block_type,
            *otherwise,
            *end,
        )),
        Instr::Else => Ok(leave_else(program, store, stack)),
        Instr::End => Ok(leave_end(program, store, stack)),
    }
}

/// One reduction at an instruction that prints nothing, as a body keeps it. A run attempts what is common before, so that this is called
/// seldom: it goes by the instruction that is stood for, and what an attempt inlines stands in the program once.
#[inline(never)]
pub(crate) fn silent_packed(
    program: &Module,
    store: &mut Store,
    stack: &mut Stack,
    packed: &PackedInstr,
) -> Result<Did, AllocError>
    requires silent { is_silent (unpacked packed.now) ≡ true }
    requires moves { MovesAt (unpacked packed.now) program.now store.old stack.old }
    ensures step { HasStepped result program.now store.old stack.old store.new stack.new }
{
    let view = packed.view();
    let outcome = step_silent(program, store, stack, view.instr());
    drop(view);
    outcome
}
