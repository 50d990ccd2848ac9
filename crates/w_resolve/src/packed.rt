//! Packed instructions with addresses in the place of indices.
ghost use Rattle.std.specs.Prelude.{◌≡◌, IfOk, OnOk};
ghost use Rattle.w_syntax.specs.declared.instructions.Instr.TheVariants as flat;
ghost use Rattle.w_syntax.specs.declared.instructions.Op.TheVariants as plain;
ghost use Rattle.w_syntax.specs.Packed.{block_type_of, control_of, memory_of, switching_of, unpacked};
ghost use Rattle.w_link.specs.Resolved.{block_resolved, control_resolved, memory_resolved, switching_resolved};
ghost use Rattle.w_resolve.specs.Instructions.{instr_resolved};

use crate::instance::ModuleInstance;
use crate::instructions::{
    resolve_block, resolve_control_op, resolve_instr, resolve_memory_op, resolve_reference_op,
    resolve_switching_op, resolve_table_op, resolve_variable_op,
};
use std::alloc::{AllocError, Global};
use std::mem;
use w_syntax::{
    BlockKind, Instr, Op, PackedInstr, ShortBlockType, ShortControlOp, ShortMemoryOp,
    ShortSwitchingOp,
};

// A control instruction that holds no list, which needs no box.
fn packed_control(
    alloc: Global,
    instance: &ModuleInstance,
    op: ShortControlOp,
) -> Result<PackedInstr, AllocError>
    ensures { IfOk result (λ p. unpacked p ≡ flat.Plain (plain.Control (control_resolved instance.now (control_of op)))) }
{
    let op = resolve_control_op(instance, op.whole())?;
    PackedInstr::new(alloc, Instr::Plain(Op::Control(op)))
}

// A memory instruction that is no load or store, which needs no box.
fn packed_memory(instance: &ModuleInstance, op: ShortMemoryOp) -> Result<PackedInstr, AllocError>
    ensures { IfOk result (λ p. unpacked p ≡ flat.Plain (plain.Memory (memory_resolved instance.now (memory_of op)))) }
{
    let op = resolve_memory_op(instance, op.whole())?;
    Ok(PackedInstr::memory(op))
}

// A stack switching instruction that holds no list, which needs no box.
fn packed_switching(
    alloc: Global,
    instance: &ModuleInstance,
    op: ShortSwitchingOp,
) -> Result<PackedInstr, AllocError>
    ensures { IfOk result (λ p. unpacked p ≡ flat.Plain (plain.Switching (switching_resolved instance.now (switching_of op)))) }
{
    let op = resolve_switching_op(instance, op.whole())?;
    PackedInstr::new(alloc, Instr::Plain(Op::Switching(op)))
}

// A block or a loop. It moves into a box where an index of its type passes 65,535.
fn packed_block(
    alloc: Global,
    n: u32,
    kind: BlockKind,
    block: ShortBlockType,
    end: u32,
) -> Result<PackedInstr, AllocError>
    ensures { IfOk result (λ p. unpacked p ≡ flat.Block kind (block_resolved n (block_type_of block)) end) }
{
    let block = resolve_block(n, block.whole())?;
    PackedInstr::new(alloc, Instr::Block(kind, block, end as usize))
}

// An if, without an else or with one. It moves into a box where an index of its type passes 65,535.
fn packed_if(
    alloc: Global,
    n: u32,
    block: ShortBlockType,
    other: Option<usize>,
    end: u32,
) -> Result<PackedInstr, AllocError>
    ensures { IfOk result (λ p. unpacked p ≡ flat.If (block_resolved n (block_type_of block)) other end) }
{
    let block = resolve_block(n, block.whole())?;
    PackedInstr::new(alloc, Instr::If(block, other, end as usize))
}

// An instruction in its box, which stays there.
fn boxed(
    alloc: Global,
    instance: &ModuleInstance,
    mut instr: Box<Instr>,
) -> Result<PackedInstr, AllocError>
    ensures { IfOk result (λ p. unpacked p ≡ instr_resolved instance.now instr.value) }
{
    let whole = mem::replace(&mut *instr, Instr::End);
    *instr = resolve_instr(alloc, instance, whole)?;
    Ok(PackedInstr::Boxed(instr))
}

// The instruction with addresses in the place of indices.
fn resolved(
    alloc: Global,
    instance: &ModuleInstance,
    packed: PackedInstr,
) -> Result<PackedInstr, AllocError>
    ensures { IfOk result (λ p. unpacked p ≡ instr_resolved instance.now (unpacked packed)) }
{
    match packed {
        PackedInstr::Control(op) => packed_control(alloc, instance, op),
        PackedInstr::Variable(op) => Ok(PackedInstr::Variable(resolve_variable_op(instance, op))),
        PackedInstr::Table(op) => Ok(PackedInstr::Table(resolve_table_op(instance, op)?)),
        PackedInstr::Load(load, align, memory, offset) => {
            Ok(PackedInstr::Load(load, align, instance.memory(memory), offset))
        }
        PackedInstr::Store(store, align, memory, offset) => {
            Ok(PackedInstr::Store(store, align, instance.memory(memory), offset))
        }
        PackedInstr::Memory(op) => packed_memory(instance, op),
        PackedInstr::Reference(op) => Ok(PackedInstr::Reference(resolve_reference_op(
            instance, op,
        )?)),
        PackedInstr::Switching(op) => packed_switching(alloc, instance, op),
        PackedInstr::Block(kind, block, end) => {
            packed_block(alloc, instance.types, kind, block, end)
        }
        PackedInstr::If(block, end) => packed_if(alloc, instance.types, block, None, end),
        PackedInstr::IfElse(block, other, end) => {
            packed_if(alloc, instance.types, block, Some(other as usize), end)
        }
        PackedInstr::Boxed(instr) => boxed(alloc, instance, instr),
        other => Ok(other),
    }
}

/// A packed instruction, with addresses in the place of its indices (Core, execution, module instances). It fails only for want of memory,
/// and the instruction is lost then.
pub fn resolve_packed(
    alloc: Global,
    instance: &ModuleInstance,
    packed: &mut PackedInstr,
) -> Result<(), AllocError>
    ensures { OnOk result (unpacked packed.new ≡ instr_resolved instance.now (unpacked packed.old)) }
{
    let short = mem::replace(packed, PackedInstr::End);
    *packed = resolved(alloc, instance, short)?;
    Ok(())
}
