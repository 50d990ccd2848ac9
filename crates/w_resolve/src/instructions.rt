//! Instructions with addresses in the place of indices (Core, execution, module instances): each index of an instruction stands for the
//! address that its instance has there.
ghost use Rattle.std.specs.Prelude.{◌≡◌, map, IfOk};
ghost use Rattle.w_link.specs.Resolved.{at, block_resolved, control_resolved, parametric_resolved, variable_resolved, table_resolved, memory_resolved, reference_resolved, clause_resolved, switching_resolved, op_resolved};
ghost use Rattle.w_resolve.specs.Instructions.{instr_resolved};

use crate::instance::{ModuleInstance, shifted};
use crate::types::{resolve_heap, resolve_type, resolve_types};
use lists::ListOf;
use std::alloc::{AllocError, Global};
use w_syntax::{
    BlockType, Clause, ControlOp, Instr, MemArg, MemoryOp, Op, ParametricOp, ReferenceOp,
    SwitchingOp, TableOp, VariableOp,
};

/// The type of a block (Core, instructions, control instructions).
pub(crate) fn resolve_block(n: u32, block: BlockType) -> Result<BlockType, AllocError>
    ensures { IfOk result (λ b. b ≡ block_resolved n block) }
{
    match block {
        BlockType::Empty => Ok(BlockType::Empty),
        BlockType::Value(kind) => Ok(BlockType::Value(resolve_type(n, kind)?)),
        BlockType::Index(index) => Ok(BlockType::Index(shifted(n, index)?)),
    }
}

/// A control instruction (Core, instructions, control instructions). Labels stay.
pub(crate) fn resolve_control_op(
    instance: &ModuleInstance,
    op: ControlOp,
) -> Result<ControlOp, AllocError>
    ensures { IfOk result (λ o. o ≡ control_resolved instance.now op) }
{
    match op {
        ControlOp::Unreachable => Ok(ControlOp::Unreachable),
        ControlOp::Nop => Ok(ControlOp::Nop),
        ControlOp::Br(label) => Ok(ControlOp::Br(label)),
        ControlOp::BrIf(label) => Ok(ControlOp::BrIf(label)),
        ControlOp::BrTable(labels, label) => Ok(ControlOp::BrTable(labels, label)),
        ControlOp::Return => Ok(ControlOp::Return),
        ControlOp::BrOnNull(label) => Ok(ControlOp::BrOnNull(label)),
        ControlOp::BrOnNonNull(label) => Ok(ControlOp::BrOnNonNull(label)),
        ControlOp::Call(function) => Ok(ControlOp::Call(instance.function(function))),
        ControlOp::CallIndirect(kind, table) => {
            Ok(ControlOp::CallIndirect(instance.type_index(kind)?, instance.table(table)))
        }
        ControlOp::CallRef(kind) => Ok(ControlOp::CallRef(instance.type_index(kind)?)),
        ControlOp::ReturnCall(function) => Ok(ControlOp::ReturnCall(instance.function(function))),
        ControlOp::ReturnCallIndirect(kind, table) => {
            Ok(ControlOp::ReturnCallIndirect(instance.type_index(kind)?, instance.table(table)))
        }
        ControlOp::ReturnCallRef(kind) => Ok(ControlOp::ReturnCallRef(instance.type_index(kind)?)),
    }
}

// A parametric instruction (Core, instructions, parametric instructions).
fn resolve_parametric_op(
    alloc: Global,
    instance: &ModuleInstance,
    op: ParametricOp,
) -> Result<ParametricOp, AllocError>
    ensures { IfOk result (λ o. o ≡ parametric_resolved instance.now op) }
{
    match op {
        ParametricOp::Drop => Ok(ParametricOp::Drop),
        ParametricOp::Select => Ok(ParametricOp::Select),
        ParametricOp::SelectOf(types) => {
            let mut types = types;
            resolve_types(alloc, instance.types, &mut types)?;
            Ok(ParametricOp::SelectOf(types))
        }
    }
}

/// A variable instruction (Core, instructions, variable instructions). Locals stay.
pub(crate) fn resolve_variable_op(instance: &ModuleInstance, op: VariableOp) -> VariableOp
    ensures { result ≡ variable_resolved instance.now op }
{
    match op {
        VariableOp::LocalGet(local) => VariableOp::LocalGet(local),
        VariableOp::LocalSet(local) => VariableOp::LocalSet(local),
        VariableOp::LocalTee(local) => VariableOp::LocalTee(local),
        VariableOp::GlobalGet(global) => VariableOp::GlobalGet(instance.global(global)),
        VariableOp::GlobalSet(global) => VariableOp::GlobalSet(instance.global(global)),
    }
}

/// A table instruction (Core, instructions, table instructions).
pub(crate) fn resolve_table_op(
    instance: &ModuleInstance,
    op: TableOp,
) -> Result<TableOp, AllocError>
    ensures { IfOk result (λ o. o ≡ table_resolved instance.now op) }
{
    match op {
        TableOp::Get(table) => Ok(TableOp::Get(instance.table(table))),
        TableOp::Set(table) => Ok(TableOp::Set(instance.table(table))),
        TableOp::Init(segment, table) => {
            Ok(TableOp::Init(instance.element(segment)?, instance.table(table)))
        }
        TableOp::ElemDrop(segment) => Ok(TableOp::ElemDrop(instance.element(segment)?)),
        TableOp::Copy(to, from) => Ok(TableOp::Copy(instance.table(to), instance.table(from))),
        TableOp::Grow(table) => Ok(TableOp::Grow(instance.table(table))),
        TableOp::Size(table) => Ok(TableOp::Size(instance.table(table))),
        TableOp::Fill(table) => Ok(TableOp::Fill(instance.table(table))),
    }
}

// The argument of a load or a store: its memory has an address, its alignment and offset stay (Core, instructions, memory instructions).
fn resolve_argument(instance: &ModuleInstance, argument: MemArg) -> MemArg
    ensures { result ≡ record argument { memory = at instance.now.memories argument.memory } }
{
    MemArg {
        align: argument.align,
        memory: instance.memory(argument.memory),
        offset: argument.offset,
    }
}

/// A memory instruction (Core, instructions, memory instructions).
pub(crate) fn resolve_memory_op(
    instance: &ModuleInstance,
    op: MemoryOp,
) -> Result<MemoryOp, AllocError>
    ensures { IfOk result (λ o. o ≡ memory_resolved instance.now op) }
{
    match op {
        MemoryOp::Load(load, argument) => {
            Ok(MemoryOp::Load(load, resolve_argument(instance, argument)))
        }
        MemoryOp::Store(store, argument) => {
            Ok(MemoryOp::Store(store, resolve_argument(instance, argument)))
        }
        MemoryOp::Size(memory) => Ok(MemoryOp::Size(instance.memory(memory))),
        MemoryOp::Grow(memory) => Ok(MemoryOp::Grow(instance.memory(memory))),
        MemoryOp::Init(segment, memory) => {
            Ok(MemoryOp::Init(instance.data(segment)?, instance.memory(memory)))
        }
        MemoryOp::DataDrop(segment) => Ok(MemoryOp::DataDrop(instance.data(segment)?)),
        MemoryOp::Copy(to, from) => Ok(MemoryOp::Copy(instance.memory(to), instance.memory(from))),
        MemoryOp::Fill(memory) => Ok(MemoryOp::Fill(instance.memory(memory))),
    }
}

/// A reference instruction (Core, instructions, reference instructions).
pub(crate) fn resolve_reference_op(
    instance: &ModuleInstance,
    op: ReferenceOp,
) -> Result<ReferenceOp, AllocError>
    ensures { IfOk result (λ o. o ≡ reference_resolved instance.now op) }
{
    match op {
        ReferenceOp::Null(heap) => Ok(ReferenceOp::Null(resolve_heap(instance.types, heap)?)),
        ReferenceOp::IsNull => Ok(ReferenceOp::IsNull),
        ReferenceOp::Func(function) => Ok(ReferenceOp::Func(instance.function(function))),
        ReferenceOp::AsNonNull => Ok(ReferenceOp::AsNonNull),
    }
}

// A clause of a handler (the explainer, instructions). Its label stays.
fn resolve_clause(instance: &ModuleInstance, clause: Clause) -> Clause
    ensures { result ≡ clause_resolved instance.now clause }
{
    match clause {
        Clause::Label(tag, label) => Clause::Label(instance.tag(tag), label),
        Clause::Switch(tag) => Clause::Switch(instance.tag(tag)),
    }
}

// The clauses of a handler, where they lie (the explainer, instructions).
fn resolve_clauses(instance: &ModuleInstance, clauses: ListOf<Clause>) -> ListOf<Clause>
    ensures { result ≡ map (clause_resolved instance.now) clauses }
{
    let mut items = clauses.into_vec();
    for clause in items.iter_mut() {
        *clause = resolve_clause(instance, *clause);
    }
    ListOf::from_vec(items)
}

/// A stack switching instruction (the explainer, instructions).
pub(crate) fn resolve_switching_op(
    instance: &ModuleInstance,
    op: SwitchingOp,
) -> Result<SwitchingOp, AllocError>
    ensures { IfOk result (λ o. o ≡ switching_resolved instance.now op) }
{
    match op {
        SwitchingOp::ContNew(kind) => Ok(SwitchingOp::ContNew(instance.type_index(kind)?)),
        SwitchingOp::ContBind(from, to) => {
            Ok(SwitchingOp::ContBind(instance.type_index(from)?, instance.type_index(to)?))
        }
        SwitchingOp::Suspend(tag) => Ok(SwitchingOp::Suspend(instance.tag(tag))),
        SwitchingOp::Resume(kind, clauses) => {
            Ok(SwitchingOp::Resume(
                instance.type_index(kind)?,
                resolve_clauses(instance, clauses),
            ))
        }
        SwitchingOp::Switch(kind, tag) => {
            Ok(SwitchingOp::Switch(instance.type_index(kind)?, instance.tag(tag)))
        }
    }
}

// An instruction that holds no others (Core, instructions).
fn resolve_op(alloc: Global, instance: &ModuleInstance, op: Op) -> Result<Op, AllocError>
    ensures { IfOk result (λ o. o ≡ op_resolved instance.now op) }
{
    match op {
        Op::Control(op) => Ok(Op::Control(resolve_control_op(instance, op)?)),
        Op::Parametric(op) => Ok(Op::Parametric(resolve_parametric_op(alloc, instance, op)?)),
        Op::Variable(op) => Ok(Op::Variable(resolve_variable_op(instance, op))),
        Op::Table(op) => Ok(Op::Table(resolve_table_op(instance, op)?)),
        Op::Memory(op) => Ok(Op::Memory(resolve_memory_op(instance, op)?)),
        Op::Numeric(op) => Ok(Op::Numeric(op)),
        Op::Reference(op) => Ok(Op::Reference(resolve_reference_op(instance, op)?)),
        Op::Switching(op) => Ok(Op::Switching(resolve_switching_op(instance, op)?)),
    }
}

/// An instruction of a body in one list: a block's type has new indices, its places stay (Core, instructions).
pub(crate) fn resolve_instr(
    alloc: Global,
    instance: &ModuleInstance,
    instr: Instr,
) -> Result<Instr, AllocError>
    ensures { IfOk result (λ i. i ≡ instr_resolved instance.now instr) }
{
    match instr {
        Instr::Plain(op) => Ok(Instr::Plain(resolve_op(alloc, instance, op)?)),
        Instr::Block(kind, block, end) => {
            Ok(Instr::Block(kind, resolve_block(instance.types, block)?, end))
        }
        Instr::If(block, other, end) => {
            Ok(Instr::If(resolve_block(instance.types, block)?, other, end))
        }
        Instr::Else => Ok(Instr::Else),
        Instr::End => Ok(Instr::End),
    }
}
