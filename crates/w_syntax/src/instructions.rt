//! Instructions (Core, instructions).

use crate::memory_instructions::MemoryOp;
use crate::numeric::NumericOp;
use lists::ListOf;
use w_types::{HeapType, PackedType};

/// A control instruction that holds no others (Core, instructions, control instructions). A label is counted from the
/// innermost one outwards.
#[derive(Drop)]
pub enum ControlOp {
    Unreachable,
    Nop,
    Br(u32),
    BrIf(u32),
    /// `br_table`, with its labels and the one for all other operands.
    BrTable(ListOf<u32>, u32),
    Return,
    BrOnNull(u32),
    BrOnNonNull(u32),
    /// `call`, with the function.
    Call(u32),
    /// `call_indirect`, with the type and the table.
    CallIndirect(u32, u32),
    /// `call_ref`, with the type.
    CallRef(u32),
    /// `return_call`, with the function.
    ReturnCall(u32),
    /// `return_call_indirect`, with the type and the table.
    ReturnCallIndirect(u32, u32),
    /// `return_call_ref`, with the type.
    ReturnCallRef(u32),
}

/// A parametric instruction (Core, instructions, parametric instructions).
#[derive(Drop)]
pub enum ParametricOp {
    Drop,
    /// `select` of integers.
    Select,
    /// `select` with the types that it names.
    SelectOf(ListOf<PackedType>),
}

/// A variable instruction (Core, instructions, variable instructions), with the local or the global.
#[derive(Clone, Copy)]
pub enum VariableOp {
    LocalGet(u32),
    LocalSet(u32),
    LocalTee(u32),
    GlobalGet(u32),
    GlobalSet(u32),
}

/// A table instruction (Core, instructions, table instructions), with the table where no other index is named.
#[derive(Clone, Copy)]
pub enum TableOp {
    Get(u32),
    Set(u32),
    /// `table.init`, with the element segment and the table.
    Init(u32, u32),
    /// `elem.drop`, with the element segment.
    ElemDrop(u32),
    /// `table.copy`, with the table that is written and the one that is read.
    Copy(u32, u32),
    Grow(u32),
    Size(u32),
    Fill(u32),
}

/// A reference instruction (Core, instructions, reference instructions).
#[derive(Clone, Copy)]
pub enum ReferenceOp {
    Null(HeapType),
    IsNull,
    /// `ref.func`, with the function.
    Func(u32),
    AsNonNull,
}

/// A clause of a handler (the explainer, instructions).
#[derive(Clone, Copy)]
pub enum Clause {
    /// `on`, with the tag and the label.
    Label(u32, u32),
    /// `on` with `switch`, with the tag.
    Switch(u32),
}

/// A stack switching instruction (the explainer, instructions).
#[derive(Drop)]
pub enum SwitchingOp {
    /// `cont.new`, with the continuation type.
    ContNew(u32),
    /// `cont.bind`, with the continuation types before and after.
    ContBind(u32, u32),
    /// `suspend`, with the tag.
    Suspend(u32),
    /// `resume`, with the continuation type and the clauses.
    Resume(u32, ListOf<Clause>),
    /// `switch`, with the continuation type and the tag.
    Switch(u32, u32),
}

/// An instruction that holds no others.
#[derive(Drop)]
pub enum Op {
    Control(ControlOp),
    Parametric(ParametricOp),
    Variable(VariableOp),
    Table(TableOp),
    Memory(MemoryOp),
    Numeric(NumericOp),
    Reference(ReferenceOp),
    Switching(SwitchingOp),
}

/// The type of a block (Core, instructions, control instructions): nothing to nothing, nothing to one value, or the function
/// type of this index.
#[derive(Clone, Copy)]
pub enum BlockType {
    Empty,
    Value(PackedType),
    Index(u32),
}

/// Where a branch to a block's label goes on: behind the block, or at its beginning.
#[derive(Clone, Copy)]
pub enum BlockKind {
    Block,
    Loop,
}

/// What a reader of code takes at once: an instruction, or a mark of the nesting (Core, binary format, instructions).
#[derive(Drop)]
pub enum Token {
    Plain(Op),
    Block(BlockKind, BlockType),
    If(BlockType),
    Else,
    End,
}

/// An instruction of a body in one list. A block has the place of its end, an if also that of its else.
#[derive(Drop)]
pub enum Instr {
    Plain(Op),
    Block(BlockKind, BlockType, usize),
    If(BlockType, Option<usize>, usize),
    Else,
    End,
}
