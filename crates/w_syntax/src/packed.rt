//! Instructions as a body keeps them, 16 bytes each.
ghost use Rattle.std.specs.Prelude.{◌≡◌, IfOk, IfSome};
ghost use Rattle.w_syntax.specs.declared.instructions.Instr.TheVariants as flat;
ghost use Rattle.w_syntax.specs.declared.instructions.Op.TheVariants as op;
ghost use Rattle.w_syntax.specs.Packed.{reference_block, block_type_of, control_of, switching_of, unpacked, seen};

use crate::instructions::{
    BlockKind, BlockType, ControlOp, Instr, Op, ParametricOp, ReferenceOp, SwitchingOp, TableOp,
    VariableOp,
};
use crate::memory_instructions::{LoadOp, MemArg, MemoryOp, StoreOp};
use crate::numeric::{Binop, Cvtop, IntType, NumericOp, Relop, Unop};
use std::alloc::{AllocError, Global};
use std::mem::size_of;
use w_types::{HeapType, PackedType, RefType, ValType};

/// A heap type that is no index.
#[derive(Clone, Copy)]
pub enum AbstractHeapType {
    Func,
    NoFunc,
    Cont,
    NoCont,
}

/// A type of a block in 4 bytes: no index in it is above 65,535.
#[derive(Clone, Copy)]
pub enum ShortBlockType {
    Empty,
    I32,
    I64,
    /// A reference, and whether it may be null.
    Ref(bool, AbstractHeapType),
    /// A reference to a value of this type, and whether it may be null.
    RefTo(bool, u16),
    /// The function type of this index.
    Index(u16),
}

/// A control instruction that holds no list: all but `br_table`.
#[derive(Clone, Copy)]
pub enum ShortControlOp {
    Unreachable,
    Nop,
    Br(u32),
    BrIf(u32),
    Return,
    BrOnNull(u32),
    BrOnNonNull(u32),
    Call(u32),
    CallIndirect(u32, u32),
    CallRef(u32),
    ReturnCall(u32),
    ReturnCallIndirect(u32, u32),
    ReturnCallRef(u32),
}

/// A memory instruction that is no load or store.
#[derive(Clone, Copy)]
pub enum ShortMemoryOp {
    Size(u32),
    Grow(u32),
    Init(u32, u32),
    DataDrop(u32),
    Copy(u32, u32),
    Fill(u32),
}

/// A stack switching instruction that holds no list: all but `resume`.
#[derive(Clone, Copy)]
pub enum ShortSwitchingOp {
    ContNew(u32),
    ContBind(u32, u32),
    Suspend(u32),
    Switch(u32, u32),
}

/// An instruction of a body in 16 bytes, with the places that `Instr` has. One that takes more stands in a box: `br_table`,
/// `resume`, a `select` with types, and blocks whose type or places have no room here.
#[derive(Drop)]
pub enum PackedInstr {
    Control(ShortControlOp),
    Drop,
    Select,
    Variable(VariableOp),
    Table(TableOp),
    /// A load, with the exponent of the alignment, the memory and the offset.
    Load(LoadOp, u8, u32, u64),
    /// A store, with the exponent of the alignment, the memory and the offset.
    Store(StoreOp, u8, u32, u64),
    Memory(ShortMemoryOp),
    I32Const(i32),
    I64Const(i64),
    Eqz(IntType),
    Compare(IntType, Relop),
    Unary(IntType, Unop),
    Binary(IntType, Binop),
    Convert(Cvtop),
    Reference(ReferenceOp),
    Switching(ShortSwitchingOp),
    /// A block or a loop, with the place of its end.
    Block(BlockKind, ShortBlockType, u32),
    /// An if without an else, with the place of its end.
    If(ShortBlockType, u32),
    /// An if with an else, with the places of the else and of the end.
    IfElse(ShortBlockType, u32, u32),
    Else,
    End,
    Boxed(Box<Instr>),
}

const _: () = prove!(size_of::<PackedInstr>() == 16);

/// An instruction of a body as it is read: made where it was short, or as it stands.
#[derive(Drop)]
pub enum InstrView<'a> {
    Made(Instr),
    Standing(&'a Instr),
}

// A reference type as the type of a block, where it is short.
fn short_reference(kind: RefType) -> Option<ShortBlockType>
    ensures { IfSome result (λ s. block_type_of s ≡ reference_block kind.nullable kind.heap) }
{
    let nullable = kind.nullable;
    match kind.heap {
        HeapType::Func => Some(ShortBlockType::Ref(nullable, AbstractHeapType::Func)),
        HeapType::NoFunc => Some(ShortBlockType::Ref(nullable, AbstractHeapType::NoFunc)),
        HeapType::Cont => Some(ShortBlockType::Ref(nullable, AbstractHeapType::Cont)),
        HeapType::NoCont => Some(ShortBlockType::Ref(nullable, AbstractHeapType::NoCont)),
        HeapType::Index(index) => {
            let index = u16::try_from(index).ok()?;
            Some(ShortBlockType::RefTo(nullable, index))
        }
    }
}

// The type of a block, where it is short.
fn short_block_type(block: BlockType) -> Option<ShortBlockType>
    ensures { IfSome result (λ s. block_type_of s ≡ block) }
{
    match block {
        BlockType::Empty => Some(ShortBlockType::Empty),
        BlockType::Value(kind) => match kind.whole() {
            ValType::I32 => Some(ShortBlockType::I32),
            ValType::I64 => Some(ShortBlockType::I64),
            ValType::Ref(kind) => short_reference(kind),
        },
        BlockType::Index(index) => {
            let index = u16::try_from(index).ok()?;
            Some(ShortBlockType::Index(index))
        }
    }
}

fn short_control(control: &ControlOp) -> Option<ShortControlOp>
    ensures { IfSome result (λ p. control_of p ≡ control.now) }
{
    match control {
        ControlOp::Unreachable => Some(ShortControlOp::Unreachable),
        ControlOp::Nop => Some(ShortControlOp::Nop),
        ControlOp::Br(label) => Some(ShortControlOp::Br(*label)),
        ControlOp::BrIf(label) => Some(ShortControlOp::BrIf(*label)),
        ControlOp::BrTable(_, _) => None,
        ControlOp::Return => Some(ShortControlOp::Return),
        ControlOp::BrOnNull(label) => Some(ShortControlOp::BrOnNull(*label)),
        ControlOp::BrOnNonNull(label) => Some(ShortControlOp::BrOnNonNull(*label)),
        ControlOp::Call(function) => Some(ShortControlOp::Call(*function)),
        ControlOp::CallIndirect(kind, table) => Some(ShortControlOp::CallIndirect(*kind, *table)),
        ControlOp::CallRef(kind) => Some(ShortControlOp::CallRef(*kind)),
        ControlOp::ReturnCall(function) => Some(ShortControlOp::ReturnCall(*function)),
        ControlOp::ReturnCallIndirect(kind, table) => {
            Some(ShortControlOp::ReturnCallIndirect(*kind, *table))
        }
        ControlOp::ReturnCallRef(kind) => Some(ShortControlOp::ReturnCallRef(*kind)),
    }
}

fn short_parametric(parametric: &ParametricOp) -> Option<PackedInstr>
    ensures { IfSome result (λ p. unpacked p ≡ flat.Plain (op.Parametric parametric.now)) }
{
    match parametric {
        ParametricOp::Drop => Some(PackedInstr::Drop),
        ParametricOp::Select => Some(PackedInstr::Select),
        ParametricOp::SelectOf(_) => None,
    }
}

fn packed_memory(memory: MemoryOp) -> PackedInstr
    ensures { unpacked result ≡ flat.Plain (op.Memory memory) }
{
    let short = match memory {
        MemoryOp::Load(load, argument) => {
            return PackedInstr::Load(load, argument.align, argument.memory, argument.offset);
        }
        MemoryOp::Store(store, argument) => {
            return PackedInstr::Store(store, argument.align, argument.memory, argument.offset);
        }
        MemoryOp::Size(memory) => ShortMemoryOp::Size(memory),
        MemoryOp::Grow(memory) => ShortMemoryOp::Grow(memory),
        MemoryOp::Init(segment, memory) => ShortMemoryOp::Init(segment, memory),
        MemoryOp::DataDrop(segment) => ShortMemoryOp::DataDrop(segment),
        MemoryOp::Copy(to, from) => ShortMemoryOp::Copy(to, from),
        MemoryOp::Fill(memory) => ShortMemoryOp::Fill(memory),
    };
    PackedInstr::Memory(short)
}

fn packed_numeric(numeric: NumericOp) -> PackedInstr
    ensures { unpacked result ≡ flat.Plain (op.Numeric numeric) }
{
    match numeric {
        NumericOp::I32Const(number) => PackedInstr::I32Const(number),
        NumericOp::I64Const(number) => PackedInstr::I64Const(number),
        NumericOp::Eqz(kind) => PackedInstr::Eqz(kind),
        NumericOp::Compare(kind, operation) => PackedInstr::Compare(kind, operation),
        NumericOp::Unary(kind, operation) => PackedInstr::Unary(kind, operation),
        NumericOp::Binary(kind, operation) => PackedInstr::Binary(kind, operation),
        NumericOp::Convert(operation) => PackedInstr::Convert(operation),
    }
}

fn short_switching(switching: &SwitchingOp) -> Option<ShortSwitchingOp>
    ensures { IfSome result (λ p. switching_of p ≡ switching.now) }
{
    match switching {
        SwitchingOp::ContNew(kind) => Some(ShortSwitchingOp::ContNew(*kind)),
        SwitchingOp::ContBind(from, to) => Some(ShortSwitchingOp::ContBind(*from, *to)),
        SwitchingOp::Suspend(tag) => Some(ShortSwitchingOp::Suspend(*tag)),
        SwitchingOp::Resume(_, _) => None,
        SwitchingOp::Switch(kind, tag) => Some(ShortSwitchingOp::Switch(*kind, *tag)),
    }
}

fn short_op(op: &Op) -> Option<PackedInstr>
    ensures { IfSome result (λ p. unpacked p ≡ flat.Plain op.now) }
{
    match op {
        Op::Control(op) => Some(PackedInstr::Control(short_control(op)?)),
        Op::Parametric(op) => short_parametric(op),
        Op::Variable(op) => Some(PackedInstr::Variable(*op)),
        Op::Table(op) => Some(PackedInstr::Table(*op)),
        Op::Memory(op) => Some(packed_memory(*op)),
        Op::Numeric(op) => Some(packed_numeric(*op)),
        Op::Reference(op) => Some(PackedInstr::Reference(*op)),
        Op::Switching(op) => Some(PackedInstr::Switching(short_switching(op)?)),
    }
}

fn short_block(kind: BlockKind, block: BlockType, end: usize) -> Option<PackedInstr>
    ensures { IfSome result (λ p. unpacked p ≡ flat.Block kind block end) }
{
    let block = short_block_type(block)?;
    let end = u32::try_from(end).ok()?;
    Some(PackedInstr::Block(kind, block, end))
}

fn short_if(block: BlockType, other: Option<usize>, end: usize) -> Option<PackedInstr>
    ensures { IfSome result (λ p. unpacked p ≡ flat.If block other end) }
{
    let block = short_block_type(block)?;
    let end = u32::try_from(end).ok()?;
    match other {
        Some(other) => {
            let other = u32::try_from(other).ok()?;
            Some(PackedInstr::IfElse(block, other, end))
        }
        None => Some(PackedInstr::If(block, end)),
    }
}

// The instruction without a box, where it is short.
fn short(instr: &Instr) -> Option<PackedInstr>
    ensures { IfSome result (λ p. unpacked p ≡ instr.now) }
{
    match instr {
        Instr::Plain(op) => short_op(op),
        Instr::Block(kind, block, end) => short_block(*kind, *block, *end),
        Instr::If(block, other, end) => short_if(*block, *other, *end),
        Instr::Else => Some(PackedInstr::Else),
        Instr::End => Some(PackedInstr::End),
    }
}

impl AbstractHeapType {
    ghost use Rattle.std.specs.Prelude.{◌≡◌};
    ghost use Rattle.w_syntax.specs.Packed.{heap_of};

    /// The heap type.
    pub fn whole(self) -> HeapType
        ensures { result ≡ heap_of self }
    {
        match self {
            AbstractHeapType::Func => HeapType::Func,
            AbstractHeapType::NoFunc => HeapType::NoFunc,
            AbstractHeapType::Cont => HeapType::Cont,
            AbstractHeapType::NoCont => HeapType::NoCont,
        }
    }
}

impl ShortBlockType {
    ghost use Rattle.std.specs.Prelude.{◌≡◌};
    ghost use Rattle.w_syntax.specs.Packed.{block_type_of};

    /// The type of the block.
    pub fn whole(self) -> BlockType
        ensures { result ≡ block_type_of self }
    {
        match self {
            ShortBlockType::Empty => BlockType::Empty,
            ShortBlockType::I32 => BlockType::Value(PackedType::I32),
            ShortBlockType::I64 => BlockType::Value(PackedType::I64),
            ShortBlockType::Ref(nullable, heap) => {
                let heap = heap.whole();
                BlockType::Value(PackedType::reference(RefType { nullable, heap }))
            }
            ShortBlockType::RefTo(nullable, index) => {
                let heap = HeapType::Index(u32::from(index));
                BlockType::Value(PackedType::reference(RefType { nullable, heap }))
            }
            ShortBlockType::Index(index) => BlockType::Index(u32::from(index)),
        }
    }
}

impl ShortControlOp {
    ghost use Rattle.std.specs.Prelude.{◌≡◌};
    ghost use Rattle.w_syntax.specs.Packed.{control_of};

    /// The instruction.
    pub fn whole(self) -> ControlOp
        ensures { result ≡ control_of self }
    {
        match self {
            ShortControlOp::Unreachable => ControlOp::Unreachable,
            ShortControlOp::Nop => ControlOp::Nop,
            ShortControlOp::Br(label) => ControlOp::Br(label),
            ShortControlOp::BrIf(label) => ControlOp::BrIf(label),
            ShortControlOp::Return => ControlOp::Return,
            ShortControlOp::BrOnNull(label) => ControlOp::BrOnNull(label),
            ShortControlOp::BrOnNonNull(label) => ControlOp::BrOnNonNull(label),
            ShortControlOp::Call(function) => ControlOp::Call(function),
            ShortControlOp::CallIndirect(kind, table) => ControlOp::CallIndirect(kind, table),
            ShortControlOp::CallRef(kind) => ControlOp::CallRef(kind),
            ShortControlOp::ReturnCall(function) => ControlOp::ReturnCall(function),
            ShortControlOp::ReturnCallIndirect(kind, table) => {
                ControlOp::ReturnCallIndirect(kind, table)
            }
            ShortControlOp::ReturnCallRef(kind) => ControlOp::ReturnCallRef(kind),
        }
    }
}

impl ShortMemoryOp {
    ghost use Rattle.std.specs.Prelude.{◌≡◌};
    ghost use Rattle.w_syntax.specs.Packed.{memory_of};

    /// The instruction.
    pub fn whole(self) -> MemoryOp
        ensures { result ≡ memory_of self }
    {
        match self {
            ShortMemoryOp::Size(memory) => MemoryOp::Size(memory),
            ShortMemoryOp::Grow(memory) => MemoryOp::Grow(memory),
            ShortMemoryOp::Init(segment, memory) => MemoryOp::Init(segment, memory),
            ShortMemoryOp::DataDrop(segment) => MemoryOp::DataDrop(segment),
            ShortMemoryOp::Copy(to, from) => MemoryOp::Copy(to, from),
            ShortMemoryOp::Fill(memory) => MemoryOp::Fill(memory),
        }
    }
}

impl ShortSwitchingOp {
    ghost use Rattle.std.specs.Prelude.{◌≡◌};
    ghost use Rattle.w_syntax.specs.Packed.{switching_of};

    /// The instruction.
    pub fn whole(self) -> SwitchingOp
        ensures { result ≡ switching_of self }
    {
        match self {
            ShortSwitchingOp::ContNew(kind) => SwitchingOp::ContNew(kind),
            ShortSwitchingOp::ContBind(from, to) => SwitchingOp::ContBind(from, to),
            ShortSwitchingOp::Suspend(tag) => SwitchingOp::Suspend(tag),
            ShortSwitchingOp::Switch(kind, tag) => SwitchingOp::Switch(kind, tag),
        }
    }
}

fn made(op: Op) -> InstrView<'static>
    ensures { seen result ≡ flat.Plain op }
{
    InstrView::Made(Instr::Plain(op))
}

impl PackedInstr {
    ghost use Rattle.std.specs.Prelude.{◌≡◌, IfOk};
    ghost use Rattle.w_syntax.specs.Packed.{unpacked, seen};

    /// This instruction. It fails only for want of memory.
    pub fn new(alloc: Global, instr: Instr) -> Result<PackedInstr, AllocError>
        ensures { IfOk result (λ p. unpacked p ≡ instr) }
    {
        match short(&instr) {
            Some(packed) => Ok(packed),
            None => Ok(PackedInstr::Boxed(Box::new(alloc, instr)?)),
        }
    }

    /// A numeric instruction.
    pub fn numeric(numeric: NumericOp) -> PackedInstr
        ensures { unpacked result ≡ flat.Plain (op.Numeric numeric) }
    {
        packed_numeric(numeric)
    }

    /// A memory instruction.
    pub fn memory(memory: MemoryOp) -> PackedInstr
        ensures { unpacked result ≡ flat.Plain (op.Memory memory) }
    {
        packed_memory(memory)
    }

    /// The instruction.
    pub fn view(&self) -> InstrView<'_>
        ensures { seen result ≡ unpacked self.now }
    {
        match self {
            PackedInstr::Control(op) => made(Op::Control(op.whole())),
            PackedInstr::Drop => made(Op::Parametric(ParametricOp::Drop)),
            PackedInstr::Select => made(Op::Parametric(ParametricOp::Select)),
            PackedInstr::Variable(op) => made(Op::Variable(*op)),
            PackedInstr::Table(op) => made(Op::Table(*op)),
            PackedInstr::Load(load, align, memory, offset) => {
                let argument = MemArg {
                    align: *align,
                    memory: *memory,
                    offset: *offset,
                };
                made(Op::Memory(MemoryOp::Load(*load, argument)))
            }
            PackedInstr::Store(store, align, memory, offset) => {
                let argument = MemArg {
                    align: *align,
                    memory: *memory,
                    offset: *offset,
                };
                made(Op::Memory(MemoryOp::Store(*store, argument)))
            }
            PackedInstr::Memory(op) => made(Op::Memory(op.whole())),
            PackedInstr::I32Const(number) => made(Op::Numeric(NumericOp::I32Const(*number))),
            PackedInstr::I64Const(number) => made(Op::Numeric(NumericOp::I64Const(*number))),
            PackedInstr::Eqz(kind) => made(Op::Numeric(NumericOp::Eqz(*kind))),
            PackedInstr::Compare(kind, op) => made(Op::Numeric(NumericOp::Compare(*kind, *op))),
            PackedInstr::Unary(kind, op) => made(Op::Numeric(NumericOp::Unary(*kind, *op))),
            PackedInstr::Binary(kind, op) => made(Op::Numeric(NumericOp::Binary(*kind, *op))),
            PackedInstr::Convert(op) => made(Op::Numeric(NumericOp::Convert(*op))),
            PackedInstr::Reference(op) => made(Op::Reference(*op)),
            PackedInstr::Switching(op) => made(Op::Switching(op.whole())),
            PackedInstr::Block(kind, block, end) => {
                InstrView::Made(Instr::Block(*kind, block.whole(), *end as usize))
            }
            PackedInstr::If(block, end) => {
                InstrView::Made(Instr::If(block.whole(), None, *end as usize))
            }
            PackedInstr::IfElse(block, other, end) => {
                let other = Some(*other as usize);
                InstrView::Made(Instr::If(block.whole(), other, *end as usize))
            }
            PackedInstr::Else => InstrView::Made(Instr::Else),
            PackedInstr::End => InstrView::Made(Instr::End),
            PackedInstr::Boxed(instr) => InstrView::Standing(instr),
        }
    }
}

impl<'a> InstrView<'a> {
    ghost use Rattle.std.specs.Prelude.{◌≡◌};
    ghost use Rattle.w_syntax.specs.Packed.{seen};

    /// The instruction itself.
    pub fn instr(&self) -> &Instr
        ensures { result.now ≡ seen self.now }
    {
        match self {
            InstrView::Made(instr) => instr,
            InstrView::Standing(instr) => instr,
        }
    }
}
