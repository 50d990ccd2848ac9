//! Memory instructions.
ghost use Rattle.std.specs.Prelude.{◌≡◌, ◌&&◌, IfOk, nat_lt};
ghost use Rattle.lists.specs.Rows.{ε, ◌▹◌};
ghost use Rattle.w_types.specs.declared.types.ValType.TheVariants as val;
ghost use Rattle.w_syntax.specs.declared.memory_instructions.MemoryOp.TheVariants as op;
ghost use Rattle.w_flow.specs.Flow.{step};
ghost use Rattle.w_flow.specs.View.{flow_view, flow_if, HasWords};
ghost use Rattle.w_rules.specs.InstructionTypes.{load_type as the_load_type, load_width as the_load_width, store_type as the_store_type, store_width as the_store_width, is_access as the_access, fixed, has_memory, if_valid, memory_op_type};
ghost use Rattle.w_rules.specs.View.{context_in};

use crate::steps::if_valid::{fixed_if_valid, gives_if_valid, takes_two_if_valid, turns_if_valid};
use std::alloc::AllocError;
use w_canon::Classes;
use w_flow::Flow;
use w_rules::Context;
use w_syntax::{LoadOp, MemoryOp, StoreOp};
use w_types::PackedType;

fn load_type(load: LoadOp) -> PackedType
    ensures { result ≡ the_load_type load }
{
    match load {
        LoadOp::I32Load
        | LoadOp::I32Load8S
        | LoadOp::I32Load8U
        | LoadOp::I32Load16S
        | LoadOp::I32Load16U => PackedType::I32,
        LoadOp::I64Load
        | LoadOp::I64Load8S
        | LoadOp::I64Load8U
        | LoadOp::I64Load16S
        | LoadOp::I64Load16U
        | LoadOp::I64Load32S
        | LoadOp::I64Load32U => PackedType::I64,
    }
}

// How many bytes a load reads, as a power of two. Out of line it is looked up, where a jump would be guessed.
#[inline(never)]
fn load_width(load: LoadOp) -> u32
    ensures { result ≡ the_load_width load }
{
    match load {
        LoadOp::I32Load8S | LoadOp::I32Load8U | LoadOp::I64Load8S | LoadOp::I64Load8U => 0,
        LoadOp::I32Load16S | LoadOp::I32Load16U | LoadOp::I64Load16S | LoadOp::I64Load16U => 1,
        LoadOp::I32Load | LoadOp::I64Load32S | LoadOp::I64Load32U => 2,
        LoadOp::I64Load => 3,
    }
}

fn store_type(store: StoreOp) -> PackedType
    ensures { result ≡ the_store_type store }
{
    match store {
        StoreOp::I32Store | StoreOp::I32Store8 | StoreOp::I32Store16 => PackedType::I32,
        StoreOp::I64Store | StoreOp::I64Store8 | StoreOp::I64Store16 | StoreOp::I64Store32 =>
            PackedType::I64,
    }
}

// How many bytes a store writes, as a power of two.
#[inline(never)]
fn store_width(store: StoreOp) -> u32
    ensures { result ≡ the_store_width store }
{
    match store {
        StoreOp::I32Store8 | StoreOp::I64Store8 => 0,
        StoreOp::I32Store16 | StoreOp::I64Store16 => 1,
        StoreOp::I32Store | StoreOp::I64Store32 => 2,
        StoreOp::I64Store => 3,
    }
}

// Whether an access of this width, as a power of two, is one.
fn is_access(cx: &Context, width: u32, align: u8, memory: u32, offset: u64) -> bool
    ensures { result ≡ the_access (context_in cx.now) width (record { align = align; memory = memory; offset = offset }) }
{
    cx.has_memory(memory) && (u32::from(align) <= width && offset < 1 << 32)
}

// Whether a copy of a data segment into a memory has both.
fn is_init(cx: &Context, segment: u32, memory: u32) -> bool
    ensures { result ≡ (has_memory (context_in cx.now) memory && nat_lt segment (context_in cx.now).datas) }
{
    cx.has_memory(memory) && cx.has_data(segment)
}

// Whether a copy of a part of a memory into a memory has both.
fn is_copy(cx: &Context, to: u32, from: u32) -> bool
    ensures { result ≡ (has_memory (context_in cx.now) to && has_memory (context_in cx.now) from) }
{
    cx.has_memory(to) && cx.has_memory(from)
}

// Takes a place, a second one or a byte, and a length, where the test holds.
fn takes_three_if_valid(classes: &Classes, flow: &mut Flow, test: bool) -> Result<bool, AllocError>
    ensures steps { IfOk result (λ applies. step classes.now (if_valid test (fixed (ε ▹ val.I32 ▹ val.I32 ▹ val.I32) ε))
        (flow_view flow.old).any (flow_view flow.old).operands ≡ flow_if applies flow.new) }
    ensures words { HasWords classes.now flow.old → HasWords classes.now flow.new }
{
    let three = [PackedType::I32, PackedType::I32, PackedType::I32];
    fixed_if_valid(classes, flow, test, &three, &[])
}

/// A load, with the exponent of the alignment, the memory and the offset.
pub(crate) fn load_step(
    cx: &Context,
    flow: &mut Flow,
    load: LoadOp,
    align: u8,
    memory: u32,
    offset: u64,
) -> Result<bool, AllocError>
    ensures steps { IfOk result (λ applies. step cx.now.classes.now (memory_op_type (context_in cx.now)
        (op.Load load (record { align = align; memory = memory; offset = offset }))) (flow_view flow.old).any
        (flow_view flow.old).operands ≡ flow_if applies flow.new) }
    ensures words { HasWords cx.now.classes.now flow.old → HasWords cx.now.classes.now flow.new }
{
    let access = is_access(cx, load_width(load), align, memory, offset);
    turns_if_valid(cx.classes, flow, access, PackedType::I32, load_type(load))
}

/// A store, with the exponent of the alignment, the memory and the offset.
pub(crate) fn store_step(
    cx: &Context,
    flow: &mut Flow,
    store: StoreOp,
    align: u8,
    memory: u32,
    offset: u64,
) -> bool
    ensures steps { step cx.now.classes.now (memory_op_type (context_in cx.now)
        (op.Store store (record { align = align; memory = memory; offset = offset }))) (flow_view flow.old).any
        (flow_view flow.old).operands ≡ flow_if result flow.new }
    ensures words { HasWords cx.now.classes.now flow.old → HasWords cx.now.classes.now flow.new }
{
    let access = is_access(cx, store_width(store), align, memory, offset);
    takes_two_if_valid(cx.classes, flow, access, PackedType::I32, store_type(store))
}

/// A memory instruction.
pub(crate) fn memory_step(cx: &Context, flow: &mut Flow, op: MemoryOp) -> Result<bool, AllocError>
    ensures steps { IfOk result (λ applies. step cx.now.classes.now (memory_op_type (context_in cx.now) op)
        (flow_view flow.old).any (flow_view flow.old).operands ≡ flow_if applies flow.new) }
    ensures words { HasWords cx.now.classes.now flow.old → HasWords cx.now.classes.now flow.new }
{
    match op {
        MemoryOp::Load(load, argument) => {
            load_step(
                cx,
                flow,
                load,
                argument.align,
                argument.memory,
                argument.offset,
            )
        }
        MemoryOp::Store(store, argument) => {
            Ok(store_step(
                cx,
                flow,
                store,
                argument.align,
                argument.memory,
                argument.offset,
            ))
        }
        MemoryOp::Size(memory) => gives_if_valid(
            cx.classes,
            flow,
            cx.has_memory(memory),
            PackedType::I32,
        ),
        MemoryOp::Grow(memory) => turns_if_valid(
            cx.classes,
            flow,
            cx.has_memory(memory),
            PackedType::I32,
            PackedType::I32,
        ),
        MemoryOp::Init(segment, memory) => {
            takes_three_if_valid(cx.classes, flow, is_init(cx, segment, memory))
        }
        MemoryOp::DataDrop(segment) => {
            fixed_if_valid(cx.classes, flow, cx.has_data(segment), &[], &[])
        }
        MemoryOp::Copy(to, from) => takes_three_if_valid(cx.classes, flow, is_copy(cx, to, from)),
        MemoryOp::Fill(memory) => takes_three_if_valid(cx.classes, flow, cx.has_memory(memory)),
    }
}
