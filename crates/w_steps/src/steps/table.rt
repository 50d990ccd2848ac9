//! Table instructions.
ghost use Rattle.std.specs.Prelude.{◌≡◌, IfOk, slice_get};
ghost use Rattle.w_flow.specs.Flow.{step};
ghost use Rattle.w_flow.specs.View.{flow_view, flow_if, HasWords};
ghost use Rattle.w_rules.specs.InstructionTypes.{table_op_type, table_init_type, table_copy_type, table_grow_type, table_fill_type};
ghost use Rattle.w_rules.specs.View.{context_in};
ghost use Rattle.w_steps.specs.PlainTests.{init_test, copy_test, table_test};
ghost use Rattle.w_steps.specs.View.{gated};

use std::alloc::AllocError;
use w_flow::Flow;
use w_rules::Context;
use w_syntax::TableOp;
use w_types::PackedType;

// What copies so many elements from a place to a place takes.
const THREE: [PackedType; 3] = [PackedType::I32, PackedType::I32, PackedType::I32];

// A copy of an element segment into a table.
fn init_step(cx: &Context, flow: &mut Flow, segment: u32, table: u32) -> Result<bool, AllocError>
    ensures steps { let c = context_in cx.now in IfOk result
        (λ applies. gated (init_test cx.now.classes.now (slice_get c.elements segment)
        (slice_get c.tables table))
        (step cx.now.classes.now (table_init_type (slice_get c.elements segment)
        (slice_get c.tables table)) (flow_view flow.old).any (flow_view flow.old).operands)
        ≡ flow_if applies flow.new) }
    ensures words { HasWords cx.now.classes.now flow.old → HasWords cx.now.classes.now flow.new }
{
    let Some(element) = cx.element(segment) else {
        return Ok(false);
    };
    let Some(table) = cx.table(table) else {
        return Ok(false);
    };
    if !cx.classes.matches_ref(element, table.element) {
        return Ok(false);
    }
    flow.turns_few(cx.classes, &THREE, &[])
}

// A copy of a part of a table into a table.
fn copy_step(cx: &Context, flow: &mut Flow, to: u32, from: u32) -> Result<bool, AllocError>
    ensures steps { let c = context_in cx.now in IfOk result
        (λ applies. gated (copy_test cx.now.classes.now (slice_get c.tables to)
        (slice_get c.tables from))
        (step cx.now.classes.now (table_copy_type (slice_get c.tables to) (slice_get c.tables from))
        (flow_view flow.old).any (flow_view flow.old).operands) ≡ flow_if applies flow.new) }
    ensures words { HasWords cx.now.classes.now flow.old → HasWords cx.now.classes.now flow.new }
{
    let Some(to) = cx.table(to) else {
        return Ok(false);
    };
    let Some(from) = cx.table(from) else {
        return Ok(false);
    };
    if !cx.classes.matches_ref(from.element, to.element) {
        return Ok(false);
    }
    flow.turns_few(cx.classes, &THREE, &[])
}

// The growth of a table.
fn grow_step(cx: &Context, flow: &mut Flow, index: u32) -> Result<bool, AllocError>
    ensures steps { IfOk result (λ applies. step cx.now.classes.now (table_grow_type (slice_get
        (context_in cx.now).tables index)) (flow_view flow.old).any (flow_view flow.old).operands
        ≡ flow_if applies flow.new) }
    ensures words { HasWords cx.now.classes.now flow.old → HasWords cx.now.classes.now flow.new }
{
    match cx.table(index) {
        Some(table) => {
            let applies = [PackedType::reference(table.element), PackedType::I32];
            flow.turns_few(cx.classes, &applies, &[PackedType::I32])
        }
        None => Ok(false),
    }
}

// The filling of a part of a table.
fn fill_step(cx: &Context, flow: &mut Flow, index: u32) -> Result<bool, AllocError>
    ensures steps { IfOk result (λ applies. step cx.now.classes.now (table_fill_type (slice_get
        (context_in cx.now).tables index)) (flow_view flow.old).any (flow_view flow.old).operands
        ≡ flow_if applies flow.new) }
    ensures words { HasWords cx.now.classes.now flow.old → HasWords cx.now.classes.now flow.new }
{
    match cx.table(index) {
        Some(table) => {
            let applies = [
                PackedType::I32,
                PackedType::reference(table.element),
                PackedType::I32,
            ];
            flow.turns_few(cx.classes, &applies, &[])
        }
        None => Ok(false),
    }
}

/// A table instruction.
pub(crate) fn table_step(cx: &Context, flow: &mut Flow, op: TableOp) -> Result<bool, AllocError>
    ensures steps { IfOk result (λ applies. gated (table_test cx.now.classes.now (context_in cx.now) op)
        (step cx.now.classes.now (table_op_type (context_in cx.now) op) (flow_view flow.old).any
        (flow_view flow.old).operands) ≡ flow_if applies flow.new) }
    ensures words { HasWords cx.now.classes.now flow.old → HasWords cx.now.classes.now flow.new }
{
    let classes = cx.classes;
    match op {
        TableOp::Get(index) => match cx.table(index) {
            Some(table) => flow.turns(
                classes,
                PackedType::I32,
                PackedType::reference(table.element),
            ),
            None => Ok(false),
        },
        TableOp::Set(index) => match cx.table(index) {
            Some(table) => Ok(flow.takes_two(
                classes,
                PackedType::I32,
                PackedType::reference(table.element),
            )),
            None => Ok(false),
        },
        TableOp::Init(segment, table) => init_step(cx, flow, segment, table),
        TableOp::ElemDrop(segment) => match cx.element(segment) {
            Some(_) => flow.turns_few(classes, &[], &[]),
            None => Ok(false),
        },
        TableOp::Copy(to, from) => copy_step(cx, flow, to, from),
        TableOp::Grow(index) => grow_step(cx, flow, index),
        TableOp::Size(index) => match cx.table(index) {
            Some(_) => flow.gives(classes, PackedType::I32),
            None => Ok(false),
        },
        TableOp::Fill(index) => fill_step(cx, flow, index),
    }
}
