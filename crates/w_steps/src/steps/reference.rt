//! Reference instructions.
ghost use Rattle.std.specs.Prelude.{◌≡◌, IfOk, slice_get};
ghost use Rattle.w_flow.specs.Flow.{step};
ghost use Rattle.w_flow.specs.View.{flow_view, flow_if, HasWords};
ghost use Rattle.w_rules.specs.InstructionTypes.{ref_func_type, reference_op_type};
ghost use Rattle.w_rules.specs.View.{context_in};
ghost use Rattle.w_locals.specs.Locals.{gives_type};

use crate::steps::if_valid::fixed_if_valid;
use std::alloc::AllocError;
use w_flow::Flow;
use w_rules::Context;
use w_syntax::ReferenceOp;
use w_types::{HeapType, PackedType, RefType};

// The type of a reference to a function that is declared.
fn function_reference(cx: &Context, function: u32) -> Option<PackedType>
    ensures { ref_func_type (slice_get (context_in cx.now).functions function) (slice_get
        (context_in cx.now).declared function) ≡ gives_type result }
{
    let index = cx.function(function)?;
    if *cx.declared.get(function as usize)? {
        Some(PackedType::reference(RefType {
            nullable: false,
            heap: HeapType::Index(index),
        }))
    } else {
        None
    }
}

/// A reference instruction.
pub(crate) fn reference_step(
    cx: &Context,
    flow: &mut Flow,
    op: ReferenceOp,
) -> Result<bool, AllocError>
    ensures steps { IfOk result (λ applies. step cx.now.classes.now (reference_op_type
        (context_in cx.now) op) (flow_view flow.old).any (flow_view flow.old).operands
        ≡ flow_if applies flow.new) }
    ensures words { HasWords cx.now.classes.now flow.old → HasWords cx.now.classes.now flow.new }
{
    match op {
        ReferenceOp::Null(heap) => {
            let null = PackedType::reference(RefType {
                nullable: true,
                heap,
            });
            fixed_if_valid(cx.classes, flow, cx.has_heap(heap), &[], &[null])
        }
        ReferenceOp::IsNull => flow.tests_null(),
        ReferenceOp::Func(function) => match function_reference(cx, function) {
            Some(kind) => flow.gives(cx.classes, kind),
            None => Ok(false),
        },
        ReferenceOp::AsNonNull => flow.as_non_null(cx.classes),
    }
}
