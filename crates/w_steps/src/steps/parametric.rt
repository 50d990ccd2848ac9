//! Parametric instructions.
ghost use Rattle.std.specs.Prelude.{◌≡◌, IfOk};
ghost use Rattle.w_flow.specs.Flow.{step};
ghost use Rattle.w_flow.specs.View.{flow_view, flow_if, HasWords};
ghost use Rattle.w_rules.specs.InstructionTypes.{select_type, parametric_op_type};
ghost use Rattle.w_rules.specs.View.{context_in};

use crate::steps::if_valid::fixed_if_valid;
use std::alloc::AllocError;
use w_flow::Flow;
use w_rules::Context;
use w_syntax::ParametricOp;
use w_types::PackedType;

// A select with the types that it names.
fn select_step(cx: &Context, flow: &mut Flow, types: &[PackedType]) -> Result<bool, AllocError>
    ensures steps { IfOk result (λ applies. step cx.now.classes.now (select_type
        (context_in cx.now) types.now) (flow_view flow.old).any (flow_view flow.old).operands
        ≡ flow_if applies flow.new) }
    ensures words { HasWords cx.now.classes.now flow.old → HasWords cx.now.classes.now flow.new }
{
    match types {
        [kind] => fixed_if_valid(
            cx.classes,
            flow,
            cx.has_type(*kind),
            &[*kind, *kind, PackedType::I32],
            &[*kind],
        ),
        _ => Ok(false),
    }
}

/// A parametric instruction.
pub(crate) fn parametric_step(
    cx: &Context,
    flow: &mut Flow,
    op: &ParametricOp,
) -> Result<bool, AllocError>
    ensures steps { IfOk result (λ applies. step cx.now.classes.now (parametric_op_type
        (context_in cx.now) op.now) (flow_view flow.old).any (flow_view flow.old).operands
        ≡ flow_if applies flow.new) }
    ensures words { HasWords cx.now.classes.now flow.old → HasWords cx.now.classes.now flow.new }
{
    match op {
        ParametricOp::Drop => Ok(flow.drops()),
        ParametricOp::Select => flow.selects(cx.classes),
        ParametricOp::SelectOf(types) => select_step(cx, flow, types.as_slice()),
    }
}
