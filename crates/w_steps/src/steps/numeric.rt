//! Numeric instructions.
ghost use Rattle.std.specs.Prelude.{◌≡◌, IfOk};
ghost use Rattle.lists.specs.Rows.{ε, ◌▹◌};
ghost use Rattle.w_flow.specs.Flow.{step};
ghost use Rattle.w_flow.specs.View.{flow_view, flow_if, HasWords};
ghost use Rattle.w_rules.specs.InstructionTypes.{fixed, of_int as the_type, convert_type, numeric_op_type};

use std::alloc::AllocError;
use w_canon::Classes;
use w_flow::Flow;
use w_syntax::{Cvtop, IntType, NumericOp};
use w_types::PackedType;

/// The type of integers of a size.
pub(crate) fn of_int(kind: IntType) -> PackedType
    ensures { result ≡ the_type kind }
{
    match kind {
        IntType::I32 => PackedType::I32,
        IntType::I64 => PackedType::I64,
    }
}

// What a conversion takes and gives.
fn converted(convert: Cvtop) -> (PackedType, PackedType)
    ensures { convert_type convert ≡ fixed (ε ▹ result.0) (ε ▹ result.1) }
{
    match convert {
        Cvtop::I32WrapI64 => (PackedType::I64, PackedType::I32),
        Cvtop::I64ExtendI32S | Cvtop::I64ExtendI32U => (PackedType::I32, PackedType::I64),
        Cvtop::I32Extend8S | Cvtop::I32Extend16S => (PackedType::I32, PackedType::I32),
        Cvtop::I64Extend8S | Cvtop::I64Extend16S | Cvtop::I64Extend32S => {
            (PackedType::I64, PackedType::I64)
        }
    }
}

/// A numeric instruction.
pub(crate) fn numeric_step(
    classes: &Classes,
    flow: &mut Flow,
    op: NumericOp,
) -> Result<bool, AllocError>
    ensures steps { IfOk result (λ applies. step classes.now (numeric_op_type op) (flow_view flow.old).any
        (flow_view flow.old).operands ≡ flow_if applies flow.new) }
    ensures words { HasWords classes.now flow.old → HasWords classes.now flow.new }
{
    match op {
        NumericOp::I32Const(_) => flow.gives(classes, PackedType::I32),
        NumericOp::I64Const(_) => flow.gives(classes, PackedType::I64),
        NumericOp::Eqz(kind) => flow.turns(classes, of_int(kind), PackedType::I32),
        NumericOp::Compare(kind, _) => flow.joins(classes, of_int(kind), PackedType::I32),
        NumericOp::Unary(kind, _) => flow.turns(classes, of_int(kind), of_int(kind)),
        NumericOp::Binary(kind, _) => flow.joins(classes, of_int(kind), of_int(kind)),
        NumericOp::Convert(convert) => {
            let (from, to) = converted(convert);
            flow.turns(classes, from, to)
        }
    }
}
