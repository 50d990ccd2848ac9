//! What instructions do to the operands.
ghost use Rattle.std.specs.Prelude.{◌≡◌, ◌∷◌, IfOk, IfSome, IfNone, IsFalse, IsTrue, List, OnOk};
ghost use Rattle.w_flow.specs.Flow.{step};
ghost use Rattle.w_flow.specs.View.{flow_view, flow_if, HasWords};
ghost use Rattle.w_rules.specs.InstructionTypes.{instr_type};
ghost use Rattle.w_locals.specs.Locals.{LocalState, outer_sets};
ghost use Rattle.w_types.specs.declared.types.ValType.{ValType};
ghost use Rattle.w_steps.specs.declared.frame_kind.FrameKind.{FrameKind};
ghost use Rattle.w_steps.specs.PlainTests.{plain_test};
ghost use Rattle.w_syntax.specs.Packed.{OnPlain, unpacked};
ghost use Rattle.w_steps.specs.Stepping.{StepsTo, SetsBy, PackedSteps, PackedSets, is_rare, is_variable};
ghost use Rattle.w_steps.specs.View.{outer_kinds};
ghost use Rattle.w_steps.specs.View.{context_at, gated};

mod control;
mod if_valid;
mod memory;
mod numeric;
mod parametric;
mod reference;
mod table;
mod variable;

use crate::body_context::BodyContext;
use crate::frame::Frame;
use crate::frame_kind::FrameKind;
use crate::setting::Setting;
use control::control_step;
use memory::{load_step, memory_step, store_step};
use numeric::{numeric_step, of_int};
use parametric::parametric_step;
use reference::reference_step;
use std::alloc::AllocError;
use table::table_step;
use variable::variable_step;
use w_flow::Flow;
use w_locals::Locals;
use w_rules::Context;
use w_syntax::{Instr, NumericOp, Op, PackedInstr};
use w_types::PackedType;

// An instruction that holds no others and does not switch stacks.
fn plain_step(
    setting: &Setting,
    locals: &mut Locals,
    kind: &FrameKind,
    outer: &[Frame],
    flow: &mut Flow,
    op: &Op,
) -> Result<bool, AllocError>
    requires { HasWords setting.now.cx.now.classes.now flow.old }
    ensures steps { IfOk result (λ applies. StepsTo setting.now.cx.now locals.old setting.now.results.types.now (kind.now
        ∷ outer_kinds outer.now) op.now flow.old flow.new applies) }
    ensures types { locals.new.types ≡ locals.old.types }
    ensures sets { IfOk result (λ applies. IsTrue applies → SetsBy op.now locals.old locals.new) }
    ensures outer { OnOk result (outer_sets locals.new.sets ≡ outer_sets locals.old.sets) }
    ensures words { HasWords setting.now.cx.now.classes.now flow.new }
{
    let cx = setting.cx;
    match op {
        Op::Control(op) => {
            let body = BodyContext {
                setting,
                locals,
                kind,
                outer,
            };
            control_step(&body, flow, op)
        }
        Op::Parametric(op) => parametric_step(cx, flow, op),
        Op::Variable(op) => variable_step(cx, locals, flow, *op),
        Op::Table(op) => table_step(cx, flow, *op),
        Op::Memory(op) => memory_step(cx, flow, *op),
        Op::Numeric(op) => numeric_step(cx.classes, flow, *op),
        Op::Reference(op) => reference_step(cx, flow, *op),
        // it has no test here
        Op::Switching(_) => Ok(false),
    }
}

// A common instruction but those on variables; `None`, and nothing is done, where it is none.
#[inline(always)]
fn common_step(
    cx: &Context,
    flow: &mut Flow,
    packed: &PackedInstr,
) -> Option<Result<bool, AllocError>>
    requires { IsFalse (is_variable packed.now) }
    ensures steps { (locals : LocalState) (results : List ValType) (ks : List FrameKind)
        → IfSome result (λ stepped. IfOk stepped (λ applies. PackedSteps cx.now locals results ks packed.now
        flow.old flow.new applies)) }
    ensures unset { (locals : LocalState) → IfSome result (λ _. PackedSets packed.now locals locals) }
    ensures rare { IfNone result (IsTrue (is_rare packed.now)) }
    ensures nothing { IfNone result (flow.new ≡ flow.old) }
    ensures words { HasWords cx.now.classes.now flow.old → HasWords cx.now.classes.now flow.new }
{
    match packed {
        PackedInstr::I32Const(_) => Some(flow.gives(cx.classes, PackedType::I32)),
        PackedInstr::I64Const(_) => Some(flow.gives(cx.classes, PackedType::I64)),
        PackedInstr::Eqz(kind) => Some(flow.turns(cx.classes, of_int(*kind), PackedType::I32)),
        PackedInstr::Compare(kind, _) => Some(flow.joins(
            cx.classes,
            of_int(*kind),
            PackedType::I32,
        )),
        PackedInstr::Unary(kind, _) => Some(flow.turns(cx.classes, of_int(*kind), of_int(*kind))),
        PackedInstr::Binary(kind, _) => Some(flow.joins(cx.classes, of_int(*kind), of_int(*kind))),
        PackedInstr::Drop => Some(Ok(flow.drops())),
        PackedInstr::Load(load, align, memory, offset) => {
            Some(load_step(cx, flow, *load, *align, *memory, *offset))
        }
        PackedInstr::Store(store, align, memory, offset) => {
            Some(Ok(store_step(cx, flow, *store, *align, *memory, *offset)))
        }
        _ => None,
    }
}

// Another instruction, where it holds no others and does not switch stacks.
#[inline(never)]
fn rare_step(
    setting: &Setting,
    locals: &mut Locals,
    kind: &FrameKind,
    outer: &[Frame],
    flow: &mut Flow,
    packed: &PackedInstr,
) -> Result<bool, AllocError>
    requires rare { IsTrue (is_rare packed.now) }
    requires words { HasWords setting.now.cx.now.classes.now flow.old }
    ensures steps { IfOk result (λ applies. PackedSteps setting.now.cx.now locals.old setting.now.results.types.now (kind.now
        ∷ outer_kinds outer.now) packed.now flow.old flow.new applies) }
    ensures types { locals.new.types ≡ locals.old.types }
    ensures sets { IfOk result (λ applies. IsTrue applies
        → PackedSets packed.now locals.old locals.new) }
    ensures outer { OnOk result (outer_sets locals.new.sets ≡ outer_sets locals.old.sets) }
    ensures words { HasWords setting.now.cx.now.classes.now flow.new }
{
    let cx = setting.cx;
    match packed {
        PackedInstr::Convert(op) => numeric_step(cx.classes, flow, NumericOp::Convert(*op)),
        PackedInstr::Memory(op) => memory_step(cx, flow, op.whole()),
        PackedInstr::Control(op) => {
            let body = BodyContext {
                setting,
                locals,
                kind,
                outer,
            };
            control_step(&body, flow, &op.whole())
        }
        PackedInstr::Select => flow.selects(cx.classes),
        PackedInstr::Table(op) => table_step(cx, flow, *op),
        PackedInstr::Reference(op) => reference_step(cx, flow, *op),
        PackedInstr::Boxed(instr) => match &**instr {
            Instr::Plain(op) => plain_step(setting, locals, kind, outer, flow, op),
            _ => Ok(false),
        },
        // switching has no test here, and the others are not plain
        _ => Ok(false),
    }
}

/// An instruction that does not switch stacks, where it holds no others: what it does to the operands of its block, and the local
/// that it sets. Its typing goes by the module, the function's locals and those of them that are set, its results, the innermost
/// block's kind, and the blocks around it.
#[inline(always)]
pub fn packed_step(
    setting: &Setting,
    locals: &mut Locals,
    kind: &FrameKind,
    outer: &[Frame],
    flow: &mut Flow,
    packed: &PackedInstr,
) -> Result<bool, AllocError>
    requires { HasWords setting.now.cx.now.classes.now flow.old }
    ensures steps { IfOk result (λ applies. PackedSteps setting.now.cx.now locals.old setting.now.results.types.now (kind.now
        ∷ outer_kinds outer.now) packed.now flow.old flow.new applies) }
    ensures types { locals.new.types ≡ locals.old.types }
    ensures sets { IfOk result (λ applies. IsTrue applies
        → PackedSets packed.now locals.old locals.new) }
    ensures outer { OnOk result (outer_sets locals.new.sets ≡ outer_sets locals.old.sets) }
    ensures words { HasWords setting.now.cx.now.classes.now flow.new }
{
    let cx = setting.cx;
    match packed {
        PackedInstr::Variable(op) => variable_step(cx, locals, flow, *op),
        _ => match common_step(cx, flow, packed) {
            Some(applies) => applies,
            None => rare_step(setting, locals, kind, outer, flow, packed),
        },
    }
}
