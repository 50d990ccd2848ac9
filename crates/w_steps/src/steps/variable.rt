//! Variable instructions.
ghost use Rattle.std.specs.Prelude.{◌≡◌, [], IfOk, OnOk, IsTrue, slice_get, slice_set, true};
ghost use Rattle.lists.specs.Rows.{ε, ◌▹◌};
ghost use Rattle.w_flow.specs.Flow.{step};
ghost use Rattle.w_flow.specs.View.{flow_view, flow_if, HasWords};
ghost use Rattle.w_rules.specs.InstructionTypes.{global_set_type, variable_op_type};
ghost use Rattle.w_syntax.specs.declared.instructions.Op.TheVariants as plain;
ghost use Rattle.w_locals.specs.Locals.{first_set, outer_sets};
ghost use Rattle.w_steps.specs.Stepping.{SetsBy};
ghost use Rattle.w_rules.specs.Spaces.{in_body};
ghost use Rattle.w_rules.specs.View.{context_in};
ghost use Rattle.w_steps.specs.View.{takes_type};

use std::alloc::AllocError;
use w_flow::Flow;
use w_locals::Locals;
use w_rules::Context;
use w_syntax::{Mutability, VariableOp};
use w_types::PackedType;

// The type of a global that may be written.
fn variable_global(cx: &Context, global: u32) -> Option<PackedType>
    ensures { global_set_type (slice_get cx.now.globals.now global) ≡ takes_type result }
{
    let found = cx.global(global)?;
    match found.mutability {
        Mutability::Var => Some(found.kind),
        Mutability::Const => None,
    }
}

// Sets a local where the instruction applies.
#[tactic(auto, using(crate::proofs::LocalsSet::set_now, crate::proofs::LocalsSet::set_around))]
#[inline(always)]
fn set_if(locals: &mut Locals, local: u32, applies: bool) -> Result<bool, AllocError>
    ensures answer { IfOk result (λ answer. answer ≡ applies) }
    ensures types { locals.new.types ≡ locals.old.types }
    ensures sets { IfOk result (λ answer. IsTrue answer → first_set locals.new.sets
        ≡ slice_set (first_set locals.old.sets) local true) }
    ensures outer { OnOk result (outer_sets locals.new.sets ≡ outer_sets locals.old.sets) }
{
    if applies {
        locals.set(local)?;
    }
    Ok(applies)
}

/// A variable instruction, which may set a local.
#[inline(always)]
pub(crate) fn variable_step(
    cx: &Context,
    locals: &mut Locals,
    flow: &mut Flow,
    op: VariableOp,
) -> Result<bool, AllocError>
    ensures steps { IfOk result (λ applies. step cx.now.classes.now (variable_op_type
        (in_body (context_in cx.now) locals.old.types []) (first_set locals.old.sets) op)
        (flow_view flow.old).any (flow_view flow.old).operands ≡ flow_if applies flow.new) }
    ensures types { locals.new.types ≡ locals.old.types }
    ensures sets { IfOk result (λ applies. IsTrue applies
        → SetsBy (plain.Variable op) locals.old locals.new) }
    ensures outer { OnOk result (outer_sets locals.new.sets ≡ outer_sets locals.old.sets) }
    ensures words { HasWords cx.now.classes.now flow.old → HasWords cx.now.classes.now flow.new }
{
    let classes = cx.classes;
    match op {
        VariableOp::LocalGet(local) => match locals.get_set(local) {
            Some(kind) => flow.gives(classes, kind),
            None => Ok(false),
        },
        VariableOp::LocalSet(local) => match locals.get(local) {
            Some(kind) => {
                let applies = flow.takes(classes, kind);
                set_if(locals, local, applies)
            }
            None => Ok(false),
        },
        VariableOp::LocalTee(local) => match locals.get(local) {
            Some(kind) => {
                let applies = flow.turns(classes, kind, kind)?;
                set_if(locals, local, applies)
            }
            None => Ok(false),
        },
        VariableOp::GlobalGet(global) => match cx.global(global) {
            Some(found) => flow.gives(classes, found.kind),
            None => Ok(false),
        },
        VariableOp::GlobalSet(global) => match variable_global(cx, global) {
            Some(kind) => Ok(flow.takes(classes, kind)),
            None => Ok(false),
        },
    }
}
