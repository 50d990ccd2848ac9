//! Branches and returns (Core, execution, control instructions: br, br_if, br_table, return).
ghost use Rattle.std.specs.Prelude.{◌≡◌, ◌<◌, Some, length, slice_get};
ghost use Rattle.w_syntax.specs.declared.instructions.Instr.TheVariants as flat;
ghost use Rattle.w_syntax.specs.declared.instructions.Op.TheVariants as op;
ghost use Rattle.w_syntax.specs.declared.instructions.ControlOp.TheVariants as control;
ghost use Rattle.w_segment.specs.Shape.{Target, IsAt, label_at};
ghost use Rattle.w_segment.specs.Changes.{branched, discarded};
ghost use Rattle.w_reduce.specs.Control.{label_in};
ghost use Rattle.w_stands.specs.Keeps.{Keeps};
ghost use Rattle.w_stands.specs.Steps.{MovesAlone, FollowsAlone};
ghost use Rattle.w_stands.specs.declared.did.Did.TheVariants as did;
ghost use Rattle.w_control_ops.specs.Left.{BranchLeft};

use crate::outside::end_outside;
use lists::ListOf;
use w_segment::{Stack, Stage};
use w_stands::{drop_next, i32_of};
use w_syntax::Module;

/// `br` (Core, execution, control instructions: br).
#[inline(always)]
pub fn br(program: &Module, stack: &mut Stack, label: u32)
    requires moves { MovesAlone (flat.Plain (op.Control (control.Br label))) program.now stack.old }
    ensures goes { FollowsAlone did.Went program.now stack.old stack.new }
    ensures keeps { Keeps stack.old stack.new }
{
    let _program = program;
    stack.branch(label);
}

/// The branch that a caught suspend left (stack-switching explainer, suspend): the stack goes on in its body.
#[inline]
pub fn branch_left(program: &Module, stack: &mut Stack, label: u32)
    requires left { BranchLeft label program.now stack.old }
    ensures goes { FollowsAlone did.Went program.now stack.old stack.new }
    ensures keeps { Keeps stack.old stack.new }
{
    let _program = program;
    stack.set_stage(Stage::Body);
    stack.branch(label);
}

// Takes the topmost operand off, and branches with those beneath.
#[inline(always)]
pub(crate) fn drop_and_branch(stack: &mut Stack, label: u32)
    requires some { 0 < length stack.old.operands }
    requires there { IsAt label (discarded 1 stack.old) }
    ensures after { (t : Target) → label_at label stack.old.levels ≡ Some t → stack.new ≡ branched t (discarded 1 stack.old) }
{
    stack.discard(1);
    stack.branch(label);
}

/// `br_if` (Core, execution, control instructions: br_if).
#[inline(always)]
pub fn br_if(program: &Module, stack: &mut Stack, label: u32)
    requires moves { MovesAlone (flat.Plain (op.Control (control.BrIf label))) program.now stack.old }
    ensures goes { FollowsAlone did.Went program.now stack.old stack.new }
    ensures keeps { Keeps stack.old stack.new }
{
    let _program = program;
    if i32_of(stack.peek()) == 0 {
        drop_next(stack, 1)
    } else {
        drop_and_branch(stack, label)
    }
}

// The label that an index chooses, and the last one where there are fewer.
#[inline(always)]
fn label_of(labels: &[u32], index: u32, last: u32) -> u32
    ensures { result ≡ label_in (slice_get labels.now index) last }
{
    match labels.get(index as usize) {
        Some(label) => *label,
        None => last,
    }
}

/// `br_table` (Core, execution, control instructions: br_table).
#[inline(always)]
pub fn br_table(program: &Module, stack: &mut Stack, labels: &ListOf<u32>, last: u32)
    requires moves { MovesAlone (flat.Plain (op.Control (control.BrTable labels.now last))) program.now stack.old }
    ensures goes { FollowsAlone did.Went program.now stack.old stack.new }
    ensures keeps { Keeps stack.old stack.new }
{
    let _program = program;
    let chosen = label_of(labels.as_slice(), i32_of(stack.peek()), last);
    drop_and_branch(stack, chosen);
}

/// `return` (Core, execution, control instructions: return).
#[inline(always)]
pub fn return_(program: &Module, stack: &mut Stack)
    requires moves { MovesAlone (flat.Plain (op.Control control.Return)) program.now stack.old }
    ensures goes { FollowsAlone did.Went program.now stack.old stack.new }
    ensures keeps { Keeps stack.old stack.new }
{
    let _program = program;
    stack.returns();
    end_outside(stack);
}
